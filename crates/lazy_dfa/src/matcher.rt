//! Stepping: by sets of positions, or by the rows of a state table.

use crate::automaton::Automaton;
use crate::part::Part;
use crate::positions::{Positions, meet};
use crate::table::{Table, class_of};

/// A state: what a text reaches.
#[derive(Clone, Copy)]
pub struct Place {
    /// The number of its row, where there is a table.
    pub row: usize,
    /// The positions that the text reaches, where it has a character.
    pub reached: Option<Positions>,
}

impl Place {
    /// The state before the first character.
    pub const START: Place = Place {
        row: 0,
        reached: None,
    };
}

/// A condition as it runs.
#[derive(Drop)]
pub struct Matcher {
    pub automaton: Automaton,
    pub whole: Part,
    pub table: Option<Table>,
}

impl Matcher {
    ghost use Rattle.std.specs.Prelude.{◌≡◌, ◌↔◌, ◌&&◌, ℕ, Some, IsTrue, MatchBool};
    ghost use Rattle.std.specs.Char.{IsScalar};
    ghost use Rattle.lazy_dfa.specs.Sets.{has};
    ghost use Rattle.lazy_dfa.specs.Steps.{HoldsAt, IsDecidedAt, IsStep};
    ghost use Rattle.lazy_dfa.specs.States.{HasTable, IsAt, machine};

    /// The state with one character more.
    pub fn advance(&self, place: Place, c: char) -> Place
        requires table { HasTable (machine self.now) self.now.table }
        requires at { IsAt self.now.table place }
        ensures step { IsStep (machine self.now) place.reached c result.reached }
        ensures at { IsAt self.now.table result }
    {
        match &self.table {
            None => Place {
                row: 0,
                reached: Some(self.step(place.reached, c)),
            },
            Some(table) => {
                let row = &table.rows[place.row];
                let next = row[class_of(&table.firsts, c)] as usize;
                Place {
                    row: next + 1,
                    reached: Some(table.sets[next]),
                }
            }
        }
    }

    /// The positions that a text reaches with one character more. Before its first it has none.
    pub fn step(&self, reached: Option<Positions>, c: char) -> Positions
        ensures step { IsStep (machine self.now) reached c (Some result) }
        ensures character { IsScalar c }
    {
        let next = match reached {
            None => self.whole.first,
            Some(positions) => self.automaton.behind(positions),
        };
        self.automaton.reading(next, c)
    }

    /// Whether it is decided by a text that reaches these positions.
    pub fn is_decided(&self, reached: Option<Positions>) -> bool
        ensures { MatchBool result
            (IsDecidedAt (machine self.now) reached)
            (IsDecidedAt (machine self.now) reached → ⊥) }
    {
        match reached {
            None => self.whole.empty,
            Some(positions) => positions == 0 || meet(positions, self.whole.last),
        }
    }

    /// Whether it holds on a text that reaches these positions.
    pub fn holds_at(&self, reached: Option<Positions>) -> bool
        ensures { IsTrue result ↔ HoldsAt (machine self.now) reached }
    {
        match reached {
            None => self.whole.empty_at_end,
            Some(positions) => meet(positions, self.whole.last_at_end),
        }
    }
}
