//! The state table of a condition: a row for each state, which tells the next one by class of
//! characters. A class is the characters that no atom tells apart.

ghost use Rattle.std.specs.Prelude.{◌≡◌, ◌≤◌, ◌<◌, ℕ, IfOk, OnOk, length};
ghost use Rattle.std.specs.Char.{IsScalar};
ghost use Rattle.std.specs.List.{All, Contains};
ghost use Rattle.std.specs.List.Sorted.{IsNonDecreasing};
ghost use Rattle.lazy_dfa.specs.States.{AreFound, IsClasses, IsEdged, IsInClass, IsNext, Keeps};
ghost use Rattle.lazy_dfa.specs.States.{IsReachable, MakesRow, MakesTable, Numbers, machine, state};

use crate::automaton::{Automaton, Range};
use crate::matcher::Matcher;
use crate::positions::Positions;
use std::alloc::{AllocError, Global};

/// The most states of a table, the one before the first character among them.
const MOST_STATES: usize = 256;

/// The states that texts reach.
#[derive(Drop)]
pub struct Table {
    /// The first character of each class, in order.
    pub firsts: Vec<char>,
    /// The sets of positions that texts reach, where they have a character.
    pub sets: Vec<Positions>,
    /// By state, and then by class, which of the sets is next. The first row is that of the state
    /// before the first character, and the others are those of the sets.
    pub rows: Vec<Vec<u8>>,
}

impl Matcher {
    /// The state table, where 256 states are enough.
    pub fn tabled(&self, alloc: Global) -> Result<Option<Table>, AllocError>
        ensures { MakesTable (machine self.now) result }
    {
        let firsts = self.automaton.classes(alloc)?;
        let mut sets = Vec::new(alloc);
        let mut rows = Vec::new(alloc);
        while rows.len() <= sets.len() {
            let reached = state_at(&sets, rows.len());
            let Some(row) = self.row(alloc, &firsts, reached, &mut sets)? else {
                return Ok(None);
            };
            rows.push(row)?;
        }
        Ok(Some(Table { firsts, sets, rows }))
    }

    /// The row of a state. The sets that it leads to are added, where there is room.
    fn row(
        &self,
        alloc: Global,
        firsts: &[char],
        reached: Option<Positions>,
        sets: &mut Vec<Positions>,
    ) -> Result<Option<Vec<u8>>, AllocError>
        requires found { AreFound (machine self.now) sets.old.items }
        requires few { length sets.old.items ≤ 255 }
        requires reachable { IsReachable (machine self.now) reached }
        ensures { MakesRow (machine self.now) firsts.now reached sets.old.items
            result sets.new.items }
    {
        let mut row = Vec::with_capacity(alloc, firsts.len())?;
        for first in firsts {
            let set = self.step(reached, *first);
            let Some(number) = number_of(sets, set)? else {
                return Ok(None);
            };
            row.push(number)?;
        }
        Ok(Some(row))
    }
}

/// A state by its number: that before the first character, and then the sets.
fn state_at(sets: &[Positions], number: usize) -> Option<Positions>
    requires { number ≤ length sets.now }
    ensures { result ≡ state sets.now number }
{
    if number == 0 {
        None
    } else {
        Some(sets[number - 1])
    }
}

/// The number of a set. It is added where it isn't there, and where there is room.
fn number_of(sets: &mut Vec<Positions>, set: Positions) -> Result<Option<u8>, AllocError>
    requires { length sets.old.items ≤ 255 }
    ensures { Numbers sets.old.items set result sets.new.items }
{
    if let Some(number) = sets.iter().position(|known| *known == set) {
        return Ok(Some(number as u8));
    }
    let number = sets.len();
    if number + 1 == MOST_STATES {
        return Ok(None);
    }
    sets.push(set)?;
    Ok(Some(number as u8))
}

impl Automaton {
    /// The first characters of the classes, in order.
    pub fn classes(&self, alloc: Global) -> Result<Vec<char>, AllocError>
        ensures { IfOk result (λ firsts. IsClasses self.now.ranges.items firsts.items) }
    {
        let mut firsts = edges(alloc, &self.ranges)?;
        firsts.sort_unstable();
        firsts.dedup();
        Ok(firsts)
    }
}

/// The characters with which the ranges begin, and those behind their ends.
fn edges(alloc: Global, ranges: &[Range]) -> Result<Vec<char>, AllocError>
    ensures least { IfOk result (λ edges. Contains edges.items 0) }
    ensures edged { IfOk result (λ edges. All (IsEdged edges.items) ranges.now) }
{
    let mut edges = Vec::new(alloc);
    edges.push('\0')?;
    for range in ranges {
        add_edges(&mut edges, *range)?;
    }
    Ok(edges)
}

/// Adds the character with which a range begins, and that behind its end.
fn add_edges(edges: &mut Vec<char>, range: Range) -> Result<(), AllocError>
    ensures keeps { OnOk result (Keeps edges.old.items edges.new.items) }
    ensures edged { OnOk result (IsEdged edges.new.items range) }
{
    edges.push(range.first)?;
    if let Some(next) = following(range.last) {
        edges.push(next)?;
    }
    Ok(())
}

/// The character behind another one, if there is one.
fn following(c: char) -> Option<char>
    ensures { IsNext c result }
{
    if c == '\u{d7ff}' {
        return Some('\u{e000}');
    }
    char::from_u32(c as u32 + 1)
}

/// The class of a character, by the first characters of the classes.
pub fn class_of(firsts: &[char], c: char) -> usize
    requires sorted { IsNonDecreasing firsts.now }
    requires least { Contains firsts.now 0 }
    ensures { IsInClass firsts.now c result }
{
    match firsts.binary_search(&c) {
        Ok(class) => class,
        Err(next) => next - 1,
    }
}
