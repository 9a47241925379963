//! The position automaton of a condition.

ghost use Rattle.std.specs.Prelude.{◌≤◌};

use crate::part::Part;
use crate::positions::{Positions, has, only, union, union_if};
use std::alloc::{AllocError, Global};

/// The most atoms that a condition has.
pub const MOST: usize = 64;

/// Characters of the set of one atom, both ends among them.
#[derive(Clone, Copy)]
pub struct Range {
    pub first: char,
    pub last: char,
    pub atom: Positions,
}

/// The atoms of a condition: which characters each reads, and which of them can read behind which.
#[derive(Drop)]
pub struct Automaton {
    pub ranges: Vec<Range>,
    /// The atoms that read what stands in none of their ranges.
    pub negated: Positions,
    /// By place, the atoms that can read the next character.
    pub follow: [Positions; MOST],
    pub size: usize,
    ghost fits: { size ≤ 64 },
}

impl Automaton {
    ghost use Rattle.std.specs.Prelude.{◌≡◌, ◌&&◌, ℕ, slice_index};
    ghost use Rattle.std.specs.List.{list_any};
    ghost use Rattle.lazy_dfa.specs.Sets.{has, any_below};
    ghost use Rattle.lazy_dfa.specs.Compiled.{atom_reads, range_reads};

    /// The atoms that can read the next character.
    pub fn behind(&self, positions: Positions) -> Positions
        ensures { (q : ℕ) →
            has result q
            ≡ any_below self.now.size
            (λ p. has positions p && has (slice_index self.now.follow p) q) }
    {
        let mut next = 0;
        for place in 0..self.size {
            if has(positions, place) {
                next = union(next, self.follow[place]);
            }
        }
        next
    }

    /// The atoms one of whose ranges has the character.
    fn inside(&self, c: char) -> Positions
        ensures { (p : ℕ) → has result p ≡ list_any (range_reads p c) self.now.ranges.items }
    {
        let mut inside = 0;
        for range in &self.ranges {
            if range.first <= c && c <= range.last {
                inside = union(inside, range.atom);
            }
        }
        inside
    }

    /// Those of the atoms that read the character.
    pub fn reading(&self, next: Positions, c: char) -> Positions
        ensures { (p : ℕ) →
            has result p
            ≡ (has next p && atom_reads self.now.ranges.items self.now.negated p c) }
    {
        next & (self.inside(c) ^ self.negated)
    }
}

/// Building.
impl Automaton {
    ghost use Rattle.std.specs.Prelude.{◌≡◌, ◌<◌, ◌+◌, ◌^◌, ◌∷◌, [], ℕ, List, OnOk};
    ghost use Rattle.lazy_dfa.specs.Compiled.{Adds, AddsRanges, IsFresh, Linked, Sums};
    ghost use Rattle.lazy_dfa.specs.Expression.{CharacterSet, OneOf};
    ghost use Rattle.lazy_dfa.specs.declared.automaton.Automaton.{Automaton};

    /// An automaton without atoms.
    pub fn new(alloc: Global) -> Automaton
        ensures sized { result.size ≡ 0 }
        ensures fresh { IsFresh result }
    {
        Automaton {
            ranges: Vec::new(alloc),
            negated: 0,
            follow: [0; MOST],
            size: 0,
        }
    }

    /// Adds a range of the atom that comes next.
    pub fn add_range(&mut self, first: char, last: char) -> Result<(), AllocError>
        requires { self.old.size < 64 }
        ensures { OnOk result
            (AddsRanges self.old (2 ^ self.old.size) ((first, last) ∷ []) self.new) }
    {
        let atom = only(self.size);
        self.ranges.push(Range { first, last, atom })?;
        Ok(())
    }

    /// Adds the atom whose ranges were added last.
    pub fn add_atom(&mut self, negated: bool) -> Part
        requires { self.old.size < 64 }
        ensures part { (set : CharacterSet) → Sums result (OneOf set) self.old.size }
        ensures added { (before : Automaton) (rs : List (ℕ × ℕ)) →
            IsFresh before → AddsRanges before (2 ^ before.size) rs self.old →
            Adds before (OneOf (record { negated = negated; ranges = rs })) self.new }
    {
        let place = self.size;
        self.negated = union_if(negated, self.negated, only(place));
        self.size += 1;
        Part::atom(place)
    }

    /// Lets each of the first atoms read behind each of the last ones.
    pub fn link(&mut self, last: Positions, first: Positions)
        ensures { Linked self.old last first self.new }
    {
        for place in 0..self.size {
            if has(last, place) {
                self.follow[place] = union(self.follow[place], first);
            }
        }
    }
}
