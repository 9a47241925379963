//! How a part of a condition begins and ends.

ghost use Rattle.std.specs.Prelude.{◌≡◌, ◌+◌, ◌<◌, ℕ};
ghost use Rattle.lazy_dfa.specs.Expression.{CharacterSet, Expression, size};
ghost use Rattle.lazy_dfa.specs.Expression.{Nothing, OneOf, End, Sequence, Choice, Star, Optional};
ghost use Rattle.lazy_dfa.specs.Compiled.{Sums};

use crate::positions::{Positions, only, union, union_if};

/// A part of a condition: whether it can read nothing, and which of its atoms can read first and
/// last.
#[derive(Clone, Copy)]
pub struct Part {
    /// It can read nothing, and passes no `$`.
    pub empty: bool,
    /// It can read nothing at the text's end.
    pub empty_at_end: bool,
    pub first: Positions,
    /// The atoms that can be the last where no `$` is passed behind them.
    pub last: Positions,
    /// The atoms that can be the last at the text's end.
    pub last_at_end: Positions,
}

impl Part {
    /// A part that reads nothing.
    pub fn nothing() -> Part
        ensures { (n : ℕ) → Sums result Nothing n }
    {
        Part {
            empty: true,
            empty_at_end: true,
            first: 0,
            last: 0,
            last_at_end: 0,
        }
    }

    /// A `$`.
    pub fn end() -> Part
        ensures { (n : ℕ) → Sums result End n }
    {
        Part {
            empty: false,
            ..Part::nothing()
        }
    }

    /// The atom at a place.
    pub fn atom(place: usize) -> Part
        requires { place < 64 }
        ensures { (set : CharacterSet) → Sums result (OneOf set) place }
    {
        let atom = only(place);
        Part {
            empty: false,
            empty_at_end: false,
            first: atom,
            last: atom,
            last_at_end: atom,
        }
    }

    /// One part behind the other.
    pub fn then(self, other: Part) -> Part
        ensures { (a b : Expression) (n : ℕ) →
            Sums self a n → Sums other b (n + size a) → Sums result (Sequence a b) n }
    {
        Part {
            empty: self.empty && other.empty,
            empty_at_end: self.empty_at_end && other.empty_at_end,
            first: union_if(self.empty, self.first, other.first),
            last: union_if(other.empty, other.last, self.last),
            last_at_end: union_if(other.empty_at_end, other.last_at_end, self.last_at_end),
        }
    }

    /// One part or the other.
    pub fn or(self, other: Part) -> Part
        ensures { (a b : Expression) (n : ℕ) →
            Sums self a n → Sums other b (n + size a) → Sums result (Choice a b) n }
    {
        Part {
            empty: self.empty || other.empty,
            empty_at_end: self.empty_at_end || other.empty_at_end,
            first: union(self.first, other.first),
            last: union(self.last, other.last),
            last_at_end: union(self.last_at_end, other.last_at_end),
        }
    }

    /// The part, or nothing.
    pub fn optional(self) -> Part
        ensures star { (a : Expression) (n : ℕ) → Sums self a n → Sums result (Star a) n }
        ensures optional { (a : Expression) (n : ℕ) → Sums self a n → Sums result (Optional a) n }
    {
        Part {
            empty: true,
            empty_at_end: true,
            ..self
        }
    }
}
