//! The operators of [`LengthHint`].

ghost use Rattle.std.specs.Prelude.{◌≡◌, ℕ, ◌+◌, ◌*◌};
ghost use Rattle.writeable_core.specs.Hint.{Hinted, exact, hint_sum, hint_times, hint_either};

use crate::LengthHint;
use std::ops::{Add, AddAssign, BitOr, BitOrAssign, Mul, MulAssign};

/// The hint of one text, and then another.
impl Add for LengthHint {
    type Output = LengthHint;

    ghost add_gives = { λ a b r. r ≡ hint_sum a b };

    fn add(self, rhs: LengthHint) -> LengthHint
        ensures value { result ≡ hint_sum self rhs }
        ensures holds { (x y : ℕ) → Hinted self x → Hinted rhs y → Hinted result (x + y) }
    {
        LengthHint(
            self.0.saturating_add(rhs.0),
            match (self.1, rhs.1) {
                (Some(most), Some(other)) => most.checked_add(other),
                _ => None,
            },
        )
    }
}

impl Add<usize> for LengthHint {
    type Output = LengthHint;

    ghost add_gives = { λ a n r. r ≡ hint_sum a (exact n) };

    fn add(self, rhs: usize) -> LengthHint
        ensures value { result ≡ hint_sum self (exact rhs) }
        ensures holds { (x : ℕ) → Hinted self x → Hinted result (x + rhs) }
    {
        self + LengthHint::exact(rhs)
    }
}

/// The hint of a text so many times.
impl Mul<usize> for LengthHint {
    type Output = LengthHint;

    ghost mul_gives = { λ a n r. r ≡ hint_times a n };

    fn mul(self, rhs: usize) -> LengthHint
        ensures value { result ≡ hint_times self rhs }
        ensures holds { (x : ℕ) → Hinted self x → Hinted result (x * rhs) }
    {
        LengthHint(
            self.0.saturating_mul(rhs),
            match self.1 {
                Some(most) => most.checked_mul(rhs),
                None => None,
            },
        )
    }
}

/// The hint of one text or another.
impl BitOr for LengthHint {
    type Output = LengthHint;

    ghost bitor_gives = { λ a b r. r ≡ hint_either a b };

    fn bitor(self, rhs: LengthHint) -> LengthHint
        ensures value { result ≡ hint_either self rhs }
        ensures holds_left { (x : ℕ) → Hinted self x → Hinted result x }
        ensures holds_right { (x : ℕ) → Hinted rhs x → Hinted result x }
    {
        LengthHint(
            self.0.min(rhs.0),
            match (self.1, rhs.1) {
                (Some(most), Some(other)) => Some(most.max(other)),
                _ => None,
            },
        )
    }
}

impl AddAssign for LengthHint {
    ghost add_assign_gives = { λ a b r. r ≡ hint_sum a b };

    fn add_assign(&mut self, rhs: LengthHint) {
        *self = *self + rhs;
    }
}

impl AddAssign<usize> for LengthHint {
    ghost add_assign_gives = { λ a n r. r ≡ hint_sum a (exact n) };

    fn add_assign(&mut self, rhs: usize) {
        *self = *self + rhs;
    }
}

impl MulAssign<usize> for LengthHint {
    ghost mul_assign_gives = { λ a n r. r ≡ hint_times a n };

    fn mul_assign(&mut self, rhs: usize) {
        *self = *self * rhs;
    }
}

impl BitOrAssign for LengthHint {
    ghost bitor_assign_gives = { λ a b r. r ≡ hint_either a b };

    fn bitor_assign(&mut self, rhs: LengthHint) {
        *self = *self | rhs;
    }
}
