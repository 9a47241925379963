//! Hints of several texts.

ghost use Rattle.std.specs.Prelude.{◌≡◌};
ghost use Rattle.writeable_adapters.specs.Hints.{hint_total, length_total};

use writeable_core::LengthHint;

/// The hint of several texts, one after another.
pub fn sum_hints(hints: &[LengthHint]) -> LengthHint
    ensures { result ≡ hint_total hints.now }
{
    hints
        .iter()
        .fold(LengthHint::exact(0), |total, hint| total + *hint)
}

/// The hint of several texts of these lengths, one after another.
pub fn sum_lengths(lengths: &[usize]) -> LengthHint
    ensures { result ≡ length_total lengths.now }
{
    lengths
        .iter()
        .fold(LengthHint::exact(0), |total, length| total + *length)
}
