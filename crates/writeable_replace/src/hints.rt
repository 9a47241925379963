//! The hint of a text with replacements.

ghost use Rattle.std.specs.Prelude.{◌≡◌};
ghost use Rattle.writeable_replace.specs.ReplacedHint.{hint_rule};

use writeable_core::LengthHint;

/// The hint of a text in which each needle of `needle_len` bytes is replaced by one text.
pub fn replaced_hint(source: LengthHint, needle_len: usize, replacement: LengthHint) -> LengthHint
    ensures { result ≡ hint_rule source needle_len replacement }
{
    LengthHint(
        if replacement.0 >= needle_len {
            source.0
        } else {
            0
        },
        match replacement.1 {
            Some(most) if most <= needle_len => source.1,
            _ => None,
        },
    )
}
