//! The decimal texts of numbers, and their lengths.

ghost use Rattle.std.specs.Prelude.{◌≡◌, ◌≤◌, OnOk, OnErr, chars, length};
ghost use Rattle.std.specs.Fmt.{decimal, signed_decimal};
ghost use Rattle.writeable_core.specs.Hint.{text_hint};
ghost use Rattle.writeable_core.specs.Sink.{TookPrefix, HasCause};

use crate::{LengthHint, Sink, SinkError};
use itoa::{Buffer, Integer};

/// The decimal text of a number.
fn decimal_text<N: Integer>(number: N, buffer: &mut Buffer) -> &str
    ensures { chars result.now ≡ N.text number }
{
    buffer.format(number)
}

/// Writes a number's decimal text.
pub(super) fn write_number<N: Integer, S: Sink>(number: N, sink: &mut S) -> Result<(), SinkError>
    ensures ok { OnOk result (S.took sink.old (N.text number) sink.new) }
    ensures err { OnErr result (TookPrefix S.took sink.old (N.text number) sink.new) }
    ensures cause { HasCause (S.faults sink.old) (S.faults sink.new)
        (S.takes_memory sink.old) result }
{
    let mut buffer = Buffer::new();
    sink.push_str(decimal_text(number, &mut buffer))?;
    Ok(())
}

/// How many digits a number has.
fn digits(number: u128) -> usize
    ensures count { result ≡ length (decimal number) }
    ensures few { result ≤ 39 }
{
    match number.checked_ilog10() {
        Some(power) => power as usize + 1,
        None => 1,
    }
}

/// The length of a number's decimal text. The text isn't made.
pub(super) fn unsigned_hint(number: u128) -> LengthHint
    ensures { result ≡ text_hint (decimal number) }
{
    LengthHint::exact(digits(number))
}

/// The length of a number's decimal text, its sign included. The text isn't made.
pub(super) fn signed_hint(number: i128) -> LengthHint
    ensures { result ≡ text_hint (signed_decimal number) }
{
    let count = digits(number.unsigned_abs());
    if number < 0 {
        return LengthHint::exact(count + 1);
    }
    LengthHint::exact(count)
}
