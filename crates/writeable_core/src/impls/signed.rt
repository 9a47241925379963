//! Signed numbers, in decimal: a minus sign stands before a negative one.

ghost use Rattle.std.specs.Prelude.{◌≡◌, false};
ghost use Rattle.std.specs.Fmt.{signed_decimal};
ghost use Rattle.writeable_core.specs.Hint.{text_hint, byte_length};
ghost use Rattle.writeable_core.specs.HintLaws.{Hinted-exact};
ghost use Rattle.writeable_core.specs.Marks.{plain};
ghost use Rattle.writeable_core.specs.MarksLaws.{characters-plain, Nests-plain};

use super::numbers::{signed_hint, write_number};
use crate::{LengthHint, PartsWrite, Sink, SinkError, Writeable};

impl Writeable for i8 {
    ghost text = { signed_decimal };

    ghost marked = { λ n. plain (signed_decimal n) };

    ghost hint = { λ n. text_hint (signed_decimal n) };

    ghost lends = { λ _. false };

    fn write_to<S: Sink>(&self, sink: &mut S) -> Result<(), SinkError> {
        write_number(*self, sink)
    }

    fn write_to_parts<P: PartsWrite>(&self, sink: &mut P) -> Result<(), SinkError> {
        self.write_to(sink)
    }

    fn writeable_length_hint(&self) -> LengthHint {
        signed_hint(*self as i128)
    }

    fn writeable_borrow(&self) -> Option<&str> {
        None
    }

    ghost marked_text = { λ n. characters-plain (signed_decimal n) };

    ghost marked_nests = { λ n. Nests-plain (signed_decimal n) };

    ghost text_hinted = { λ n. Hinted-exact (byte_length (signed_decimal n)) };
}

impl Writeable for i16 {
    ghost text = { signed_decimal };

    ghost marked = { λ n. plain (signed_decimal n) };

    ghost hint = { λ n. text_hint (signed_decimal n) };

    ghost lends = { λ _. false };

    fn write_to<S: Sink>(&self, sink: &mut S) -> Result<(), SinkError> {
        write_number(*self, sink)
    }

    fn write_to_parts<P: PartsWrite>(&self, sink: &mut P) -> Result<(), SinkError> {
        self.write_to(sink)
    }

    fn writeable_length_hint(&self) -> LengthHint {
        signed_hint(*self as i128)
    }

    fn writeable_borrow(&self) -> Option<&str> {
        None
    }

    ghost marked_text = { λ n. characters-plain (signed_decimal n) };

    ghost marked_nests = { λ n. Nests-plain (signed_decimal n) };

    ghost text_hinted = { λ n. Hinted-exact (byte_length (signed_decimal n)) };
}

impl Writeable for i32 {
    ghost text = { signed_decimal };

    ghost marked = { λ n. plain (signed_decimal n) };

    ghost hint = { λ n. text_hint (signed_decimal n) };

    ghost lends = { λ _. false };

    fn write_to<S: Sink>(&self, sink: &mut S) -> Result<(), SinkError> {
        write_number(*self, sink)
    }

    fn write_to_parts<P: PartsWrite>(&self, sink: &mut P) -> Result<(), SinkError> {
        self.write_to(sink)
    }

    fn writeable_length_hint(&self) -> LengthHint {
        signed_hint(*self as i128)
    }

    fn writeable_borrow(&self) -> Option<&str> {
        None
    }

    ghost marked_text = { λ n. characters-plain (signed_decimal n) };

    ghost marked_nests = { λ n. Nests-plain (signed_decimal n) };

    ghost text_hinted = { λ n. Hinted-exact (byte_length (signed_decimal n)) };
}

impl Writeable for i64 {
    ghost text = { signed_decimal };

    ghost marked = { λ n. plain (signed_decimal n) };

    ghost hint = { λ n. text_hint (signed_decimal n) };

    ghost lends = { λ _. false };

    fn write_to<S: Sink>(&self, sink: &mut S) -> Result<(), SinkError> {
        write_number(*self, sink)
    }

    fn write_to_parts<P: PartsWrite>(&self, sink: &mut P) -> Result<(), SinkError> {
        self.write_to(sink)
    }

    fn writeable_length_hint(&self) -> LengthHint {
        signed_hint(*self as i128)
    }

    fn writeable_borrow(&self) -> Option<&str> {
        None
    }

    ghost marked_text = { λ n. characters-plain (signed_decimal n) };

    ghost marked_nests = { λ n. Nests-plain (signed_decimal n) };

    ghost text_hinted = { λ n. Hinted-exact (byte_length (signed_decimal n)) };
}

impl Writeable for i128 {
    ghost text = { signed_decimal };

    ghost marked = { λ n. plain (signed_decimal n) };

    ghost hint = { λ n. text_hint (signed_decimal n) };

    ghost lends = { λ _. false };

    fn write_to<S: Sink>(&self, sink: &mut S) -> Result<(), SinkError> {
        write_number(*self, sink)
    }

    fn write_to_parts<P: PartsWrite>(&self, sink: &mut P) -> Result<(), SinkError> {
        self.write_to(sink)
    }

    fn writeable_length_hint(&self) -> LengthHint {
        signed_hint(*self)
    }

    fn writeable_borrow(&self) -> Option<&str> {
        None
    }

    ghost marked_text = { λ n. characters-plain (signed_decimal n) };

    ghost marked_nests = { λ n. Nests-plain (signed_decimal n) };

    ghost text_hinted = { λ n. Hinted-exact (byte_length (signed_decimal n)) };
}

impl Writeable for isize {
    ghost text = { signed_decimal };

    ghost marked = { λ n. plain (signed_decimal n) };

    ghost hint = { λ n. text_hint (signed_decimal n) };

    ghost lends = { λ _. false };

    fn write_to<S: Sink>(&self, sink: &mut S) -> Result<(), SinkError> {
        write_number(*self, sink)
    }

    fn write_to_parts<P: PartsWrite>(&self, sink: &mut P) -> Result<(), SinkError> {
        self.write_to(sink)
    }

    fn writeable_length_hint(&self) -> LengthHint {
        signed_hint(*self as i128)
    }

    fn writeable_borrow(&self) -> Option<&str> {
        None
    }

    ghost marked_text = { λ n. characters-plain (signed_decimal n) };

    ghost marked_nests = { λ n. Nests-plain (signed_decimal n) };

    ghost text_hinted = { λ n. Hinted-exact (byte_length (signed_decimal n)) };
}
