//! Unsigned numbers, in decimal.

ghost use Rattle.std.specs.Prelude.{◌≡◌, false};
ghost use Rattle.std.specs.Fmt.{decimal};
ghost use Rattle.writeable_core.specs.Hint.{text_hint, byte_length};
ghost use Rattle.writeable_core.specs.HintLaws.{Hinted-exact};
ghost use Rattle.writeable_core.specs.Marks.{plain};
ghost use Rattle.writeable_core.specs.MarksLaws.{characters-plain, Nests-plain};

use super::numbers::{unsigned_hint, write_number};
use crate::{LengthHint, PartsWrite, Sink, SinkError, Writeable};

impl Writeable for u8 {
    ghost text = { decimal };

    ghost marked = { λ n. plain (decimal n) };

    ghost hint = { λ n. text_hint (decimal n) };

    ghost lends = { λ _. false };

    fn write_to<S: Sink>(&self, sink: &mut S) -> Result<(), SinkError> {
        write_number(*self, sink)
    }

    fn write_to_parts<P: PartsWrite>(&self, sink: &mut P) -> Result<(), SinkError> {
        self.write_to(sink)
    }

    fn writeable_length_hint(&self) -> LengthHint {
        unsigned_hint(*self as u128)
    }

    fn writeable_borrow(&self) -> Option<&str> {
        None
    }

    ghost marked_text = { λ n. characters-plain (decimal n) };

    ghost marked_nests = { λ n. Nests-plain (decimal n) };

    ghost text_hinted = { λ n. Hinted-exact (byte_length (decimal n)) };
}

impl Writeable for u16 {
    ghost text = { decimal };

    ghost marked = { λ n. plain (decimal n) };

    ghost hint = { λ n. text_hint (decimal n) };

    ghost lends = { λ _. false };

    fn write_to<S: Sink>(&self, sink: &mut S) -> Result<(), SinkError> {
        write_number(*self, sink)
    }

    fn write_to_parts<P: PartsWrite>(&self, sink: &mut P) -> Result<(), SinkError> {
        self.write_to(sink)
    }

    fn writeable_length_hint(&self) -> LengthHint {
        unsigned_hint(*self as u128)
    }

    fn writeable_borrow(&self) -> Option<&str> {
        None
    }

    ghost marked_text = { λ n. characters-plain (decimal n) };

    ghost marked_nests = { λ n. Nests-plain (decimal n) };

    ghost text_hinted = { λ n. Hinted-exact (byte_length (decimal n)) };
}

impl Writeable for u32 {
    ghost text = { decimal };

    ghost marked = { λ n. plain (decimal n) };

    ghost hint = { λ n. text_hint (decimal n) };

    ghost lends = { λ _. false };

    fn write_to<S: Sink>(&self, sink: &mut S) -> Result<(), SinkError> {
        write_number(*self, sink)
    }

    fn write_to_parts<P: PartsWrite>(&self, sink: &mut P) -> Result<(), SinkError> {
        self.write_to(sink)
    }

    fn writeable_length_hint(&self) -> LengthHint {
        unsigned_hint(*self as u128)
    }

    fn writeable_borrow(&self) -> Option<&str> {
        None
    }

    ghost marked_text = { λ n. characters-plain (decimal n) };

    ghost marked_nests = { λ n. Nests-plain (decimal n) };

    ghost text_hinted = { λ n. Hinted-exact (byte_length (decimal n)) };
}

impl Writeable for u64 {
    ghost text = { decimal };

    ghost marked = { λ n. plain (decimal n) };

    ghost hint = { λ n. text_hint (decimal n) };

    ghost lends = { λ _. false };

    fn write_to<S: Sink>(&self, sink: &mut S) -> Result<(), SinkError> {
        write_number(*self, sink)
    }

    fn write_to_parts<P: PartsWrite>(&self, sink: &mut P) -> Result<(), SinkError> {
        self.write_to(sink)
    }

    fn writeable_length_hint(&self) -> LengthHint {
        unsigned_hint(*self as u128)
    }

    fn writeable_borrow(&self) -> Option<&str> {
        None
    }

    ghost marked_text = { λ n. characters-plain (decimal n) };

    ghost marked_nests = { λ n. Nests-plain (decimal n) };

    ghost text_hinted = { λ n. Hinted-exact (byte_length (decimal n)) };
}

impl Writeable for u128 {
    ghost text = { decimal };

    ghost marked = { λ n. plain (decimal n) };

    ghost hint = { λ n. text_hint (decimal n) };

    ghost lends = { λ _. false };

    fn write_to<S: Sink>(&self, sink: &mut S) -> Result<(), SinkError> {
        write_number(*self, sink)
    }

    fn write_to_parts<P: PartsWrite>(&self, sink: &mut P) -> Result<(), SinkError> {
        self.write_to(sink)
    }

    fn writeable_length_hint(&self) -> LengthHint {
        unsigned_hint(*self)
    }

    fn writeable_borrow(&self) -> Option<&str> {
        None
    }

    ghost marked_text = { λ n. characters-plain (decimal n) };

    ghost marked_nests = { λ n. Nests-plain (decimal n) };

    ghost text_hinted = { λ n. Hinted-exact (byte_length (decimal n)) };
}

impl Writeable for usize {
    ghost text = { decimal };

    ghost marked = { λ n. plain (decimal n) };

    ghost hint = { λ n. text_hint (decimal n) };

    ghost lends = { λ _. false };

    fn write_to<S: Sink>(&self, sink: &mut S) -> Result<(), SinkError> {
        write_number(*self, sink)
    }

    fn write_to_parts<P: PartsWrite>(&self, sink: &mut P) -> Result<(), SinkError> {
        self.write_to(sink)
    }

    fn writeable_length_hint(&self) -> LengthHint {
        unsigned_hint(*self as u128)
    }

    fn writeable_borrow(&self) -> Option<&str> {
        None
    }

    ghost marked_text = { λ n. characters-plain (decimal n) };

    ghost marked_nests = { λ n. Nests-plain (decimal n) };

    ghost text_hinted = { λ n. Hinted-exact (byte_length (decimal n)) };
}
