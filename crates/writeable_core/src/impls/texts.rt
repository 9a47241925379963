ghost use Rattle.std.specs.Prelude.{◌≡◌, ℕ, true, chars};
ghost use Rattle.writeable_core.specs.Hint.{text_hint, byte_length};
ghost use Rattle.writeable_core.specs.HintLaws.{Hinted-exact};
ghost use Rattle.writeable_core.specs.Marks.{plain};
ghost use Rattle.writeable_core.specs.MarksLaws.{characters-plain, Nests-plain};

use crate::{LengthHint, OwnedText, PartsWrite, Sink, SinkError, Writeable};

/// A text that is lent. It stands for `str` where a sized type is asked for.
#[derive(Clone, Copy)]
pub struct Text<'a>(pub &'a str);

impl Writeable for Text<'_> {
    ghost text = { λ s. chars s.0.now };

    ghost marked = { λ s. plain (chars s.0.now) };

    ghost hint = { λ s. text_hint (chars s.0.now) };

    ghost lends = { λ _. true };

    fn write_to<S: Sink>(&self, sink: &mut S) -> Result<(), SinkError> {
        sink.push_str(self.0)
    }

    fn write_to_parts<P: PartsWrite>(&self, sink: &mut P) -> Result<(), SinkError> {
        self.write_to(sink)
    }

    fn writeable_length_hint(&self) -> LengthHint {
        LengthHint::of(self.0)
    }

    fn writeable_borrow(&self) -> Option<&str> {
        Some(self.0)
    }

    ghost marked_text = { λ s. characters-plain (chars s.0.now) };

    ghost marked_nests = { λ s. Nests-plain (chars s.0.now) };

    ghost text_hinted = { λ s. Hinted-exact (byte_length (chars s.0.now)) };
}

impl Writeable for OwnedText {
    ghost text = { λ s. s };

    ghost marked = { plain };

    ghost hint = { text_hint };

    ghost lends = { λ _. true };

    fn write_to<S: Sink>(&self, sink: &mut S) -> Result<(), SinkError> {
        sink.push_str(self.as_str())
    }

    fn write_to_parts<P: PartsWrite>(&self, sink: &mut P) -> Result<(), SinkError> {
        self.write_to(sink)
    }

    fn writeable_length_hint(&self) -> LengthHint {
        LengthHint::of(self.as_str())
    }

    fn writeable_borrow(&self) -> Option<&str> {
        Some(self.as_str())
    }

    ghost marked_text = { characters-plain };

    ghost marked_nests = { Nests-plain };

    ghost text_hinted = { λ s. Hinted-exact (byte_length s) };
}
