ghost use Rattle.std.specs.Prelude.{◌≡◌, ℕ, true, chars, string_bytes};
ghost use Rattle.std.specs.Box.{boxed_str_bytes};
ghost use Rattle.std.specs.Cow.{cow_str_bytes};
ghost use Rattle.std.specs.Rc.{rc_str_bytes};
ghost use Rattle.writeable_core.specs.Hint.{text_hint, byte_length};
ghost use Rattle.writeable_core.specs.HintLaws.{Hinted-exact};
ghost use Rattle.writeable_core.specs.Marks.{plain};
ghost use Rattle.writeable_core.specs.MarksLaws.{characters-plain, Nests-plain};

use crate::{LengthHint, PartsWrite, Sink, SinkError, Writeable};
use std::borrow::CowStr;
use std::boxed::BoxedStr;
use std::rc::RcStr;

impl Writeable for String {
    ghost text = { λ s. chars (string_bytes s) };

    ghost marked = { λ s. plain (chars (string_bytes s)) };

    ghost hint = { λ s. text_hint (chars (string_bytes s)) };

    ghost lends = { λ _. true };

    fn write_to<S: Sink>(&self, sink: &mut S) -> Result<(), SinkError> {
        sink.push_str(self.as_str())
    }

    fn write_to_parts<P: PartsWrite>(&self, sink: &mut P) -> Result<(), SinkError> {
        self.write_to(sink)
    }

    fn writeable_length_hint(&self) -> LengthHint {
        LengthHint::of(self.as_str())
    }

    fn writeable_borrow(&self) -> Option<&str> {
        Some(self.as_str())
    }

    ghost marked_text = { λ s. characters-plain (chars (string_bytes s)) };

    ghost marked_nests = { λ s. Nests-plain (chars (string_bytes s)) };

    ghost text_hinted = { λ s. Hinted-exact (byte_length (chars (string_bytes s))) };
}

impl Writeable for BoxedStr {
    ghost text = { λ s. chars (boxed_str_bytes s) };

    ghost marked = { λ s. plain (chars (boxed_str_bytes s)) };

    ghost hint = { λ s. text_hint (chars (boxed_str_bytes s)) };

    ghost lends = { λ _. true };

    fn write_to<S: Sink>(&self, sink: &mut S) -> Result<(), SinkError> {
        sink.push_str(self.as_str())
    }

    fn write_to_parts<P: PartsWrite>(&self, sink: &mut P) -> Result<(), SinkError> {
        self.write_to(sink)
    }

    fn writeable_length_hint(&self) -> LengthHint {
        LengthHint::of(self.as_str())
    }

    fn writeable_borrow(&self) -> Option<&str> {
        Some(self.as_str())
    }

    ghost marked_text = { λ s. characters-plain (chars (boxed_str_bytes s)) };

    ghost marked_nests = { λ s. Nests-plain (chars (boxed_str_bytes s)) };

    ghost text_hinted = { λ s. Hinted-exact (byte_length (chars (boxed_str_bytes s))) };
}

impl Writeable for CowStr<'_> {
    ghost text = { λ s. chars (cow_str_bytes s) };

    ghost marked = { λ s. plain (chars (cow_str_bytes s)) };

    ghost hint = { λ s. text_hint (chars (cow_str_bytes s)) };

    ghost lends = { λ _. true };

    fn write_to<S: Sink>(&self, sink: &mut S) -> Result<(), SinkError> {
        sink.push_str(self.as_str())
    }

    fn write_to_parts<P: PartsWrite>(&self, sink: &mut P) -> Result<(), SinkError> {
        self.write_to(sink)
    }

    fn writeable_length_hint(&self) -> LengthHint {
        LengthHint::of(self.as_str())
    }

    fn writeable_borrow(&self) -> Option<&str> {
        Some(self.as_str())
    }

    ghost marked_text = { λ s. characters-plain (chars (cow_str_bytes s)) };

    ghost marked_nests = { λ s. Nests-plain (chars (cow_str_bytes s)) };

    ghost text_hinted = { λ s. Hinted-exact (byte_length (chars (cow_str_bytes s))) };
}

impl Writeable for RcStr {
    ghost text = { λ s. chars (rc_str_bytes s) };

    ghost marked = { λ s. plain (chars (rc_str_bytes s)) };

    ghost hint = { λ s. text_hint (chars (rc_str_bytes s)) };

    ghost lends = { λ _. true };

    fn write_to<S: Sink>(&self, sink: &mut S) -> Result<(), SinkError> {
        sink.push_str(self.as_str())
    }

    fn write_to_parts<P: PartsWrite>(&self, sink: &mut P) -> Result<(), SinkError> {
        self.write_to(sink)
    }

    fn writeable_length_hint(&self) -> LengthHint {
        LengthHint::of(self.as_str())
    }

    fn writeable_borrow(&self) -> Option<&str> {
        Some(self.as_str())
    }

    ghost marked_text = { λ s. characters-plain (chars (rc_str_bytes s)) };

    ghost marked_nests = { λ s. Nests-plain (chars (rc_str_bytes s)) };

    ghost text_hinted = { λ s. Hinted-exact (byte_length (chars (rc_str_bytes s))) };
}
