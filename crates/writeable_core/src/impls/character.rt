ghost use Rattle.std.specs.Prelude.{◌≡◌, false, [], ◌∷◌};
ghost use Rattle.writeable_core.specs.Hint.{text_hint, byte_length};
ghost use Rattle.writeable_core.specs.HintLaws.{Hinted-exact};
ghost use Rattle.writeable_core.specs.Marks.{plain};
ghost use Rattle.writeable_core.specs.MarksLaws.{characters-plain, Nests-plain};

use crate::{LengthHint, PartsWrite, Sink, SinkError, Writeable};

impl Writeable for char {
    ghost text = { λ c. c ∷ [] };

    ghost marked = { λ c. plain (c ∷ []) };

    ghost hint = { λ c. text_hint (c ∷ []) };

    ghost lends = { λ _. false };

    fn write_to<S: Sink>(&self, sink: &mut S) -> Result<(), SinkError> {
        sink.push_char(*self)
    }

    fn write_to_parts<P: PartsWrite>(&self, sink: &mut P) -> Result<(), SinkError> {
        self.write_to(sink)
    }

    fn writeable_length_hint(&self) -> LengthHint {
        LengthHint::exact(self.len_utf8())
    }

    fn writeable_borrow(&self) -> Option<&str> {
        None
    }

    ghost marked_text = { λ c. characters-plain (c ∷ []) };

    ghost marked_nests = { λ c. Nests-plain (c ∷ []) };

    ghost text_hinted = { λ c. Hinted-exact (byte_length (c ∷ [])) };
}
