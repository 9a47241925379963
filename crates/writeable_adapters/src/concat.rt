//! Values one after another.

ghost use Rattle.std.specs.Prelude.{◌++◌, false};
ghost use Rattle.writeable_core.specs.Hint.{hint_sum};
ghost use Rattle.writeable_core.specs.HintLaws.{Hinted-append};
ghost use Rattle.writeable_core.specs.MarksLaws.{characters-both, Nests-append};
ghost use Rattle.writeable_adapters.specs.TryConcat.{followed, first_error, try_sum};
ghost use Rattle.writeable_adapters.specs.TryConcatLaws.{followed-characters, followed-Nests};
ghost use Rattle.writeable_adapters.specs.TryConcatLaws.{followed-Hinted};

use crate::TryWriteable;
use writeable_core::{LengthHint, PartsWrite, Sink, SinkError, Writeable};

/// One text, and then another.
#[derive(Drop)]
pub struct Concat<A, B>(pub A, pub B);

impl<A: Writeable, B: Writeable> Writeable for Concat<A, B> {
    ghost text = { λ s. A.text s.0 ++ B.text s.1 };

    ghost marked = { λ s. A.marked s.0 ++ B.marked s.1 };

    ghost hint = { λ s. hint_sum (A.hint s.0) (B.hint s.1) };

    ghost lends = { λ _. false };

    fn write_to<S: Sink>(&self, sink: &mut S) -> Result<(), SinkError> {
        self.0.write_to(sink)?;
        self.1.write_to(sink)?;
        Ok(())
    }

    fn write_to_parts<P: PartsWrite>(&self, sink: &mut P) -> Result<(), SinkError> {
        self.0.write_to_parts(sink)?;
        self.1.write_to_parts(sink)?;
        Ok(())
    }

    fn writeable_length_hint(&self) -> LengthHint {
        self.0.writeable_length_hint() + self.1.writeable_length_hint()
    }

    fn writeable_borrow(&self) -> Option<&str> {
        None
    }

    ghost marked_text = { λ s.
        characters-both (A.marked s.0) (B.marked s.1) (A.marked_text s.0) (B.marked_text s.1) };

    ghost marked_nests = { λ s.
        Nests-append (A.marked s.0) (B.marked s.1) (A.marked_nests s.0) (B.marked_nests s.1) };

    ghost text_hinted = { λ s.
        Hinted-append (A.hint s.0) (B.hint s.1) (A.text s.0) (B.text s.1) (A.text_hinted s.0)
        (B.text_hinted s.1) };
}

/// Where the first text is written with an error, the second one isn't written.
impl<A: TryWriteable, B: TryWriteable<Error = A::Error>> TryWriteable for Concat<A, B> {
    type Error = A::Error;

    ghost text = { λ s. followed (A.error s.0) (A.text s.0) (B.text s.1) };

    ghost marked = { λ s. followed (A.error s.0) (A.marked s.0) (B.marked s.1) };

    ghost error = { λ s. first_error (A.error s.0) (B.error s.1) };

    ghost hint = { λ s. try_sum (A.hint s.0) (B.hint s.1) };

    ghost lends = { λ _. false };

    fn try_write_to<S: Sink>(&self, sink: &mut S) -> Result<Result<(), A::Error>, SinkError> {
        match self.0.try_write_to(sink)? {
            Ok(()) => self.1.try_write_to(sink),
            Err(error) => Ok(Err(error)),
        }
    }

    fn try_write_to_parts<P: PartsWrite>(
        &self,
        sink: &mut P,
    ) -> Result<Result<(), A::Error>, SinkError> {
        match self.0.try_write_to_parts(sink)? {
            Ok(()) => self.1.try_write_to_parts(sink),
            Err(error) => Ok(Err(error)),
        }
    }

    fn writeable_length_hint(&self) -> LengthHint {
        let first = self.0.writeable_length_hint();
        let both = first + self.1.writeable_length_hint();
        LengthHint(first.0, both.1)
    }

    fn try_writeable_borrow(&self) -> Option<Result<&str, (A::Error, &str)>> {
        None
    }

    ghost marked_text = { λ s.
        followed-characters (A.error s.0) (A.marked s.0) (B.marked s.1) (A.marked_text s.0)
        (B.marked_text s.1) };

    ghost marked_nests = { λ s.
        followed-Nests (A.error s.0) (A.marked s.0) (B.marked s.1) (A.marked_nests s.0)
        (B.marked_nests s.1) };

    ghost text_hinted = { λ s. followed-Hinted (A.error s.0) (A.hint s.0) (B.hint s.1) (A.text s.0)
        (B.text s.1) (A.text_hinted s.0) (B.text_hinted s.1) };
}
