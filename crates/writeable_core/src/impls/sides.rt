ghost use Rattle.either.specs.Either.{either};

use crate::{LengthHint, PartsWrite, Sink, SinkError, Writeable};
use either::{Either, Left, Right};

impl<A: Writeable, B: Writeable> Writeable for Either<A, B> {
    ghost use Rattle.either.specs.declared.Either.TheVariants.{Left, Right};

    ghost text = { either A.text B.text };

    ghost marked = { either A.marked B.marked };

    ghost hint = { either A.hint B.hint };

    ghost lends = { either A.lends B.lends };

    fn write_to<S: Sink>(&self, sink: &mut S) -> Result<(), SinkError> {
        match self {
            Left(value) => value.write_to(sink),
            Right(value) => value.write_to(sink),
        }
    }

    fn write_to_parts<P: PartsWrite>(&self, sink: &mut P) -> Result<(), SinkError> {
        match self {
            Left(value) => value.write_to_parts(sink),
            Right(value) => value.write_to_parts(sink),
        }
    }

    fn writeable_length_hint(&self) -> LengthHint {
        match self {
            Left(value) => value.writeable_length_hint(),
            Right(value) => value.writeable_length_hint(),
        }
    }

    fn writeable_borrow(&self) -> Option<&str> {
        match self {
            Left(value) => value.writeable_borrow(),
            Right(value) => value.writeable_borrow(),
        }
    }

    ghost marked_text = { elim [ Left x ↦ A.marked_text x | Right y ↦ B.marked_text y ] };

    ghost marked_nests = { elim [ Left x ↦ A.marked_nests x | Right y ↦ B.marked_nests y ] };

    ghost text_hinted = { elim [ Left x ↦ A.text_hinted x | Right y ↦ B.text_hinted y ] };
}
