//! A value of one of two types.

ghost use Rattle.either.specs.Either.{either};

use crate::TryWriteable;
use either::{Either, Left, Right};
use writeable_core::{LengthHint, PartsWrite, Sink, SinkError};

impl<A: TryWriteable, B: TryWriteable> TryWriteable for Either<A, B> {
    type Error = Either<A::Error, B::Error>;

    ghost use Rattle.std.specs.Prelude.{option_map};
    ghost use Rattle.either.specs.declared.Either.TheVariants.{Left, Right};

    ghost text = { either A.text B.text };

    ghost marked = { either A.marked B.marked };

    ghost error = { either (λ x. option_map Left (A.error x)) (λ y. option_map Right (B.error y)) };

    ghost hint = { either A.hint B.hint };

    ghost lends = { either A.lends B.lends };

    fn try_write_to<S: Sink>(
        &self,
        sink: &mut S,
    ) -> Result<Result<(), Either<A::Error, B::Error>>, SinkError> {
        match self {
            Left(value) => match value.try_write_to(sink)? {
                Ok(()) => Ok(Ok(())),
                Err(error) => Ok(Err(Left(error))),
            },
            Right(value) => match value.try_write_to(sink)? {
                Ok(()) => Ok(Ok(())),
                Err(error) => Ok(Err(Right(error))),
            },
        }
    }

    fn try_write_to_parts<P: PartsWrite>(
        &self,
        sink: &mut P,
    ) -> Result<Result<(), Either<A::Error, B::Error>>, SinkError> {
        match self {
            Left(value) => match value.try_write_to_parts(sink)? {
                Ok(()) => Ok(Ok(())),
                Err(error) => Ok(Err(Left(error))),
            },
            Right(value) => match value.try_write_to_parts(sink)? {
                Ok(()) => Ok(Ok(())),
                Err(error) => Ok(Err(Right(error))),
            },
        }
    }

    fn writeable_length_hint(&self) -> LengthHint {
        match self {
            Left(value) => value.writeable_length_hint(),
            Right(value) => value.writeable_length_hint(),
        }
    }

    fn try_writeable_borrow(&self) -> Option<Result<&str, (Either<A::Error, B::Error>, &str)>> {
        match self {
            Left(value) => match value.try_writeable_borrow()? {
                Ok(text) => Some(Ok(text)),
                Err((error, text)) => Some(Err((Left(error), text))),
            },
            Right(value) => match value.try_writeable_borrow()? {
                Ok(text) => Some(Ok(text)),
                Err((error, text)) => Some(Err((Right(error), text))),
            },
        }
    }

    ghost marked_text = { elim [ Left x ↦ A.marked_text x | Right y ↦ B.marked_text y ] };

    ghost marked_nests = { elim [ Left x ↦ A.marked_nests x | Right y ↦ B.marked_nests y ] };

    ghost text_hinted = { elim [ Left x ↦ A.text_hinted x | Right y ↦ B.text_hinted y ] };
}
