//! Values that may mean an error, whose text is written in its place.

ghost use Rattle.std.specs.Prelude.{◌≡◌, ℕ, List, Bool, true, false, Option, Some, None, IfOk};
ghost use Rattle.std.specs.Prelude.{IfSome, OnOk, OnErr, MatchOption, MatchResult, ◌⊎◌, ◌↔◌, chars};
ghost use Rattle.std.specs.Prelude.{string_bytes, []};
ghost use Rattle.std.specs.Cow.{cow_str_bytes, IsBorrowedStr};
ghost use Rattle.std.specs.Result.{result_err};
ghost use Rattle.writeable_core.specs.Hint.{Hinted, byte_length};
ghost use Rattle.writeable_core.specs.Marks.{Mark, Nests, characters, inside};
ghost use Rattle.writeable_core.specs.MarksLaws.{Nests-inside, characters-inside};
ghost use Rattle.writeable_core.specs.Sink.{TookPrefix, HasCause};
ghost use Rattle.writeable_adapters.specs.Outcome.{either_of, error_part};
ghost use Rattle.writeable_core.specs.declared.length_hint.LengthHint.{LengthHint};

use crate::parts_write_adapter::write_inside;
use std::alloc::{AllocError, Global};
use std::borrow::CowStr;
use std::convert::Infallible;
use writeable_core::{LengthHint, Part, PartsWrite, Sink, SinkError, StringSink, Writeable};

/// A value that means one text, and may mean an error too. The text is written in both cases: with
/// an error it is what is to be shown in place of the missing text.
///
/// The outer error of a call is the sink's, the inner one is the value's. With an inner error the
/// whole text was written all the same.
pub trait TryWriteable {
    /// What may be wrong with a value.
    type Error: Drop;

    /// The text.
    ghost text: { Self → List ℕ };

    /// The text with the marks of its parts.
    ghost marked: { Self → List Mark };

    /// The error, if there is one.
    ghost error: { Self → Option Self.Error };

    /// The hint on the text's length.
    ghost hint: { Self → LengthHint };

    /// Whether the value holds the text in one piece and lends it.
    ghost lends: { Self → Bool };

    /// Writes the text, and says what is wrong with the value.
    fn try_write_to<S: Sink>(&self, sink: &mut S) -> Result<Result<(), Self::Error>, SinkError>
        ensures ok { OnOk result (S.took sink.old (text self.now) sink.new) }
        ensures inner { IfOk result (λ r. result_err r ≡ error self.now) }
        ensures err { OnErr result (TookPrefix S.took sink.old (text self.now) sink.new) }
        ensures cause { HasCause (S.faults sink.old) (S.faults sink.new)
            (S.takes_memory sink.old) result };

    /// Writes the marked text, and says what is wrong with the value.
    fn try_write_to_parts<P: PartsWrite>(
        &self,
        sink: &mut P,
    ) -> Result<Result<(), Self::Error>, SinkError>
        ensures ok { OnOk result (P.took_marks sink.old (marked self.now) sink.new) }
        ensures inner { IfOk result (λ r. result_err r ≡ error self.now) }
        ensures err { OnErr result (TookPrefix P.took_marks sink.old (marked self.now) sink.new) }
        ensures cause { HasCause (P.faults sink.old) (P.faults sink.new)
            (P.takes_memory sink.old) result };

    /// Bounds of the text's length in UTF-8.
    fn writeable_length_hint(&self) -> LengthHint
        ensures { result ≡ hint self.now };

    /// The text, where the value holds it in one piece, with the error if there is one.
    fn try_writeable_borrow(&self) -> Option<Result<&str, (Self::Error, &str)>>
        ensures lends { MatchOption result (lends self.now ≡ false) (λ _. lends self.now ≡ true) }
        ensures text { IfSome result
            (λ r. MatchResult r (λ b. chars b.now ≡ text self.now)
            (λ e. chars e.1.now ≡ text self.now)) }
        ensures error { IfSome result
            (λ r. MatchResult r (λ _. error self.now ≡ None) (λ e. error self.now ≡ Some e.0)) };

    /// The text, with the error if there is one: without a copy where the value lends it or the
    /// hint says that it is empty.
    fn try_write_to_string(
        &self,
        alloc: Global,
    ) -> Result<Result<CowStr<'_>, (Self::Error, CowStr<'_>)>, AllocError>
        ensures text { IfOk result
            (λ r. MatchResult r (λ s. chars (cow_str_bytes s) ≡ text self.now)
            (λ e. chars (cow_str_bytes e.1) ≡ text self.now)) }
        ensures error { IfOk result
            (λ r. MatchResult r (λ _. error self.now ≡ None) (λ e. error self.now ≡ Some e.0)) }
        ensures borrowed { IfOk result
            (λ r. MatchResult r
            (λ s. IsBorrowedStr s ↔ ((lends self.now ≡ true) ⊎ ((hint self.now).1 ≡ Some 0)))
            (λ e. IsBorrowedStr e.1 ↔ ((lends self.now ≡ true) ⊎ ((hint self.now).1 ≡ Some 0)))) }
    {
        match self.try_writeable_borrow() {
            Some(Ok(text)) => return Ok(Ok(CowStr::Borrowed(text))),
            Some(Err((error, text))) => return Ok(Err((error, CowStr::Borrowed(text)))),
            None => {}
        }
        let hint = self.writeable_length_hint();
        let mut sink = StringSink::with_capacity(alloc, hint.capacity())?;
        let inner = self.try_write_to(&mut sink).map_err(|_| AllocError)?;
        let text = written(hint, sink.into_string());
        match inner {
            Ok(()) => Ok(Ok(text)),
            Err(error) => Ok(Err((error, text))),
        }
    }

    ghost marked_text: { (s : Self) → characters (marked s) ≡ text s };

    ghost marked_nests: { (s : Self) → Nests (marked s) };

    ghost text_hinted: { (s : Self) → Hinted (hint s) (byte_length (text s)) };
}

/// A text that was written, borrowed where the hint says that it is empty.
fn written<'a>(hint: LengthHint, text: String) -> CowStr<'a>
    requires { hint.1 ≡ Some 0 → chars (string_bytes text) ≡ [] }
    ensures text { chars (cow_str_bytes result) ≡ chars (string_bytes text) }
    ensures borrowed { IsBorrowedStr result ↔ (hint.1 ≡ Some 0) }
{
    if hint.is_zero() {
        CowStr::Borrowed("")
    } else {
        CowStr::Owned(text)
    }
}

impl<T: TryWriteable> TryWriteable for &T {
    type Error = T::Error;

    ghost text = { λ s. T.text s.now };

    ghost marked = { λ s. T.marked s.now };

    ghost error = { λ s. T.error s.now };

    ghost hint = { λ s. T.hint s.now };

    ghost lends = { λ s. T.lends s.now };

    fn try_write_to<S: Sink>(&self, sink: &mut S) -> Result<Result<(), T::Error>, SinkError> {
        (**self).try_write_to(sink)
    }

    fn try_write_to_parts<P: PartsWrite>(
        &self,
        sink: &mut P,
    ) -> Result<Result<(), T::Error>, SinkError> {
        (**self).try_write_to_parts(sink)
    }

    fn writeable_length_hint(&self) -> LengthHint {
        (**self).writeable_length_hint()
    }

    fn try_writeable_borrow(&self) -> Option<Result<&str, (T::Error, &str)>> {
        (**self).try_writeable_borrow()
    }

    ghost marked_text = { λ s. T.marked_text s.now };

    ghost marked_nests = { λ s. T.marked_nests s.now };

    ghost text_hinted = { λ s. T.text_hinted s.now };
}

/// A value, or an error that is shown in its place, as one part [`Part::ERROR`].
impl<T: Writeable, E: Writeable + Copy> TryWriteable for Result<T, E> {
    type Error = E;

    ghost use Rattle.std.specs.Prelude.{Ok, Err};
    ghost use Rattle.std.proofs.Common.{◌∙◌};

    ghost text = { either_of T.text E.text };

    ghost marked = { either_of T.marked (λ e. inside error_part (E.marked e)) };

    ghost error = { result_err };

    ghost hint = { either_of T.hint E.hint };

    ghost lends = { either_of T.lends E.lends };

    fn try_write_to<S: Sink>(&self, sink: &mut S) -> Result<Result<(), E>, SinkError> {
        match self {
            Ok(value) => {
                value.write_to(sink)?;
                Ok(Ok(()))
            }
            Err(error) => {
                error.write_to(sink)?;
                Ok(Err(*error))
            }
        }
    }

    fn try_write_to_parts<P: PartsWrite>(&self, sink: &mut P) -> Result<Result<(), E>, SinkError> {
        match self {
            Ok(value) => {
                value.write_to_parts(sink)?;
                Ok(Ok(()))
            }
            Err(error) => {
                write_inside(Part::ERROR, error, sink)?;
                Ok(Err(*error))
            }
        }
    }

    fn writeable_length_hint(&self) -> LengthHint {
        match self {
            Ok(value) => value.writeable_length_hint(),
            Err(error) => error.writeable_length_hint(),
        }
    }

    fn try_writeable_borrow(&self) -> Option<Result<&str, (E, &str)>> {
        match self {
            Ok(value) => Some(Ok(value.writeable_borrow()?)),
            Err(error) => Some(Err((*error, error.writeable_borrow()?))),
        }
    }

    ghost marked_text = { elim [
      | Ok x ↦ T.marked_text x
      | Err e ↦ characters-inside error_part (E.marked e) ∙ E.marked_text e
    ] };

    ghost marked_nests = { elim [
      | Ok x ↦ T.marked_nests x
      | Err e ↦ Nests-inside error_part (E.marked e) (E.marked_nests e)
    ] };

    ghost text_hinted = { elim [ Ok x ↦ T.text_hinted x | Err e ↦ E.text_hinted e ] };
}

/// A [`TryWriteable`] that has no error, as a [`Writeable`].
#[derive(Drop)]
pub struct TryWriteableInfallibleAsWriteable<T>(pub T);

impl<T: TryWriteable<Error = Infallible>> Writeable for TryWriteableInfallibleAsWriteable<T> {
    ghost text = { λ s. T.text s.0 };

    ghost marked = { λ s. T.marked s.0 };

    ghost hint = { λ s. T.hint s.0 };

    ghost lends = { λ s. T.lends s.0 };

    fn write_to<S: Sink>(&self, sink: &mut S) -> Result<(), SinkError> {
        match self.0.try_write_to(sink)? {
            Ok(()) => Ok(()),
            Err(never) => match never {},
        }
    }

    fn write_to_parts<P: PartsWrite>(&self, sink: &mut P) -> Result<(), SinkError> {
        match self.0.try_write_to_parts(sink)? {
            Ok(()) => Ok(()),
            Err(never) => match never {},
        }
    }

    fn writeable_length_hint(&self) -> LengthHint {
        self.0.writeable_length_hint()
    }

    fn writeable_borrow(&self) -> Option<&str> {
        match self.0.try_writeable_borrow()? {
            Ok(text) => Some(text),
            Err((never, _)) => match never {},
        }
    }

    ghost marked_text = { λ s. T.marked_text s.0 };

    ghost marked_nests = { λ s. T.marked_nests s.0 };

    ghost text_hinted = { λ s. T.text_hinted s.0 };
}

/// A [`Writeable`] as a [`TryWriteable`] that has no error.
#[derive(Drop)]
pub struct WriteableAsTryWriteableInfallible<T>(pub T);

impl<T: Writeable> TryWriteable for WriteableAsTryWriteableInfallible<T> {
    type Error = Infallible;

    ghost text = { λ s. T.text s.0 };

    ghost marked = { λ s. T.marked s.0 };

    ghost error = { λ _. None };

    ghost hint = { λ s. T.hint s.0 };

    ghost lends = { λ s. T.lends s.0 };

    fn try_write_to<S: Sink>(&self, sink: &mut S) -> Result<Result<(), Infallible>, SinkError> {
        self.0.write_to(sink)?;
        Ok(Ok(()))
    }

    fn try_write_to_parts<P: PartsWrite>(
        &self,
        sink: &mut P,
    ) -> Result<Result<(), Infallible>, SinkError> {
        self.0.write_to_parts(sink)?;
        Ok(Ok(()))
    }

    fn writeable_length_hint(&self) -> LengthHint {
        self.0.writeable_length_hint()
    }

    fn try_writeable_borrow(&self) -> Option<Result<&str, (Infallible, &str)>> {
        Some(Ok(self.0.writeable_borrow()?))
    }

    ghost marked_text = { λ s. T.marked_text s.0 };

    ghost marked_nests = { λ s. T.marked_nests s.0 };

    ghost text_hinted = { λ s. T.text_hinted s.0 };
}
