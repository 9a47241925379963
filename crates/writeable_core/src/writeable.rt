ghost use Rattle.std.specs.Prelude.{◌≡◌, ℕ, List, Bool, true, false, Some, None, IfOk, OnOk, OnErr};
ghost use Rattle.std.specs.Prelude.{MatchOption, ◌⊎◌, ◌↔◌, chars, IfSome};
ghost use Rattle.std.specs.Cow.{cow_str_bytes, IsBorrowedStr};
ghost use Rattle.writeable_core.specs.Hint.{Hinted, byte_length};
ghost use Rattle.writeable_core.specs.Marks.{Mark, Nests, characters};
ghost use Rattle.writeable_core.specs.Sink.{TookPrefix, HasCause};
ghost use Rattle.writeable_core.specs.declared.length_hint.LengthHint.{LengthHint};

use crate::{LengthHint, PartsWrite, Sink, SinkError, StringSink};
use std::alloc::{AllocError, Global};
use std::borrow::CowStr;

/// A value that means one text, and writes it without making it in memory first.
///
/// It also means one marked text, in which parts of the text carry a mark: the same characters,
/// with marks that nest.
pub trait Writeable {
    /// The text.
    ghost text: { Self → List ℕ };

    /// The text with the marks of its parts.
    ghost marked: { Self → List Mark };

    /// The hint on the text's length.
    ghost hint: { Self → LengthHint };

    /// Whether the value holds the text in one piece and lends it.
    ghost lends: { Self → Bool };

    /// Writes the text. The causes of an error are those of the sink.
    fn write_to<S: Sink>(&self, sink: &mut S) -> Result<(), SinkError>
        ensures ok { OnOk result (S.took sink.old (text self.now) sink.new) }
        ensures err { OnErr result (TookPrefix S.took sink.old (text self.now) sink.new) }
        ensures cause { HasCause (S.faults sink.old) (S.faults sink.new)
            (S.takes_memory sink.old) result };

    /// Writes the marked text. The causes of an error are those of the sink.
    fn write_to_parts<P: PartsWrite>(&self, sink: &mut P) -> Result<(), SinkError>
        ensures ok { OnOk result (P.took_marks sink.old (marked self.now) sink.new) }
        ensures err { OnErr result (TookPrefix P.took_marks sink.old (marked self.now) sink.new) }
        ensures cause { HasCause (P.faults sink.old) (P.faults sink.new)
            (P.takes_memory sink.old) result };

    /// Bounds of the text's length in UTF-8.
    fn writeable_length_hint(&self) -> LengthHint
        ensures { result ≡ hint self.now };

    /// The text, where the value holds it in one piece.
    fn writeable_borrow(&self) -> Option<&str>
        ensures lends { MatchOption result (lends self.now ≡ false) (λ _. lends self.now ≡ true) }
        ensures text { IfSome result (λ b. chars b.now ≡ text self.now) };

    /// The text, without a copy where the value lends it or the hint says that it is empty.
    fn write_to_string(&self, alloc: Global) -> Result<CowStr<'_>, AllocError>
        ensures text { IfOk result (λ s. chars (cow_str_bytes s) ≡ text self.now) }
        ensures borrowed { IfOk result
            (λ s. IsBorrowedStr s ↔ ((lends self.now ≡ true) ⊎ ((hint self.now).1 ≡ Some 0))) }
    {
        if let Some(text) = self.writeable_borrow() {
            return Ok(CowStr::Borrowed(text));
        }
        let hint = self.writeable_length_hint();
        if hint.is_zero() {
            return Ok(CowStr::Borrowed(""));
        }
        let mut sink = StringSink::with_capacity(alloc, hint.capacity())?;
        self.write_to(&mut sink).map_err(|_| AllocError)?;
        Ok(CowStr::Owned(sink.into_string()))
    }

    ghost marked_text: { (s : Self) → characters (marked s) ≡ text s };

    ghost marked_nests: { (s : Self) → Nests (marked s) };

    ghost text_hinted: { (s : Self) → Hinted (hint s) (byte_length (text s)) };
}
