//! A value's text with a needle replaced.

ghost use Rattle.std.specs.Prelude.{◌≡◌, ℕ, false, chars, OnOk, OnErr, IsOk, Bool};
ghost use Rattle.writeable_core.specs.Hint.{byte_length};
ghost use Rattle.writeable_core.specs.Marks.{plain};
ghost use Rattle.writeable_core.specs.MarksLaws.{characters-plain, Nests-plain};
ghost use Rattle.writeable_core.specs.Sink.{TookPrefix, HasCause, Rose};
ghost use Rattle.writeable_replace.specs.ReplacedHint.{hint_rule};
ghost use Rattle.writeable_replace.specs.ReplacedHintLaws.{Hinted-replaced};
ghost use Rattle.writeable_replace.specs.Replaced.{replaced};

use crate::hints::replaced_hint;
use crate::matching::pass_front;
use crate::replacing::pass_on;
use writeable_core::{LengthHint, PartsWrite, Sink, SinkError, Text, Writeable};

/// A value's text in which each occurrence of the needle is replaced, from the left. An empty
/// needle replaces nothing, and what the replacement wrote isn't looked at again.
#[derive(Drop)]
pub struct Replace<A, B, C> {
    pub source: A,
    pub needle: B,
    pub replacement: C,
}

impl<A: Writeable, C: Writeable> Writeable for Replace<A, &str, C> {
    ghost text = { λ s. replaced (A.text s.source) (chars s.needle.now) (C.text s.replacement) };

    ghost marked = { λ s.
        plain (replaced (A.text s.source) (chars s.needle.now) (C.text s.replacement)) };

    ghost hint = { λ s.
        hint_rule (A.hint s.source) (byte_length (chars s.needle.now)) (C.hint s.replacement) };

    ghost lends = { λ _. false };

    /// Writes the text as it comes. It takes no memory, and keeps nothing of the source but how
    /// much of the needle is matched.
    fn write_to<S: Sink>(&self, sink: &mut S) -> Result<(), SinkError>
        ensures ok { OnOk result
            (S.took sink.old
            (replaced (A.text self.now.source) (chars self.now.needle.now)
            (C.text self.now.replacement)) sink.new) }
        ensures err { OnErr result
            (TookPrefix S.took sink.old
            (replaced (A.text self.now.source) (chars self.now.needle.now)
            (C.text self.now.replacement)) sink.new) }
        ensures cause { HasCause (S.faults sink.old) (S.faults sink.new)
            (S.takes_memory sink.old) result }
        ensures never_fails { S.takes_memory sink.old ≡ false
            → (Rose (S.faults sink.old) (S.faults sink.new) → ⊥) → IsOk result }
    {
        write_through(&self.source, self.needle, &self.replacement, sink)
    }

    fn write_to_parts<P: PartsWrite>(&self, sink: &mut P) -> Result<(), SinkError> {
        self.write_to(sink)
    }

    fn writeable_length_hint(&self) -> LengthHint {
        hint_with(
            self.source.writeable_length_hint(),
            self.needle,
            self.replacement.writeable_length_hint(),
        )
    }

    fn writeable_borrow(&self) -> Option<&str> {
        None
    }

    ghost marked_text = { λ s.
        characters-plain (replaced (A.text s.source) (chars s.needle.now) (C.text s.replacement)) };

    ghost marked_nests = { λ s.
        Nests-plain (replaced (A.text s.source) (chars s.needle.now) (C.text s.replacement)) };

    ghost text_hinted = { λ s. Hinted-replaced (A.hint s.source) (C.hint s.replacement)
        (A.text s.source) (chars s.needle.now) (C.text s.replacement) (A.text_hinted s.source)
        (C.text_hinted s.replacement) };
}

/// The hint of a text with this needle replaced.
fn hint_with(source: LengthHint, needle: &str, replacement: LengthHint) -> LengthHint
    ensures { result ≡ hint_rule source (byte_length (chars needle.now)) replacement }
{
    replaced_hint(source, needle.len(), replacement)
}

/// Writes a value's text with the needle replaced.
fn write_through<A: Writeable, C: Writeable, S: Sink>(
    source: &A,
    needle: &str,
    replacement: &C,
    sink: &mut S,
) -> Result<(), SinkError>
    ensures ok { OnOk result
        (S.took sink.old
        (replaced (A.text source.now) (chars needle.now) (C.text replacement.now)) sink.new) }
    ensures err { OnErr result
        (TookPrefix S.took sink.old
        (replaced (A.text source.now) (chars needle.now) (C.text replacement.now)) sink.new) }
    ensures cause { HasCause (S.faults sink.old) (S.faults sink.new)
        (S.takes_memory sink.old) result }
{
    let (matched, error) = pass_on(source, needle, replacement, sink);
    match error {
        Some(error) => Err(error),
        None => pass_front(needle, matched, sink),
    }
}

/// Writes a text in which each occurrence of the needle is replaced, from the left.
///
/// Over a sink that takes no memory it answers `Ok` where the sink's count of faults doesn't rise.
pub fn write_replaced<S: Sink, R: Writeable>(
    sink: &mut S,
    text: &str,
    needle: &str,
    replacement: &R,
) -> Result<(), SinkError>
    ensures ok { OnOk result
        (S.took sink.old
        (replaced (chars text.now) (chars needle.now) (R.text replacement.now)) sink.new) }
    ensures err { OnErr result
        (TookPrefix S.took sink.old
        (replaced (chars text.now) (chars needle.now) (R.text replacement.now)) sink.new) }
    ensures cause { HasCause (S.faults sink.old) (S.faults sink.new)
        (S.takes_memory sink.old) result }
    ensures never_fails { S.takes_memory sink.old ≡ false
        → (Rose (S.faults sink.old) (S.faults sink.new) → ⊥) → IsOk result }
{
    let source = Text(text);
    Replace {
        source,
        needle,
        replacement,
    }
    .write_to(sink)
}
