//! The sink that a text is written to, to have a needle replaced in it.

ghost use Rattle.std.specs.Prelude.{◌≡◌, ℕ, ◌≤◌, List, [], ◌∷◌, ◌++◌, false, Bool, None, Option};
ghost use Rattle.std.specs.Prelude.{IsOk, OnOk, OnErr, chars};
ghost use Rattle.writeable_core.specs.Sink.{TookPrefix, HasCause};
ghost use Rattle.writeable_replace.specs.Passed.{Went};
ghost use Rattle.writeable_replace.specs.Position.{position, IsPosition};
ghost use Rattle.std.proofs.Common.{refl, ap, ◌∙◌, rules};
ghost use Rattle.writeable_replace.specs.WentLaws.{went_nothing, went_on};

use crate::matching::{take, take_char};
use writeable_core::{Sink, SinkError, Writeable};

/// Passes what it takes on to the sink behind it, with the needle replaced. It keeps how many bytes
/// of the needle are matched at the end of what it took, and no text. It answers no error itself:
/// after the first one of the sink behind, which it keeps, it passes nothing on.
struct Replacing<'n, 'r, 's, C, S> {
    needle: &'n str,
    replacement: &'r C,
    behind: &'s mut S,
    matched: usize,
    error: Option<SinkError>,
    ghost is_position: { IsPosition needle.now matched },
}

impl<C: Writeable, S: Sink> Sink for Replacing<'_, '_, '_, C, S> {
    ghost took = { λ a t b. (b.behind.ghost_name ≡ a.behind.ghost_name)
        × (b.needle.now ≡ a.needle.now) × (C.text b.replacement.now ≡ C.text a.replacement.now)
        × Went S.took S.faults S.takes_memory (chars a.needle.now) (C.text a.replacement.now)
        (position a.needle.now a.matched) a.behind.now t
        (position b.needle.now b.matched) b.behind.now a.error b.error };

    ghost held = { λ _. None };

    ghost faults = { λ _. 0 };

    ghost takes_memory = { λ _. false };

    fn push_str(&mut self, piece: &str) -> Result<(), SinkError> {
        if self.error.is_none() {
            match take(
                self.needle,
                self.replacement,
                self.matched,
                piece,
                self.behind,
            ) {
                Ok(matched) => self.matched = matched,
                Err(error) => self.error = Some(error),
            }
        }
        Ok(())
    }

    fn push_char(&mut self, c: char) -> Result<(), SinkError> {
        if self.error.is_none() {
            match take_char(self.needle, self.replacement, self.matched, c, self.behind) {
                Ok(matched) => self.matched = matched,
                Err(error) => self.error = Some(error),
            }
        }
        Ok(())
    }

    ghost took_nothing = { λ s. (
      refl,
      refl,
      refl,
      went_nothing S.took S.faults S.takes_memory (chars s.needle.now)
          (C.text s.replacement.now)
          (position s.needle.now s.matched) s.behind.now s.error s.is_position.proper
          (S.took_nothing s.behind.now),
    ) };

    ghost took_both = { λ a b c s t p q. (
      q.0 ∙ p.0,
      q.1 ∙ p.1,
      q.2 ∙ p.2,
      went_on S.took S.faults S.takes_memory (chars a.needle.now) (chars b.needle.now)
          (C.text a.replacement.now) (C.text b.replacement.now) (position a.needle.now a.matched)
          (position b.needle.now b.matched)
          (position c.needle.now c.matched) a.behind.now b.behind.now c.behind.now s t a.error
          b.error c.error S.took_both S.took_faults S.took_memory (ap chars p.1) p.2 p.3 q.3,
    ) };

    ghost took_held = { λ a b t h p q. Prim.cc };

    ghost took_faults = { Prim.search rules };

    ghost took_memory = { Prim.search rules };
}

/// Writes a value's text to a sink with the needle replaced, all but the end of it that may begin
/// an occurrence. It says how many bytes of the needle that end is, and the sink's first error.
pub(crate) fn pass_on<A: Writeable, C: Writeable, S: Sink>(
    source: &A,
    needle: &str,
    replacement: &C,
    sink: &mut S,
) -> (usize, Option<SinkError>)
    ensures is_position { IsPosition needle.now result.0 }
    ensures went { Went S.took S.faults S.takes_memory (chars needle.now) (C.text replacement.now)
        (position needle.now 0) sink.old (A.text source.now)
        (position needle.now result.0) sink.new None result.1 }
{
    let mut replacing = Replacing {
        needle,
        replacement,
        behind: sink,
        matched: 0,
        error: None,
    };
    let _ = source.write_to(&mut replacing);
    let Replacing {
        needle: _,
        replacement: _,
        behind: _,
        matched,
        error,
    } = replacing;
    (matched, error)
}
