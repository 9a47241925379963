//! Sinks of marked texts over sinks of texts, and values inside a part.

ghost use Rattle.std.specs.Prelude.{◌≡◌, ℕ, List, [], ◌∷◌, None, OnOk, OnErr, IsOk};
ghost use Rattle.writeable_core.specs.Marks.{Mark, plain, characters, inside, part_name};
ghost use Rattle.writeable_core.specs.MarksLaws.{characters-plain, characters-append};
ghost use Rattle.writeable_core.specs.MarksLaws.{characters-inside, Nests-inside};
ghost use Rattle.writeable_core.specs.Sink.{TookPrefix, HasCause};

use writeable_core::{LengthHint, Part, PartsWrite, Sink, SinkError, Writeable};

/// A sink of marked texts over a sink of texts: it passes the characters on, and drops the marks.
/// It doesn't tell how many parts are open.
#[derive(Drop)]
pub struct CoreWriteAsPartsWrite<W>(pub W);

impl<W: Sink> Sink for CoreWriteAsPartsWrite<W> {
    ghost took = { λ a t b. W.took a.0 t b.0 };

    ghost held = { λ s. W.held s.0 };

    ghost faults = { λ s. W.faults s.0 };

    ghost takes_memory = { λ s. W.takes_memory s.0 };

    fn push_str(&mut self, piece: &str) -> Result<(), SinkError> {
        self.0.push_str(piece)
    }

    fn push_char(&mut self, c: char) -> Result<(), SinkError> {
        self.0.push_char(c)
    }

    ghost took_nothing = { λ s. W.took_nothing s.0 };

    ghost took_both = { λ a b c s t. W.took_both a.0 b.0 c.0 s t };

    ghost took_held = { λ a b t h. W.took_held a.0 b.0 t h };

    ghost took_faults = { λ a b t. W.took_faults a.0 b.0 t };

    ghost took_memory = { λ a b t. W.took_memory a.0 b.0 t };
}

impl<W: Sink> PartsWrite for CoreWriteAsPartsWrite<W> {
    ghost use Rattle.std.proofs.Common.{subst, sym};

    ghost took_marks = { λ a m b. W.took a.0 (characters m) b.0 };

    ghost open_parts = { λ _. None };

    fn open_part(&mut self, _part: Part) -> Result<(), SinkError>
        ensures ok { OnOk result (W.took self.old.0 [] self.new.0) }
        ensures err { OnErr result (W.took self.old.0 [] self.new.0) }
        ensures cause { HasCause (W.faults self.old.0) (W.faults self.new.0)
            (W.takes_memory self.old.0) result }
        ensures never_fails { IsOk result }
        ensures kept { self.new.0 ≡ self.old.0 }
    {
        Ok(())
    }

    fn close_part(&mut self) -> Result<(), SinkError>
        ensures ok { OnOk result (W.took self.old.0 [] self.new.0) }
        ensures err { OnErr result (W.took self.old.0 [] self.new.0) }
        ensures cause { HasCause (W.faults self.old.0) (W.faults self.new.0)
            (W.takes_memory self.old.0) result }
        ensures never_fails { IsOk result }
        ensures kept { self.new.0 ≡ self.old.0 }
    {
        Ok(())
    }

    ghost marks_both = { λ a b c s t p q.
        subst (λ u. W.took a.0 u c.0) (sym (characters-append s t))
        (W.took_both a.0 b.0 c.0 (characters s) (characters t) p q) };

    ghost marks_of_text = { λ a b t p. subst (λ u. W.took a.0 u b.0) (sym (characters-plain t)) p };

    ghost text_of_marks = { λ a b t p. subst (λ u. W.took a.0 u b.0) (characters-plain t) p };

    ghost marks_held = { λ a b m h. W.took_held a.0 b.0 (characters m) h };

    ghost marks_faults = { λ a b m. W.took_faults a.0 b.0 (characters m) };

    ghost marks_memory = { λ a b m. W.took_memory a.0 b.0 (characters m) };

    ghost marks_open = { λ a b m p. tt };
}

/// A value whose whole text is one part.
#[derive(Drop)]
pub struct WithPart<T> {
    pub part: Part,
    pub writeable: T,
}

impl<T: Writeable> Writeable for WithPart<T> {
    ghost use Rattle.std.proofs.Common.{◌∙◌};

    ghost text = { λ s. T.text s.writeable };

    ghost marked = { λ s. inside (part_name s.part) (T.marked s.writeable) };

    ghost hint = { λ s. T.hint s.writeable };

    ghost lends = { λ s. T.lends s.writeable };

    fn write_to<S: Sink>(&self, sink: &mut S) -> Result<(), SinkError> {
        self.writeable.write_to(sink)
    }

    fn write_to_parts<P: PartsWrite>(&self, sink: &mut P) -> Result<(), SinkError> {
        write_inside(self.part, &self.writeable, sink)
    }

    fn writeable_length_hint(&self) -> LengthHint {
        self.writeable.writeable_length_hint()
    }

    fn writeable_borrow(&self) -> Option<&str> {
        self.writeable.writeable_borrow()
    }

    ghost marked_text = { λ s. characters-inside (part_name s.part) (T.marked s.writeable)
        ∙ T.marked_text s.writeable };

    ghost marked_nests = { λ s.
        Nests-inside (part_name s.part) (T.marked s.writeable) (T.marked_nests s.writeable) };

    ghost text_hinted = { λ s. T.text_hinted s.writeable };
}

/// Writes a value's marked text inside one part.
pub(crate) fn write_inside<T: Writeable, P: PartsWrite>(
    part: Part,
    value: &T,
    sink: &mut P,
) -> Result<(), SinkError>
    ensures ok { OnOk result
        (P.took_marks sink.old (inside (part_name part) (T.marked value.now)) sink.new) }
    ensures err { OnErr result
        (TookPrefix P.took_marks sink.old (inside (part_name part) (T.marked value.now)) sink.new) }
    ensures cause { HasCause (P.faults sink.old) (P.faults sink.new)
        (P.takes_memory sink.old) result }
{
    sink.open_part(part)?;
    value.write_to_parts(sink)?;
    sink.close_part()?;
    Ok(())
}
