ghost use Rattle.std.specs.Prelude.{◌≡◌, ◌≢◌, ℕ, ◌<◌, ◌≤◌, List, [], ◌∷◌, ◌++◌, Bool, true, Some};
ghost use Rattle.std.specs.Prelude.{IsErrOf, OnOk, OnErr, length, map};
ghost use Rattle.std.specs.Str.{chars};
ghost use Rattle.std.proofs.Common.{rules};
ghost use Rattle.writeable_core.specs.Sink.{TookPrefix, HasCause};
ghost use Rattle.writeable_core.specs.SinkLaws.{append_held};
ghost use Rattle.writeable_core.specs.Marks.{Open, Close, part_name};
ghost use Rattle.writeable_sinks.specs.Spans.{span_of};
ghost use Rattle.writeable_sinks.specs.PartsSink.{TookText, TookMarks, no_parts, with_span, Begun};
ghost use Rattle.writeable_sinks.specs.PartsSinkLaws.{TookText-nothing, TookText-both};
ghost use Rattle.writeable_sinks.specs.PartsSinkLaws.{TookMarks-both, TookMarks-held};
ghost use Rattle.writeable_sinks.specs.PartsSinkLaws.{TookMarks-open, marks_of_text, text_of_marks};
ghost use Rattle.writeable_sinks.specs.PartsFields.{begun_of};

use std::alloc::Global;
use std::marker::Model;
use writeable_core::{Part, PartsWrite, Sink, SinkError};

/// A part of a text and the bytes of the text that it spans: from `start` on, up to `end`.
#[derive(Clone, Copy, Debug)]
pub struct PartSpan {
    pub start: usize,
    pub end: usize,
    pub part: Part,
}

/// A part that is open, and the byte that it began at.
#[derive(Clone, Copy)]
struct Opened {
    start: usize,
    part: Part,
}

/// A sink that holds a text in memory, and where its parts lie. It never faults.
#[derive(Drop)]
pub struct PartsSink {
    text: String,
    opened: Vec<Opened>,
    spans: Vec<PartSpan>,
}

impl Model for PartsSink {
    ghost use Rattle.writeable_sinks.specs.PartsSink.{Parts};

    ghost Value = { Parts };

    ghost use Rattle.writeable_sinks.specs.PartsFields.{parts_of};

    ghost view = { parts_of };
}

impl PartsSink {
    /// A sink that has taken nothing.
    pub fn new(alloc: Global) -> PartsSink
        ensures { result ≡ no_parts }
    {
        PartsSink {
            text: String::new(alloc),
            opened: Vec::new(alloc),
            spans: Vec::new(alloc),
        }
    }

    /// The text that it holds.
    pub fn as_str(&self) -> &str
        ensures { chars result.now ≡ self.now.text }
    {
        self.text.as_str()
    }

    /// The parts that were closed, in this order, but for empty ones.
    pub fn spans(&self) -> &[PartSpan]
        ensures { map span_of result.now ≡ self.now.spans }
    {
        self.spans.as_slice()
    }

    /// The part that was opened last.
    fn last_opened(&self) -> Opened
        requires { 0 < length self.now.begun }
        ensures { (others : List Begun) × (self.now.begun ≡ begun_of result ∷ others) }
    {
        self.opened[self.opened.len() - 1]
    }

    /// Adds the span of a part that ends here, if it isn't empty.
    fn add_span(&mut self, part: Opened) -> Result<(), SinkError>
        ensures ok { OnOk result (self.new ≡ with_span self.old (begun_of part)) }
        ensures err { OnErr result (self.new ≡ self.old) }
        ensures never_faults { IsErrOf result SinkError.Fault → ⊥ }
    {
        let end = self.text.as_str().len();
        if part.start >= end {
            return Ok(());
        }
        let span = PartSpan {
            start: part.start,
            end,
            part: part.part,
        };
        self.spans.push(span).map_err(|_| SinkError::NoMemory)?;
        Ok(())
    }

    /// Takes the part that was opened last off the open ones.
    fn forget_last(&mut self)
        requires { 0 < length self.old.begun }
        ensures { (last : Begun)
            × (self.old
            ≡ record {
              text = self.new.text;
              begun = last ∷ self.new.begun;
              spans = self.new.spans;
            }) }
    {
        self.opened.pop();
    }
}

impl Sink for PartsSink {
    ghost took = { TookText };

    ghost held = { λ s. Some s.text };

    ghost faults = { λ _. 0 };

    ghost takes_memory = { λ _. true };

    ghost took_nothing = { TookText-nothing };

    ghost took_both = { TookText-both };

    ghost took_held = { λ a b t h p. append_held a.text b.text t h (Prim.cc) };

    ghost took_faults = { Prim.search rules };

    ghost took_memory = { Prim.search rules };

    #[tactic(auto, using(writeable_core::specs::TextLaws::pushed_str))]
    fn push_str(&mut self, piece: &str) -> Result<(), SinkError>
        ensures ok { OnOk result (TookText self.old (chars piece.now) self.new) }
        ensures err { OnErr result (TookPrefix TookText self.old (chars piece.now) self.new) }
        ensures kept { OnErr result (self.new ≡ self.old) }
        ensures cause { HasCause 0 0 true result }
        ensures never_faults { IsErrOf result SinkError.Fault → ⊥ }
    {
        self.text.push_str(piece).map_err(|_| SinkError::NoMemory)?;
        Ok(())
    }

    #[tactic(auto, using(writeable_core::specs::TextLaws::pushed_char))]
    fn push_char(&mut self, c: char) -> Result<(), SinkError>
        ensures ok { OnOk result (TookText self.old (c ∷ []) self.new) }
        ensures err { OnErr result (TookPrefix TookText self.old (c ∷ []) self.new) }
        ensures kept { OnErr result (self.new ≡ self.old) }
        ensures cause { HasCause 0 0 true result }
        ensures never_faults { IsErrOf result SinkError.Fault → ⊥ }
    {
        self.text.push(c).map_err(|_| SinkError::NoMemory)?;
        Ok(())
    }
}

impl PartsWrite for PartsSink {
    ghost took_marks = { TookMarks };

    ghost open_parts = { λ s. Some (length s.begun) };

    fn open_part(&mut self, part: Part) -> Result<(), SinkError>
        ensures ok { OnOk result (TookMarks self.old (Open (part_name part) ∷ []) self.new) }
        ensures err { OnErr result (TookMarks self.old [] self.new) }
        ensures cause { HasCause 0 0 true result }
        ensures never_faults { IsErrOf result SinkError.Fault → ⊥ }
    {
        let start = self.text.as_str().len();
        self.opened
            .push(Opened { start, part })
            .map_err(|_| SinkError::NoMemory)?;
        Ok(())
    }

    fn close_part(&mut self) -> Result<(), SinkError>
        requires { Some (length self.old.begun) ≢ Some 0 }
        ensures ok { OnOk result (TookMarks self.old (Close ∷ []) self.new) }
        ensures err { OnErr result (TookMarks self.old [] self.new) }
        ensures cause { HasCause 0 0 true result }
        ensures never_faults { IsErrOf result SinkError.Fault → ⊥ }
    {
        let last = self.last_opened();
        self.add_span(last)?;
        self.forget_last();
        Ok(())
    }

    ghost marks_both = { TookMarks-both };

    ghost marks_of_text = { marks_of_text };

    ghost text_of_marks = { text_of_marks };

    ghost marks_held = { TookMarks-held };

    ghost marks_faults = { Prim.search rules };

    ghost marks_memory = { Prim.search rules };

    ghost marks_open = { TookMarks-open };
}
