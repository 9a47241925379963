ghost use Rattle.std.specs.Prelude.{◌≡◌, ℕ, ◌+◌, ◌-◌, ◌^◌, ◌≤◌, ◌↔◌, min, List, [], ◌∷◌, ◌++◌};
ghost use Rattle.std.specs.Prelude.{Bool, true, Some, IsErrOf, OnOk, OnErr, vec_len, string_bytes};
ghost use Rattle.std.specs.Str.{chars};
ghost use Rattle.std.proofs.Common.{rules};
ghost use Rattle.writeable_core.specs.Sink.{TookPrefix, HasCause};
ghost use Rattle.writeable_core.specs.SinkLaws.{append_held};
ghost use Rattle.writeable_sinks.specs.ScriptSink.{IsNextListed, Wrote};
ghost use Rattle.writeable_sinks.specs.ScriptSinkLaws.{Wrote-nothing, Wrote-both};

use std::alloc::Global;
use std::marker::Model;
use writeable_core::{Sink, SinkError};

/// A sink that holds a text in memory and fails at the pushes that it is told, counted from one:
/// these take nothing and answer `Fault`. It serves tests of what happens where a write fails.
#[derive(Drop)]
pub struct ScriptSink {
    text: String,
    failing: Vec<u64>,
    pushes: u64,
    faults: u64,
}

impl Model for ScriptSink {
    ghost use Rattle.std.specs.Prelude.{string_bytes};
    ghost use Rattle.std.specs.Str.{chars};
    ghost use Rattle.writeable_sinks.specs.ScriptSink.{Script};

    ghost Value = { Script };

    ghost view = { λ s.
        record {
          text = chars (string_bytes s.text);
          failing = s.failing.items;
          pushes = s.pushes;
          faults = s.faults;
        } };
}

impl ScriptSink {
    /// A sink that holds the empty text and fails at the pushes of these numbers.
    pub fn new(alloc: Global, failing: Vec<u64>) -> ScriptSink
        ensures { result ≡ record { text = []; failing = failing.items; pushes = 0; faults = 0 } }
    {
        ScriptSink {
            text: String::new(alloc),
            failing,
            pushes: 0,
            faults: 0,
        }
    }

    /// The text that it holds.
    pub fn as_str(&self) -> &str
        ensures { chars result.now ≡ self.now.text }
    {
        self.text.as_str()
    }

    /// The text that it holds, without a copy.
    pub fn into_string(self) -> String
        ensures { chars (string_bytes result) ≡ self.text }
    {
        self.text
    }

    /// Counts a push, and a fault where the push is one of those that fail.
    fn start_push(&mut self) -> Result<(), SinkError>
        ensures pushes { self.new
            ≡ record self.old { pushes = self.new.pushes; faults = self.new.faults } }
        ensures next { self.new.pushes ≡ min (self.old.pushes + 1) (2 ^ 64 - 1) }
        ensures scripted { IsErrOf result SinkError.Fault ↔ IsNextListed self.old }
        ensures cause { HasCause self.old.faults self.new.faults true result }
        ensures later { self.old.faults ≤ self.new.faults }
        ensures no_fault { OnOk result (self.new.faults ≡ self.old.faults) }
        ensures memory { IsErrOf result SinkError.NoMemory → ⊥ }
    {
        let Some(number) = self.pushes.checked_add(1) else {
            return Ok(());
        };
        self.pushes = number;
        if self.failing.contains(&number) {
            self.faults = self.faults.saturating_add(1);
            return Err(SinkError::Fault);
        }
        Ok(())
    }
}

impl Sink for ScriptSink {
    ghost took = { Wrote };

    ghost held = { λ s. Some s.text };

    ghost faults = { λ s. s.faults };

    ghost takes_memory = { λ _. true };

    ghost took_nothing = { Wrote-nothing };

    ghost took_both = { Wrote-both };

    ghost took_held = { λ a b t h p. append_held a.text b.text t h p.text };

    ghost took_faults = { λ a b t p. p.later };

    ghost took_memory = { Prim.search rules };

    #[tactic(auto, using(writeable_core::specs::TextLaws::pushed_str))]
    fn push_str(&mut self, piece: &str) -> Result<(), SinkError>
        ensures ok { OnOk result (Wrote self.old (chars piece.now) self.new) }
        ensures err { OnErr result (TookPrefix Wrote self.old (chars piece.now) self.new) }
        ensures kept { OnErr result (self.new.text ≡ self.old.text) }
        ensures cause { HasCause self.old.faults self.new.faults true result }
        ensures no_fault { OnOk result (self.new.faults ≡ self.old.faults) }
        ensures scripted { IsErrOf result SinkError.Fault ↔ IsNextListed self.old }
        ensures next { self.new.pushes ≡ min (self.old.pushes + 1) (2 ^ 64 - 1) }
        ensures same_script { self.new.failing ≡ self.old.failing }
    {
        self.start_push()?;
        self.text.push_str(piece).map_err(|_| SinkError::NoMemory)?;
        Ok(())
    }

    #[tactic(auto, using(writeable_core::specs::TextLaws::pushed_char))]
    fn push_char(&mut self, c: char) -> Result<(), SinkError>
        ensures ok { OnOk result (Wrote self.old (c ∷ []) self.new) }
        ensures err { OnErr result (TookPrefix Wrote self.old (c ∷ []) self.new) }
        ensures kept { OnErr result (self.new.text ≡ self.old.text) }
        ensures cause { HasCause self.old.faults self.new.faults true result }
        ensures no_fault { OnOk result (self.new.faults ≡ self.old.faults) }
        ensures scripted { IsErrOf result SinkError.Fault ↔ IsNextListed self.old }
        ensures next { self.new.pushes ≡ min (self.old.pushes + 1) (2 ^ 64 - 1) }
        ensures same_script { self.new.failing ≡ self.old.failing }
    {
        self.start_push()?;
        self.text.push(c).map_err(|_| SinkError::NoMemory)?;
        Ok(())
    }
}
