ghost use Rattle.std.specs.Prelude.{◌≡◌, ℕ, ◌≤◌, List, [], ◌∷◌, false, None, IsOk, OnOk, OnErr};
ghost use Rattle.std.specs.Str.{chars};
ghost use Rattle.std.proofs.Common.{rules};
ghost use Rattle.writeable_sinks.specs.CountSink.{Counts};
ghost use Rattle.writeable_sinks.specs.CountSinkLaws.{Counts-nothing, Counts-both};
ghost use Rattle.writeable_core.specs.Sink.{TookPrefix, HasCause};

use std::marker::Model;
use writeable_core::{Sink, SinkError};

/// A sink that counts the bytes of what it takes, up to the greatest `u64`. It tells no text, takes
/// no memory and never faults.
#[derive(Drop)]
pub struct CountSink {
    bytes: u64,
}

impl Model for CountSink {
    ghost use Rattle.std.specs.Prelude.{ℕ};

    ghost Value = { ℕ };

    ghost view = { λ s. s.bytes };
}

impl CountSink {
    /// A sink that has taken nothing.
    pub fn new() -> CountSink
        ensures { result ≡ 0 }
    {
        CountSink { bytes: 0 }
    }

    /// How many bytes it has taken.
    pub fn bytes(&self) -> u64
        ensures { result ≡ self.now }
    {
        self.bytes
    }
}

impl Sink for CountSink {
    ghost took = { Counts };

    ghost held = { λ _. None };

    ghost faults = { λ _. 0 };

    ghost takes_memory = { λ _. false };

    ghost took_nothing = { Counts-nothing };

    ghost took_both = { Counts-both };

    ghost took_held = { λ a b t h p q. Prim.cc };

    ghost took_faults = { Prim.search rules };

    ghost took_memory = { Prim.search rules };

    fn push_str(&mut self, piece: &str) -> Result<(), SinkError>
        ensures ok { OnOk result (Counts self.old (chars piece.now) self.new) }
        ensures err { OnErr result (TookPrefix Counts self.old (chars piece.now) self.new) }
        ensures cause { HasCause 0 0 false result }
        ensures never_fails { IsOk result }
    {
        self.bytes = self.bytes.saturating_add(piece.len() as u64);
        Ok(())
    }

    fn push_char(&mut self, c: char) -> Result<(), SinkError>
        ensures ok { OnOk result (Counts self.old (c ∷ []) self.new) }
        ensures err { OnErr result (TookPrefix Counts self.old (c ∷ []) self.new) }
        ensures cause { HasCause 0 0 false result }
        ensures never_fails { IsOk result }
    {
        self.bytes = self.bytes.saturating_add(c.len_utf8() as u64);
        Ok(())
    }
}
