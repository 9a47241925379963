ghost use Rattle.std.specs.Prelude.{◌≡◌, ℕ, ◌+◌, ◌≤◌, ◌↔◌, List, [], ◌∷◌, ◌++◌, Bool, false, Some};
ghost use Rattle.std.specs.Prelude.{IsOk, IsErrOf, OnOk, OnErr};
ghost use Rattle.std.specs.Str.{chars};
ghost use Rattle.std.proofs.Common.{rules};
ghost use Rattle.writeable_core.specs.Hint.{byte_length};
ghost use Rattle.writeable_core.specs.Sink.{TookPrefix, HasCause};
ghost use Rattle.writeable_sinks.specs.FixedSink.{Grew};
ghost use Rattle.writeable_sinks.specs.FixedSinkLaws.{Grew-nothing, Grew-both};
ghost use Rattle.writeable_core.specs.SinkLaws.{append_held};

use arrayvec::ArrayString;
use std::marker::Model;
use writeable_core::{Sink, SinkError};

/// A sink that holds a text of at most `N` bytes in itself. It takes no memory. A piece that
/// doesn't fit in what is free is a fault, and nothing of it is taken.
#[derive(Drop)]
pub struct FixedSink<const N: usize> {
    text: ArrayString<N>,
    faults: u64,
}

impl<const N: usize> Model for FixedSink<N> {
    ghost use Rattle.std.specs.Prelude.{◌≡◌, true};
    ghost use Rattle.std.specs.Str.{chars, is_utf8};
    ghost use Rattle.writeable_sinks.specs.FixedSink.{Holding};

    ghost Value = { Holding };

    ghost view = { λ s. record { text = chars s.text.bytes; faults = s.faults } };

    ghost invariant = { λ s. is_utf8 s.text.bytes ≡ true };
}

impl<const N: usize> FixedSink<N> {
    /// A sink that holds the empty text.
    pub fn new() -> FixedSink<N>
        ensures { result ≡ record { text = []; faults = 0 } }
    {
        FixedSink {
            text: ArrayString::new(),
            faults: 0,
        }
    }

    /// The text that it holds.
    pub fn as_str(&self) -> &str
        ensures text { chars result.now ≡ self.now.text }
        ensures fits { byte_length self.now.text ≤ N }
    {
        self.text.as_str()
    }
}

impl<const N: usize> Sink for FixedSink<N> {
    ghost took = { Grew };

    ghost held = { λ s. Some s.text };

    ghost faults = { λ s. s.faults };

    ghost takes_memory = { λ _. false };

    ghost took_nothing = { Grew-nothing };

    ghost took_both = { Grew-both };

    ghost took_held = { λ a b t h p. append_held a.text b.text t h p.text };

    ghost took_faults = { λ a b t p. p.later };

    ghost took_memory = { Prim.search rules };

    fn push_str(&mut self, piece: &str) -> Result<(), SinkError>
        ensures ok { OnOk result (Grew self.old (chars piece.now) self.new) }
        ensures err { OnErr result (TookPrefix Grew self.old (chars piece.now) self.new) }
        ensures cause { HasCause self.old.faults self.new.faults false result }
        ensures fits { IsOk result
            ↔ (byte_length self.old.text + byte_length (chars piece.now) ≤ N) }
        ensures kept { OnErr result (self.new.text ≡ self.old.text) }
        ensures no_fault { OnOk result (self.new.faults ≡ self.old.faults) }
    {
        match self.text.try_push_str(piece) {
            Ok(()) => Ok(()),
            Err(_) => {
                self.faults = self.faults.saturating_add(1);
                Err(SinkError::Fault)
            }
        }
    }

    fn push_char(&mut self, c: char) -> Result<(), SinkError>
        ensures ok { OnOk result (Grew self.old (c ∷ []) self.new) }
        ensures err { OnErr result (TookPrefix Grew self.old (c ∷ []) self.new) }
        ensures cause { HasCause self.old.faults self.new.faults false result }
        ensures fits { IsOk result ↔ (byte_length self.old.text + byte_length (c ∷ []) ≤ N) }
        ensures kept { OnErr result (self.new.text ≡ self.old.text) }
        ensures no_fault { OnOk result (self.new.faults ≡ self.old.faults) }
    {
        match self.text.try_push(c) {
            Ok(()) => Ok(()),
            Err(_) => {
                self.faults = self.faults.saturating_add(1);
                Err(SinkError::Fault)
            }
        }
    }
}
