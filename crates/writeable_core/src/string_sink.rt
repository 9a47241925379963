ghost use Rattle.std.specs.Prelude.{◌≡◌, ℕ, ◌≤◌, List, [], ◌∷◌, ◌++◌, Bool, true, Some, IfOk};
ghost use Rattle.std.specs.Prelude.{IsErrOf, OnOk, OnErr, string_bytes};
ghost use Rattle.std.specs.Str.{chars};
ghost use Rattle.std.proofs.Common.{rules};
ghost use Rattle.writeable_core.specs.Sink.{TookPrefix, HasCause};
ghost use Rattle.writeable_core.specs.SinkLaws.{append_nothing, append_both, append_held};

use crate::{Sink, SinkError};
use std::alloc::{AllocError, Global};
use std::marker::Model;

/// A sink that holds a text in memory. It never faults.
#[derive(Drop)]
pub struct StringSink {
    text: String,
}

impl Model for StringSink {
    ghost use Rattle.std.specs.Prelude.{ℕ, List, string_bytes};
    ghost use Rattle.std.specs.Str.{chars};

    ghost Value = { List ℕ };

    ghost view = { λ s. chars (string_bytes s.text) };
}

impl StringSink {
    /// A sink that holds the empty text.
    pub fn new(alloc: Global) -> StringSink
        ensures { result ≡ [] }
    {
        StringSink {
            text: String::new(alloc),
        }
    }

    /// A sink that holds the empty text, and has asked for room for so many bytes.
    pub fn with_capacity(alloc: Global, capacity: usize) -> Result<StringSink, AllocError>
        ensures { IfOk result (λ sink. sink ≡ []) }
    {
        Ok(StringSink {
            text: String::with_capacity(alloc, capacity)?,
        })
    }

    /// The text that it holds.
    pub fn as_str(&self) -> &str
        ensures { chars result.now ≡ self.now }
    {
        self.text.as_str()
    }

    /// The text that it holds, without a copy.
    pub fn into_string(self) -> String
        ensures { chars (string_bytes result) ≡ self }
    {
        self.text
    }
}

impl Sink for StringSink {
    ghost took = { λ a t b. b ≡ a ++ t };

    ghost held = { Some };

    ghost faults = { λ _. 0 };

    ghost takes_memory = { λ _. true };

    ghost took_nothing = { append_nothing };

    ghost took_both = { append_both };

    ghost took_held = { append_held };

    ghost took_faults = { Prim.search rules };

    ghost took_memory = { Prim.search rules };

    #[tactic(auto, using(crate::specs::TextLaws::pushed_str))]
    fn push_str(&mut self, piece: &str) -> Result<(), SinkError>
        ensures ok { OnOk result (self.new ≡ self.old ++ chars piece.now) }
        ensures err { OnErr result
            (TookPrefix (λ a t b. b ≡ a ++ t) self.old (chars piece.now) self.new) }
        ensures kept { OnErr result (self.new ≡ self.old) }
        ensures cause { HasCause 0 0 true result }
        ensures never_faults { IsErrOf result SinkError.Fault → ⊥ }
    {
        self.text.push_str(piece).map_err(|_| SinkError::NoMemory)?;
        Ok(())
    }

    #[tactic(auto, using(crate::specs::TextLaws::pushed_char))]
    fn push_char(&mut self, c: char) -> Result<(), SinkError>
        ensures ok { OnOk result (self.new ≡ self.old ++ c ∷ []) }
        ensures err { OnErr result (TookPrefix (λ a t b. b ≡ a ++ t) self.old (c ∷ []) self.new) }
        ensures kept { OnErr result (self.new ≡ self.old) }
        ensures cause { HasCause 0 0 true result }
        ensures never_faults { IsErrOf result SinkError.Fault → ⊥ }
    {
        self.text.push(c).map_err(|_| SinkError::NoMemory)?;
        Ok(())
    }
}
