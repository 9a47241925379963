ghost use Rattle.std.specs.Prelude.{◌≡◌, ℕ, ◌+◌, ◌≤◌, Bool, List, [], ◌∷◌, ◌++◌, Option, Some};
ghost use Rattle.std.specs.Prelude.{OnOk, OnErr};
ghost use Rattle.std.specs.Str.{chars};
ghost use Rattle.writeable_core.specs.Sink.{TookPrefix, HasCause};
ghost use Rattle.writeable_core.specs.SinkLaws.{front_of_longer, front_after};
ghost use Rattle.writeable_core.specs.Words.{words_of};

use thiserror::Error;

/// Why a sink took less than a whole piece.
#[derive(Clone, Copy, Debug, PartialEq, Eq, Error)]
pub enum SinkError {
    /// What stands behind the sink refused.
    #[error("write fault")]
    Fault,
    /// The sink found no memory.
    #[error("no memory")]
    NoMemory,
}

impl SinkError {
    /// A few words on the error.
    pub fn text(&self) -> &'static str
        ensures { result.now ≡ words_of self.now }
    {
        match self {
            SinkError::Fault => "write fault",
            SinkError::NoMemory => "no memory",
        }
    }
}

/// What texts are written to, a piece at a time.
///
/// An `Ok` took the whole piece, and an error a prefix of it. A `Fault` comes only where the count
/// of faults rose in the call, and `NoMemory` only from a sink that takes memory.
pub trait Sink {
    /// The sink before, the characters that it took, and the sink after.
    ghost took: { Self → List ℕ → Self → Type 0 };

    /// The text that it holds, where the sink tells it.
    ghost held: { Self → Option (List ℕ) };

    /// How many calls have failed so far.
    ghost faults: { Self → ℕ };

    /// Whether a call may ask for memory.
    ghost takes_memory: { Self → Bool };

    /// Takes a text.
    fn push_str(&mut self, piece: &str) -> Result<(), SinkError>
        ensures ok { OnOk result (took self.old (chars piece.now) self.new) }
        ensures err { OnErr result (TookPrefix took self.old (chars piece.now) self.new) }
        ensures cause { HasCause (faults self.old) (faults self.new)
            (takes_memory self.old) result };

    /// Takes a character.
    fn push_char(&mut self, c: char) -> Result<(), SinkError>
        ensures ok { OnOk result (took self.old (c ∷ []) self.new) }
        ensures err { OnErr result (TookPrefix took self.old (c ∷ []) self.new) }
        ensures cause { HasCause (faults self.old) (faults self.new)
            (takes_memory self.old) result };

    ghost took_nothing: { (s : Self) → took s [] s };

    ghost took_both: { (a b c : Self) (s t : List ℕ) → took a s b → took b t c
        → took a (s ++ t) c };

    ghost took_held: { (a b : Self) (t h : List ℕ) → took a t b → held a ≡ Some h
        → held b ≡ Some (h ++ t) };

    ghost took_faults: { (a b : Self) (t : List ℕ) → took a t b → faults a ≤ faults b };

    ghost took_memory: { (a b : Self) (t : List ℕ) → took a t b → takes_memory b ≡ takes_memory a };

    /// A front of a text is a front of what begins with it.
    ghost front_longer: { (a b : Self) (s t : List ℕ) → TookPrefix took a s b
        → TookPrefix took a (s ++ t) b } = { λ a b s t p. front_of_longer s t p };

    /// A text, and then a front of another.
    ghost front_behind: { (a b c : Self) (s t : List ℕ) → took a s b → TookPrefix took b t c
        → TookPrefix took a (s ++ t) c } = { λ a b c s t p q. front_after s t took_both p q };
}
