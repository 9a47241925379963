//! Why a pattern is no condition.

ghost use Rattle.std.specs.Prelude.{◌≡◌};
ghost use Rattle.lazy_dfa.specs.Words.{words_of};

use std::alloc::AllocError;
use thiserror::Error;

/// Why a pattern is no condition: the first of these that holds.
#[derive(Clone, Copy, Debug, PartialEq, Eq, Error)]
pub enum ConditionError {
    /// The pattern doesn't begin with `^`.
    #[error("Only anchored regexes (starting with ^) are supported")]
    NotAnchored,
    /// More than 64 characters stand behind the `^`.
    #[error("condition too long")]
    TooLong,
    /// What stands behind the `^` isn't in the syntax. The longest prefix of it that is has so many
    /// characters.
    #[error("condition syntax")]
    Syntax(usize),
    /// Memory ran out.
    #[error("out of memory")]
    NoMemory,
}

impl ConditionError {
    /// A few words on the error.
    pub fn text(&self) -> &'static str
        ensures { result.now ≡ words_of self.now }
    {
        match self {
            ConditionError::NotAnchored => "Only anchored regexes (starting with ^) are supported",
            ConditionError::TooLong => "condition too long",
            ConditionError::Syntax(_) => "condition syntax",
            ConditionError::NoMemory => "out of memory",
        }
    }
}
