ghost use Rattle.std.specs.Prelude.{◌≡◌};
ghost use Rattle.tinystr.specs.Words.{words_of};

use thiserror::Error;

/// Why bytes are no text of a `TinyStr`.
#[derive(Clone, Copy, Debug, PartialEq, Eq, Error)]
pub enum TinyError {
    /// There are more bytes than the type holds.
    #[error("more bytes than fit")]
    TooLarge,
    /// Some byte is not ASCII.
    #[error("a byte that is not ASCII")]
    NonAscii,
    /// Some byte is NUL.
    #[error("a NUL byte")]
    ContainsNull,
}

impl TinyError {
    /// The error in words.
    pub fn text(&self) -> &'static str
        ensures { result.now ≡ words_of self.now }
    {
        match self {
            TinyError::TooLarge => "more bytes than fit",
            TinyError::NonAscii => "a byte that is not ASCII",
            TinyError::ContainsNull => "a NUL byte",
        }
    }
}
