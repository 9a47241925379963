ghost use Rattle.std.specs.Prelude.{◌≡◌};
ghost use Rattle.reading.specs.Words.{words_of};

use thiserror::Error;

/// Why a source was not read to its end.
#[derive(Clone, Copy, Debug, PartialEq, Eq, Error)]
pub enum ReadError {
    /// The source failed.
    #[error("the source failed")]
    Fault,
    /// The source has more bytes than are read.
    #[error("the source has too many bytes")]
    TooLong,
    /// Memory ran out.
    #[error("out of memory")]
    NoMemory,
}

impl ReadError {
    /// A few words on the error.
    pub fn text(&self) -> &'static str
        ensures { result.now ≡ words_of self.now }
    {
        match self {
            ReadError::Fault => "the source failed",
            ReadError::TooLong => "the source has too many bytes",
            ReadError::NoMemory => "out of memory",
        }
    }
}
