//! Why a catalog could not be read.

ghost use Rattle.std.specs.Prelude.{◌≡◌, Some};
ghost use Rattle.gettext.specs.declared.error.Error.TheVariants.{NoMemory};
ghost use Rattle.gettext.specs.Errors.{words_of};

use std::alloc::{AllocError, AllocFailed};
use std::fmt;

/// What is wrong with the bytes of a file, or with reading them.
#[derive(Clone, Copy, Debug, PartialEq, Eq)]
pub enum Error {
    /// The file doesn't begin with the magic number of MO files.
    BadMagic,
    /// A text isn't valid in its encoding.
    DecodingError,
    /// Something that the file names lies past its end.
    Eof,
    /// The source failed.
    Io,
    /// A line of the metadata has no colon.
    MalformedMetadata,
    /// An empty id stands past the first row.
    MisplacedMetadata,
    /// A plural expression isn't in the grammar.
    PluralParsing,
    /// The metadata names an encoding that isn't known.
    UnknownEncoding,
    /// The source has more bytes than are read.
    TooLong,
    /// Memory ran out.
    NoMemory,
}

impl Error {
    /// The error in words, with no words of another error before them.
    pub fn text(&self) -> &'static str
        ensures { result.now ≡ words_of self.now }
    {
        match self {
            Error::BadMagic => "bad magic number",
            Error::DecodingError => "invalid byte sequence in a string",
            Error::Eof => "unxpected end of file",
            Error::Io => "the source failed",
            Error::MalformedMetadata => "metadata syntax error",
            Error::MisplacedMetadata => "misplaced metadata",
            Error::PluralParsing => "invalid plural expression",
            Error::UnknownEncoding => "unknown encoding specified",
            Error::TooLong => "the source has too many bytes",
            Error::NoMemory => "out of memory",
        }
    }
}

impl From<AllocError> for Error {
    ghost from_gives = { λ _ e. e ≡ NoMemory };

    fn from(_e: AllocError) -> Error {
        Error::NoMemory
    }
}

impl<T: Drop> From<AllocFailed<T>> for Error {
    ghost from_gives = { λ _ e. e ≡ NoMemory };

    fn from(_e: AllocFailed<T>) -> Error {
        Error::NoMemory
    }
}

impl fmt::Display for Error {
    ghost output = { λ e. Some (words_of e) };

    fn fmt<W: fmt::Write>(&self, f: &mut fmt::Formatter<W>) -> fmt::Result {
        f.pad(self.text())
    }
}

impl std::error::Error for Error {}
