ghost use Rattle.std.specs.Prelude.{◌≡◌};
ghost use Rattle.unic_langid_impl.specs.Outer.{outer_of};
ghost use Rattle.unic_langid_impl.specs.Words.{words_of};

use crate::ParserError;
use thiserror::Error;

/// Why bytes are no identifier, or why none can be made.
#[derive(Clone, Copy, Debug, PartialEq, Eq, Error)]
pub enum LanguageIdentifierError {
    /// Never answered; kept for its name.
    #[error("Unknown error")]
    Unknown,
    /// What the parser refused.
    #[error("Parser error: {0}")]
    ParserError(ParserError),
    /// Memory ran out.
    #[error("Out of memory")]
    NoMemory,
}

impl LanguageIdentifierError {
    /// The error in words.
    pub fn text(&self) -> &'static str
        ensures { result.now ≡ words_of self.now }
    {
        match self {
            LanguageIdentifierError::Unknown => "Unknown error",
            LanguageIdentifierError::ParserError(ParserError::InvalidLanguage) => {
                "Parser error: The given language subtag is invalid"
            }
            LanguageIdentifierError::ParserError(ParserError::InvalidSubtag) => {
                "Parser error: Invalid subtag"
            }
            LanguageIdentifierError::ParserError(ParserError::NoMemory)
            | LanguageIdentifierError::NoMemory => "Out of memory",
        }
    }

    /// The error of the parser as one of an identifier.
    pub(crate) fn of_parser(error: ParserError) -> LanguageIdentifierError
        ensures { result ≡ outer_of error }
    {
        match error {
            ParserError::NoMemory => LanguageIdentifierError::NoMemory,
            error => LanguageIdentifierError::ParserError(error),
        }
    }
}
