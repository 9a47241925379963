ghost use Rattle.std.specs.Prelude.{◌≡◌};
ghost use Rattle.unic_langid_impl.specs.Words.{words_of_parser};

use thiserror::Error;

/// Why bytes are no identifier, or no subtag.
#[derive(Clone, Copy, Debug, PartialEq, Eq, Error)]
pub enum ParserError {
    /// The first piece is no language.
    #[error("The given language subtag is invalid")]
    InvalidLanguage,
    /// A later piece fits no place that is left.
    #[error("Invalid subtag")]
    InvalidSubtag,
    /// Memory ran out.
    #[error("Out of memory")]
    NoMemory,
}

impl ParserError {
    /// The error in words.
    pub fn text(&self) -> &'static str
        ensures { result.now ≡ words_of_parser self.now }
    {
        match self {
            ParserError::InvalidLanguage => "The given language subtag is invalid",
            ParserError::InvalidSubtag => "Invalid subtag",
            ParserError::NoMemory => "Out of memory",
        }
    }
}
