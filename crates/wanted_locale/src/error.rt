ghost use Rattle.std.specs.Prelude.{◌≡◌, ◌≢◌};
ghost use Rattle.wanted_locale.specs.Words.{words_of};

use language_tags::{ParseError, ValidationError};
use thiserror::Error;
use unic_langid_impl::LanguageIdentifierError;

/// Why a tag has no locale.
#[derive(Clone, Copy, Debug, PartialEq, Eq, Error)]
pub enum TagCause {
    /// The text is no tag.
    #[error("{0}")]
    Parse(ParseError),
    /// The tag has no canonical form.
    #[error("{0}")]
    Canonical(ValidationError),
    /// The canonical form is no identifier, or its language has more than three letters.
    #[error("{0}")]
    Identifier(LanguageIdentifierError),
    /// Memory ran out.
    #[error("out of memory")]
    NoMemory,
}

impl TagCause {
    /// The cause in words.
    pub fn text(&self) -> &'static str
        ensures { result.now ≡ words_of self.now }
    {
        match self {
            TagCause::Parse(fault) => fault.text(),
            TagCause::Canonical(fault) => fault.text(),
            TagCause::Identifier(fault) => fault.text(),
            TagCause::NoMemory => "out of memory",
        }
    }

    /// The fault of a text that is no tag, as a cause.
    pub(crate) fn of_parse(fault: ParseError) -> TagCause
        ensures { result ≢ TagCause.NoMemory
            → (fault ≢ ParseError.NoMemory) × (result ≡ TagCause.Parse fault) }
    {
        match fault {
            ParseError::NoMemory => TagCause::NoMemory,
            _ => TagCause::Parse(fault),
        }
    }

    /// The fault of a tag without a canonical form, as a cause.
    pub(crate) fn of_canonical(fault: ValidationError) -> TagCause
        ensures { result ≢ TagCause.NoMemory
            → (fault ≢ ValidationError.NoMemory) × (result ≡ TagCause.Canonical fault) }
    {
        match fault {
            ValidationError::NoMemory => TagCause::NoMemory,
            _ => TagCause::Canonical(fault),
        }
    }

    /// The fault of a text that is no identifier, as a cause.
    pub(crate) fn of_identifier(fault: LanguageIdentifierError) -> TagCause
        ensures { result ≢ TagCause.NoMemory
            → (fault ≢ LanguageIdentifierError.NoMemory) × (result ≡ TagCause.Identifier fault) }
    {
        match fault {
            LanguageIdentifierError::NoMemory => TagCause::NoMemory,
            _ => TagCause::Identifier(fault),
        }
    }
}
