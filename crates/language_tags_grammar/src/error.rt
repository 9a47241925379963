ghost use Rattle.std.specs.Prelude.{◌≡◌};
ghost use Rattle.language_tags_grammar.specs.Words.{words_of};

use thiserror::Error;

/// Why a text is no language tag.
#[derive(Clone, Copy, Debug, PartialEq, Eq, Error)]
pub enum ParseError {
    /// An extension's singleton has nothing behind it.
    #[error("if an extension subtag is present, it must not be empty")]
    EmptyExtension,
    /// The `x` of private use has nothing behind it.
    #[error("if the `x` subtag is present, it must not be empty")]
    EmptyPrivateUse,
    /// A private use tag has a character that is no ASCII letter, digit or `-`.
    #[error("the langtag contains a char not allowed")]
    ForbiddenChar,
    /// A subtag has no place in a tag, or none where it stands.
    #[error("a subtag fails to parse, it does not match any other subtags")]
    InvalidSubtag,
    /// The first subtag isn't two to eight ASCII letters.
    #[error("the given language subtag is invalid")]
    InvalidLanguage,
    /// A subtag has more than eight bytes.
    #[error("a subtag may be eight characters in length at maximum")]
    SubtagTooLong,
    /// A subtag has no byte.
    #[error("a subtag should not be empty")]
    EmptySubtag,
    /// There is a fourth extlang.
    #[error("at maximum three extlangs are allowed")]
    TooManyExtlangs,
    /// There was no memory for the tag.
    #[error("no memory")]
    NoMemory,
}

impl ParseError {
    /// The error in words.
    pub fn text(&self) -> &'static str
        ensures { result.now ≡ words_of self.now }
    {
        match self {
            ParseError::EmptyExtension => "if an extension subtag is present, it must not be empty",
            ParseError::EmptyPrivateUse => "if the `x` subtag is present, it must not be empty",
            ParseError::ForbiddenChar => "the langtag contains a char not allowed",
            ParseError::InvalidSubtag => {
                "a subtag fails to parse, it does not match any other subtags"
            }
            ParseError::InvalidLanguage => "the given language subtag is invalid",
            ParseError::SubtagTooLong => "a subtag may be eight characters in length at maximum",
            ParseError::EmptySubtag => "a subtag should not be empty",
            ParseError::TooManyExtlangs => "at maximum three extlangs are allowed",
            ParseError::NoMemory => "no memory",
        }
    }
}
