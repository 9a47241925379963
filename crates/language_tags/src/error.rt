ghost use Rattle.std.specs.Prelude.{◌≡◌};
ghost use Rattle.language_tags.specs.Words.{words_of, words_of_json};

use language_tags_grammar::ParseError;
use thiserror::Error;

/// Why a JSON value is no language tag.
#[derive(Clone, Copy, Debug, PartialEq, Eq, Error)]
pub enum TagJsonError {
    /// The value is no text.
    #[error("not a text")]
    NotText,
    /// The text is no tag.
    #[error("{0}")]
    Parse(ParseError),
    /// There was no memory for the tag.
    #[error("no memory")]
    NoMemory,
}

impl TagJsonError {
    /// The error in words.
    pub fn text(&self) -> &'static str
        ensures { result.now ≡ words_of_json self.now }
    {
        match self {
            TagJsonError::NotText => "not a text",
            TagJsonError::Parse(fault) => fault.text(),
            TagJsonError::NoMemory => "no memory",
        }
    }
}

/// Why a tag isn't valid over a registry, or has no canonical form.
#[derive(Clone, Copy, Debug, PartialEq, Eq, Error)]
pub enum ValidationError {
    /// A variant stands twice.
    #[error("a variant subtag may not be repeated")]
    DuplicateVariant,
    /// A singleton stands twice.
    #[error("an extension's singleton may not be repeated")]
    DuplicateExtension,
    /// There are two extlangs or more.
    #[error("only one extended language subtag is allowed")]
    MultipleExtendedLanguageSubtags,
    /// The registry doesn't have the language.
    #[error("the primary language is not in the registry")]
    PrimaryLanguageNotInRegistry,
    /// The registry doesn't have the extlang.
    #[error("the extended language is not in the registry")]
    ExtendedLanguageNotInRegistry,
    /// The registry doesn't have the script.
    #[error("the script is not in the registry")]
    ScriptNotInRegistry,
    /// The registry doesn't have the region.
    #[error("the region is not in the registry")]
    RegionNotInRegistry,
    /// The registry doesn't have a variant.
    #[error("a variant is not in the registry")]
    VariantNotInRegistry,
    /// The prefix of the extlang doesn't begin the tag.
    #[error("the extended language is not behind its prefix")]
    WrongExtendedLanguagePrefix,
    /// No prefix of a variant begins the tag.
    #[error("a variant is not behind one of its prefixes")]
    WrongVariantPrefix,
    /// There was no memory for the tag.
    #[error("no memory")]
    NoMemory,
}

impl ValidationError {
    /// The error in words.
    pub fn text(&self) -> &'static str
        ensures { result.now ≡ words_of self.now }
    {
        match self {
            ValidationError::DuplicateVariant => "a variant subtag may not be repeated",
            ValidationError::DuplicateExtension => "an extension's singleton may not be repeated",
            ValidationError::MultipleExtendedLanguageSubtags => {
                "only one extended language subtag is allowed"
            }
            ValidationError::PrimaryLanguageNotInRegistry => {
                "the primary language is not in the registry"
            }
            ValidationError::ExtendedLanguageNotInRegistry => {
                "the extended language is not in the registry"
            }
            ValidationError::ScriptNotInRegistry => "the script is not in the registry",
            ValidationError::RegionNotInRegistry => "the region is not in the registry",
            ValidationError::VariantNotInRegistry => "a variant is not in the registry",
            ValidationError::WrongExtendedLanguagePrefix => {
                "the extended language is not behind its prefix"
            }
            ValidationError::WrongVariantPrefix => "a variant is not behind one of its prefixes",
            ValidationError::NoMemory => "no memory",
        }
    }
}
