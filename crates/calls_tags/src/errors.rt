//! Errors of tags and registries, by their names. Those of an inner error are the outer one's.

use calls::answers;
use calls::answers::Answer;
use calls::arguments::{Wrong, text};
use language_tags::{ParseError, RegistryError, SubtagError, TagJsonError, ValidationError};
use serde_json::Value;
use std::alloc::{AllocError, Global};

/// An error's words, by its type and its name.
pub fn answer<'a>(alloc: Global, call: &str, arguments: &'a [Value]) -> Answer<'a> {
    let [given] = arguments else {
        return Err(Wrong::Call);
    };
    let words = match call {
        "ParseError::text" => parse_error(given)?.text(),
        "ValidationError::text" => validation_error(given)?.text(),
        "RegistryError::text" => registry_error(given)?.text(),
        "SubtagError::text" => subtag_error(given)?.text(),
        "TagJsonError::text" => json_error(given)?.text(),
        _ => return Err(Wrong::Call),
    };
    Ok(answers::text(alloc, words)?)
}

fn parse_error(given: &Value) -> Result<ParseError, Wrong<'_>> {
    match text(given)? {
        "EmptyExtension" => Ok(ParseError::EmptyExtension),
        "EmptyPrivateUse" => Ok(ParseError::EmptyPrivateUse),
        "ForbiddenChar" => Ok(ParseError::ForbiddenChar),
        "InvalidSubtag" => Ok(ParseError::InvalidSubtag),
        "InvalidLanguage" => Ok(ParseError::InvalidLanguage),
        "SubtagTooLong" => Ok(ParseError::SubtagTooLong),
        "EmptySubtag" => Ok(ParseError::EmptySubtag),
        "TooManyExtlangs" => Ok(ParseError::TooManyExtlangs),
        "NoMemory" => Ok(ParseError::NoMemory),
        _ => Err(Wrong::Argument(given, "the name of an error")),
    }
}

fn validation_error(given: &Value) -> Result<ValidationError, Wrong<'_>> {
    match text(given)? {
        "DuplicateVariant" => Ok(ValidationError::DuplicateVariant),
        "DuplicateExtension" => Ok(ValidationError::DuplicateExtension),
        "MultipleExtendedLanguageSubtags" => Ok(ValidationError::MultipleExtendedLanguageSubtags),
        "PrimaryLanguageNotInRegistry" => Ok(ValidationError::PrimaryLanguageNotInRegistry),
        "ExtendedLanguageNotInRegistry" => Ok(ValidationError::ExtendedLanguageNotInRegistry),
        "ScriptNotInRegistry" => Ok(ValidationError::ScriptNotInRegistry),
        "RegionNotInRegistry" => Ok(ValidationError::RegionNotInRegistry),
        "VariantNotInRegistry" => Ok(ValidationError::VariantNotInRegistry),
        "WrongExtendedLanguagePrefix" => Ok(ValidationError::WrongExtendedLanguagePrefix),
        "WrongVariantPrefix" => Ok(ValidationError::WrongVariantPrefix),
        "NoMemory" => Ok(ValidationError::NoMemory),
        _ => Err(Wrong::Argument(given, "the name of an error")),
    }
}

fn registry_error(given: &Value) -> Result<RegistryError, Wrong<'_>> {
    match text(given)? {
        "DuplicateKey" => Ok(RegistryError::DuplicateKey(0, 0)),
        "BadKey" => Ok(RegistryError::BadKey(0, 0)),
        "BadValue" => Ok(RegistryError::BadValue(0, 0)),
        "NoMemory" => Ok(RegistryError::NoMemory),
        _ => Err(Wrong::Argument(given, "the name of an error")),
    }
}

fn subtag_error(given: &Value) -> Result<SubtagError, Wrong<'_>> {
    match text(given)? {
        "Malformed" => Ok(SubtagError::Malformed),
        _ => Err(Wrong::Argument(given, "the name of an error")),
    }
}

fn json_error(given: &Value) -> Result<TagJsonError, Wrong<'_>> {
    match text(given)? {
        "NotText" => Ok(TagJsonError::NotText),
        "NoMemory" => Ok(TagJsonError::NoMemory),
        _ => Ok(TagJsonError::Parse(parse_error(given)?)),
    }
}

/// The error of a text that is no tag, as an answer.
pub fn refused(alloc: Global, error: ParseError) -> Result<Value, AllocError> {
    let name = match error {
        ParseError::EmptyExtension => "EmptyExtension",
        ParseError::EmptyPrivateUse => "EmptyPrivateUse",
        ParseError::ForbiddenChar => "ForbiddenChar",
        ParseError::InvalidSubtag => "InvalidSubtag",
        ParseError::InvalidLanguage => "InvalidLanguage",
        ParseError::SubtagTooLong => "SubtagTooLong",
        ParseError::EmptySubtag => "EmptySubtag",
        ParseError::TooManyExtlangs => "TooManyExtlangs",
        ParseError::NoMemory => return Err(AllocError),
    };
    answers::refused(alloc, name)
}

/// The error of a JSON value, as an answer.
pub fn refused_json(alloc: Global, error: TagJsonError) -> Result<Value, AllocError> {
    match error {
        TagJsonError::NotText => answers::refused(alloc, "NotText"),
        TagJsonError::Parse(error) => refused(alloc, error),
        TagJsonError::NoMemory => Err(AllocError),
    }
}

/// The error of a tag over a registry, as an answer.
pub fn refused_by_registry(alloc: Global, error: ValidationError) -> Result<Value, AllocError> {
    let name = match error {
        ValidationError::DuplicateVariant => "DuplicateVariant",
        ValidationError::DuplicateExtension => "DuplicateExtension",
        ValidationError::MultipleExtendedLanguageSubtags => "MultipleExtendedLanguageSubtags",
        ValidationError::PrimaryLanguageNotInRegistry => "PrimaryLanguageNotInRegistry",
        ValidationError::ExtendedLanguageNotInRegistry => "ExtendedLanguageNotInRegistry",
        ValidationError::ScriptNotInRegistry => "ScriptNotInRegistry",
        ValidationError::RegionNotInRegistry => "RegionNotInRegistry",
        ValidationError::VariantNotInRegistry => "VariantNotInRegistry",
        ValidationError::WrongExtendedLanguagePrefix => "WrongExtendedLanguagePrefix",
        ValidationError::WrongVariantPrefix => "WrongVariantPrefix",
        ValidationError::NoMemory => return Err(AllocError),
    };
    answers::refused(alloc, name)
}

/// The error of rows that make no registry, as an answer.
pub fn refused_rows(alloc: Global, error: RegistryError) -> Result<Value, AllocError> {
    match error {
        RegistryError::DuplicateKey(table, row) => {
            answers::refused_at(alloc, "DuplicateKey", [table, row])
        }
        RegistryError::BadKey(table, row) => answers::refused_at(alloc, "BadKey", [table, row]),
        RegistryError::BadValue(table, row) => answers::refused_at(alloc, "BadValue", [table, row]),
        RegistryError::NoMemory => Err(AllocError),
    }
}
