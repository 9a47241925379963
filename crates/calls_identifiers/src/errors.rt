//! Errors of identifiers, by their names. Those of an inner error are the outer one's.

use calls::answers;
use calls::answers::Answer;
use calls::arguments::{Wrong, text};
use serde_json::Value;
use std::alloc::{AllocError, Global};
use unic_langid_impl::{IdJsonError, LanguageIdentifierError, LikelyError, ParserError};

/// An error's words, by its type and its name.
pub fn answer<'a>(alloc: Global, call: &str, arguments: &'a [Value]) -> Answer<'a> {
    let [given] = arguments else {
        return Err(Wrong::Call);
    };
    let words = match call {
        "ParserError::text" => parser_error(given)?.text(),
        "LanguageIdentifierError::text" => identifier_error(given)?.text(),
        "IdJsonError::text" => json_error(given)?.text(),
        "LikelyError::text" => likely_error(given)?.text(),
        _ => return Err(Wrong::Call),
    };
    Ok(answers::text(alloc, words)?)
}

const PARSER_ERRORS: [ParserError; 3] = [
    ParserError::InvalidLanguage,
    ParserError::InvalidSubtag,
    ParserError::NoMemory,
];

fn parser_name(error: ParserError) -> &'static str {
    match error {
        ParserError::InvalidLanguage => "InvalidLanguage",
        ParserError::InvalidSubtag => "InvalidSubtag",
        ParserError::NoMemory => "NoMemory",
    }
}

fn parser_error(given: &Value) -> Result<ParserError, Wrong<'_>> {
    let text = text(given)?;
    for error in PARSER_ERRORS {
        if parser_name(error) == text {
            return Ok(error);
        }
    }
    Err(Wrong::Argument(given, "the name of an error"))
}

fn identifier_error(given: &Value) -> Result<LanguageIdentifierError, Wrong<'_>> {
    match text(given)? {
        "Unknown" => Ok(LanguageIdentifierError::Unknown),
        "NoMemory" => Ok(LanguageIdentifierError::NoMemory),
        _ => Ok(LanguageIdentifierError::ParserError(parser_error(given)?)),
    }
}

fn json_error(given: &Value) -> Result<IdJsonError, Wrong<'_>> {
    match text(given)? {
        "NotText" => Ok(IdJsonError::NotText),
        "NoMemory" => Ok(IdJsonError::NoMemory),
        _ => Ok(IdJsonError::Parse(parser_error(given)?)),
    }
}

const LIKELY_ERRORS: [LikelyError; 3] = [
    LikelyError::DuplicateKey(0, 0),
    LikelyError::BadEntry(0, 0),
    LikelyError::NoMemory,
];

pub fn likely_name(error: LikelyError) -> &'static str {
    match error {
        LikelyError::DuplicateKey(..) => "DuplicateKey",
        LikelyError::BadEntry(..) => "BadEntry",
        LikelyError::NoMemory => "NoMemory",
    }
}

fn likely_error(given: &Value) -> Result<LikelyError, Wrong<'_>> {
    let text = text(given)?;
    for error in LIKELY_ERRORS {
        if likely_name(error) == text {
            return Ok(error);
        }
    }
    Err(Wrong::Argument(given, "the name of an error"))
}

/// The parser's error as an answer.
pub fn refused_by_parser(alloc: Global, error: ParserError) -> Result<Value, AllocError> {
    match error {
        ParserError::NoMemory => Err(AllocError),
        _ => answers::refused(alloc, parser_name(error)),
    }
}

/// The error as an answer.
pub fn refused(alloc: Global, error: LanguageIdentifierError) -> Result<Value, AllocError> {
    match error {
        LanguageIdentifierError::Unknown => answers::refused(alloc, "Unknown"),
        LanguageIdentifierError::ParserError(error) => refused_by_parser(alloc, error),
        LanguageIdentifierError::NoMemory => Err(AllocError),
    }
}

/// The error of a JSON value as an answer.
pub fn refused_json(alloc: Global, error: IdJsonError) -> Result<Value, AllocError> {
    match error {
        IdJsonError::NotText => answers::refused(alloc, "NotText"),
        IdJsonError::Parse(error) => refused_by_parser(alloc, error),
        IdJsonError::NoMemory => Err(AllocError),
    }
}

/// What is wrong with an argument that makes no identifier or no subtag.
pub fn unread(given: &Value, error: ParserError) -> Wrong<'_> {
    match error {
        ParserError::NoMemory => Wrong::NoMemory,
        _ => Wrong::Refused(given, parser_name(error)),
    }
}
