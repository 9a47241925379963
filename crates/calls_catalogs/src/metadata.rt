//! Calls of metadata, which are their text, of encodings, and of the errors of `gettext`.

use calls::answers;
use calls::answers::Answer;
use calls::arguments::{Wrong, text};
use gettext::{Encoding, Error, MetadataMap, parse_metadata};
use serde_json::Value;
use std::alloc::Global;

/// A call by its path.
pub fn answer<'a>(alloc: Global, call: &str, arguments: &'a [Value]) -> Answer<'a> {
    match (call, arguments) {
        ("Encoding::from_label", [label]) => {
            let name = Encoding::from_label(text(label)?).map(encoding_name);
            Ok(answers::optional_text(alloc, name)?)
        }
        ("Error::text", [name]) => Ok(answers::text(alloc, error_of(name)?.text())?),
        ("parse_metadata", [blob]) => match parse_metadata(alloc, text(blob)?) {
            Ok(_) => Ok(Value::Null),
            Err(error) => refused(alloc, error),
        },
        (_, [blob, others @ ..]) => match parse_metadata(alloc, text(blob)?) {
            Ok(map) => of_map(alloc, call, &map, others),
            Err(error) => Err(unread(blob, error)),
        },
        _ => Err(Wrong::Call),
    }
}

fn of_map<'a>(alloc: Global, call: &str, map: &MetadataMap<'_>, others: &'a [Value]) -> Answer<'a> {
    let answer = match (call, others) {
        ("MetadataMap::get", [name]) => answers::optional_text(alloc, map.get(text(name)?)),
        ("MetadataMap::charset", []) => answers::optional_text(alloc, map.charset()),
        ("MetadataMap::plural_forms", []) => {
            let (count, rule) = map.plural_forms();
            let rule = answers::optional_text(alloc, rule)?;
            answers::list(alloc, [answers::optional_size(count), rule])
        }
        _ => return Err(Wrong::Call),
    };
    Ok(answer?)
}

const ENCODINGS: [Encoding; 3] = [Encoding::Utf8, Encoding::Latin1, Encoding::Windows1252];

fn encoding_name(encoding: Encoding) -> &'static str {
    match encoding {
        Encoding::Utf8 => "Utf8",
        Encoding::Latin1 => "Latin1",
        Encoding::Windows1252 => "Windows1252",
    }
}

/// The encoding with this name.
pub fn encoding_of(given: &Value) -> Result<Encoding, Wrong<'_>> {
    let text = text(given)?;
    for encoding in ENCODINGS {
        if encoding_name(encoding) == text {
            return Ok(encoding);
        }
    }
    Err(Wrong::Argument(given, "Utf8, Latin1 or Windows1252"))
}

/// The error as an answer.
pub fn refused<'a>(alloc: Global, error: Error) -> Answer<'a> {
    match error {
        Error::NoMemory => Err(Wrong::NoMemory),
        _ => Ok(answers::refused(alloc, name(error))?),
    }
}

/// What is wrong with an argument that makes no catalog or no metadata.
pub fn unread(given: &Value, error: Error) -> Wrong<'_> {
    match error {
        Error::NoMemory => Wrong::NoMemory,
        _ => Wrong::Refused(given, name(error)),
    }
}

const ERRORS: [Error; 10] = [
    Error::BadMagic,
    Error::DecodingError,
    Error::Eof,
    Error::Io,
    Error::MalformedMetadata,
    Error::MisplacedMetadata,
    Error::PluralParsing,
    Error::UnknownEncoding,
    Error::TooLong,
    Error::NoMemory,
];

pub fn name(error: Error) -> &'static str {
    match error {
        Error::BadMagic => "BadMagic",
        Error::DecodingError => "DecodingError",
        Error::Eof => "Eof",
        Error::Io => "Io",
        Error::MalformedMetadata => "MalformedMetadata",
        Error::MisplacedMetadata => "MisplacedMetadata",
        Error::PluralParsing => "PluralParsing",
        Error::UnknownEncoding => "UnknownEncoding",
        Error::TooLong => "TooLong",
        Error::NoMemory => "NoMemory",
    }
}

/// The error with this name.
pub fn error_of(given: &Value) -> Result<Error, Wrong<'_>> {
    let text = text(given)?;
    for error in ERRORS {
        if name(error) == text {
            return Ok(error);
        }
    }
    Err(Wrong::Argument(given, "the name of an error"))
}
