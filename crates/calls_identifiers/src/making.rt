//! Calls that make an identifier.
//!
//! Pieces are their bytes, cut at `-` and `_`, or null where none is left. A reader of pieces
//! answers the identifier and the pieces that it left.

use crate::{errors, subtags};
use calls::answers;
use calls::answers::{Answer, Object, printed};
use calls::arguments::{Wrong, bytes, flag, list, text};
use serde_json::Value;
use std::alloc::{AllocError, Global};
use unic_langid_impl::parser::{parse_language_identifier, parse_language_identifier_from_iter};
use unic_langid_impl::subtags::Variant;
use unic_langid_impl::{LanguageIdentifier, LanguageIdentifierError, SubtagPieces, canonicalize};

/// The identifier that this text is.
pub fn made<'a>(alloc: Global, given: &'a Value) -> Result<LanguageIdentifier, Wrong<'a>> {
    parse_language_identifier(alloc, text(given)?.as_bytes()).map_err(|error| {
        errors::unread(given, error)
    })
}

/// The identifier of a language and, where they aren't null, a script and a region.
pub fn without_variants<'a>(
    alloc: Global,
    language: &'a Value,
    script: &'a Value,
    region: &'a Value,
) -> Result<LanguageIdentifier, Wrong<'a>> {
    let Some(language) = subtags::language_of(language) else {
        return Err(Wrong::Argument(language, "a language"));
    };
    let Some(script) = subtags::script_of(script) else {
        return Err(Wrong::Argument(script, "a script, or null,"));
    };
    let Some(region) = subtags::region_of(region) else {
        return Err(Wrong::Argument(region, "a region, or null,"));
    };
    LanguageIdentifier::from_parts(alloc, language, script, region, &[]).map_err(
        |_| Wrong::NoMemory,
    )
}

/// The variants that these texts are.
pub fn variants_of<'a>(alloc: Global, given: &'a Value) -> Result<Vec<Variant>, Wrong<'a>> {
    let mut variants = Vec::new(alloc);
    for given in list(given)? {
        let Some(variant) = subtags::variant_of(given) else {
            return Err(Wrong::Argument(given, "a variant"));
        };
        variants.push(variant)?;
    }
    Ok(variants)
}

/// Whether this call makes an identifier or pieces.
pub fn is_making(call: &str) -> bool {
    matches!(
        call,
        "canonicalize"
            | "LanguageIdentifier::from_bytes"
            | "LanguageIdentifier::from_json"
            | "LanguageIdentifier::from_parts"
            | "LanguageIdentifier::from_raw_parts"
            | "LanguageIdentifier::try_from_iter"
            | "parser::parse_language_identifier"
            | "parser::parse_language_identifier_from_iter"
            | "SubtagPieces::next"
            | "SubtagPieces::peek"
    )
}

/// A call that makes an identifier or pieces, by its path.
pub fn answer<'a>(alloc: Global, call: &str, arguments: &'a [Value]) -> Answer<'a> {
    match (call, arguments) {
        ("LanguageIdentifier::from_json", [given]) => Ok(of_json(alloc, given)?),
        ("SubtagPieces::next" | "SubtagPieces::peek", [given]) => of_pieces(alloc, call, given),
        (_, [given]) => of_bytes(alloc, call, &bytes(alloc, given)?),
        (
            "LanguageIdentifier::try_from_iter" | "parser::parse_language_identifier_from_iter",
            [given, allow_extension],
        ) => read_pieces(alloc, call, given, flag(allow_extension)?),
        (
            "LanguageIdentifier::from_parts" | "LanguageIdentifier::from_raw_parts",
            [language, script, region, variants],
        ) => {
            let identifier = without_variants(alloc, language, script, region)?;
            let variants = variants_of(alloc, variants)?;
            Ok(outcome(alloc, of_parts(alloc, call, identifier, variants))?)
        }
        _ => Err(Wrong::Call),
    }
}

fn of_bytes<'a>(alloc: Global, call: &str, bytes: &[u8]) -> Answer<'a> {
    let answer = match call {
        "canonicalize" => canonical(alloc, bytes),
        "LanguageIdentifier::from_bytes" => {
            outcome(alloc, LanguageIdentifier::from_bytes(alloc, bytes))
        }
        "parser::parse_language_identifier" => match parse_language_identifier(alloc, bytes) {
            Ok(identifier) => printed(alloc, &identifier),
            Err(error) => errors::refused_by_parser(alloc, error),
        },
        _ => return Err(Wrong::Call),
    };
    Ok(answer?)
}

fn canonical(alloc: Global, bytes: &[u8]) -> Result<Value, AllocError> {
    match canonicalize(alloc, bytes) {
        Ok(text) => answers::text(alloc, text.as_str()),
        Err(error) => errors::refused(alloc, error),
    }
}

fn outcome(
    alloc: Global,
    read: Result<LanguageIdentifier, LanguageIdentifierError>,
) -> Result<Value, AllocError> {
    match read {
        Ok(identifier) => printed(alloc, &identifier),
        Err(error) => errors::refused(alloc, error),
    }
}

fn of_json(alloc: Global, given: &Value) -> Result<Value, AllocError> {
    match LanguageIdentifier::from_json(alloc, given) {
        Ok(identifier) => printed(alloc, &identifier),
        Err(error) => errors::refused_json(alloc, error),
    }
}

/// The identifier of another one's subtags and these variants.
fn of_parts(
    alloc: Global,
    call: &str,
    identifier: LanguageIdentifier,
    variants: Vec<Variant>,
) -> Result<LanguageIdentifier, LanguageIdentifierError> {
    let (language, script, region, _) = identifier.into_parts();
    match call {
        "LanguageIdentifier::from_parts" => {
            LanguageIdentifier::from_parts(alloc, language, script, region, &variants)
        }
        _ => LanguageIdentifier::from_raw_parts(language, script, region, variants),
    }
}

/// The pieces, or the first of them.
fn of_pieces<'a>(alloc: Global, call: &str, given: &'a Value) -> Answer<'a> {
    let bytes = piece_bytes(alloc, given)?;
    let mut pieces = pieces_of(given, &bytes);
    match call {
        "SubtagPieces::next" => left(alloc, given, &mut pieces),
        _ => match pieces.peek() {
            Some(piece) => piece_text(alloc, given, piece),
            None => Ok(Value::Null),
        },
    }
}

/// What a reader of pieces answers.
fn read_pieces<'a>(
    alloc: Global,
    call: &str,
    given: &'a Value,
    allow_extension: bool,
) -> Answer<'a> {
    let bytes = piece_bytes(alloc, given)?;
    let mut pieces = pieces_of(given, &bytes);
    let read = match call {
        "LanguageIdentifier::try_from_iter" => {
            LanguageIdentifier::try_from_iter(alloc, &mut pieces, allow_extension)
        }
        _ => parse_language_identifier_from_iter(alloc, &mut pieces, allow_extension).map_err(
            LanguageIdentifierError::ParserError,
        ),
    };
    match read {
        Ok(identifier) => {
            let identifier = printed(alloc, &identifier)?;
            let left = left(alloc, given, &mut pieces)?;
            Ok(
                Object::new(alloc)
                    .with("identifier", identifier)?
                    .with("left", left)?
                    .value(),
            )
        }
        Err(error) => Ok(errors::refused(alloc, error)?),
    }
}

/// The bytes of pieces, none for null.
fn piece_bytes<'a>(alloc: Global, given: &'a Value) -> Result<Vec<u8>, Wrong<'a>> {
    if given.is_null() {
        return Ok(Vec::new(alloc));
    }
    bytes(alloc, given)
}

/// The pieces of these bytes, none for null.
fn pieces_of<'a>(given: &Value, bytes: &'a [u8]) -> SubtagPieces<'a> {
    let mut pieces = SubtagPieces::new(bytes);
    if given.is_null() {
        pieces.next();
    }
    pieces
}

/// The pieces that are left, each as its text.
fn left<'a>(alloc: Global, given: &'a Value, pieces: &mut SubtagPieces<'_>) -> Answer<'a> {
    let mut texts = Vec::new(alloc);
    for _ in 0..u64::MAX {
        let Some(piece) = pieces.next() else {
            break;
        };
        texts.push(piece_text(alloc, given, piece)?)?;
    }
    Ok(Value::Array(texts))
}

fn piece_text<'a>(alloc: Global, given: &'a Value, piece: &[u8]) -> Answer<'a> {
    match str::from_utf8(piece) {
        Ok(piece) => Ok(answers::text(alloc, piece)?),
        Err(_) => Err(Wrong::Argument(given, "a text's bytes in hexadecimal")),
    }
}
