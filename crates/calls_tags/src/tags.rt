//! Calls of a tag: its parts, what it matches, and its JSON form.

use crate::errors;
use calls::answers;
use calls::answers::Answer;
use calls::arguments::{Wrong, text};
use language_tags::{LanguageTag, ParseError, SubtagsIter};
use serde_json::Value;
use std::alloc::{AllocError, Global};

/// The tag that an argument is.
pub fn tag<'a>(alloc: Global, given: &'a Value) -> Result<LanguageTag, Wrong<'a>> {
    LanguageTag::parse(alloc, text(given)?).map_err(|error| match error {
        ParseError::NoMemory => Wrong::NoMemory,
        _ => Wrong::Refused(given, error.text()),
    })
}

/// The printed tag.
pub fn printed(alloc: Global, tag: &LanguageTag) -> Result<Value, AllocError> {
    answers::text(alloc, tag.as_str())
}

/// A call of a tag, by its name.
pub fn answer<'a>(alloc: Global, call: &str, arguments: &'a [Value]) -> Answer<'a> {
    let answer = match (call, arguments) {
        ("parse", [given]) => match LanguageTag::parse(alloc, text(given)?) {
            Ok(tag) => printed(alloc, &tag),
            Err(error) => errors::refused(alloc, error),
        },
        ("from_json", [given]) => match LanguageTag::from_json(alloc, given) {
            Ok(tag) => printed(alloc, &tag),
            Err(error) => errors::refused_json(alloc, error),
        },
        ("matches", [range, other]) => return matches(alloc, range, other),
        ("eq", [left, right]) => {
            let (left, right) = (tag(alloc, left)?, tag(alloc, right)?);
            Ok(Value::Bool(left == right))
        }
        (_, [given]) => return of_tag(alloc, call, tag(alloc, given)?),
        _ => return Err(Wrong::Call),
    };
    Ok(answer?)
}

/// Whether a range matches a tag.
fn matches<'a>(alloc: Global, given: &'a Value, other: &'a Value) -> Answer<'a> {
    let range = tag(alloc, given)?;
    let other = tag(alloc, other)?;
    if !range.is_language_range() {
        return Err(Wrong::Argument(given, "a tag without extensions and private use"));
    }
    Ok(Value::Bool(range.matches(&other)))
}

fn of_tag<'a>(alloc: Global, call: &str, tag: LanguageTag) -> Answer<'a> {
    let answer = match call {
        "as_str" => printed(alloc, &tag),
        "to_string" => answers::printed(alloc, &tag),
        "into_string" => Ok(Value::String(tag.into_string())),
        "try_clone" => printed(alloc, &tag.try_clone(alloc)?),
        "to_json" => tag.to_json(alloc),
        "is_language_range" => Ok(Value::Bool(tag.is_language_range())),
        "primary_language" => answers::text(alloc, tag.primary_language()),
        "full_language" => answers::text(alloc, tag.full_language()),
        "without_extensions" => answers::text(alloc, tag.without_extensions()),
        _ => return of_part(alloc, call, &tag),
    };
    Ok(answer?)
}

/// A part of a tag, or the pieces of one.
fn of_part<'a>(alloc: Global, call: &str, tag: &LanguageTag) -> Answer<'a> {
    let answer = match call {
        "extended_language" => answers::optional_text(alloc, tag.extended_language()),
        "script" => answers::optional_text(alloc, tag.script()),
        "region" => answers::optional_text(alloc, tag.region()),
        "variant" => answers::optional_text(alloc, tag.variant()),
        "extension" => answers::optional_text(alloc, tag.extension()),
        "private_use" => answers::optional_text(alloc, tag.private_use()),
        "extended_language_subtags" => pieces(alloc, tag.extended_language_subtags()),
        "variant_subtags" => pieces(alloc, tag.variant_subtags()),
        "private_use_subtags" => pieces(alloc, tag.private_use_subtags()),
        "extension_subtags" => extensions(alloc, tag),
        _ => return Err(Wrong::Call),
    };
    Ok(answer?)
}

fn pieces(alloc: Global, subtags: SubtagsIter<'_>) -> Result<Value, AllocError> {
    let mut pieces = Vec::new(alloc);
    for subtag in subtags {
        pieces.push(answers::text(alloc, subtag)?)?;
    }
    Ok(Value::Array(pieces))
}

/// Each extension's singleton and content.
fn extensions(alloc: Global, tag: &LanguageTag) -> Result<Value, AllocError> {
    let mut extensions = Vec::new(alloc);
    for (singleton, content) in tag.extension_subtags() {
        let singleton = answers::printed(alloc, &singleton)?;
        let content = answers::text(alloc, content)?;
        extensions.push(answers::list(alloc, [singleton, content])?)?;
    }
    Ok(Value::Array(extensions))
}
