//! Calls of subtags. Each is its text, and where it may be missing, null.

use crate::errors;
use calls::answers;
use calls::answers::{Answer, printed};
use calls::arguments::{Wrong, bytes, flag, number, short_number, text};
use serde_json::Value;
use std::alloc::{AllocError, Global};
use std::fmt::Display;
use unic_langid_impl::ParserError;
use unic_langid_impl::subtags::{Language, Region, Script, Variant};

/// A call of a subtag, by its path.
pub fn answer<'a>(alloc: Global, call: &str, arguments: &'a [Value]) -> Answer<'a> {
    match call.split_once("::") {
        Some(("Language", call)) => language(alloc, call, arguments),
        Some(("Script", call)) => of_subtag::<Script>(alloc, call, arguments),
        Some(("Region", call)) => of_subtag::<Region>(alloc, call, arguments),
        Some(("Variant", call)) => of_subtag::<Variant>(alloc, call, arguments),
        _ => Err(Wrong::Call),
    }
}

/// The language that this text is.
pub fn language_of(given: &Value) -> Option<Language> {
    Language::from_bytes(given.as_str()?.as_bytes()).ok()
}

/// The script that this text is, or none for null.
pub fn script_of(given: &Value) -> Option<Option<Script>> {
    if given.is_null() {
        return Some(None);
    }
    Some(Some(Script::from_bytes(given.as_str()?.as_bytes()).ok()?))
}

/// The region that this text is, or none for null.
pub fn region_of(given: &Value) -> Option<Option<Region>> {
    if given.is_null() {
        return Some(None);
    }
    Some(Some(Region::from_bytes(given.as_str()?.as_bytes()).ok()?))
}

/// The variant that this text is.
pub fn variant_of(given: &Value) -> Option<Variant> {
    Variant::from_bytes(given.as_str()?.as_bytes()).ok()
}

/// The text, or null.
pub fn text_or_null<T: Subtag>(alloc: Global, found: Option<T>) -> Result<Value, AllocError> {
    match found {
        Some(subtag) => answers::text(alloc, subtag.name()),
        None => Ok(Value::Null),
    }
}

/// A subtag, made of its text or of its number.
pub trait Subtag: Ord + Display + Drop {
    fn read(bytes: &[u8]) -> Result<Self, ParserError>;

    fn of_number(given: &Value) -> Result<Result<Self, ParserError>, Wrong<'_>>;

    fn name(&self) -> &str;

    fn is(&self, text: &str) -> bool;

    fn number(&self) -> Option<u64>;
}

impl Subtag for Language {
    fn read(bytes: &[u8]) -> Result<Self, ParserError> {
        Language::from_bytes(bytes)
    }

    fn of_number(given: &Value) -> Result<Result<Self, ParserError>, Wrong<'_>> {
        Ok(Language::from_raw(number(given)?))
    }

    fn name(&self) -> &str {
        self.as_str()
    }

    fn is(&self, text: &str) -> bool {
        self.eq_str(text)
    }

    fn number(&self) -> Option<u64> {
        self.to_raw()
    }
}

impl Subtag for Script {
    fn read(bytes: &[u8]) -> Result<Self, ParserError> {
        Script::from_bytes(bytes)
    }

    fn of_number(given: &Value) -> Result<Result<Self, ParserError>, Wrong<'_>> {
        Ok(Script::from_raw(short_number(given)?))
    }

    fn name(&self) -> &str {
        self.as_str()
    }

    fn is(&self, text: &str) -> bool {
        self.eq_str(text)
    }

    fn number(&self) -> Option<u64> {
        Some(self.to_raw().into())
    }
}

impl Subtag for Region {
    fn read(bytes: &[u8]) -> Result<Self, ParserError> {
        Region::from_bytes(bytes)
    }

    fn of_number(given: &Value) -> Result<Result<Self, ParserError>, Wrong<'_>> {
        Ok(Region::from_raw(short_number(given)?))
    }

    fn name(&self) -> &str {
        self.as_str()
    }

    fn is(&self, text: &str) -> bool {
        self.eq_str(text)
    }

    fn number(&self) -> Option<u64> {
        Some(self.to_raw().into())
    }
}

impl Subtag for Variant {
    fn read(bytes: &[u8]) -> Result<Self, ParserError> {
        Variant::from_bytes(bytes)
    }

    fn of_number(given: &Value) -> Result<Result<Self, ParserError>, Wrong<'_>> {
        Ok(Variant::from_raw(number(given)?))
    }

    fn name(&self) -> &str {
        self.as_str()
    }

    fn is(&self, text: &str) -> bool {
        self.eq_str(text)
    }

    fn number(&self) -> Option<u64> {
        Some(self.to_raw())
    }
}

fn language<'a>(alloc: Global, call: &str, arguments: &'a [Value]) -> Answer<'a> {
    match (call, arguments) {
        ("default", []) => Ok(answers::text(alloc, Language::default().as_str())?),
        ("try_from_option", [Value::Null]) => Ok(outcome(alloc, Language::try_from_option(None))?),
        ("try_from_option", [given]) => {
            let bytes = bytes(alloc, given)?;
            Ok(outcome(alloc, Language::try_from_option(Some(&bytes)))?)
        }
        ("is_empty" | "clear", [given]) => {
            let Some(language) = language_of(given) else {
                return Err(Wrong::Argument(given, "a language"));
            };
            Ok(emptiness(alloc, call, language)?)
        }
        ("matches", [left, right, left_as_range, right_as_range]) => {
            languages_match(left, right, flag(left_as_range)?, flag(right_as_range)?)
        }
        _ => of_subtag::<Language>(alloc, call, arguments),
    }
}

/// Whether a language is none, or what is left of it when it is cleared.
fn emptiness(alloc: Global, call: &str, mut language: Language) -> Result<Value, AllocError> {
    if call == "is_empty" {
        return Ok(Value::Bool(language.is_empty()));
    }
    language.clear();
    answers::text(alloc, language.as_str())
}

fn languages_match<'a>(
    left: &'a Value,
    right: &'a Value,
    left_as_range: bool,
    right_as_range: bool,
) -> Answer<'a> {
    let Some(left) = language_of(left) else {
        return Err(Wrong::Argument(left, "a language"));
    };
    let Some(right) = language_of(right) else {
        return Err(Wrong::Argument(right, "a language"));
    };
    Ok(Value::Bool(left.matches(right, left_as_range, right_as_range)))
}

fn of_subtag<'a, T: Subtag>(alloc: Global, call: &str, arguments: &'a [Value]) -> Answer<'a> {
    match (call, arguments) {
        ("from_bytes", [given]) => Ok(outcome(alloc, T::read(&bytes(alloc, given)?))?),
        ("from_raw", [given]) => Ok(outcome(alloc, T::of_number(given)?)?),
        (_, [given]) => of_one(alloc, call, &made::<T>(given)?),
        (_, [given, other]) => of_two(alloc, call, &made::<T>(given)?, other),
        _ => Err(Wrong::Call),
    }
}

fn outcome<T: Subtag>(alloc: Global, read: Result<T, ParserError>) -> Result<Value, AllocError> {
    match read {
        Ok(subtag) => answers::text(alloc, subtag.name()),
        Err(error) => errors::refused_by_parser(alloc, error),
    }
}

fn of_one<'a, T: Subtag>(alloc: Global, call: &str, subtag: &T) -> Answer<'a> {
    let answer = match call {
        "as_str" => answers::text(alloc, subtag.name()),
        "to_string" => printed(alloc, subtag),
        "to_raw" => Ok(subtag.number().map_or(Value::Null, answers::number)),
        _ => return Err(Wrong::Call),
    };
    Ok(answer?)
}

/// A call of a subtag and a text or another one.
fn of_two<'a, T: Subtag>(alloc: Global, call: &str, subtag: &T, other: &'a Value) -> Answer<'a> {
    match call {
        "eq_str" => Ok(Value::Bool(subtag.is(text(other)?))),
        "eq" => Ok(Value::Bool(*subtag == made::<T>(other)?)),
        "cmp" => Ok(answers::ordering(alloc, subtag.cmp(&made::<T>(other)?))?),
        _ => Err(Wrong::Call),
    }
}

/// The subtag that this text is.
fn made<T: Subtag>(given: &Value) -> Result<T, Wrong<'_>> {
    T::read(text(given)?.as_bytes()).map_err(|error| errors::unread(given, error))
}
