//! Reading an argument, and what is wrong with a line that isn't a call.

use hex::FromHexError;
use serde_json::{Map, Value};
use std::alloc::{AllocError, AllocFailed, Global};
use std::str::FromStr;
use writeable::{OwnedText, TextRow};

/// Why a line has no answer.
#[derive(Drop)]
pub enum Wrong<'a> {
    NoMemory,
    /// No call has this path and so many arguments.
    Call,
    /// This argument isn't what is said.
    Argument(&'a Value, &'static str),
    /// This argument has no member of that name.
    Missing(&'a Value, &'static str),
    /// This argument is to make a value, and makes none for the reason that is said.
    Refused(&'a Value, &'static str),
}

impl From<AllocError> for Wrong<'_> {
    fn from(_: AllocError) -> Self {
        Wrong::NoMemory
    }
}

impl<T: Drop> From<AllocFailed<T>> for Wrong<'_> {
    fn from(_: AllocFailed<T>) -> Self {
        Wrong::NoMemory
    }
}

pub fn text(value: &Value) -> Result<&str, Wrong<'_>> {
    value.as_str().ok_or(Wrong::Argument(value, "a text"))
}

/// A text, or null.
pub fn optional_text(value: &Value) -> Result<Option<&str>, Wrong<'_>> {
    match value {
        Value::Null => Ok(None),
        _ => Ok(Some(text(value)?)),
    }
}

pub fn character(value: &Value) -> Result<char, Wrong<'_>> {
    let mut characters = text(value)?.chars();
    match (characters.next(), characters.next()) {
        (Some(character), None) => Ok(character),
        _ => Err(Wrong::Argument(value, "a text of one character")),
    }
}

/// A number of at most 64 bits.
pub fn number(value: &Value) -> Result<u64, Wrong<'_>> {
    value
        .as_u64()
        .ok_or(Wrong::Argument(value, "a whole number"))
}

/// A number of at most 32 bits.
pub fn short_number(value: &Value) -> Result<u32, Wrong<'_>> {
    u32::try_from(number(value)?).map_err(|_| Wrong::Argument(value, "a number of 32 bits"))
}

/// A length or an index.
pub fn size(value: &Value) -> Result<usize, Wrong<'_>> {
    Ok(number(value)? as usize)
}

/// A length or an index, or null.
pub fn optional_size(value: &Value) -> Result<Option<usize>, Wrong<'_>> {
    match value {
        Value::Null => Ok(None),
        _ => Ok(Some(size(value)?)),
    }
}

/// The numbers of a list.
pub fn numbers<'a>(alloc: Global, given: &'a Value) -> Result<Vec<u64>, Wrong<'a>> {
    let mut numbers = Vec::new(alloc);
    for each in list(given)? {
        numbers.push(number(each)?)?;
    }
    Ok(numbers)
}

/// A number of any width, in decimal digits.
pub fn wide<T: FromStr + Drop>(value: &Value) -> Result<T, Wrong<'_>>
where
    T::Err: Drop,
{
    text(value)?.parse().map_err(|_| Wrong::Argument(value, "a text of the number's digits"))
}

/// Bytes, in hexadecimal.
pub fn bytes(alloc: Global, value: &Value) -> Result<Vec<u8>, Wrong<'_>> {
    match hex::decode(alloc, text(value)?) {
        Ok(bytes) => Ok(bytes),
        Err(FromHexError::OutOfMemory) => Err(Wrong::NoMemory),
        Err(_) => Err(Wrong::Argument(value, "bytes in hexadecimal")),
    }
}

pub fn flag(value: &Value) -> Result<bool, Wrong<'_>> {
    value
        .as_bool()
        .ok_or(Wrong::Argument(value, "true or false"))
}

pub fn list(value: &Value) -> Result<&[Value], Wrong<'_>> {
    match value {
        Value::Array(items) => Ok(items.as_slice()),
        _ => Err(Wrong::Argument(value, "a list")),
    }
}

pub fn object(value: &Value) -> Result<&Map<String, Value>, Wrong<'_>> {
    value.as_object().ok_or(Wrong::Argument(value, "an object"))
}

/// The member of that name.
pub fn field<'a>(value: &'a Value, name: &'static str) -> Result<&'a Value, Wrong<'a>> {
    object(value)?.get(name).ok_or(Wrong::Missing(value, name))
}

/// The name and the value of the only member.
pub fn member(value: &Value) -> Result<(&str, &Value), Wrong<'_>> {
    let mut members = object(value)?.iter();
    match (members.next(), members.next()) {
        (Some((name, inner)), None) => Ok((name.as_str(), inner)),
        _ => Err(Wrong::Argument(value, "an object of one member")),
    }
}

/// The rows of the table with this name. A table that is left out is empty.
pub fn table<'a>(
    alloc: Global,
    tables: &'a Map<String, Value>,
    name: &str,
) -> Result<Vec<TextRow>, Wrong<'a>> {
    let mut rows = Vec::new(alloc);
    let Some(given) = tables.get(name) else {
        return Ok(rows);
    };
    for row in list(given)? {
        rows.push(text_row(alloc, row)?)?;
    }
    Ok(rows)
}

/// A row of one to three texts.
fn text_row<'a>(alloc: Global, given: &'a Value) -> Result<TextRow, Wrong<'a>> {
    let (first, second, third) = match list(given)? {
        [first] => (text(first)?, "", ""),
        [first, second] => (text(first)?, text(second)?, ""),
        [first, second, third] => (text(first)?, text(second)?, text(third)?),
        _ => return Err(Wrong::Argument(given, "a row of one to three texts")),
    };
    Ok(TextRow {
        first: OwnedText::new(alloc, first)?,
        second: OwnedText::new(alloc, second)?,
        third: OwnedText::new(alloc, third)?,
    })
}
