//! Making an answer.

use crate::arguments::Wrong;
use serde_json::{Map, Value};
use std::alloc::{AllocError, Global};
use std::cmp::Ordering;
use std::fmt::Display;
use writeable::{LengthHint, PartSpan, StringSink, Writeable, writeable_to_parts_for_test};

/// What a call answers.
pub type Answer<'a> = Result<Value, Wrong<'a>>;

pub fn text(alloc: Global, text: &str) -> Result<Value, AllocError> {
    Ok(Value::String(String::from_str(alloc, text)?))
}

/// The text, or null.
pub fn optional_text(alloc: Global, found: Option<&str>) -> Result<Value, AllocError> {
    match found {
        Some(found) => text(alloc, found),
        None => Ok(Value::Null),
    }
}

/// The text that the value prints.
pub fn printed<T: Display>(alloc: Global, value: &T) -> Result<Value, AllocError> {
    Ok(Value::String(value.to_string(alloc)?))
}

/// The bytes in hexadecimal.
pub fn bytes(alloc: Global, bytes: &[u8]) -> Result<Value, AllocError> {
    Ok(Value::String(hex::encode(alloc, bytes)?))
}

pub fn number(number: u64) -> Value {
    Value::Number(number.into())
}

pub fn size(size: usize) -> Value {
    Value::Number(size.into())
}

/// The number, or null.
pub fn optional_size(found: Option<usize>) -> Value {
    match found {
        Some(found) => size(found),
        None => Value::Null,
    }
}

pub fn ordering(alloc: Global, ordering: Ordering) -> Result<Value, AllocError> {
    let name = match ordering {
        Ordering::Less => "Less",
        Ordering::Equal => "Equal",
        Ordering::Greater => "Greater",
    };
    text(alloc, name)
}

/// An object, made member by member.
#[derive(Drop)]
pub struct Object {
    alloc: Global,
    members: Map<String, Value>,
}

impl Object {
    /// An object with no member.
    pub fn new(alloc: Global) -> Object {
        Object {
            alloc,
            members: Map::new(alloc),
        }
    }

    /// The object with one more member.
    pub fn with(mut self, name: &str, value: Value) -> Result<Object, AllocError> {
        let name = String::from_str(self.alloc, name)?;
        self.members.insert(name, value)?;
        Ok(self)
    }

    pub fn value(self) -> Value {
        Value::Object(self.members)
    }
}

/// The list of these items.
pub fn list<const N: usize>(alloc: Global, items: [Value; N]) -> Result<Value, AllocError> {
    Ok(Value::Array(Vec::from_array(alloc, items)?))
}

/// A refusal by its name.
pub fn refused(alloc: Global, name: &str) -> Result<Value, AllocError> {
    Ok(
        Object::new(alloc)
            .with("refused", text(alloc, name)?)?
            .value(),
    )
}

/// A refusal by its name, with its numbers.
pub fn refused_at<const N: usize>(
    alloc: Global,
    name: &str,
    at: [usize; N],
) -> Result<Value, AllocError> {
    let mut numbers = Vec::new(alloc);
    for number in at {
        numbers.push(size(number))?;
    }
    let name = text(alloc, name)?;
    Ok(
        Object::new(alloc)
            .with("refused", name)?
            .with("at", Value::Array(numbers))?
            .value(),
    )
}

/// The bounds, the upper one null where there is none.
pub fn hint(alloc: Global, hint: LengthHint) -> Result<Value, AllocError> {
    list(alloc, [size(hint.0), optional_size(hint.1)])
}

/// The parts as rows of first byte, last byte, category and value.
pub fn spans(alloc: Global, spans: &[PartSpan]) -> Result<Value, AllocError> {
    let mut rows = Vec::new(alloc);
    for span in spans {
        let category = text(alloc, span.part.category)?;
        let value = text(alloc, span.part.value)?;
        rows.push(list(alloc, [size(span.start), size(span.end), category, value])?)?;
    }
    Ok(Value::Array(rows))
}

/// What the value writes: its text, its parts, its hint, and whether it lends its text.
pub fn written<W: Writeable>(alloc: Global, value: &W) -> Result<Value, AllocError> {
    let mut sink = StringSink::new(alloc);
    value.write_to(&mut sink).map_err(|_| AllocError)?;
    let parts = writeable_to_parts_for_test(alloc, value)?;
    Ok(
        Object::new(alloc)
            .with("text", Value::String(sink.into_string()))?
            .with("parts", spans(alloc, parts.spans())?)?
            .with("hint", hint(alloc, value.writeable_length_hint())?)?
            .with("borrows", Value::Bool(value.writeable_borrow().is_some()))?
            .value(),
    )
}
