//! Calls of values that may be wrong.
//!
//! A value is an object of one member: `Ok` and a text; `Err` and a text or a small number, which
//! is the error and is written in the text's place; `Concat` and two of them; `&` and one. An error
//! is answered as the text that it writes.

use calls::answers;
use calls::answers::{Answer, Object};
use calls::arguments::{Wrong, list, member, size, text};
use either::{Either, Left, Right};
use serde_json::Value;
use std::alloc::{AllocError, Global};
use std::borrow::CowStr;
use writeable::adapters::Concat;
use writeable::{StringSink, Text, TryWriteable, Writeable, try_writeable_to_parts_for_test};

/// An error: a number or a text.
type Error<'a> = Either<usize, Text<'a>>;

/// A text, or an error in its place.
pub type Attempt<'a> = Result<Text<'a>, Error<'a>>;

/// A call of `TryWriteable`, by its name.
pub fn answer<'a>(alloc: Global, call: &str, arguments: &'a [Value]) -> Answer<'a> {
    let [value] = arguments else {
        return Err(Wrong::Call);
    };
    let answer = match member(value)? {
        ("Concat", inner) => {
            let (first, second) = pair(inner)?;
            ask(alloc, call, &Concat(first, second))
        }
        ("&", inner) => ask(alloc, call, &&attempt(inner)?),
        _ => ask(alloc, call, &attempt(value)?),
    };
    answer?.ok_or(Wrong::Call)
}

fn pair(value: &Value) -> Result<(Attempt<'_>, Attempt<'_>), Wrong<'_>> {
    match list(value)? {
        [first, second] => Ok((attempt(first)?, attempt(second)?)),
        _ => Err(Wrong::Argument(value, "a list of two values")),
    }
}

/// The text or the error that an argument is.
pub fn attempt(value: &Value) -> Result<Attempt<'_>, Wrong<'_>> {
    match member(value)? {
        ("Ok", inner) => Ok(Ok(Text(text(inner)?))),
        ("Err", Value::String(error)) => Ok(Err(Right(Text(error.as_str())))),
        ("Err", number) => Ok(Err(Left(size(number)?))),
        _ => Err(Wrong::Argument(value, "an object of Ok or of Err")),
    }
}

/// The answer of a value. There is none where no call has this name.
fn ask<'a, T: TryWriteable<Error = Error<'a>>>(
    alloc: Global,
    call: &str,
    value: &T,
) -> Result<Option<Value>, AllocError> {
    match call {
        "try_write_to" | "try_write_to_parts" => Ok(Some(tried(alloc, value)?)),
        "try_write_to_string" => match value.try_write_to_string(alloc)? {
            Ok(text) => Ok(Some(string(alloc, text, None)?)),
            Err((error, text)) => Ok(Some(string(alloc, text, Some(error))?)),
        },
        "try_writeable_borrow" => match value.try_writeable_borrow() {
            None => Ok(Some(Value::Null)),
            Some(Ok(text)) => Ok(Some(lent(alloc, text, None)?)),
            Some(Err((error, text))) => Ok(Some(lent(alloc, text, Some(error))?)),
        },
        _ => Ok(None),
    }
}

/// What the value writes, and its error.
fn tried<'a, T: TryWriteable<Error = Error<'a>>>(
    alloc: Global,
    value: &T,
) -> Result<Value, AllocError> {
    let mut sink = StringSink::new(alloc);
    let error = value.try_write_to(&mut sink).map_err(|_| AllocError)?.err();
    let (parts, _) = try_writeable_to_parts_for_test(alloc, value)?;
    Ok(
        Object::new(alloc)
            .with("text", Value::String(sink.into_string()))?
            .with("parts", answers::spans(alloc, parts.spans())?)?
            .with("hint", answers::hint(alloc, value.writeable_length_hint())?)?
            .with("error", error_text(alloc, error)?)?
            .value(),
    )
}

fn string(alloc: Global, text: CowStr<'_>, error: Option<Error<'_>>) -> Result<Value, AllocError> {
    let borrowed = Value::Bool(matches!(text, CowStr::Borrowed(_)));
    let text = Value::String(text.into_owned(alloc)?);
    let error = error_text(alloc, error)?;
    Ok(
        Object::new(alloc)
            .with("text", text)?
            .with("borrowed", borrowed)?
            .with("error", error)?
            .value(),
    )
}

fn lent(alloc: Global, text: &str, error: Option<Error<'_>>) -> Result<Value, AllocError> {
    let text = answers::text(alloc, text)?;
    Ok(
        Object::new(alloc)
            .with("text", text)?
            .with("error", error_text(alloc, error)?)?
            .value(),
    )
}

/// The text that the error writes, or null.
fn error_text(alloc: Global, error: Option<Error<'_>>) -> Result<Value, AllocError> {
    match error {
        Some(error) => answers::text(alloc, error.write_to_string(alloc)?.as_str()),
        None => Ok(Value::Null),
    }
}
