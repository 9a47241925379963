//! Calls of small texts. A `TinyStr` is its text.

ghost use Rattle.std.specs.Prelude.{◌≤◌};

use calls::answers;
use calls::answers::Answer;
use calls::arguments::{Wrong, bytes, text};
use serde_json::Value;
use std::alloc::Global;
use tinystr::{TinyError, TinyStr};

/// A call of `tinystr`, by its path.
pub fn answer<'a>(alloc: Global, call: &str, arguments: &'a [Value]) -> Answer<'a> {
    match call.split_once("::") {
        Some(("TinyStr<1>", call)) => tiny::<1>(alloc, call, arguments),
        Some(("TinyStr<2>", call)) => tiny::<2>(alloc, call, arguments),
        Some(("TinyStr<3>", call)) => tiny::<3>(alloc, call, arguments),
        Some(("TinyStr<4>", call)) => tiny::<4>(alloc, call, arguments),
        Some(("TinyStr<8>", call)) => tiny::<8>(alloc, call, arguments),
        Some(("TinyError", "text")) => error_text(alloc, arguments),
        _ => Err(Wrong::Call),
    }
}

/// A call of a text of at most `N` bytes.
fn tiny<'a, const N: usize>(alloc: Global, call: &str, arguments: &'a [Value]) -> Answer<'a>
    requires { N ≤ 8 }
{
    let [given, others @ ..] = arguments else {
        return Err(Wrong::Call);
    };
    if call == "try_from_bytes" && others.is_empty() {
        return parsed::<N>(alloc, given);
    }
    match TinyStr::<N>::try_from_bytes(text(given)?.as_bytes()) {
        Ok(tiny) => of_tiny(alloc, call, tiny, others),
        Err(error) => Err(Wrong::Refused(given, name(error))),
    }
}

/// A call of a text, or of it and another.
fn of_tiny<'a, const N: usize>(
    alloc: Global,
    call: &str,
    tiny: TinyStr<N>,
    others: &'a [Value],
) -> Answer<'a>
    requires { N ≤ 8 }
{
    match others {
        [] => one(alloc, call, tiny),
        [other] => match TinyStr::<N>::try_from_bytes(text(other)?.as_bytes()) {
            Ok(right) => two(alloc, call, tiny, right),
            Err(error) => Err(Wrong::Refused(other, name(error))),
        },
        _ => Err(Wrong::Call),
    }
}

fn parsed<'a, const N: usize>(alloc: Global, given: &'a Value) -> Answer<'a>
    requires { N ≤ 8 }
{
    let answer = match TinyStr::<N>::try_from_bytes(&bytes(alloc, given)?) {
        Ok(tiny) => answers::text(alloc, tiny.as_str()),
        Err(error) => answers::refused(alloc, name(error)),
    };
    Ok(answer?)
}

fn one<'a, const N: usize>(alloc: Global, call: &str, tiny: TinyStr<N>) -> Answer<'a>
    requires { N ≤ 8 }
{
    let changed = match call {
        "as_str" => tiny,
        "to_ascii_lowercase" => tiny.to_ascii_lowercase(),
        "to_ascii_uppercase" => tiny.to_ascii_uppercase(),
        "to_ascii_titlecase" => tiny.to_ascii_titlecase(),
        "to_string" => return Ok(Value::String(tiny.to_string(alloc)?)),
        "len" => return Ok(answers::size(tiny.len())),
        "is_ascii_alphabetic" => return Ok(Value::Bool(tiny.is_ascii_alphabetic())),
        "is_ascii_numeric" => return Ok(Value::Bool(tiny.is_ascii_numeric())),
        "is_ascii_alphanumeric" => return Ok(Value::Bool(tiny.is_ascii_alphanumeric())),
        _ => return Err(Wrong::Call),
    };
    Ok(answers::text(alloc, changed.as_str())?)
}

fn two<'a, const N: usize>(
    alloc: Global,
    call: &str,
    left: TinyStr<N>,
    right: TinyStr<N>,
) -> Answer<'a> {
    match call {
        "cmp" => Ok(answers::ordering(alloc, left.cmp(&right))?),
        "eq" => Ok(Value::Bool(left == right)),
        _ => Err(Wrong::Call),
    }
}

const ERRORS: [TinyError; 3] = [
    TinyError::TooLarge,
    TinyError::NonAscii,
    TinyError::ContainsNull,
];

fn name(error: TinyError) -> &'static str {
    match error {
        TinyError::TooLarge => "TooLarge",
        TinyError::NonAscii => "NonAscii",
        TinyError::ContainsNull => "ContainsNull",
    }
}

fn error_of(given: &Value) -> Result<TinyError, Wrong<'_>> {
    let text = text(given)?;
    for error in ERRORS {
        if name(error) == text {
            return Ok(error);
        }
    }
    Err(Wrong::Argument(given, "the name of an error"))
}

/// An error's words, by its name.
fn error_text<'a>(alloc: Global, arguments: &'a [Value]) -> Answer<'a> {
    let [given] = arguments else {
        return Err(Wrong::Call);
    };
    Ok(answers::text(alloc, error_of(given)?.text())?)
}
