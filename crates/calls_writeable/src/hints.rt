//! Calls of length hints. A hint is `[lower, upper]`, and `upper` is null where there is none.

use calls::answers;
use calls::answers::Answer;
use calls::arguments::{Wrong, list, optional_size, size};
use serde_json::Value;
use std::alloc::{AllocError, Global};
use writeable::{LengthHint, replaced_hint, sum_hints, sum_lengths};

/// A call of `LengthHint`, by its name.
pub fn answer<'a>(alloc: Global, call: &str, arguments: &'a [Value]) -> Answer<'a> {
    match (call, arguments) {
        ("capacity", [hint]) => Ok(answers::size(hint_of(hint)?.capacity())),
        ("is_zero", [hint]) => Ok(Value::Bool(hint_of(hint)?.is_zero())),
        _ => Ok(answers::hint(alloc, made(call, arguments)?)?),
    }
}

/// A call that combines hints or lengths, by its name.
pub fn answer_free<'a>(alloc: Global, call: &str, arguments: &'a [Value]) -> Answer<'a> {
    let hint = match (call, arguments) {
        ("sum_hints", [terms]) => sum_hints(&hints_of(alloc, terms)?),
        ("sum_lengths", [terms]) => sum_lengths(&lengths_of(alloc, terms)?),
        ("replaced_hint", [source, needle, replacement]) => {
            replaced_hint(hint_of(source)?, size(needle)?, hint_of(replacement)?)
        }
        _ => return Err(Wrong::Call),
    };
    Ok(answers::hint(alloc, hint)?)
}

/// The hint that a call gives.
fn made<'a>(call: &str, arguments: &'a [Value]) -> Result<LengthHint, Wrong<'a>> {
    match (call, arguments) {
        ("undefined", []) => Ok(LengthHint::undefined()),
        ("exact", [n]) => Ok(LengthHint::exact(size(n)?)),
        ("at_least", [n]) => Ok(LengthHint::at_least(size(n)?)),
        ("at_most", [n]) => Ok(LengthHint::at_most(size(n)?)),
        ("between", [n, m]) => Ok(LengthHint::between(size(n)?, size(m)?)),
        (_, [left, right]) => combined(call, hint_of(left)?, right),
        _ => Err(Wrong::Call),
    }
}

/// What an operator gives, by the name of its method.
fn combined<'a>(call: &str, left: LengthHint, right: &'a Value) -> Result<LengthHint, Wrong<'a>> {
    match (call, right) {
        ("mul" | "mul_assign", _) | ("add" | "add_assign", Value::Number(_)) => {
            Ok(with_number(call, left, size(right)?))
        }
        ("add" | "add_assign" | "bitor" | "bitor_assign", _) => {
            Ok(with_hint(call, left, hint_of(right)?))
        }
        _ => Err(Wrong::Call),
    }
}

fn with_number(call: &str, mut left: LengthHint, right: usize) -> LengthHint {
    match call {
        "add" => return left + right,
        "mul" => return left * right,
        "add_assign" => left += right,
        _ => left *= right,
    }
    left
}

fn with_hint(call: &str, mut left: LengthHint, right: LengthHint) -> LengthHint {
    match call {
        "add" => return left + right,
        "bitor" => return left | right,
        "add_assign" => left += right,
        _ => left |= right,
    }
    left
}

fn hint_of(value: &Value) -> Result<LengthHint, Wrong<'_>> {
    match list(value)? {
        [lower, upper] => {
            let lower = size(lower)?;
            optional_size(upper).map(|upper| LengthHint(lower, upper))
        }
        _ => Err(Wrong::Argument(value, "a hint, as [1, 2] or [1, null],")),
    }
}

fn hints_of<'a>(alloc: Global, terms: &'a Value) -> Result<Vec<LengthHint>, Wrong<'a>> {
    let mut hints = Vec::new(alloc);
    for term in list(terms)? {
        hints.push(hint_of(term)?)?;
    }
    Ok(hints)
}

fn lengths_of<'a>(alloc: Global, terms: &'a Value) -> Result<Vec<usize>, Wrong<'a>> {
    let mut lengths = Vec::new(alloc);
    for term in list(terms)? {
        lengths.push(size(term)?)?;
    }
    Ok(lengths)
}
