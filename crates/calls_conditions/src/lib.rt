//! Calls of `lazy_dfa`.
//!
//! A condition is its pattern; where a further argument is true, it is determinised before it is
//! used. A text is a text, or a whole number, which writes its digits. A stepper's pieces are a
//! list of texts; each push is answered by null or by its refusal, and beside them stands the
//! answer.
#![tactic(auto)]

use calls::answers;
use calls::answers::{Answer, Object};
use calls::arguments::{Wrong, flag, list, text};
use lazy_dfa::{Condition, ConditionError, Stepper};
use serde_json::Value;
use std::alloc::{AllocError, Global};
use writeable::{Sink, SinkError, Text};

/// A call of `lazy_dfa`, by its path.
pub fn answer<'a>(alloc: Global, call: &str, arguments: &'a [Value]) -> Answer<'a> {
    match (call, arguments) {
        ("Condition::new", [pattern]) => Ok(tried(alloc, text(pattern)?)?),
        ("ConditionError::text", [name]) => Ok(answers::text(alloc, error_of(name)?.text())?),
        ("Condition::determinise", [pattern]) => {
            Ok(Value::Bool(condition(alloc, pattern)?.determinise(alloc)?))
        }
        ("Condition::matches" | "Condition::stepper", [pattern, given]) => {
            of_condition(alloc, call, &condition(alloc, pattern)?, given)
        }
        ("Condition::matches" | "Condition::stepper", [pattern, given, determinised]) => {
            let mut condition = condition(alloc, pattern)?;
            if flag(determinised)? {
                condition.determinise(alloc)?;
            }
            of_condition(alloc, call, &condition, given)
        }
        _ => Err(Wrong::Call),
    }
}

/// The pattern again, where it is a condition.
fn tried(alloc: Global, pattern: &str) -> Result<Value, AllocError> {
    match Condition::new(alloc, pattern) {
        Ok(_) => answers::text(alloc, pattern),
        Err(ConditionError::NotAnchored) => answers::refused(alloc, "NotAnchored"),
        Err(ConditionError::TooLong) => answers::refused(alloc, "TooLong"),
        Err(ConditionError::Syntax(place)) => answers::refused_at(alloc, "Syntax", [place]),
        Err(ConditionError::NoMemory) => Err(AllocError),
    }
}

fn condition<'a>(alloc: Global, pattern: &'a Value) -> Result<Condition, Wrong<'a>> {
    Condition::new(alloc, text(pattern)?).map_err(|error| match error {
        ConditionError::NoMemory => Wrong::NoMemory,
        _ => Wrong::Refused(pattern, error.text()),
    })
}

fn error_of(given: &Value) -> Result<ConditionError, Wrong<'_>> {
    match text(given)? {
        "NotAnchored" => Ok(ConditionError::NotAnchored),
        "TooLong" => Ok(ConditionError::TooLong),
        "Syntax" => Ok(ConditionError::Syntax(0)),
        "NoMemory" => Ok(ConditionError::NoMemory),
        _ => Err(Wrong::Argument(given, "the name of an error")),
    }
}

fn of_condition<'a>(
    alloc: Global,
    call: &str,
    condition: &Condition,
    given: &'a Value,
) -> Answer<'a> {
    if call == "Condition::stepper" {
        return stepped(alloc, condition, given);
    }
    match given.as_u64() {
        Some(number) => Ok(Value::Bool(condition.matches(&number))),
        None => Ok(Value::Bool(condition.matches(&Text(text(given)?)))),
    }
}

/// What each push answers, and the answer behind them.
fn stepped<'a>(alloc: Global, condition: &Condition, pieces: &'a Value) -> Answer<'a> {
    let mut stepper = condition.stepper();
    let mut pushes = Vec::new(alloc);
    for piece in list(pieces)? {
        pushes.push(pushed(alloc, &mut stepper, text(piece)?)?)?;
    }
    Ok(
        Object::new(alloc)
            .with("pushes", Value::Array(pushes))?
            .with("answer", Value::Bool(stepper.answer()))?
            .value(),
    )
}

fn pushed(alloc: Global, stepper: &mut Stepper<'_>, piece: &str) -> Result<Value, AllocError> {
    match stepper.push_str(piece) {
        Ok(()) => Ok(Value::Null),
        Err(SinkError::Fault) => answers::refused(alloc, "Fault"),
        Err(SinkError::NoMemory) => Err(AllocError),
    }
}
