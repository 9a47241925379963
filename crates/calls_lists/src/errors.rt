//! Errors of lists, by their names. A condition's error is said beside `Condition`.

use calls::answers;
use calls::answers::{Answer, Object};
use calls::arguments::{Wrong, text};
use icu_list::DataError;
use lazy_dfa::ConditionError;
use serde_json::Value;
use std::alloc::{AllocError, Global};

/// An error's words, by its name.
pub fn answer<'a>(alloc: Global, call: &str, arguments: &'a [Value]) -> Answer<'a> {
    let ("DataError::text", [given]) = (call, arguments) else {
        return Err(Wrong::Call);
    };
    let error = match text(given)? {
        "InvalidPattern" => DataError::InvalidPattern,
        "CannotStore" => DataError::CannotStore,
        "NotAnchored" => DataError::Condition(ConditionError::NotAnchored),
        "TooLong" => DataError::Condition(ConditionError::TooLong),
        "Syntax" => DataError::Condition(ConditionError::Syntax(0)),
        "MissingLocale" => DataError::MissingLocale,
        "NotJsonForm" => DataError::NotJsonForm,
        "NoMemory" => DataError::NoMemory,
        _ => return Err(Wrong::Argument(given, "the name of an error")),
    };
    Ok(answers::text(alloc, error.text())?)
}

/// The error as an answer.
pub fn refused(alloc: Global, error: DataError) -> Result<Value, AllocError> {
    match error {
        DataError::InvalidPattern => answers::refused(alloc, "InvalidPattern"),
        DataError::CannotStore => answers::refused(alloc, "CannotStore"),
        DataError::Condition(error) => refused_condition(alloc, error),
        DataError::MissingLocale => answers::refused(alloc, "MissingLocale"),
        DataError::NotJsonForm => answers::refused(alloc, "NotJsonForm"),
        DataError::NoMemory => Err(AllocError),
    }
}

fn refused_condition(alloc: Global, error: ConditionError) -> Result<Value, AllocError> {
    let cause = match error {
        ConditionError::NotAnchored => answers::refused(alloc, "NotAnchored")?,
        ConditionError::TooLong => answers::refused(alloc, "TooLong")?,
        ConditionError::Syntax(place) => answers::refused_at(alloc, "Syntax", [place])?,
        ConditionError::NoMemory => return Err(AllocError),
    };
    Ok(
        Object::new(alloc)
            .with("refused", answers::text(alloc, "Condition")?)?
            .with("cause", cause)?
            .value(),
    )
}

/// What is wrong with an argument that makes no patterns.
pub fn unread(given: &Value, error: DataError) -> Wrong<'_> {
    match error {
        DataError::NoMemory => Wrong::NoMemory,
        _ => Wrong::Refused(given, error.text()),
    }
}
