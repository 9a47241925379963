//! Calls of the program: its words, a document, the numbers of the pushes at which the output
//! fails, if there are any, and behind these the numbers of those at which the error sink fails.
//!
//! A document is a text; an object with the member `most`, which is a source (see
//! `calls::scripts`); or any other value, which is its own text. A run is answered by its status
//! and exit code, and by what the output and the error sink took. A status is its name, and its
//! fault line a text.
//!
//! With `"each"` in place of the output's numbers the program runs with its first push failing,
//! then with its second, and so on while the answer is `WriteFault`. Then the answer is that of the
//! last run, and whether each output was a front of the output where nothing fails. With `"all"`
//! the answer is what the output took in each of these runs but the last.
//!
//! With `"each"` in place of the error sink's numbers its pushes fail in turn until it takes the
//! text that it takes where none fails. Then the answer is that of the last run, whether each text
//! was a front of that one, and whether each run had its status and its output.

use crate::documents::source_of;
use calls::answers;
use calls::answers::{Answer, Object};
use calls::arguments::{Wrong, list, numbers, text};
use calls::scripts::Script;
use icu_list::DataError;
use language_tags::RegistryError;
use localise::BundleCause;
use localise_run::{
    Field, RequestCause, Section, ShapePlace, Status, TableCause, run, write_fault_line,
};
use serde_json::Value;
use std::alloc::{AllocError, Global};
use wanted_locale::TagCause;
use writeable::{ScriptSink, StringSink};

/// A call of `localise_run`, by its path.
pub fn answer<'a>(alloc: Global, call: &str, arguments: &'a [Value]) -> Answer<'a> {
    match (call, arguments) {
        ("run", [words, given]) => {
            let words = texts(alloc, words)?;
            run_into(alloc, &words, &source_of(alloc, given)?, &[], &[])
        }
        ("run", [words, given, Value::String(each)]) if each.as_str() == "each" => {
            let words = texts(alloc, words)?;
            run_into_each(alloc, &words, &source_of(alloc, given)?)
        }
        ("run", [words, given, Value::String(all)]) if all.as_str() == "all" => {
            let words = texts(alloc, words)?;
            run_into_all(alloc, &words, &source_of(alloc, given)?)
        }
        ("run", [words, given, failing]) => {
            let words = texts(alloc, words)?;
            let failing = numbers(alloc, failing)?;
            run_into(alloc, &words, &source_of(alloc, given)?, &failing, &[])
        }
        ("run", [words, given, failing, Value::String(each)]) if each.as_str() == "each" => {
            let words = texts(alloc, words)?;
            let failing = numbers(alloc, failing)?;
            run_telling_each(alloc, &words, &source_of(alloc, given)?, &failing)
        }
        ("run", [words, given, failing, telling]) => {
            let words = texts(alloc, words)?;
            let (failing, telling) = (numbers(alloc, failing)?, numbers(alloc, telling)?);
            run_into(alloc, &words, &source_of(alloc, given)?, &failing, &telling)
        }
        ("Status::code", [status]) => Ok(exit_code(status_of(status)?)),
        ("write_fault_line", [status]) => fault_line(alloc, status_of(status)?),
        _ => Err(Wrong::Call),
    }
}

fn texts<'a>(alloc: Global, given: &'a Value) -> Result<Vec<String>, Wrong<'a>> {
    let mut texts = Vec::new(alloc);
    for each in list(given)? {
        texts.push(String::from_str(alloc, text(each)?)?)?;
    }
    Ok(texts)
}

/// How a run ended, and what its sinks took.
#[derive(Drop)]
struct Outcome {
    status: Status,
    output: String,
    errors: String,
}

/// A run whose output fails at some pushes, and whose error sink at others.
fn run_once(
    alloc: Global,
    words: &[String],
    document: &Script,
    failing: &[u64],
    telling: &[u64],
) -> Result<Outcome, AllocError> {
    let mut out = ScriptSink::new(alloc, Vec::from_slice(alloc, failing)?);
    let mut err = ScriptSink::new(alloc, Vec::from_slice(alloc, telling)?);
    let status = run(alloc, words, &mut document.source(), &mut out, &mut err);
    Ok(Outcome {
        status,
        output: out.into_string(),
        errors: err.into_string(),
    })
}

fn of_outcome(alloc: Global, outcome: Outcome) -> Result<Value, AllocError> {
    let status = answers::text(alloc, name(outcome.status))?;
    Ok(
        Object::new(alloc)
            .with("status", status)?
            .with("code", exit_code(outcome.status))?
            .with("output", Value::String(outcome.output))?
            .with("errors", Value::String(outcome.errors))?
            .value(),
    )
}

fn run_into<'a>(
    alloc: Global,
    words: &[String],
    document: &Script,
    failing: &[u64],
    telling: &[u64],
) -> Answer<'a> {
    let outcome = run_once(alloc, words, document, failing, telling)?;
    Ok(of_outcome(alloc, outcome)?)
}

/// The most pushes that fail in turn.
const MOST_PUSHES: u64 = 10_000;

fn run_into_each<'a>(alloc: Global, words: &[String], document: &Script) -> Answer<'a> {
    let whole = run_once(alloc, words, document, &[], &[])?;
    let mut last = run_once(alloc, words, document, &[1], &[])?;
    let mut fronts = whole.output.starts_with(last.output.as_str());
    for push in 2..MOST_PUSHES {
        if last.status != Status::WriteFault {
            break;
        }
        last = run_once(alloc, words, document, &[push], &[])?;
        fronts = fronts && whole.output.starts_with(last.output.as_str());
    }
    let last = of_outcome(alloc, last)?;
    Ok(
        Object::new(alloc)
            .with("last", last)?
            .with("fronts", Value::Bool(fronts))?
            .value(),
    )
}

fn run_into_all<'a>(alloc: Global, words: &[String], document: &Script) -> Answer<'a> {
    let mut outputs = Vec::new(alloc);
    for push in 1..MOST_PUSHES {
        let outcome = run_once(alloc, words, document, &[push], &[])?;
        if outcome.status != Status::WriteFault {
            break;
        }
        outputs.push(Value::String(outcome.output))?;
    }
    Ok(Value::Array(outputs))
}

fn run_telling_each<'a>(
    alloc: Global,
    words: &[String],
    document: &Script,
    failing: &[u64],
) -> Answer<'a> {
    let whole = run_once(alloc, words, document, failing, &[])?;
    let mut last = run_once(alloc, words, document, failing, &[1])?;
    let mut fronts = whole.errors.starts_with(last.errors.as_str());
    let mut alike = are_alike(&whole, &last);
    for push in 2..MOST_PUSHES {
        if last.errors.as_str() == whole.errors.as_str() {
            break;
        }
        last = run_once(alloc, words, document, failing, &[push])?;
        fronts = fronts && whole.errors.starts_with(last.errors.as_str());
        alike = alike && are_alike(&whole, &last);
    }
    let last = of_outcome(alloc, last)?;
    Ok(
        Object::new(alloc)
            .with("last", last)?
            .with("fronts", Value::Bool(fronts))?
            .with("alike", Value::Bool(alike))?
            .value(),
    )
}

/// Whether two runs have one status and one output.
fn are_alike(one: &Outcome, other: &Outcome) -> bool {
    one.status == other.status && one.output.as_str() == other.output.as_str()
}

fn exit_code(status: Status) -> Value {
    answers::number(u64::from(status.code()))
}

fn fault_line<'a>(alloc: Global, status: Status) -> Answer<'a> {
    let mut line = StringSink::new(alloc);
    write_fault_line(&status, &mut line).map_err(|_| AllocError)?;
    Ok(Value::String(line.into_string()))
}

/// A status of each name. Those that carry something carry the first of its kind.
const STATUSES: [Status; 13] = [
    Status::Done,
    Status::BadWords,
    Status::NotJson,
    Status::Shape(ShapePlace {
        section: Section::Document,
        index: 0,
        field: Field::Whole,
    }),
    Status::Table(TableCause::Registry(RegistryError::BadKey(0, 0))),
    Status::Bundle(0, BundleCause::Tag(TagCause::NoMemory)),
    Status::DuplicateLocale(0),
    Status::Root(DataError::InvalidPattern),
    Status::Request(0, RequestCause::ChainLoops),
    Status::ReadFault,
    Status::WriteFault,
    Status::NoMemory,
    Status::TooLong,
];

fn name(status: Status) -> &'static str {
    match status {
        Status::Done => "Done",
        Status::BadWords => "BadWords",
        Status::NotJson => "NotJson",
        Status::Shape(_) => "Shape",
        Status::Table(_) => "Table",
        Status::Bundle(..) => "Bundle",
        Status::DuplicateLocale(_) => "DuplicateLocale",
        Status::Root(_) => "Root",
        Status::Request(..) => "Request",
        Status::ReadFault => "ReadFault",
        Status::WriteFault => "WriteFault",
        Status::NoMemory => "NoMemory",
        Status::TooLong => "TooLong",
    }
}

fn status_of(given: &Value) -> Result<Status, Wrong<'_>> {
    let text = text(given)?;
    for status in STATUSES {
        if name(status) == text {
            return Ok(status);
        }
    }
    Err(Wrong::Argument(given, "the name of a status"))
}
