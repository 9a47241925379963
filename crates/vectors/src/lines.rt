//! Lines and their answers.

use calls::answers::{Answer, Object};
use calls::arguments::Wrong;
use calls_catalogs::reads;
use calls_locales::{fallback, locales, tags};
use calls_localise::{contents, localising, program};
use serde_json::{Error, Value};
use std::alloc::{AllocError, Global};

/// The answer to a line. A line that is a JSON text is a heading, and is answered by itself.
pub fn answer_line(alloc: Global, line: &[u8]) -> Result<Value, AllocError> {
    let line = match Value::from_slice(alloc, line) {
        Ok(line) => line,
        Err(error) => {
            if error.is_memory() {
                return Err(AllocError);
            }
            return wrong(alloc, unread(alloc, error)?);
        }
    };
    match line {
        Value::String(heading) => Ok(Value::String(heading)),
        Value::Array(call) => answer_call(alloc, &call),
        _ => wrong(alloc, String::from_str(alloc, A_LINE)?),
    }
}

const A_LINE: &str = "the line is to be a JSON array: a call's path, and its arguments";

/// What is wrong with a line that isn't JSON, with the first byte of what can't be read.
fn unread(alloc: Global, error: Error) -> Result<String, AllocError> {
    if error.is_eof() {
        return format!(in alloc; "{A_LINE}; it ends too early");
    }
    let column = error.column();
    format!(in alloc; "{A_LINE}; what begins at byte {column} can't be read")
}

fn answer_call(alloc: Global, call: &[Value]) -> Result<Value, AllocError> {
    let [Value::String(path), arguments @ ..] = call else {
        return wrong(
            alloc,
            String::from_str(alloc, "the array's first item is to be a call's path")?,
        );
    };
    match answer(alloc, path.as_str(), arguments) {
        Ok(answer) => Ok(answer),
        Err(Wrong::NoMemory) => Err(AllocError),
        Err(Wrong::Call) => {
            let count = arguments.len();
            wrong(
                alloc,
                format!(in alloc; "no call is {path} with {count} arguments")?,
            )
        }
        Err(Wrong::Argument(argument, wanted)) => {
            wrong(
                alloc,
                format!(in alloc; "{wanted} is wanted in place of {argument}")?,
            )
        }
        Err(Wrong::Missing(argument, name)) => {
            wrong(alloc, format!(in alloc; "{argument} has no member {name}")?)
        }
        Err(Wrong::Refused(argument, cause)) => {
            wrong(
                alloc,
                format!(in alloc; "{argument} makes no value: {cause}")?,
            )
        }
    }
}

fn wrong(alloc: Global, words: String) -> Result<Value, AllocError> {
    Ok(
        Object::new(alloc)
            .with("wrong", Value::String(words))?
            .value(),
    )
}

/// The answer to a call, by its library.
fn answer<'a>(alloc: Global, path: &str, arguments: &'a [Value]) -> Answer<'a> {
    let (library, call) = path.split_once("::").ok_or(Wrong::Call)?;
    match library {
        "writeable" => calls_writeable::answer(alloc, call, arguments),
        "tinystr" => tags::answer(alloc, call, arguments),
        "icu_locale_core" => locales::answer(alloc, call, arguments),
        "icu_locale_fallback" => fallback::answer(alloc, call, arguments),
        "unic_langid_impl" => calls_identifiers::answer(alloc, call, arguments),
        "language_tags" => calls_tags::answer(alloc, call, arguments),
        "lazy_dfa" => calls_conditions::answer(alloc, call, arguments),
        "icu_list" => calls_lists::answer(alloc, call, arguments),
        "reading" => reads::answer(alloc, call, arguments),
        "gettext" => calls_catalogs::answer(alloc, call, arguments),
        "localise_document" => contents::answer(alloc, call, arguments),
        "localise" => localising::answer(alloc, call, arguments),
        "localise_run" => program::answer(alloc, call, arguments),
        _ => Err(Wrong::Call),
    }
}
