//! Calls of locale fallback.
//!
//! Tables are an object of `likely_language`, `likely_language_script`, `likely_language_region`
//! and `parents`, each a list of rows of texts; one that is left out is empty. Null is no tables.
//! A walk is the texts of its locales, to the unknown one or up to a number of steps.

use crate::locales;
use calls::answers;
use calls::answers::{Answer, Object, printed};
use calls::arguments::{Wrong, number, object, table, text};
use icu_locale_core::DataLocale;
use icu_locale_fallback::{
    FallbackRows, LocaleFallbackConfig, LocaleFallbackIterator, LocaleFallbackPriority,
    LocaleFallbacker, LocaleFallbackerWithConfig, TableError,
};
use serde_json::Value;
use std::alloc::{AllocError, Global};

/// A call of `icu_locale_fallback`, by its path.
pub fn answer<'a>(alloc: Global, call: &str, arguments: &'a [Value]) -> Answer<'a> {
    match (call, arguments) {
        ("LocaleFallbackPriority::default", []) => {
            Ok(answers::text(alloc, priority_name(LocaleFallbackPriority::default()))?)
        }
        ("LocaleFallbackConfig::default", []) => {
            Ok(config_answer(alloc, LocaleFallbackConfig::default())?)
        }
        ("TableError::text", [name]) => Ok(answers::text(alloc, error_of(name)?.text())?),
        ("LocaleFallbacker::try_new", [tables]) => tried(alloc, tables),
        ("provider::Parents::len", [tables]) => {
            Ok(answers::size(fallbacker(alloc, tables)?.parents().len()))
        }
        (_, [tables, priority, others @ ..]) => {
            let config = LocaleFallbackConfig {
                priority: priority_of(priority)?,
            };
            configured(alloc, call, &fallbacker(alloc, tables)?, config, others)
        }
        _ => Err(Wrong::Call),
    }
}

fn tried<'a>(alloc: Global, tables: &'a Value) -> Answer<'a> {
    let answer = match LocaleFallbacker::try_new(alloc, &rows(alloc, tables)?) {
        Ok(_) => Ok(Value::Null),
        Err(error) => refused(alloc, error),
    };
    Ok(answer?)
}

fn refused(alloc: Global, error: TableError) -> Result<Value, AllocError> {
    match error {
        TableError::DuplicateKey(table, row)
        | TableError::BadKey(table, row)
        | TableError::BadValue(table, row) => {
            answers::refused_at(alloc, name(error), [table, row])
        }
        TableError::NoMemory => Err(AllocError),
    }
}

/// A call of a fallbacker with a configuration.
fn configured<'a>(
    alloc: Global,
    call: &str,
    fallbacker: &LocaleFallbacker,
    config: LocaleFallbackConfig,
    others: &'a [Value],
) -> Answer<'a> {
    let with_config = match call {
        "LocaleFallbackerBorrowed::for_config" => fallbacker.as_borrowed().for_config(config),
        _ => fallbacker.for_config(config),
    };
    match (call, others) {
        (
            "LocaleFallbacker::for_config"
            | "LocaleFallbackerBorrowed::for_config"
            | "LocaleFallbackerWithConfig::config",
            [],
        ) => Ok(config_answer(alloc, with_config.config())?),
        (_, [start, steps]) => match DataLocale::try_from_str(text(start)?) {
            Ok(locale) => walk(alloc, call, with_config, locale, number(steps)?),
            Err(error) => Err(Wrong::Refused(start, locales::name(error))),
        },
        _ => Err(Wrong::Call),
    }
}

/// A call of a walk from a locale, by a number of steps.
fn walk<'a>(
    alloc: Global,
    call: &str,
    with_config: LocaleFallbackerWithConfig<'_>,
    start: DataLocale,
    steps: u64,
) -> Answer<'a> {
    let answer = match call {
        "LocaleFallbackerWithConfig::fallback_for" => walked(alloc, with_config, start, steps),
        "LocaleFallbackIterator::step" | "LocaleFallbackIterator::get" => {
            printed(alloc, stepped(with_config, start, steps).get())
        }
        "LocaleFallbackIterator::take" => {
            printed(alloc, &stepped(with_config, start, steps).take())
        }
        _ => return Err(Wrong::Call),
    };
    Ok(answer?)
}

/// The walk from a locale after a number of steps.
fn stepped<'a>(
    with_config: LocaleFallbackerWithConfig<'a>,
    start: DataLocale,
    steps: u64,
) -> LocaleFallbackIterator<'a> {
    let mut walk = with_config.fallback_for(start);
    for _ in 0..steps {
        walk.step();
    }
    walk
}

/// The locales of the walk from a locale.
fn walked(
    alloc: Global,
    with_config: LocaleFallbackerWithConfig<'_>,
    start: DataLocale,
    steps: u64,
) -> Result<Value, AllocError> {
    let mut walk = with_config.fallback_for(start);
    let mut texts = Vec::new(alloc);
    texts.push(printed(alloc, walk.get())?)?;
    for _ in 0..steps {
        if walk.get().is_unknown() {
            break;
        }
        walk.step();
        texts.push(printed(alloc, walk.get())?)?;
    }
    Ok(Value::Array(texts))
}

fn config_answer(alloc: Global, config: LocaleFallbackConfig) -> Result<Value, AllocError> {
    let priority = answers::text(alloc, priority_name(config.priority))?;
    Ok(Object::new(alloc).with("priority", priority)?.value())
}

const PRIORITIES: [LocaleFallbackPriority; 3] = [
    LocaleFallbackPriority::Language,
    LocaleFallbackPriority::Script,
    LocaleFallbackPriority::Region,
];

fn priority_name(priority: LocaleFallbackPriority) -> &'static str {
    match priority {
        LocaleFallbackPriority::Language => "Language",
        LocaleFallbackPriority::Script => "Script",
        LocaleFallbackPriority::Region => "Region",
    }
}

fn priority_of(given: &Value) -> Result<LocaleFallbackPriority, Wrong<'_>> {
    let text = text(given)?;
    for priority in PRIORITIES {
        if priority_name(priority) == text {
            return Ok(priority);
        }
    }
    Err(Wrong::Argument(given, "Language, Script or Region"))
}

const ERRORS: [TableError; 4] = [
    TableError::DuplicateKey(0, 0),
    TableError::BadKey(0, 0),
    TableError::BadValue(0, 0),
    TableError::NoMemory,
];

fn name(error: TableError) -> &'static str {
    match error {
        TableError::DuplicateKey(..) => "DuplicateKey",
        TableError::BadKey(..) => "BadKey",
        TableError::BadValue(..) => "BadValue",
        TableError::NoMemory => "NoMemory",
    }
}

fn error_of(given: &Value) -> Result<TableError, Wrong<'_>> {
    let text = text(given)?;
    for error in ERRORS {
        if name(error) == text {
            return Ok(error);
        }
    }
    Err(Wrong::Argument(given, "the name of an error"))
}

fn fallbacker<'a>(alloc: Global, tables: &'a Value) -> Result<LocaleFallbacker, Wrong<'a>> {
    if tables.is_null() {
        return Ok(LocaleFallbacker::new_without_data(alloc));
    }
    LocaleFallbacker::try_new(alloc, &rows(alloc, tables)?).map_err(|error| match error {
        TableError::NoMemory => Wrong::NoMemory,
        _ => Wrong::Refused(tables, name(error)),
    })
}

fn rows<'a>(alloc: Global, tables: &'a Value) -> Result<FallbackRows, Wrong<'a>> {
    let tables = object(tables)?;
    Ok(FallbackRows {
        likely_language: table(alloc, tables, "likely_language")?,
        likely_language_script: table(alloc, tables, "likely_language_script")?,
        likely_language_region: table(alloc, tables, "likely_language_region")?,
        parents: table(alloc, tables, "parents")?,
    })
}
