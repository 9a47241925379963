//! Calls of formatters.
//!
//! A formatter is its patterns (see `patterns`). A table is a list of rows, each an object of
//! `kind` (`And`, `Or` or `Unit`), `locale`, `length` (`Wide`, `Short` or `Narrow`) and `patterns`;
//! a call of one takes the table, a locale, a length or null, and the items that its formatter
//! joins.

use crate::errors::refused;
use crate::patterns::patterns_of;
use calls::answers;
use calls::answers::Answer;
use calls::arguments::{Wrong, field, list, text};
use icu_list::options::{ListFormatterOptions, ListLength};
use icu_list::provider::ListFormatterPatterns;
use icu_list::{DataError, ListFormatter, ListKind, ListTableRow, ListTables};
use icu_locale_core::DataLocale;
use serde_json::Value;
use std::alloc::{AllocError, Global};
use writeable::OwnedText;

/// A call of a formatter, by its name.
pub fn answer<'a>(alloc: Global, call: &str, arguments: &'a [Value]) -> Answer<'a> {
    match (call, arguments) {
        ("format", [given, items]) => {
            patterns_of(alloc, given).and_then(|patterns| written(alloc, &patterns, items))
        }
        ("format_to_string", [given, items]) => {
            patterns_of(alloc, given).and_then(|patterns| joined(alloc, &patterns, items))
        }
        ("try_new_and" | "try_new_or" | "try_new_unit", [table, locale, length, items]) => {
            let table = table_of(alloc, table)?;
            by_table(alloc, call, &table, locale, length, items)
        }
        _ => Err(Wrong::Call),
    }
}

/// What the list of these items writes.
fn written<'a>(alloc: Global, patterns: &ListFormatterPatterns, items: &'a Value) -> Answer<'a> {
    let items = texts(alloc, items)?;
    let formatter = ListFormatter::from_patterns(patterns);
    Ok(answers::written(alloc, &formatter.format(&items))?)
}

fn joined<'a>(alloc: Global, patterns: &ListFormatterPatterns, items: &'a Value) -> Answer<'a> {
    let items = texts(alloc, items)?;
    let joined = ListFormatter::from_patterns(patterns).format_to_string(alloc, &items)?;
    Ok(answers::text(alloc, joined.as_str())?)
}

/// What the formatter of the first row joins of the items.
fn by_table<'a>(
    alloc: Global,
    call: &str,
    table: &ListTables,
    locale: &'a Value,
    length: &'a Value,
    items: &'a Value,
) -> Answer<'a> {
    let options = options_of(length)?;
    let items = texts(alloc, items)?;
    match DataLocale::try_from_str(text(locale)?) {
        Ok(locale) => {
            let formatter = formatter_of(call, table, locale, options);
            Ok(written_or_refused(alloc, formatter, &items)?)
        }
        Err(_) => Err(not_a_locale(locale)),
    }
}

fn formatter_of<'a>(
    call: &str,
    table: &'a ListTables,
    locale: DataLocale,
    options: ListFormatterOptions,
) -> Result<ListFormatter<'a>, DataError> {
    match call {
        "try_new_and" => ListFormatter::try_new_and(table, locale, options),
        "try_new_or" => ListFormatter::try_new_or(table, locale, options),
        _ => ListFormatter::try_new_unit(table, locale, options),
    }
}

fn written_or_refused(
    alloc: Global,
    formatter: Result<ListFormatter<'_>, DataError>,
    items: &[OwnedText],
) -> Result<Value, AllocError> {
    match formatter {
        Ok(formatter) => answers::written(alloc, &formatter.format(items)),
        Err(error) => refused(alloc, error),
    }
}

fn texts<'a>(alloc: Global, given: &'a Value) -> Result<Vec<OwnedText>, Wrong<'a>> {
    let mut texts = Vec::new(alloc);
    for item in list(given)? {
        texts.push(OwnedText::new(alloc, text(item)?)?)?;
    }
    Ok(texts)
}

fn not_a_locale(given: &Value) -> Wrong<'_> {
    Wrong::Argument(given, "a data locale")
}

fn length_of(given: &Value) -> Result<ListLength, Wrong<'_>> {
    match text(given)? {
        "Wide" => Ok(ListLength::Wide),
        "Short" => Ok(ListLength::Short),
        "Narrow" => Ok(ListLength::Narrow),
        _ => Err(Wrong::Argument(given, "Wide, Short or Narrow")),
    }
}

fn options_of(given: &Value) -> Result<ListFormatterOptions, Wrong<'_>> {
    if given.is_null() {
        return Ok(ListFormatterOptions::default());
    }
    Ok(ListFormatterOptions::default().with_length(length_of(given)?))
}

fn kind_of(given: &Value) -> Result<ListKind, Wrong<'_>> {
    match text(given)? {
        "And" => Ok(ListKind::And),
        "Or" => Ok(ListKind::Or),
        "Unit" => Ok(ListKind::Unit),
        _ => Err(Wrong::Argument(given, "And, Or or Unit")),
    }
}

fn table_of<'a>(alloc: Global, given: &'a Value) -> Result<ListTables, Wrong<'a>> {
    let mut rows = Vec::new(alloc);
    for row in list(given)? {
        rows.push(row_of(alloc, row)?)?;
    }
    Ok(ListTables { rows })
}

fn row_of<'a>(alloc: Global, given: &'a Value) -> Result<ListTableRow, Wrong<'a>> {
    let kind = kind_of(field(given, "kind")?)?;
    let locale = field(given, "locale")?;
    let Ok(locale) = DataLocale::try_from_str(text(locale)?) else {
        return Err(not_a_locale(locale));
    };
    let length = length_of(field(given, "length")?)?;
    let patterns = patterns_of(alloc, field(given, "patterns")?)?;
    Ok(ListTableRow {
        kind,
        locale,
        length,
        patterns,
    })
}
