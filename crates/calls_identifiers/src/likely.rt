//! Calls that are handed likely tables.
//!
//! Tables are an object of `lang_only`, `lang_region`, `lang_script`, `script_region`,
//! `script_only` and `region_only`, each a list of rows of texts; one that is left out is empty.

use crate::errors::likely_name;
use crate::making::without_variants;
use crate::subtags;
use calls::answers;
use calls::answers::{Answer, printed};
use calls::arguments::{Wrong, object, table};
use serde_json::Value;
use std::alloc::{AllocError, Global};
use unic_langid_impl::likelysubtags::{maximize, minimize};
use unic_langid_impl::{
    CharacterDirection, LanguageIdentifier, LikelyError, LikelyRows, LikelyTables,
};

/// A call of tables, by its path.
pub fn answer<'a>(alloc: Global, call: &str, arguments: &'a [Value]) -> Answer<'a> {
    match (call, arguments) {
        ("LikelyTables::try_new", [tables]) => tried(alloc, tables),
        (
            "likelysubtags::maximize" | "likelysubtags::minimize",
            [tables, language, script, region],
        ) => {
            let identifier = without_variants(alloc, language, script, region)?;
            let tables = tables_of(alloc, tables)?;
            Ok(form(alloc, call, &tables, identifier)?)
        }
        _ => Err(Wrong::Call),
    }
}

/// A call of an identifier with tables.
pub fn of_identifier<'a>(
    alloc: Global,
    call: &str,
    mut identifier: LanguageIdentifier,
    tables: &'a Value,
) -> Answer<'a> {
    let tables = tables_of(alloc, tables)?;
    let changed = match call {
        "LanguageIdentifier::maximize" => identifier.maximize(&tables),
        "LanguageIdentifier::minimize" => identifier.minimize(&tables),
        "LanguageIdentifier::character_direction" => {
            return Ok(direction(alloc, identifier.character_direction(&tables))?);
        }
        _ => return Err(Wrong::Call),
    };
    if changed {
        Ok(printed(alloc, &identifier)?)
    } else {
        Ok(Value::Bool(false))
    }
}

fn direction(alloc: Global, direction: CharacterDirection) -> Result<Value, AllocError> {
    let name = match direction {
        CharacterDirection::RTL => "RTL",
        CharacterDirection::LTR => "LTR",
        CharacterDirection::TTB => "TTB",
    };
    answers::text(alloc, name)
}

/// The maximal or minimal form of an identifier's subtags, or null.
fn form(
    alloc: Global,
    call: &str,
    tables: &LikelyTables,
    identifier: LanguageIdentifier,
) -> Result<Value, AllocError> {
    let (language, script, region, _) = identifier.into_parts();
    let form = match call {
        "likelysubtags::maximize" => maximize(tables, language, script, region),
        _ => minimize(tables, language, script, region),
    };
    let Some((language, script, region)) = form else {
        return Ok(Value::Null);
    };
    let language = answers::text(alloc, language.as_str())?;
    let script = subtags::text_or_null(alloc, script)?;
    let region = subtags::text_or_null(alloc, region)?;
    answers::list(alloc, [language, script, region])
}

fn tried<'a>(alloc: Global, tables: &'a Value) -> Answer<'a> {
    let answer = match LikelyTables::try_new(alloc, &rows(alloc, tables)?) {
        Ok(_) => answers::text(alloc, "Ok"),
        Err(error) => refused(alloc, error),
    };
    Ok(answer?)
}

fn refused(alloc: Global, error: LikelyError) -> Result<Value, AllocError> {
    match error {
        LikelyError::DuplicateKey(table, row) | LikelyError::BadEntry(table, row) => {
            answers::refused_at(alloc, likely_name(error), [table, row])
        }
        LikelyError::NoMemory => Err(AllocError),
    }
}

fn tables_of<'a>(alloc: Global, tables: &'a Value) -> Result<LikelyTables, Wrong<'a>> {
    LikelyTables::try_new(alloc, &rows(alloc, tables)?).map_err(|error| match error {
        LikelyError::NoMemory => Wrong::NoMemory,
        _ => Wrong::Refused(tables, likely_name(error)),
    })
}

fn rows<'a>(alloc: Global, tables: &'a Value) -> Result<LikelyRows, Wrong<'a>> {
    let tables = object(tables)?;
    Ok(LikelyRows {
        lang_only: table(alloc, tables, "lang_only")?,
        lang_region: table(alloc, tables, "lang_region")?,
        lang_script: table(alloc, tables, "lang_script")?,
        script_region: table(alloc, tables, "script_region")?,
        script_only: table(alloc, tables, "script_only")?,
        region_only: table(alloc, tables, "region_only")?,
    })
}
