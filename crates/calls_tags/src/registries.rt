//! Calls of a registry, of subtags, and of a tag with a registry.

use crate::errors;
use crate::tags::{printed, tag};
use calls::answers;
use calls::answers::Answer;
use calls::arguments::{Wrong, object, table, text};
use language_tags::{
    LanguageSubtag, RegionSubtag, Registry, RegistryError, RegistryRows, RegistryTable,
    ScriptSubtag, SubtagError,
};
use serde_json::Value;
use std::alloc::{AllocError, Global};

/// The tables by their names.
const TABLES: [(&str, RegistryTable); 13] = [
    ("Languages", RegistryTable::Languages),
    ("LanguagesPreferred", RegistryTable::LanguagesPreferred),
    (
        "LanguagesSuppressScript",
        RegistryTable::LanguagesSuppressScript,
    ),
    ("Extlangs", RegistryTable::Extlangs),
    ("ExtlangsPreferred", RegistryTable::ExtlangsPreferred),
    ("Scripts", RegistryTable::Scripts),
    ("ScriptsPreferred", RegistryTable::ScriptsPreferred),
    ("Regions", RegistryTable::Regions),
    ("RegionsPreferred", RegistryTable::RegionsPreferred),
    ("Variants", RegistryTable::Variants),
    ("VariantsPreferred", RegistryTable::VariantsPreferred),
    (
        "GrandfatheredsPreferred",
        RegistryTable::GrandfatheredsPreferred,
    ),
    ("RedundantsPreferred", RegistryTable::RedundantsPreferred),
];

/// A call of a registry or of a subtag, by its path.
pub fn answer<'a>(alloc: Global, call: &str, arguments: &'a [Value]) -> Answer<'a> {
    match (call, arguments) {
        ("Registry::try_new", [given]) => Ok(tried(alloc, &rows(alloc, given)?)?),
        ("Registry::get", [given, name, key]) => {
            let registry = registry(alloc, given)?;
            let found = registry.get(table_named(name)?, text(key)?);
            Ok(answers::optional_text(alloc, found)?)
        }
        ("LanguageSubtag::from_str", [given]) => {
            match LanguageSubtag::from_str(text(given)?) {
                Ok(subtag) => Ok(answers::text(alloc, subtag.as_str())?),
                Err(SubtagError::Malformed) => malformed(alloc),
            }
        }
        ("ScriptSubtag::from_str", [given]) => {
            match ScriptSubtag::from_str(text(given)?) {
                Ok(subtag) => Ok(answers::text(alloc, subtag.as_str())?),
                Err(SubtagError::Malformed) => malformed(alloc),
            }
        }
        ("RegionSubtag::from_str", [given]) => {
            match RegionSubtag::from_str(text(given)?) {
                Ok(subtag) => Ok(answers::text(alloc, subtag.as_str())?),
                Err(SubtagError::Malformed) => malformed(alloc),
            }
        }
        _ => Err(Wrong::Call),
    }
}

/// A call of a tag with a registry, by its path.
pub fn of_tag<'a>(alloc: Global, call: &str, arguments: &'a [Value]) -> Answer<'a> {
    let [given, tables] = arguments else {
        return Err(Wrong::Call);
    };
    let tag = tag(alloc, given)?;
    let registry = registry(alloc, tables)?;
    let answer = match call {
        "LanguageTag::validate" => match tag.validate(&registry) {
            Ok(()) => Ok(Value::Null),
            Err(error) => errors::refused_by_registry(alloc, error),
        },
        "LanguageTag::is_valid" => Ok(Value::Bool(tag.is_valid(&registry))),
        _ => match tag.canonicalize(alloc, &registry) {
            Ok(canonical) => printed(alloc, &canonical),
            Err(error) => errors::refused_by_registry(alloc, error),
        },
    };
    Ok(answer?)
}

/// Null, or the refusal.
fn tried(alloc: Global, rows: &RegistryRows) -> Result<Value, AllocError> {
    match Registry::try_new(alloc, rows) {
        Ok(_) => Ok(Value::Null),
        Err(error) => errors::refused_rows(alloc, error),
    }
}

fn registry<'a>(alloc: Global, tables: &'a Value) -> Result<Registry, Wrong<'a>> {
    Registry::try_new(alloc, &rows(alloc, tables)?).map_err(|error| match error {
        RegistryError::NoMemory => Wrong::NoMemory,
        _ => Wrong::Refused(tables, error.text()),
    })
}

fn table_named(given: &Value) -> Result<RegistryTable, Wrong<'_>> {
    let wanted = text(given)?;
    for (name, table) in TABLES {
        if name == wanted {
            return Ok(table);
        }
    }
    Err(Wrong::Argument(given, "the name of a table, as Languages,"))
}

fn malformed<'a>(alloc: Global) -> Answer<'a> {
    Ok(answers::refused(alloc, "Malformed")?)
}

fn rows<'a>(alloc: Global, tables: &'a Value) -> Result<RegistryRows, Wrong<'a>> {
    let tables = object(tables)?;
    Ok(RegistryRows {
        languages: table(alloc, tables, "languages")?,
        languages_preferred: table(alloc, tables, "languages_preferred")?,
        languages_suppress_script: table(alloc, tables, "languages_suppress_script")?,
        extlangs: table(alloc, tables, "extlangs")?,
        extlangs_preferred: table(alloc, tables, "extlangs_preferred")?,
        scripts: table(alloc, tables, "scripts")?,
        scripts_preferred: table(alloc, tables, "scripts_preferred")?,
        regions: table(alloc, tables, "regions")?,
        regions_preferred: table(alloc, tables, "regions_preferred")?,
        variants: table(alloc, tables, "variants")?,
        variants_preferred: table(alloc, tables, "variants_preferred")?,
        grandfathereds_preferred: table(alloc, tables, "grandfathereds_preferred")?,
        redundants_preferred: table(alloc, tables, "redundants_preferred")?,
    })
}
