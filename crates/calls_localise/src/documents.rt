//! Documents, and localisers and requests as members of one.

use calls::arguments::Wrong;
use calls::scripts::{Script, script_of};
use icu_locale_fallback::LocaleFallbacker;
use language_tags::Registry;
use localise_document::{Document, DocumentError, read_document};
use serde_json::Value;
use std::alloc::Global;
use wanted_locale::Tables;

/// What gives the bytes of a document: a text, an object with the member `most`, which is a source,
/// or any other value, which is its own text.
pub fn source_of<'a>(alloc: Global, given: &'a Value) -> Result<Script, Wrong<'a>> {
    match given {
        Value::String(text) => Ok(Script::of_text(alloc, text.as_str())?),
        _ if given.get("most").is_some() => script_of(alloc, given),
        _ => Ok(Script::of_text(alloc, given.to_string(alloc)?.as_str())?),
    }
}

/// The document of an object's members and of the members that `rest` writes behind them.
pub fn document<'a>(alloc: Global, given: &'a Value, rest: &str) -> Result<Document, Wrong<'a>> {
    let text = given.to_string(alloc)?;
    let Some(front) = text.as_str().strip_suffix("}") else {
        return Err(Wrong::Argument(given, "an object of a document's members"));
    };
    let comma = if front == "{" { "" } else { "," };
    let whole = format!(in alloc; "{front}{comma}{rest}}}")?;
    match read_document(alloc, whole.into_bytes()) {
        Ok(document) => Ok(document),
        Err(DocumentError::NoMemory) => Err(Wrong::NoMemory),
        Err(_) => Err(Wrong::Argument(given, "an object of a document's members")),
    }
}

/// The tables of a document.
pub fn tables<'a>(
    alloc: Global,
    given: &'a Value,
    document: &Document,
) -> Result<Tables, Wrong<'a>> {
    let faulty = Wrong::Argument(given, "tables without a fault");
    let Ok(registry) = Registry::try_new(alloc, &document.registry) else {
        return Err(faulty);
    };
    match LocaleFallbacker::try_new(alloc, &document.fallback) {
        Ok(fallbacker) => Ok(Tables {
            registry,
            fallbacker,
        }),
        Err(_) => Err(faulty),
    }
}
