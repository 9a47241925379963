//! The call of `localise_document`. A document is said as for a run (see `program`), and is
//! answered by its contents: of each table that isn't empty the rows, which have three texts each;
//! patterns as a list of start, middle, end, pair, the end special and the pair special. A special
//! is a list of its condition and its pattern, or null.

use crate::documents::source_of;
use calls::answers;
use calls::answers::{Answer, Object};
use calls::arguments::Wrong;
use icu_locale_fallback::FallbackRows;
use language_tags::RegistryRows;
use localise::{BundleText, PatternTexts, Request, Special};
use localise_document::{Document, DocumentError, ShapePlace, read_document};
use serde_json::Value;
use std::alloc::{AllocError, Global};
use writeable::{OwnedText, TextRow};

/// The call of `localise_document`.
pub fn answer<'a>(alloc: Global, call: &str, arguments: &'a [Value]) -> Answer<'a> {
    let ("read_document", [given]) = (call, arguments) else {
        return Err(Wrong::Call);
    };
    let bytes = Vec::from_slice(alloc, source_of(alloc, given)?.bytes())?;
    let answer = match read_document(alloc, bytes) {
        Ok(document) => of_document(alloc, &document),
        Err(DocumentError::NotJson) => answers::refused(alloc, "NotJson"),
        Err(DocumentError::Shape(place)) => misshapen(alloc, place),
        Err(DocumentError::NoMemory) => Err(AllocError),
    };
    Ok(answer?)
}

fn misshapen(alloc: Global, place: ShapePlace) -> Result<Value, AllocError> {
    let section = answers::text(alloc, place.section.name())?;
    let field = answers::text(alloc, place.field.name())?;
    let at = answers::list(alloc, [section, answers::size(place.index), field])?;
    Ok(
        Object::new(alloc)
            .with("refused", answers::text(alloc, "Shape")?)?
            .with("at", at)?
            .value(),
    )
}

fn of_document(alloc: Global, document: &Document) -> Result<Value, AllocError> {
    let mut bundles = Vec::new(alloc);
    for bundle in document.bundles.iter() {
        bundles.push(of_bundle(alloc, bundle)?)?;
    }
    let mut requests = Vec::new(alloc);
    for request in document.requests.iter() {
        requests.push(of_request(alloc, request)?)?;
    }
    Ok(
        Object::new(alloc)
            .with("registry", of_registry(alloc, &document.registry)?)?
            .with("fallback", of_fallback(alloc, &document.fallback)?)?
            .with("bundles", Value::Array(bundles))?
            .with("root", of_patterns(alloc, &document.root)?)?
            .with("requests", Value::Array(requests))?
            .value(),
    )
}

fn of_registry(alloc: Global, rows: &RegistryRows) -> Result<Value, AllocError> {
    of_tables(
        alloc,
        &[
            ("languages", rows.languages.as_slice()),
            ("languages_preferred", rows.languages_preferred.as_slice()),
            (
                "languages_suppress_script",
                rows.languages_suppress_script.as_slice(),
            ),
            ("extlangs", rows.extlangs.as_slice()),
            ("extlangs_preferred", rows.extlangs_preferred.as_slice()),
            ("scripts", rows.scripts.as_slice()),
            ("scripts_preferred", rows.scripts_preferred.as_slice()),
            ("regions", rows.regions.as_slice()),
            ("regions_preferred", rows.regions_preferred.as_slice()),
            ("variants", rows.variants.as_slice()),
            ("variants_preferred", rows.variants_preferred.as_slice()),
            (
                "grandfathereds_preferred",
                rows.grandfathereds_preferred.as_slice(),
            ),
            ("redundants_preferred", rows.redundants_preferred.as_slice()),
        ],
    )
}

fn of_fallback(alloc: Global, rows: &FallbackRows) -> Result<Value, AllocError> {
    of_tables(
        alloc,
        &[
            ("likely_language", rows.likely_language.as_slice()),
            (
                "likely_language_script",
                rows.likely_language_script.as_slice(),
            ),
            (
                "likely_language_region",
                rows.likely_language_region.as_slice(),
            ),
            ("parents", rows.parents.as_slice()),
        ],
    )
}

/// The tables that aren't empty, by their names.
fn of_tables(alloc: Global, tables: &[(&str, &[TextRow])]) -> Result<Value, AllocError> {
    let mut object = Object::new(alloc);
    for (name, rows) in tables {
        if !rows.is_empty() {
            object = object.with(name, of_rows(alloc, rows)?)?;
        }
    }
    Ok(object.value())
}

fn of_rows(alloc: Global, rows: &[TextRow]) -> Result<Value, AllocError> {
    let mut lists = Vec::new(alloc);
    for row in rows {
        lists.push(of_texts(alloc, &[&row.first, &row.second, &row.third])?)?;
    }
    Ok(Value::Array(lists))
}

fn of_bundle(alloc: Global, bundle: &BundleText) -> Result<Value, AllocError> {
    Ok(
        Object::new(alloc)
            .with("tag", of_text(alloc, &bundle.tag)?)?
            .with("mo", answers::bytes(alloc, bundle.mo.as_slice())?)?
            .with("list", of_patterns(alloc, &bundle.list)?)?
            .value(),
    )
}

fn of_patterns(alloc: Global, patterns: &PatternTexts) -> Result<Value, AllocError> {
    answers::list(
        alloc,
        [
            of_text(alloc, &patterns.start)?,
            of_text(alloc, &patterns.middle)?,
            of_text(alloc, &patterns.end)?,
            of_text(alloc, &patterns.pair)?,
            of_special(alloc, &patterns.end_special)?,
            of_special(alloc, &patterns.pair_special)?,
        ],
    )
}

fn of_special(alloc: Global, special: &Option<Special>) -> Result<Value, AllocError> {
    match special {
        Some(special) => of_texts(alloc, &[&special.condition, &special.pattern]),
        None => Ok(Value::Null),
    }
}

fn of_request(alloc: Global, request: &Request) -> Result<Value, AllocError> {
    let mut items = Vec::new(alloc);
    for item in request.items.as_slice() {
        items.push(of_text(alloc, item)?)?;
    }
    Ok(
        Object::new(alloc)
            .with("tag", of_text(alloc, &request.tag)?)?
            .with(
                "context",
                answers::optional_text(alloc, request.context_text())?,
            )?
            .with("singular", of_text(alloc, &request.singular)?)?
            .with("plural", of_text(alloc, &request.plural)?)?
            .with("count", answers::number(request.count))?
            .with("placeholder", of_text(alloc, &request.placeholder)?)?
            .with("items", Value::Array(items))?
            .value(),
    )
}

fn of_text(alloc: Global, text: &OwnedText) -> Result<Value, AllocError> {
    answers::text(alloc, text.as_str())
}

fn of_texts(alloc: Global, texts: &[&OwnedText]) -> Result<Value, AllocError> {
    let mut values = Vec::new(alloc);
    for text in texts {
        values.push(of_text(alloc, text)?)?;
    }
    Ok(Value::Array(values))
}
