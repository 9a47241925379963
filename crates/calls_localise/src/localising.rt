//! Calls of localisers. A localiser is an object of a document's members `registry`, `fallback`,
//! `bundles` and `root`, tables are one of the first two; a request is one of a document's; an
//! error is said by what is refused with it.
//!
//! `Found` is asked as `find` is: `Found::write_to` over a sink of 64 bytes. `render` takes the
//! numbers of the pushes at which its sink fails, if there are any, and a refusal of it stands
//! beside the text that the sink took.

use crate::documents::{document, tables};
use crate::refusals::{of_render, of_tag};
use calls::answers;
use calls::answers::{Answer, Object, printed};
use calls::arguments::{Wrong, numbers, size, text};
use icu_locale_core::DataLocale;
use localise::{ChainLoops, Found, Localiser, RenderError, Rendered, Request, render};
use localise_document::Document;
use serde_json::Value;
use std::alloc::{AllocError, Global};
use std::borrow::CowStr;
use wanted_locale::Tables;
use writeable::{FixedSink, ScriptSink, SinkError, Writeable};

/// A call of `localise`, by its path.
pub fn answer<'a>(alloc: Global, call: &str, arguments: &'a [Value]) -> Answer<'a> {
    match (call, arguments) {
        ("Localiser::wanted" | "TagCause::text", [given, tag]) => {
            document(alloc, given, "\"bundles\":[],\"requests\":[]")
                .and_then(|document| tables(alloc, given, &document))
                .and_then(|tables| wanted(alloc, call, &tables, tag))
        }
        ("render", [given, request]) => rendered(alloc, given, request, Vec::new(alloc)),
        ("render", [given, request, failing]) => {
            rendered(alloc, given, request, numbers(alloc, failing)?)
        }
        ("ChainLoops::text", []) => Ok(answers::text(alloc, ChainLoops.text())?),
        (call, [given, others @ ..]) => of_localiser(alloc, call, given, others),
        _ => Err(Wrong::Call),
    }
}

fn wanted<'a>(alloc: Global, call: &str, tables: &Tables, tag: &'a Value) -> Answer<'a> {
    match Localiser::wanted(alloc, tables, text(tag)?) {
        Ok(locale) => Ok(printed(alloc, &locale)?),
        Err(cause) if call == "TagCause::text" => Ok(answers::text(alloc, cause.text())?),
        Err(cause) => Ok(of_tag(alloc, cause)?),
    }
}

fn of_localiser<'a>(
    alloc: Global,
    call: &str,
    given: &'a Value,
    others: &'a [Value],
) -> Answer<'a> {
    requests_of(alloc, others)
        .and_then(|requests| document(alloc, given, requests.as_str()))
        .and_then(|document| over_document(alloc, call, given, others, &document))
}

fn over_document<'a>(
    alloc: Global,
    call: &str,
    given: &'a Value,
    others: &'a [Value],
    document: &Document,
) -> Answer<'a> {
    tables(alloc, given, document).and_then(|tables| over_tables(
        alloc, call, others, document, &tables,
    ))
}

fn over_tables<'a>(
    alloc: Global,
    call: &str,
    others: &'a [Value],
    document: &Document,
    tables: &Tables,
) -> Answer<'a> {
    match Localiser::try_new(alloc, tables, &document.bundles, &document.root) {
        Ok(localiser) => over_localiser(alloc, call, others, document, &localiser),
        Err(error) => refused(alloc, call, error),
    }
}

fn over_localiser<'a>(
    alloc: Global,
    call: &str,
    others: &'a [Value],
    document: &Document,
    localiser: &Localiser<'_>,
) -> Answer<'a> {
    match (call, others) {
        ("Localiser::try_new", []) => Ok(Value::Null),
        ("Localiser::bundle_count", []) => Ok(answers::size(localiser.bundle_count())),
        ("Localiser::catalog", [bundle]) => {
            let number = size(bundle)?;
            if number >= localiser.bundle_count() {
                return Err(Wrong::Argument(bundle, "a bundle's number"));
            }
            Ok(answers::bytes(alloc, localiser.catalog(number).buffer())?)
        }
        (call, [wanted, _]) => found(alloc, call, localiser, wanted, document),
        _ => Err(Wrong::Call),
    }
}

/// The member `requests`, of the last argument where there are two.
fn requests_of<'a>(alloc: Global, others: &'a [Value]) -> Result<String, Wrong<'a>> {
    match others {
        [_, request] => {
            let request = request.to_string(alloc)?;
            Ok(format!(in alloc; "\"requests\":[{request}]")?)
        }
        _ => Ok(String::from_str(alloc, "\"requests\":[]")?),
    }
}

fn refused<'a>(alloc: Global, call: &str, error: RenderError) -> Answer<'a> {
    match (call, error) {
        ("BundleCause::text", RenderError::Bundle(_, cause)) => {
            Ok(answers::text(alloc, cause.text())?)
        }
        ("RenderError::text", error) => Ok(answers::text(alloc, error.text())?),
        (_, error) => Ok(of_render(alloc, error)?),
    }
}

/// What is found for the first request, as the call asks for it.
fn found<'a>(
    alloc: Global,
    call: &str,
    localiser: &Localiser<'_>,
    wanted: &'a Value,
    document: &Document,
) -> Answer<'a> {
    let Ok(locale) = DataLocale::try_from_str(text(wanted)?) else {
        return Err(Wrong::Argument(wanted, "a locale"));
    };
    let Some(request) = document.requests.first() else {
        return Err(Wrong::Call);
    };
    let answer = match (call, localiser.find(locale, request)) {
        ("Localiser::find", Ok(found)) => of_found(alloc, &found),
        ("Found::write_to", Ok(found)) => in_64_bytes(alloc, &found),
        ("Found::write_to_string", Ok(found)) => in_a_string(alloc, &found),
        (_, Err(ChainLoops)) => answers::refused(alloc, "ChainLoops"),
        _ => return Err(Wrong::Call),
    };
    Ok(answer?)
}

fn of_found(alloc: Global, found: &Found<'_>) -> Result<Value, AllocError> {
    let written = answers::written(alloc, found)?;
    Ok(
        Object::new(alloc)
            .with("written", written)?
            .with("bundle", answers::optional_size(found.bundle()))?
            .with("form", answers::optional_size(found.form_number()))?
            .with("locale", printed(alloc, &found.locale())?)?
            .with("visited", printed(alloc, &found.visited())?)?
            .value(),
    )
}

fn in_64_bytes(alloc: Global, found: &Found<'_>) -> Result<Value, AllocError> {
    let mut sink = FixedSink::<64>::new();
    match found.write_to(&mut sink) {
        Ok(()) => answers::text(alloc, sink.as_str()),
        Err(SinkError::Fault) => answers::refused(alloc, "Fault"),
        Err(SinkError::NoMemory) => answers::refused(alloc, "NoMemory"),
    }
}

fn in_a_string(alloc: Global, found: &Found<'_>) -> Result<Value, AllocError> {
    let written = found.write_to_string(alloc)?;
    let borrowed = matches!(written, CowStr::Borrowed(_));
    let text = Value::String(written.into_owned(alloc)?);
    Ok(
        Object::new(alloc)
            .with("text", text)?
            .with("borrowed", Value::Bool(borrowed))?
            .value(),
    )
}

fn rendered<'a>(
    alloc: Global,
    given: &'a Value,
    request: &'a Value,
    failing: Vec<u64>,
) -> Answer<'a> {
    document_with(alloc, given, request).and_then(|document| rendered_over(
        alloc, given, &document, failing,
    ))
}

fn document_with<'a>(
    alloc: Global,
    given: &'a Value,
    request: &'a Value,
) -> Result<Document, Wrong<'a>> {
    let request = request.to_string(alloc)?;
    let requests = format!(in alloc; "\"requests\":[{request}]")?;
    document(alloc, given, requests.as_str())
}

fn rendered_over<'a>(
    alloc: Global,
    given: &'a Value,
    document: &Document,
    failing: Vec<u64>,
) -> Answer<'a> {
    let Some(request) = document.requests.first() else {
        return Err(Wrong::Call);
    };
    let tables = tables(alloc, given, document)?;
    Ok(rendered_into(alloc, document, request, &tables, failing)?)
}

fn rendered_into(
    alloc: Global,
    document: &Document,
    request: &Request,
    tables: &Tables,
    failing: Vec<u64>,
) -> Result<Value, AllocError> {
    let mut sink = ScriptSink::new(alloc, failing);
    let bundles = document.bundles.as_slice();
    let answer = render(alloc, tables, bundles, &document.root, request, &mut sink);
    of_rendering(alloc, answer, sink.into_string())
}

fn of_rendering(
    alloc: Global,
    answer: Result<Rendered, RenderError>,
    text: String,
) -> Result<Value, AllocError> {
    match answer {
        Ok(rendered) => Ok(
            Object::new(alloc)
                .with("text", Value::String(text))?
                .with("bundle", answers::optional_size(rendered.bundle))?
                .with("locale", printed(alloc, &rendered.locale)?)?
                .with("visited", printed(alloc, &rendered.visited)?)?
                .with("hint", answers::hint(alloc, rendered.hint)?)?
                .value(),
        ),
        Err(error) => Ok(
            Object::new(alloc)
                .with("text", Value::String(text))?
                .with("refusal", of_render(alloc, error)?)?
                .value(),
        ),
    }
}
