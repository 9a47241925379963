//! Refusals by their names, each with the one that it carries.

use calls::answers;
use calls::answers::Object;
use calls_catalogs::metadata;
use localise::{BundleCause, RenderError};
use serde_json::Value;
use std::alloc::{AllocError, Global};
use wanted_locale::TagCause;

/// A cause of a tag, by its name, and the words of what it carries.
pub fn of_tag(alloc: Global, cause: TagCause) -> Result<Value, AllocError> {
    let name = match cause {
        TagCause::Parse(_) => "Parse",
        TagCause::Canonical(_) => "Canonical",
        TagCause::Identifier(_) => "Identifier",
        TagCause::NoMemory => return Err(AllocError),
    };
    with_words(alloc, name, cause.text())
}

/// A refusal of bundles, of the root or of a request.
pub fn of_render(alloc: Global, error: RenderError) -> Result<Value, AllocError> {
    match error {
        RenderError::Bundle(bundle, cause) => of_bundle(alloc, bundle, cause),
        RenderError::DuplicateLocale(bundle) => {
            answers::refused_at(alloc, "DuplicateLocale", [bundle])
        }
        RenderError::Root(fault) => with_words(alloc, "Root", fault.text()),
        RenderError::Tag(cause) => of_tag(alloc, cause),
        RenderError::ChainLoops => answers::refused(alloc, "ChainLoops"),
        RenderError::Sink => answers::refused(alloc, "Sink"),
        RenderError::NoMemory => Err(AllocError),
    }
}

fn of_bundle(alloc: Global, bundle: usize, cause: BundleCause) -> Result<Value, AllocError> {
    let cause = match cause {
        BundleCause::Tag(cause) => of_tag(alloc, cause)?,
        BundleCause::Mo(error) => answers::refused(alloc, metadata::name(error))?,
        BundleCause::List(fault) => with_words(alloc, "List", fault.text())?,
    };
    Ok(
        Object::new(alloc)
            .with("refused", answers::text(alloc, "Bundle")?)?
            .with("at", answers::list(alloc, [answers::size(bundle)])?)?
            .with("cause", cause)?
            .value(),
    )
}

fn with_words(alloc: Global, name: &str, words: &str) -> Result<Value, AllocError> {
    Ok(
        Object::new(alloc)
            .with("refused", answers::text(alloc, name)?)?
            .with("words", answers::text(alloc, words)?)?
            .value(),
    )
}
