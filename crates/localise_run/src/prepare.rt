//! What all commands do first: a document's tables, and the localiser of its bundles.

ghost use Rattle.std.specs.Prelude.{◌≡◌, IfErr, IfOk};
ghost use Rattle.localise.specs.Kept.{Localises};
ghost use Rattle.localise.specs.Views.{meanings, root_of, tables_of};
ghost use Rattle.localise_document.specs.Contents.{Contents};
ghost use Rattle.localise_run.specs.Answers.{IsRefusedBy, status_of};
ghost use Rattle.localise_run.specs.Causes.{status_of_document, status_of_fallback};
ghost use Rattle.localise_run.specs.Causes.{status_of_registry};
ghost use Rattle.localise_run.specs.Tables.{AreFallbackRows, AreRegistryRows, HasTables};
ghost use Rattle.localise_run.specs.Tables.{IsTableStatus};

use crate::{Status, TableCause};
use icu_locale_fallback::{FallbackRows, LocaleFallbacker, TableError};
use language_tags::{Registry, RegistryError, RegistryRows};
use language_tags_registry::laws::rows_make_one_registry;
use localise::{BundleText, Localiser, PatternTexts, RenderError};
use localise_document::DocumentError;
use std::alloc::Global;
use wanted_locale::Tables;

/// The tables of rows. The status is that of the first faulty row, or of want of memory.
pub(crate) fn tables_of(
    alloc: Global,
    registry: &RegistryRows,
    fallback: &FallbackRows,
) -> Result<Tables, Status>
    ensures ok { (d : Contents) → AreRegistryRows d registry.now → AreFallbackRows d fallback.now
        → IfOk result (HasTables d) }
    ensures err { (d : Contents) → AreRegistryRows d registry.now → AreFallbackRows d fallback.now
        → IfErr result (IsTableStatus d) }
{
    rows_make_one_registry();
    let registry = match Registry::try_new(alloc, registry) {
        Ok(registry) => registry,
        Err(error) => return Err(of_registry(error)),
    };
    match LocaleFallbacker::try_new(alloc, fallback) {
        Ok(fallbacker) => Ok(Tables {
            registry,
            fallbacker,
        }),
        Err(error) => Err(of_fallback(error)),
    }
}

fn of_registry(error: RegistryError) -> Status
    ensures { result ≡ status_of_registry error }
{
    match error {
        RegistryError::NoMemory => Status::NoMemory,
        error => Status::Table(TableCause::Registry(error)),
    }
}

fn of_fallback(error: TableError) -> Status
    ensures { result ≡ status_of_fallback error }
{
    match error {
        TableError::NoMemory => Status::NoMemory,
        error => Status::Table(TableCause::Fallback(error)),
    }
}

/// The localiser of bundles and a root.
pub(crate) fn localiser_of<'t>(
    alloc: Global,
    tables: &'t Tables,
    bundles: &[BundleText],
    root: &PatternTexts,
) -> Result<Localiser<'t>, Status>
    ensures ok { IfOk result (λ localiser. Localises tables.now bundles.now root.now
        (meanings localiser) (root_of localiser)) }
    ensures tables { IfOk result (λ localiser. tables_of localiser ≡ tables.now) }
    ensures err { IfErr result (IsRefusedBy tables.now bundles.now root.now) }
{
    match Localiser::try_new(alloc, tables, bundles, root) {
        Ok(localiser) => Ok(localiser),
        Err(error) => Err(of_refusal(error)),
    }
}

/// The status of a document that isn't read.
pub(crate) fn of_document(error: DocumentError) -> Status
    ensures { result ≡ status_of_document error }
{
    match error {
        DocumentError::NotJson => Status::NotJson,
        DocumentError::Shape(place) => Status::Shape(place),
        DocumentError::NoMemory => Status::NoMemory,
    }
}

/// The status of bundles or a root that are refused. The last three aren't answered by a
/// `Localiser`'s constructors.
fn of_refusal(error: RenderError) -> Status
    ensures { result ≡ status_of error }
{
    match error {
        RenderError::Bundle(i, cause) => Status::Bundle(i, cause),
        RenderError::DuplicateLocale(i) => Status::DuplicateLocale(i),
        RenderError::Root(fault) => Status::Root(fault),
        RenderError::Tag(_) | RenderError::ChainLoops | RenderError::Sink | RenderError::NoMemory =>
            Status::NoMemory,
    }
}
