ghost use Rattle.std.specs.Prelude.{◌≡◌, ◌≢◌, Err, Ok, Some, option_map, IfErr, IfOk};
ghost use Rattle.serde_json.specs.View.{view};
ghost use Rattle.localise_document.specs.Document.{IsDocument, IsDocumentFault, document_of};
ghost use Rattle.localise_document.specs.Document.{json_of, root_of};
ghost use Rattle.localise_document.specs.Misread.{IsFaultOf};
ghost use Rattle.localise_document.specs.Objects.{IsDocumentObject};
ghost use Rattle.localise_document.specs.declared.error.DocumentError.TheVariants.{NoMemory};
ghost use Rattle.localise_document.specs.declared.error.DocumentError.TheVariants.{NotJson};

use crate::bundles::{BundleReader, with_root};
use crate::error::{DocumentError, Misread};
use crate::members::members_by_name;
use crate::patterns::{patterns_from, without_root};
use crate::requests::RequestReader;
use crate::rows::needed_rows;
use crate::tables::{fallback_from, registry_from};
use crate::{Field, Section, ShapePlace};
use icu_locale_fallback::FallbackRows;
use language_tags_registry::RegistryRows;
use localise_texts::{BundleText, PatternTexts, Request};
use serde_json::Value;
use std::alloc::{AllocError, Global};
use std::marker::Model;

/// What a document says.
#[derive(Drop)]
pub struct Document {
    /// The registry of language subtags.
    pub registry: RegistryRows,
    /// Likely subtags and parents.
    pub fallback: FallbackRows,
    /// The translations, each with the patterns of lists of its locale.
    pub bundles: Vec<BundleText>,
    /// The patterns of lists where no bundle translates.
    pub root: PatternTexts,
    /// What is asked for, in order.
    pub requests: Vec<Request>,
}

impl Model for Document {
    ghost use Rattle.localise_document.specs.Contents.{Contents, fallback_lists, registry_lists};

    ghost Value = { Contents };

    ghost view = { λ d. record {
      registry = registry_lists d.registry;
      fallback = fallback_lists d.fallback;
      bundles = d.bundles.items;
      root = d.root;
      requests = d.requests.items;
    } };
}

/// The document that bytes are as JSON, or why they are none: they are no JSON, or the first
/// misshapen place of its value.
pub fn read_document(alloc: Global, bytes: Vec<u8>) -> Result<Document, DocumentError>
    ensures ok { IfOk result (IsDocument bytes.items) }
    ensures err { IfErr result (λ e. e ≢ NoMemory → IsDocumentFault bytes.items e) }
{
    let value = value_of_bytes(alloc, bytes)?;
    match document_from(alloc, value) {
        Ok(document) => Ok(document),
        Err(Misread::Shape(place)) => Err(DocumentError::Shape(place)),
        Err(Misread::NoMemory) => Err(DocumentError::NoMemory),
    }
}

fn value_of_bytes(alloc: Global, bytes: Vec<u8>) -> Result<Value, DocumentError>
    ensures ok { IfOk result (λ value. json_of bytes.items ≡ Some (view value)) }
    ensures err { IfErr result (λ e. e ≢ NoMemory → (e ≡ NotJson) × (json_of bytes.items ≡ None)) }
{
    match Value::from_slice(alloc, bytes.as_slice()) {
        Ok(value) => Ok(value),
        Err(error) if error.is_memory() => Err(DocumentError::NoMemory),
        Err(_) => Err(DocumentError::NotJson),
    }
}

/// A document's members.
#[derive(Drop)]
pub(crate) struct DocumentMembers {
    registry: Option<Value>,
    fallback: Option<Value>,
    bundles: Option<Value>,
    root: Option<Value>,
    requests: Option<Value>,
}

/// The members of the document that a value is.
#[tactic(auto, unfolding(crate::specs::Document::document_of))]
fn members_from(value: Value) -> Result<DocumentMembers, ShapePlace>
    ensures ok { IfOk result (IsDocumentObject (view value)) }
    ensures err { IfErr result (λ place. document_of (view value) ≡ Err place) }
{
    let Value::Object(members) = value else {
        return Err(ShapePlace::of_section(Section::Document, Field::Whole));
    };
    let names = ["bundles", "fallback", "registry", "requests", "root"];
    let Some(mut slots) = members_by_name::<5>(members, &names) else {
        return Err(ShapePlace::of_section(Section::Document, Field::Unknown));
    };
    Ok(DocumentMembers {
        registry: slots[2].take(),
        fallback: slots[1].take(),
        bundles: slots[0].take(),
        root: slots[4].take(),
        requests: slots[3].take(),
    })
}

/// The document that a value is.
#[tactic(auto, unfolding(crate::specs::Document::document_of, crate::specs::Document::document_in))]
fn document_from(alloc: Global, value: Value) -> Result<Document, Misread<ShapePlace>>
    ensures ok { IfOk result (λ document. document_of (view value) ≡ Ok document) }
    ensures err { IfErr result (IsFaultOf (document_of (view value))) }
{
    let members = members_from(value)?;
    let registry = registry_from(alloc, members.registry)?;
    let fallback = fallback_from(alloc, members.fallback)?;
    let bundles = needed_rows(alloc, &BundleReader, Section::Bundles, members.bundles)??;
    let root = root_from(alloc, members.root)??;
    let requests = needed_rows(alloc, &RequestReader, Section::Requests, members.requests)??;
    let bundles = with_root(alloc, bundles, &root)?;
    Ok(Document {
        registry,
        fallback,
        bundles,
        root,
        requests,
    })
}

/// The root's patterns.
fn root_from(
    alloc: Global,
    member: Option<Value>,
) -> Result<Result<PatternTexts, ShapePlace>, AllocError>
    ensures { IfOk result (λ read. read ≡ root_of (option_map view member)) }
{
    match member {
        None => Ok(Ok(without_root(alloc)?)),
        Some(value) => Ok(root_of_value(value)),
    }
}

fn root_of_value(value: Value) -> Result<PatternTexts, ShapePlace>
    ensures { result ≡ root_of (Some (view value)) }
{
    if !value.is_object() {
        return Err(ShapePlace::of_section(Section::Root, Field::Whole));
    }
    patterns_from(value).ok_or(ShapePlace::of_section(Section::Root, Field::List))
}
