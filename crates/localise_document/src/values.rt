ghost use Rattle.std.specs.Prelude.{◌≡◌, [], option_map, IfOk};
ghost use Rattle.serde_json.specs.View.{items_view, view};
ghost use Rattle.localise_document.specs.Hex.{bytes_of};
ghost use Rattle.localise_document.specs.Shape.{count_of, each_text, needed, optional, optional_or};
ghost use Rattle.localise_document.specs.Shape.{text_list_of, text_of};

use crate::Field;
use hex::FromHexError;
use localise_texts::MoBytes;
use serde_json::Value;
use std::alloc::{AllocError, Global};
use writeable_core::{OwnedText, TextList};

/// The text that a value is, without a copy.
pub(crate) fn text_from(value: Value) -> Option<OwnedText>
    ensures { result ≡ text_of (view value) }
{
    match value {
        Value::String(text) => Some(OwnedText::from_string(text)),
        _ => None,
    }
}

/// A text that must be there.
pub(crate) fn needed_text(member: Option<Value>, field: Field) -> Result<OwnedText, Field>
    ensures { result ≡ needed text_of field (option_map view member) }
{
    match member {
        None => Err(field),
        Some(value) => text_from(value).ok_or(field),
    }
}

/// A text that may be absent.
pub(crate) fn optional_text(member: Option<Value>, field: Field) -> Result<Option<OwnedText>, Field>
    ensures { result ≡ optional text_of field (option_map view member) }
{
    match member {
        None => Ok(None),
        Some(value) => match text_from(value) {
            Some(text) => Ok(Some(text)),
            None => Err(field),
        },
    }
}

/// A text that is empty where it is absent.
pub(crate) fn text_or_empty(
    alloc: Global,
    member: Option<Value>,
    field: Field,
) -> Result<OwnedText, Field>
    ensures { result ≡ optional_or [] text_of field (option_map view member) }
{
    match member {
        None => Ok(OwnedText::empty(alloc)),
        Some(value) => text_from(value).ok_or(field),
    }
}

/// A whole number that must be there.
pub(crate) fn needed_count(member: Option<Value>, field: Field) -> Result<u64, Field>
    ensures { result ≡ needed count_of field (option_map view member) }
{
    match member {
        None => Err(field),
        Some(value) => value.as_u64().ok_or(field),
    }
}

/// The bytes of a text of hexadecimal digits that must be there.
pub(crate) fn needed_bytes(
    alloc: Global,
    member: Option<Value>,
    field: Field,
) -> Result<Result<MoBytes, Field>, AllocError>
    ensures { IfOk result (λ read. read ≡ needed bytes_of field (option_map view member)) }
{
    match member {
        None => Ok(Err(field)),
        Some(value) => Ok(bytes_from(alloc, value)?.ok_or(field)),
    }
}

fn bytes_from(alloc: Global, value: Value) -> Result<Option<MoBytes>, AllocError>
    ensures { IfOk result (λ bytes. bytes ≡ bytes_of (view value)) }
{
    let Some(digits) = value.as_str() else {
        return Ok(None);
    };
    match hex::decode(alloc, digits) {
        Ok(bytes) => Ok(Some(MoBytes::from_vec(bytes))),
        Err(FromHexError::OutOfMemory) => Err(AllocError),
        Err(_) => Ok(None),
    }
}

/// A list of texts that is empty where it is absent.
pub(crate) fn text_list_or_empty(
    alloc: Global,
    member: Option<Value>,
    field: Field,
) -> Result<Result<TextList, Field>, AllocError>
    ensures { IfOk result (λ read.
        read ≡ optional_or [] text_list_of field (option_map view member)) }
{
    match member {
        None => Ok(Ok(TextList::new(alloc))),
        Some(value) => Ok(text_list(alloc, value)?.ok_or(field)),
    }
}

fn text_list(alloc: Global, value: Value) -> Result<Option<TextList>, AllocError>
    ensures { IfOk result (λ texts. texts ≡ text_list_of (view value)) }
{
    let Value::Array(values) = value else {
        return Ok(None);
    };
    match each_text(alloc, values)? {
        Some(texts) => Ok(Some(TextList::from_vec(texts))),
        None => Ok(None),
    }
}

fn each_text(alloc: Global, values: Vec<Value>) -> Result<Option<Vec<OwnedText>>, AllocError>
    ensures { IfOk result (λ texts.
        option_map (λ v. v.items) texts ≡ each_text (items_view values.items)) }
{
    let mut texts = Vec::with_capacity(alloc, values.len())?;
    for value in values {
        let Some(text) = text_from(value) else {
            return Ok(None);
        };
        texts.push(text)?;
    }
    Ok(Some(texts))
}
