ghost use Rattle.std.specs.Prelude.{◌≡◌, Err, Ok, map, IfErr, IfOk};
ghost use Rattle.serde_json.specs.View.{view};
ghost use Rattle.localise_document.specs.Bundles.{bundle_of, bundle_with, patterns_or};
ghost use Rattle.localise_document.specs.Objects.{IsBundleObject};
ghost use Rattle.localise_document.specs.Misread.{IsFaultOf};

use crate::Field;
use crate::error::Misread;
use crate::members::members_by_name;
use crate::patterns::optional_patterns;
use crate::rows::RowReader;
use crate::values::{needed_bytes, needed_text};
use localise_texts::{BundleText, MoBytes, PatternTexts};
use serde_json::Value;
use std::alloc::{AllocError, Global};
use writeable_core::OwnedText;

/// A bundle as the document has it, beside no root.
#[derive(Drop)]
pub(crate) struct BundleParts {
    pub tag: OwnedText,
    pub mo: MoBytes,
    pub list: Option<PatternTexts>,
}

/// What reads bundles.
pub(crate) struct BundleReader;

impl RowReader for BundleReader {
    type Row = BundleParts;

    ghost row_of = { λ _ d. bundle_of d };

    fn read(&self, alloc: Global, value: Value) -> Result<BundleParts, Misread<Field>> {
        bundle_from(alloc, value)
    }
}

/// A bundle's members.
#[derive(Drop)]
pub(crate) struct BundleMembers {
    tag: Option<Value>,
    mo: Option<Value>,
    list: Option<Value>,
}

/// The members of the bundle that a value is.
#[tactic(auto, unfolding(crate::specs::Bundles::bundle_of))]
fn members_from(value: Value) -> Result<BundleMembers, Field>
    ensures ok { IfOk result (IsBundleObject (view value)) }
    ensures err { IfErr result (λ field. bundle_of (view value) ≡ Err field) }
{
    let Value::Object(members) = value else {
        return Err(Field::Whole);
    };
    let Some(mut slots) = members_by_name::<3>(members, &["list", "mo", "tag"]) else {
        return Err(Field::Unknown);
    };
    Ok(BundleMembers {
        tag: slots[2].take(),
        mo: slots[1].take(),
        list: slots[0].take(),
    })
}

/// The bundle that a value is.
#[tactic(auto, unfolding(crate::specs::Bundles::bundle_of, crate::specs::Bundles::bundle_in))]
fn bundle_from(alloc: Global, value: Value) -> Result<BundleParts, Misread<Field>>
    ensures ok { IfOk result (λ parts. bundle_of (view value) ≡ Ok parts) }
    ensures err { IfErr result (IsFaultOf (bundle_of (view value))) }
{
    let members = members_from(value)?;
    Ok(BundleParts {
        tag: needed_text(members.tag, Field::Tag)?,
        mo: needed_bytes(alloc, members.mo, Field::Mo)??,
        list: optional_patterns(members.list, Field::List)?,
    })
}

/// Bundles beside the root, which joins lists where a bundle has no patterns.
pub(crate) fn with_root(
    alloc: Global,
    bundles: Vec<BundleParts>,
    root: &PatternTexts,
) -> Result<Vec<BundleText>, AllocError>
    ensures { IfOk result (λ texts. texts.items ≡ map (bundle_with root.now) bundles.items) }
{
    let mut texts = Vec::with_capacity(alloc, bundles.len())?;
    for parts in bundles {
        texts.push(bundle_text(alloc, parts, root)?)?;
    }
    Ok(texts)
}

fn bundle_text(
    alloc: Global,
    parts: BundleParts,
    root: &PatternTexts,
) -> Result<BundleText, AllocError>
    ensures { IfOk result (λ text. text ≡ bundle_with root.now parts) }
{
    let list = patterns_or_copy(alloc, parts.list, root)?;
    Ok(BundleText {
        tag: parts.tag,
        mo: parts.mo,
        list,
    })
}

fn patterns_or_copy(
    alloc: Global,
    list: Option<PatternTexts>,
    root: &PatternTexts,
) -> Result<PatternTexts, AllocError>
    ensures { IfOk result (λ patterns. patterns ≡ patterns_or root.now list) }
{
    match list {
        Some(list) => Ok(list),
        None => root.try_clone(alloc),
    }
}
