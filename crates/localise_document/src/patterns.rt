ghost use Rattle.std.specs.Prelude.{◌≡◌, option_map, IfOk};
ghost use Rattle.serde_json.specs.View.{view};
ghost use Rattle.localise_document.specs.Patterns.{default_pattern, default_patterns, patterns_of};
ghost use Rattle.localise_document.specs.Patterns.{special_of, optional_special, text_in};
ghost use Rattle.localise_document.specs.Shape.{optional};

use crate::Field;
use crate::members::members_by_name;
use crate::values::text_from;
use localise_texts::{PatternTexts, Special};
use serde_json::Value;
use std::alloc::{AllocError, Global};
use writeable_core::OwnedText;

fn member_text(member: Option<Value>) -> Option<OwnedText>
    ensures { result ≡ text_in (option_map view member) }
{
    text_from(member?)
}

/// The special that a value is.
#[tactic(auto, unfolding(crate::specs::Patterns::special_of, crate::specs::Patterns::special_in))]
fn special_from(value: Value) -> Option<Special>
    ensures { result ≡ special_of (view value) }
{
    let Value::Object(members) = value else {
        return None;
    };
    let mut slots = members_by_name::<2>(members, &["condition", "pattern"])?;
    let condition = slots[0].take();
    let pattern = slots[1].take();
    Some(Special {
        condition: member_text(condition)?,
        pattern: member_text(pattern)?,
    })
}

/// A special that may be absent.
fn optional_special(member: Option<Value>) -> Option<Option<Special>>
    ensures { result ≡ optional_special (option_map view member) }
{
    match member {
        None => Some(None),
        Some(value) => Some(Some(special_from(value)?)),
    }
}

/// The patterns that a value is.
#[tactic(auto, unfolding(crate::specs::Patterns::patterns_of, crate::specs::Patterns::patterns_in))]
pub(crate) fn patterns_from(value: Value) -> Option<PatternTexts>
    ensures { result ≡ patterns_of (view value) }
{
    let Value::Object(members) = value else {
        return None;
    };
    let names = [
        "end",
        "end_special",
        "middle",
        "pair",
        "pair_special",
        "start",
    ];
    let mut slots = members_by_name::<6>(members, &names)?;
    let end = slots[0].take();
    let end_special = slots[1].take();
    let middle = slots[2].take();
    let pair = slots[3].take();
    let pair_special = slots[4].take();
    let start = slots[5].take();
    Some(PatternTexts {
        start: member_text(start)?,
        middle: member_text(middle)?,
        end: member_text(end)?,
        pair: member_text(pair)?,
        end_special: optional_special(end_special)?,
        pair_special: optional_special(pair_special)?,
    })
}

/// Patterns that may be absent.
pub(crate) fn optional_patterns(
    member: Option<Value>,
    field: Field,
) -> Result<Option<PatternTexts>, Field>
    ensures { result ≡ optional patterns_of field (option_map view member) }
{
    match member {
        None => Ok(None),
        Some(value) => match patterns_from(value) {
            Some(patterns) => Ok(Some(patterns)),
            None => Err(field),
        },
    }
}

/// The patterns of a document without a root.
pub(crate) fn without_root(alloc: Global) -> Result<PatternTexts, AllocError>
    ensures { IfOk result (λ patterns. patterns ≡ default_patterns) }
{
    Ok(PatternTexts {
        start: pattern(alloc)?,
        middle: pattern(alloc)?,
        end: pattern(alloc)?,
        pair: pattern(alloc)?,
        end_special: None,
        pair_special: None,
    })
}

fn pattern(alloc: Global) -> Result<OwnedText, AllocError>
    ensures { IfOk result (λ text. text ≡ default_pattern) }
{
    OwnedText::new(alloc, "{0}, {1}")
}
