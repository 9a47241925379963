//! Calls of `unic_langid_impl`. An identifier is its printed text.
//!
//! - `making`: calls that make one, and those of `SubtagPieces`.
//! - `likely`: calls that are handed likely tables.
//! - `subtags`: calls of subtags.
//! - `errors`: refusals by their names.
#![tactic(auto)]

mod errors;
mod likely;
mod making;
mod subtags;

use calls::answers;
use calls::answers::{Answer, printed};
use calls::arguments::{Wrong, flag, text};
use making::{made, variants_of};
use serde_json::Value;
use std::alloc::{AllocError, Global};
use unic_langid_impl::LanguageIdentifier;
use unic_langid_impl::subtags::Variant;

/// A call of `unic_langid_impl`, by its path.
pub fn answer<'a>(alloc: Global, call: &str, arguments: &'a [Value]) -> Answer<'a> {
    match call.split_once("::") {
        Some(("subtags", call)) => subtags::answer(alloc, call, arguments),
        Some(("likelysubtags" | "LikelyTables", _)) => likely::answer(alloc, call, arguments),
        Some((_, "text")) => errors::answer(alloc, call, arguments),
        _ if making::is_making(call) => making::answer(alloc, call, arguments),
        _ => identifier(alloc, call, arguments),
    }
}

/// A call of an identifier.
fn identifier<'a>(alloc: Global, call: &str, arguments: &'a [Value]) -> Answer<'a> {
    let [given, others @ ..] = arguments else {
        return Err(Wrong::Call);
    };
    let identifier = made(alloc, given)?;
    match (call, others) {
        (_, []) => of_one(alloc, call, identifier),
        ("LanguageIdentifier::matches", [other, self_as_range, other_as_range]) => {
            let other = made(alloc, other)?;
            let matches = identifier.matches(&other, flag(self_as_range)?, flag(other_as_range)?);
            Ok(Value::Bool(matches))
        }
        ("LanguageIdentifier::eq" | "LanguageIdentifier::cmp", [other]) => {
            of_two(alloc, call, &identifier, &made(alloc, other)?)
        }
        (
            "LanguageIdentifier::maximize"
            | "LanguageIdentifier::minimize"
            | "LanguageIdentifier::character_direction",
            [tables],
        ) => likely::of_identifier(alloc, call, identifier, tables),
        (_, [other]) => of_value(alloc, call, identifier, other),
        _ => Err(Wrong::Call),
    }
}

fn of_one<'a>(alloc: Global, call: &str, mut identifier: LanguageIdentifier) -> Answer<'a> {
    let answer = match call {
        "LanguageIdentifier::to_string" => printed(alloc, &identifier),
        "LanguageIdentifier::to_json" => identifier.to_json(alloc),
        "LanguageIdentifier::try_clone" => printed(alloc, &identifier.try_clone(alloc)?),
        "LanguageIdentifier::variants" => variants(alloc, &identifier),
        "VariantsIter::len" => Ok(answers::size(identifier.variants().len())),
        "LanguageIdentifier::into_parts" => parts(alloc, identifier),
        "LanguageIdentifier::clear_variants" => {
            identifier.clear_variants();
            printed(alloc, &identifier)
        }
        _ => return Err(Wrong::Call),
    };
    Ok(answer?)
}

fn of_two<'a>(
    alloc: Global,
    call: &str,
    left: &LanguageIdentifier,
    right: &LanguageIdentifier,
) -> Answer<'a> {
    match call {
        "LanguageIdentifier::cmp" => Ok(answers::ordering(alloc, left.cmp(right))?),
        _ => Ok(Value::Bool(left == right)),
    }
}

/// A call of an identifier and a text, a variant or variants.
fn of_value<'a>(
    alloc: Global,
    call: &str,
    mut identifier: LanguageIdentifier,
    given: &'a Value,
) -> Answer<'a> {
    match call {
        "LanguageIdentifier::eq_str" => Ok(Value::Bool(identifier.eq_str(text(given)?))),
        "LanguageIdentifier::has_variant" => {
            let Some(variant) = subtags::variant_of(given) else {
                return Err(Wrong::Argument(given, "a variant"));
            };
            Ok(Value::Bool(identifier.has_variant(variant)))
        }
        "LanguageIdentifier::set_variants" => {
            let variants = variants_of(alloc, given)?;
            identifier.set_variants(&variants)?;
            Ok(printed(alloc, &identifier)?)
        }
        _ => Err(Wrong::Call),
    }
}

fn parts(alloc: Global, identifier: LanguageIdentifier) -> Result<Value, AllocError> {
    let (language, script, region, variants) = identifier.into_parts();
    let language = answers::text(alloc, language.as_str())?;
    let script = subtags::text_or_null(alloc, script)?;
    let region = subtags::text_or_null(alloc, region)?;
    let variants = texts(alloc, variants.as_slice())?;
    answers::list(alloc, [language, script, region, variants])
}

fn texts(alloc: Global, variants: &[Variant]) -> Result<Value, AllocError> {
    let mut texts = Vec::new(alloc);
    for variant in variants {
        texts.push(answers::text(alloc, variant.as_str())?)?;
    }
    Ok(Value::Array(texts))
}

fn variants(alloc: Global, identifier: &LanguageIdentifier) -> Result<Value, AllocError> {
    let mut texts = Vec::new(alloc);
    for variant in identifier.variants() {
        texts.push(answers::text(alloc, variant.as_str())?)?;
    }
    Ok(Value::Array(texts))
}
