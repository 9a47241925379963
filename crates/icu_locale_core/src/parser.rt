//! The subtags at the front of a locale's text.
ghost use Rattle.std.specs.Prelude.{◌≡◌, ◌≢◌, ℕ, List, Option, IfOk, IfSome, OnErr, codes};
ghost use Rattle.icu_locale_core.specs.Locale.{marked};
ghost use Rattle.icu_locale_core.specs.Reading.{before_dash, from_dash, leading, behind, taken};
ghost use Rattle.icu_locale_core.specs.Reading.{left};
ghost use Rattle.icu_locale_core.specs.Shapes.{is_script, is_region, is_variant, IsSubtag};

use crate::{LocaleError, Region, Script, Subtag, Variant};

/// What stands before the first `-`, and the rest from that `-` on.
pub(crate) fn split_first(text: &str) -> (&str, &str)
    ensures first { result.0.now ≡ before_dash text.now }
    ensures rest { result.1.now ≡ from_dash text.now }
{
    match text.find('-') {
        Some(dash) => text.split_at(dash),
        None => (text, ""),
    }
}

/// The subtag behind the `-` that `rest` begins with, and what follows that subtag.
fn split_leading(rest: &str) -> (&str, &str)
    ensures first { result.0.now ≡ leading rest.now }
    ensures rest { result.1.now ≡ behind rest.now }
{
    match rest.strip_prefix('-') {
        Some(text) => split_first(text),
        None => ("", rest),
    }
}

/// The script that `rest` begins with, and what is left.
pub(crate) fn script(rest: &str) -> (Option<Script>, &str)
    ensures first { result.0 ≡ taken is_script rest.now }
    ensures rest { result.1.now ≡ left is_script rest.now }
{
    let (first, behind) = split_leading(rest);
    match Script::try_from_str(first) {
        Ok(script) => (Some(script), behind),
        Err(_) => (None, rest),
    }
}

/// The region that `rest` begins with, and what is left.
pub(crate) fn region(rest: &str) -> (Option<Region>, &str)
    ensures first { result.0 ≡ taken is_region rest.now }
    ensures rest { result.1.now ≡ left is_region rest.now }
{
    let (first, behind) = split_leading(rest);
    match Region::try_from_str(first) {
        Ok(region) => (Some(region), behind),
        Err(_) => (None, rest),
    }
}

/// The variant that `rest` begins with, and what is left.
pub(crate) fn variant(rest: &str) -> (Option<Variant>, &str)
    ensures first { result.0 ≡ taken is_variant rest.now }
    ensures rest { result.1.now ≡ left is_variant rest.now }
{
    let (first, behind) = split_leading(rest);
    match Variant::try_from_str(first) {
        Ok(variant) => (Some(variant), behind),
        Err(_) => (None, rest),
    }
}

/// The subdivision that is all of `rest`, or none where nothing is left.
pub(crate) fn subdivision(rest: &str) -> Result<Option<Subtag>, LocaleError>
    ensures ok { IfOk result (λ subtag. marked (codes "-u-sd-") subtag ≡ rest.now) }
    ensures shape { IfOk result (λ subtag. IfSome subtag IsSubtag) }
    ensures err { OnErr result ((subtag : Option (List ℕ)) → IfSome subtag IsSubtag
        → marked (codes "-u-sd-") subtag ≢ rest.now) }
{
    if rest.is_empty() {
        return Ok(None);
    }
    match rest.strip_prefix("-u-sd-") {
        Some(subtag) => Ok(Some(Subtag::try_from_str(subtag)?)),
        None => Err(LocaleError::Malformed),
    }
}
