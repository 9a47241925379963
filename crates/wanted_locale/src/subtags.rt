ghost use Rattle.std.specs.Prelude.{◌≡◌, SomeIff};
ghost use Rattle.wanted_locale.specs.Wanted.{IsShort, locale_of};

use icu_locale_core::{DataLocale, Language, Region, Script, Variant};
use unic_langid_impl::{LanguageIdentifier, subtags};

/// The identifier's subtags as those of a locale, where the language is short enough. Of the
/// variants, which ascend, the first is the least.
pub(crate) fn locale(identifier: &LanguageIdentifier) -> Option<DataLocale>
    ensures { SomeIff result (IsShort identifier.now) (locale_of identifier.now) }
{
    let Ok(language) = Language::try_from_str(identifier.language.as_str()) else {
        return None;
    };
    Some(DataLocale {
        language,
        script: identifier.script.map(script),
        region: identifier.region.map(region),
        variant: identifier.variants().next().copied().map(variant),
        subdivision: None,
    })
}

/// The script of a locale that an identifier's script is.
fn script(script: subtags::Script) -> Script
    ensures { result ≡ script }
{
    match Script::try_from_str(script.as_str()) {
        Ok(script) => script,
        Err(_) => unreachable!(),
    }
}

/// The region of a locale that an identifier's region is.
fn region(region: subtags::Region) -> Region
    ensures { result ≡ region }
{
    match Region::try_from_str(region.as_str()) {
        Ok(region) => region,
        Err(_) => unreachable!(),
    }
}

/// The variant of a locale that an identifier's variant is.
fn variant(variant: subtags::Variant) -> Variant
    ensures { result ≡ variant }
{
    match Variant::try_from_str(variant.as_str()) {
        Ok(variant) => variant,
        Err(_) => unreachable!(),
    }
}
