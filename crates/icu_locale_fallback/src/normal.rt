ghost use Rattle.std.specs.Prelude.{◌≡◌, map, nat_eq};
ghost use Rattle.std.specs.Char.{to_ascii_lowercase};
ghost use Rattle.std.specs.List.{starts_with};
ghost use Rattle.icu_locale_fallback.specs.Normal.{belongs, but_default, default_of, first_script};
ghost use Rattle.icu_locale_fallback.specs.Normal.{kept_subdivision, normal, region_of};

use crate::LocaleFallbackPriority;
use crate::provider::LikelySubtagsForLanguage;
use icu_locale_core::{DataLocale, Region, Script, Subtag};

/// The locale that a walk begins with, and its first script.
pub(crate) fn normalized(
    likely: &LikelySubtagsForLanguage,
    priority: LocaleFallbackPriority,
    locale: &DataLocale,
) -> (DataLocale, Option<Script>)
    ensures locale { result.0 ≡ normal likely.now priority locale.now }
    ensures script { result.1 ≡ first_script likely.now priority locale.now }
{
    let mut normal = *locale;
    normal.subdivision = kept_subdivision(*locale);
    normal.region = region_of(likely, priority, *locale);
    let default = default_of(likely, priority, &normal);
    let script = &but_default(locale.script, &default);
    normal.script = *script;
    (normal, script.or(default))
}

/// The subdivision of a locale, where it is one of the region.
fn kept_subdivision(locale: DataLocale) -> Option<Subtag>
    ensures { result ≡ kept_subdivision locale }
{
    let region = locale.region?;
    locale
        .subdivision
        .filter(|subdivision| belongs(subdivision, &region))
}

/// The region of a locale; where there is none, the region priority takes the likely one.
fn region_of(
    likely: &LikelySubtagsForLanguage,
    priority: LocaleFallbackPriority,
    locale: DataLocale,
) -> Option<Region>
    ensures { result ≡ region_of likely.now priority locale }
{
    match priority {
        LocaleFallbackPriority::Region => {
            let region = likely.region(locale.language, locale.script);
            locale.region.or(region)
        }
        LocaleFallbackPriority::Language | LocaleFallbackPriority::Script => locale.region,
    }
}

/// The default script of a locale, where one is looked up.
fn default_of(
    likely: &LikelySubtagsForLanguage,
    priority: LocaleFallbackPriority,
    locale: &DataLocale,
) -> Option<Script>
    ensures { result ≡ default_of likely.now priority locale.now locale.now.region }
{
    let has_either = locale.script.is_some() || locale.region.is_some();
    if has_either || priority == LocaleFallbackPriority::Script {
        likely.default_script(locale.language, locale.region)
    } else {
        None
    }
}

/// The script, but for one that is the default.
fn but_default(script: Option<Script>, default: &Option<Script>) -> Option<Script>
    ensures { result ≡ but_default script default.now }
{
    script.filter(|_| script != *default)
}

/// Whether the region's text, in lower case, begins the subdivision, which stands for no whole
/// region.
fn belongs(subdivision: &Subtag, region: &Region) -> bool
    ensures { result ≡ belongs subdivision.now region.now }
{
    let subdivision = subdivision.as_str().as_bytes();
    let region = region.as_str().as_bytes();
    begins_in_lowercase(subdivision, region) && !subdivision.ends_with(b"zzzz")
}

/// Whether the front, in lower case, begins the text.
fn begins_in_lowercase(text: &[u8], front: &[u8]) -> bool
    ensures { result ≡ starts_with nat_eq text.now (map to_ascii_lowercase front.now) }
{
    if text.len() < front.len() {
        return false;
    }
    for (upper, lower) in front.iter().zip(text) {
        if upper.to_ascii_lowercase() != *lower {
            return false;
        }
    }
    true
}
