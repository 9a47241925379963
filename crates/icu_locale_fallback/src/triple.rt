ghost use Rattle.std.specs.Prelude.{◌≡◌, MatchOption};
ghost use Rattle.icu_locale_fallback.specs.Cells.{IsLocaleOf, IsLocaleOfNone};
ghost use Rattle.icu_locale_fallback.specs.Triple.{triple_of};

use icu_locale_core::{DataLocale, Language, Region, Script};
use std::marker::Model;

/// The subtags of a locale that inheritance goes by.
#[derive(Clone, Copy, Debug, PartialEq, Eq, PartialOrd, Ord)]
pub(crate) struct Triple {
    pub language: Language,
    pub script: Option<Script>,
    pub region: Option<Region>,
}

impl Model for Triple {
    ghost use Rattle.icu_locale_fallback.specs.Triple.{Triple as TripleOf};

    ghost Value = { TripleOf };

    ghost view = { λ t. record { language = t.language; script = t.script; region = t.region } };

    ghost inverse = { λ t. record { language = t.language; script = t.script; region = t.region } };
}

impl Triple {
    /// The triple of a locale.
    pub fn of(locale: &DataLocale) -> Triple
        ensures { result ≡ triple_of locale.now }
    {
        Triple {
            language: locale.language,
            script: locale.script,
            region: locale.region,
        }
    }

    /// The triple of a locale that has no more than it.
    pub fn try_of(locale: &DataLocale) -> Option<Triple>
        ensures { MatchOption result (IsLocaleOfNone locale.now) (IsLocaleOf locale.now) }
    {
        if locale.variant.is_some() || locale.subdivision.is_some() {
            return None;
        }
        Some(Triple::of(locale))
    }
}
