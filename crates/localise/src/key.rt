ghost use Rattle.std.specs.Prelude.{◌≡◌};

use icu_locale_core::{DataLocale, Language, Region, Script, Subtag, Variant};
use std::marker::Model;

/// A locale, as bundles are looked up by it. Contracts see it as that locale.
#[derive(Clone, Copy, Debug, PartialEq, Eq, PartialOrd, Ord)]
pub(crate) struct Key {
    language: Language,
    script: Option<Script>,
    region: Option<Region>,
    variant: Option<Variant>,
    subdivision: Option<Subtag>,
}

impl Model for Key {
    ghost use Rattle.icu_locale_core.specs.Locale.{Locale};

    ghost Value = { Locale };

    ghost view = { λ k. record {
      language = k.language;
      script = k.script;
      region = k.region;
      variant = k.variant;
      subdivision = k.subdivision;
    } };

    ghost inverse = { λ k. record {
      language = k.language;
      script = k.script;
      region = k.region;
      variant = k.variant;
      subdivision = k.subdivision;
    } };
}

impl Key {
    /// The key of a locale.
    pub fn of(locale: &DataLocale) -> Key
        ensures { result ≡ locale.now }
    {
        Key {
            language: locale.language,
            script: locale.script,
            region: locale.region,
            variant: locale.variant,
            subdivision: locale.subdivision,
        }
    }
}
