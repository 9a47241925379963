ghost use Rattle.std.specs.Prelude.{◌≡◌, ℕ, ◌+◌};
ghost use Rattle.icu_locale_core.specs.Locale.{Locale};
ghost use Rattle.icu_locale_fallback.specs.Tables.{Tables};
ghost use Rattle.icu_locale_fallback.specs.Views.{walk_of};
ghost use Rattle.fallback_chain.specs.Along.{along};

use icu_locale_core::DataLocale;
use icu_locale_fallback::laws::walk_is_reached;
use icu_locale_fallback::{
    LocaleFallbackConfig, LocaleFallbackIterator, LocaleFallbackPriority, LocaleFallbacker,
};

/// The walk from a locale in the language priority.
pub(crate) fn walk_from<'a>(
    fallbacker: &'a LocaleFallbacker,
    locale: DataLocale,
) -> LocaleFallbackIterator<'a>
    ensures { walk_of result ≡ along fallbacker.now locale 0 }
{
    walk_is_reached();
    let config = LocaleFallbackConfig {
        priority: LocaleFallbackPriority::Language,
    };
    fallbacker.for_config(config).fallback_for(locale)
}

/// Goes one step on.
pub(crate) fn advance(walk: &mut LocaleFallbackIterator<'_>)
    ensures { (F : Tables) (l : Locale) (k : ℕ) →
        walk_of walk.old ≡ along F l k → walk_of walk.new ≡ along F l (k + 1) }
{
    walk_is_reached();
    walk.step();
}
