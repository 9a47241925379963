ghost use Rattle.std.specs.Prelude.{◌≡◌, ◌≢◌, ◌≤◌, ◌<◌, ◌+◌, ◌*◌, ◌^◌, Some, None, IfSome, IfNone};
ghost use Rattle.std.specs.FinMap as map;
ghost use Rattle.icu_locale_core.specs.Locale.{unknown};
ghost use Rattle.icu_locale_fallback.specs.Views.{stepped, walk_of};
ghost use Rattle.icu_locale_fallback.specs.Walk.{at};
ghost use Rattle.localise.specs.Chosen.{IsOutcome, translation};
ghost use Rattle.localise.specs.Read.{meanings_of};
ghost use Rattle.localise.specs.Stops.{IsStop, outcome_of};

use crate::bundle::Translated;
use crate::bundles::Bundles;
use icu_locale_core::DataLocale;
use icu_locale_fallback::laws::{
    walk_ends_or_repeats, walk_is_reached, walk_that_ends_never_repeats,
};
use icu_locale_fallback::{
    LocaleFallbackConfig, LocaleFallbackIterator, LocaleFallbackPriority, LocaleFallbacker,
};
use localise_texts::Request;

/// Where a walk stops: behind so many steps, at a locale that translates, or else at the unknown
/// locale.
#[derive(Drop)]
pub(crate) struct Stop<'a> {
    pub steps: u128,
    pub locale: DataLocale,
    pub translation: Option<Translated<'a>>,
}

/// Where the walk from a locale over these bundles stops for a request; nowhere where it comes
/// round before that.
pub(crate) fn walk_to_stop<'a>(
    fallbacker: &LocaleFallbacker,
    bundles: &'a Bundles,
    wanted: DataLocale,
    request: &Request,
) -> Option<Stop<'a>>
    ensures outcome { IsOutcome fallbacker.now (meanings_of bundles.now.list.items) wanted
        request.now (outcome_of result) }
    ensures locale { IfSome result (λ stop. stop.locale ≡ at fallbacker.now wanted stop.steps) }
    ensures small { IfSome result (λ stop. stop.steps < 2 ^ 67) }
    ensures bound { IfSome result (λ stop.
        stop.steps ≤ 4 * map.len fallbacker.now.parents + 5) }
{
    walk_is_reached();
    walk_ends_or_repeats();
    walk_that_ends_never_repeats();
    let most = 4 * (fallbacker.parents().len() as u128) + 5;
    let config = LocaleFallbackConfig {
        priority: LocaleFallbackPriority::Language,
    };
    let mut walk = fallbacker.for_config(config).fallback_for(wanted);
    for steps in 0..most {
        if let Some(stop) = stop_at(bundles, request, steps, walk.get()) {
            return Some(stop);
        }
        advance(&mut walk);
    }
    stop_at(bundles, request, most, walk.get())
}

/// The stop at a locale, where the walk ends there.
fn stop_at<'a>(
    bundles: &'a Bundles,
    request: &Request,
    steps: u128,
    locale: &DataLocale,
) -> Option<Stop<'a>>
    ensures some { IfSome result (IsStop (meanings_of bundles.now.list.items) request.now
        steps locale.now) }
    ensures none { IfNone result
        ((translation (meanings_of bundles.now.list.items)
        request.now locale.now ≡ None) × (locale.now ≢ unknown)) }
{
    let translation = bundles.translation(request, locale);
    if translation.is_none() && !locale.is_unknown() {
        return None;
    }
    Some(Stop {
        steps,
        locale: *locale,
        translation,
    })
}

/// One step.
fn advance(walk: &mut LocaleFallbackIterator)
    ensures { walk_of walk.new ≡ stepped (walk_of walk.old) }
{
    walk.step();
}
