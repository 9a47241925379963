ghost use Rattle.std.specs.Prelude.{ℕ, ◌+◌, ◌*◌, ◌≤◌, Option, Some, None, IfSome, IfNone};
ghost use Rattle.std.specs.FinMap as map;
ghost use Rattle.icu_locale_fallback.specs.Walk.{Repeats};
ghost use Rattle.fallback_chain.specs.Chain.{EndsAt};

use crate::walk::{advance, walk_from};
use icu_locale_core::DataLocale;
use icu_locale_fallback::LocaleFallbacker;
use icu_locale_fallback::laws::{walk_ends_or_repeats, walk_that_ends_never_repeats};

/// How many steps the walk of a locale takes to the unknown locale; none where it comes round.
///
/// Where there are p parent entries, a walk that has an end takes at most 4 p + 5 steps to it, and
/// no more are tried.
pub fn steps_to_end(fallbacker: &LocaleFallbacker, locale: DataLocale) -> Option<u128>
    ensures ended { IfSome result (EndsAt fallbacker.now locale) }
    ensures never { IfSome result (λ _. (k : ℕ) → ¬ (Repeats fallbacker.now locale k)) }
    ensures bound { IfSome result (λ k. k ≤ 4 * map.len fallbacker.now.parents + 5) }
    ensures loops { IfNone result ((k : ℕ) × Repeats fallbacker.now locale k) }
{
    walk_ends_or_repeats();
    walk_that_ends_never_repeats();
    let most = 4 * (fallbacker.parents().len() as u128) + 5;
    let mut walk = walk_from(fallbacker, locale);
    let mut steps = 0;
    while !walk.get().is_unknown() {
        if steps == most {
            return None;
        }
        advance(&mut walk);
        steps += 1;
    }
    Some(steps)
}
