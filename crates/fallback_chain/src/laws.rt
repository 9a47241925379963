//! Laws of whole walks, for contracts that cite them. Each function does nothing: its contract is
//! the law.
ghost use Rattle.std.specs.Prelude.{◌≡◌, ℕ};
ghost use Rattle.icu_locale_core.specs.Locale.{Locale};
ghost use Rattle.icu_locale_fallback.specs.Tables.{Tables};
ghost use Rattle.icu_locale_fallback.specs.Walk.{Repeats};
ghost use Rattle.fallback_chain.specs.Chain.{EndsAt};

use icu_locale_fallback::laws::walk_that_ends_never_repeats;

/// A walk has one end at most, and a walk that has one repeats at no step, before or after.
pub fn walk_has_one_end()
    ensures one { (F : Tables) (l : Locale) (j k : ℕ) → EndsAt F l j → EndsAt F l k → j ≡ k }
    ensures never { (F : Tables) (l : Locale) (k n : ℕ) → EndsAt F l k → ¬ (Repeats F l n) }
{
    walk_that_ends_never_repeats();
}
