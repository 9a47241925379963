//! Laws of the walk and of the rows, for contracts that cite them. Each function does nothing:
//! its contract is the law.
ghost use Rattle.std.specs.Prelude.{◌≡◌, ◌≢◌, ℕ, ◌+◌};
ghost use Rattle.icu_locale_core.specs.Locale.{Locale, unknown};
ghost use Rattle.icu_locale_fallback.specs.Faults.{AreRowsSound, AreTablesOf, IsFirstFault};
ghost use Rattle.icu_locale_fallback.specs.Normal.{first_script};
ghost use Rattle.icu_locale_fallback.specs.Steps.{StaysAtUnknown, reached, region_at, start};
ghost use Rattle.icu_locale_fallback.specs.Steps.{step_of};
ghost use Rattle.icu_locale_fallback.specs.Tables.{Tables};
ghost use Rattle.icu_locale_fallback.specs.Walk.{EndsOrRepeats, NeverRepeats, RevisitsOnly};
ghost use Rattle.icu_locale_fallback.specs.Walk.{StaysUnknown, at};
ghost use Rattle.icu_locale_fallback.specs.declared.config.LocaleFallbackPriority.{LocaleFallbackPriority};
ghost use Rattle.icu_locale_fallback.specs.declared.rows.FallbackRows.{FallbackRows};
ghost use Rattle.icu_locale_fallback.specs.declared.rows.TableError.{TableError as Refusal};

use crate::TableError;

/// Where there are p parent entries, a walk in the language priority is at the unknown locale
/// or comes back to a language, script and region after at most 4 p + 5 steps; and behind such
/// a return no locale is new.
pub fn walk_ends_or_repeats()
    ensures ends { (F : Tables) (l : Locale) → EndsOrRepeats F l }
    ensures revisits { (F : Tables) (l : Locale) → RevisitsOnly F l }
{}

/// A walk that has come to the unknown locale stays there. In the language priority it repeats
/// at no step, before or after.
pub fn walk_that_ends_never_repeats()
    ensures rests { (F : Tables) (priority : LocaleFallbackPriority) (l : Locale) →
        StaysAtUnknown F priority l }
    ensures stays { (F : Tables) (l : Locale) → StaysUnknown F l }
    ensures never { (F : Tables) (l : Locale) → NeverRepeats F l }
{}

/// A walk in the region priority is at the unknown locale after at most six steps.
pub fn region_walk_ends()
    ensures { (F : Tables) (l : Locale) → region_at F l 6 ≡ unknown }
{}

/// What an iterator reaches, step by step; in the language priority it is the walk of `next`.
pub fn walk_is_reached()
    ensures at_start { (F : Tables) (priority : LocaleFallbackPriority) (l : Locale) →
        reached F priority l 0 ≡ start F priority l }
    ensures behind { (F : Tables) (priority : LocaleFallbackPriority) (l : Locale) (k : ℕ) →
        reached F priority l (k + 1)
        ≡ step_of priority F (first_script F.likely priority l) (reached F priority l k) }
    ensures walk { (F : Tables) (l : Locale) (k : ℕ) →
        at F l k ≡ (reached F LocaleFallbackPriority.Language l k).locale }
{}

/// Rows make one set of tables at most, and where they make one, none of them is faulty.
pub fn rows_make_one_fallbacker()
    ensures one { (rows : FallbackRows) (F G : Tables) →
        AreTablesOf rows F → AreTablesOf rows G → F ≡ G }
    ensures sound { (rows : FallbackRows) (F : Tables) → AreTablesOf rows F → AreRowsSound rows }
{}

/// Rows have one fault at most, and none where no row is faulty. Want of memory is no fault of
/// the rows.
pub fn rows_have_one_fault()
    ensures one { (rows : FallbackRows) (error other : Refusal) →
        error ≢ TableError.NoMemory → other ≢ TableError.NoMemory →
        IsFirstFault rows error → IsFirstFault rows other → error ≡ other }
    ensures none { (rows : FallbackRows) (error : Refusal) →
        AreRowsSound rows → IsFirstFault rows error → error ≡ TableError.NoMemory }
{}
