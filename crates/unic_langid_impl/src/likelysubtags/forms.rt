ghost use Rattle.std.specs.Prelude.{◌≡◌, find};
ghost use Rattle.unic_langid_impl.specs.Likely.{is_whole, maximal, maximises_to, minimal, trials};

use super::LikelyTables;
use super::rows::Subtags;
use crate::subtags::{Language, Region, Script};

/// The maximal form of a language, script and region, where the tables have one; none where all
/// three are there.
pub fn maximize(
    tables: &LikelyTables,
    language: Language,
    script: Option<Script>,
    region: Option<Region>,
) -> Option<(Language, Option<Script>, Option<Region>)>
    ensures { result ≡ maximal tables.now (language, script, region) }
{
    if is_whole(language, &script, &region) {
        return None;
    }
    if language.is_empty() {
        tables.scripts.likely(script, region)
    } else {
        tables.languages.likely(language, script, region)
    }
}

/// The least of the language alone, with its region and with its script whose maximal form is that
/// of these subtags; where all three are there, they are that form.
pub fn minimize(
    tables: &LikelyTables,
    language: Language,
    script: Option<Script>,
    region: Option<Region>,
) -> Option<(Language, Option<Script>, Option<Region>)>
    ensures { result ≡ minimal tables.now (language, script, region) }
{
    let form = if is_whole(language, &script, &region) {
        (language, script, region)
    } else {
        maximize(tables, language, script, region)?
    };
    first_trial(tables, &form)
}

/// The first trial that maximises to this form.
fn first_trial(tables: &LikelyTables, form: &Subtags) -> Option<Subtags>
    ensures { result ≡ find (maximises_to tables.now form.now) (trials form.now) }
{
    let language = (form.0, None, None);
    if maximises_to(tables, form, &language) {
        return Some(language);
    }
    if form.2.is_some() {
        let language_region = (form.0, None, form.2);
        if maximises_to(tables, form, &language_region) {
            return Some(language_region);
        }
    }
    if form.1.is_some() {
        let language_script = (form.0, form.1, None);
        if maximises_to(tables, form, &language_script) {
            return Some(language_script);
        }
    }
    None
}

/// Whether the form is the maximal one of these subtags.
fn maximises_to(tables: &LikelyTables, form: &Subtags, trial: &Subtags) -> bool
    ensures { result ≡ maximises_to tables.now form.now trial.now }
{
    maximize(tables, trial.0, trial.1, trial.2) == Some(*form)
}

/// Whether all three are there.
fn is_whole(language: Language, script: &Option<Script>, region: &Option<Region>) -> bool
    ensures { result ≡ is_whole (language, script.now, region.now) }
{
    !language.is_empty() && script.is_some() && region.is_some()
}
