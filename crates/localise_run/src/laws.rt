//! Laws of runs, for contracts that cite them. Each function does nothing: its contract is the law.
ghost use Rattle.localise_run.specs.Laws.{OneAnswer};

use fallback_chain::laws::walk_has_one_end;
use icu_locale_fallback::laws as fallback;
use language_tags_registry::laws as registry;
use localise::laws::{bundles_go_by_answers, bundles_have_one_meaning, walk_has_one_outcome};
use wanted_locale::laws::{texts_and_locales, wanted_goes_by_answers};

/// The bytes of an input have one answer to a command at most, and append one text.
pub fn one_answer()
    ensures { OneAnswer }
{
    texts_and_locales();
    wanted_goes_by_answers();
    walk_has_one_outcome();
    walk_has_one_end();
    registry::rows_make_one_registry();
    registry::rows_have_one_fault();
    fallback::rows_make_one_fallbacker();
    fallback::rows_have_one_fault();
    bundles_have_one_meaning();
    bundles_go_by_answers();
}
