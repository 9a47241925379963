//! Laws of bundles and walks, for contracts that cite them. Each function does nothing: its
//! contract is the law.
ghost use Rattle.localise.specs.Laws.{AcceptedByAnswers, NeverBoth, NoAnswerRound, OneMeaning};
ghost use Rattle.localise.specs.Laws.{OneOutcome, OneRefusal, RefusedByAnswers};

use gettext::one_meaning;
use icu_locale_fallback::laws::walk_that_ends_never_repeats;
use wanted_locale::laws::{texts_and_locales, wanted_goes_by_answers};

/// Bundles and a root mean one thing at most, have one refusal at most, and never both.
pub fn bundles_have_one_meaning()
    ensures one { OneMeaning }
    ensures one_refusal { OneRefusal }
    ensures never_both { NeverBoth }
{
    texts_and_locales();
    one_meaning();
}

/// The walk of a request has one outcome at most, and a request no answer where it comes round.
pub fn walk_has_one_outcome()
    ensures one { OneOutcome }
    ensures round { NoAnswerRound }
{
    walk_that_ends_never_repeats();
}

/// What is accepted, and how it is refused, is the same over tables that answer alike.
pub fn bundles_go_by_answers()
    ensures accepted { AcceptedByAnswers }
    ensures refused { RefusedByAnswers }
{
    wanted_goes_by_answers();
}
