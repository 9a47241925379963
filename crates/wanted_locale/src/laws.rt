//! Laws of wanted locales, for contracts that cite them. Each function does nothing: its contract
//! is the law.
ghost use Rattle.wanted_locale.specs.Laws.{CanonicalByExtlangs, CauseGoesByAnswers, LeastIsKept};
ghost use Rattle.wanted_locale.specs.Laws.{NeverBoth, OneCause, OneWanted, PrintedIsWanted};
ghost use Rattle.wanted_locale.specs.Laws.{WantedGoesByAnswers};

use language_tags::laws::canonical_form_goes_by_answers;
use language_tags::texts_and_tags;
use unic_langid_impl::laws::id_determines;

/// A text asks for one locale at most, has one cause at most, and never both.
pub fn texts_and_locales()
    ensures one { OneWanted }
    ensures one_cause { OneCause }
    ensures never_both { NeverBoth }
{
    texts_and_tags();
    id_determines();
}

/// Of several variants the least is kept.
pub fn least_is_kept()
    ensures { LeastIsKept }
{}

/// Over an empty registry a printed locale without subdivision is the locale that it asks
/// for, and a tag has no canonical form exactly where it isn't whole and has two extlangs or more.
pub fn over_an_empty_registry()
    ensures printed { PrintedIsWanted }
    ensures canonical { CanonicalByExtlangs }
{
    texts_and_tags();
}

/// What a text asks for is the same over registries that answer each key alike.
pub fn wanted_goes_by_answers()
    ensures locale { WantedGoesByAnswers }
    ensures cause { CauseGoesByAnswers }
{
    canonical_form_goes_by_answers();
}
