//! Laws of tags, for contracts that cite them. Each function does nothing: its contract is the law.
ghost use Rattle.language_tags.specs.Laws.{GoesByAnswers};

/// The canonical form of a tag is the same over registries that answer each key alike.
pub fn canonical_form_goes_by_answers()
    ensures { GoesByAnswers }
{}
