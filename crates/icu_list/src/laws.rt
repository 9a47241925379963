//! Laws of lists, for contracts that cite them. Each function does nothing: its contract is the
//! law.

ghost use Rattle.icu_list.specs.LawsOfLists.{
  CharactersAreJoined,
  ConditionsApply,
  HintsAreExact,
  OneExpression,
};

use lazy_dfa::a_pattern_is_read;

/// A special pattern's condition applies exactly where it holds on the last item, and a pattern
/// text is the condition of one expression at most.
pub fn conditions_apply()
    ensures applies { ConditionsApply }
    ensures one { OneExpression }
{
    a_pattern_is_read();
}

/// The text of a marked list is the list of the items' texts.
pub fn characters_are_joined()
    ensures { CharactersAreJoined }
{}

/// The hint of a list of texts under patterns without specials is exact, where the list's bytes fit
/// a `usize`.
pub fn hints_are_exact()
    ensures { HintsAreExact }
{}
