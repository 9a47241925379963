//! Patterns with a special form.

ghost use Rattle.std.specs.Prelude.{◌≡◌};
ghost use Rattle.icu_list.specs.Choices.{chosen, conditional_hint};

use crate::provider::{ListJoinerPattern, SerdeDFA};
use writeable_core::{LengthHint, Writeable};

/// A pattern for the last items on which a condition holds.
#[derive(Drop, PartialEq)]
pub struct SpecialCasePattern {
    pub condition: SerdeDFA,
    pub pattern: ListJoinerPattern,
}

/// A pattern, and perhaps another that replaces it under a condition.
#[derive(Drop, PartialEq)]
pub struct ConditionalListJoinerPattern {
    pub default: ListJoinerPattern,
    pub special_case: Option<SpecialCasePattern>,
}

impl From<ListJoinerPattern> for ConditionalListJoinerPattern {
    ghost use Rattle.std.specs.Prelude.{◌≡◌, None};

    ghost from_gives = { λ p c. (c.default ≡ p) × (c.special_case ≡ None) };

    fn from(default: ListJoinerPattern) -> ConditionalListJoinerPattern {
        ConditionalListJoinerPattern {
            default,
            special_case: None,
        }
    }
}

impl ConditionalListJoinerPattern {
    /// The pattern that serves before a last item.
    pub(crate) fn pattern_for<W: Writeable>(&self, last: &W) -> &ListJoinerPattern
        ensures { result.now ≡ chosen self.now (W.text last.now) }
    {
        match &self.special_case {
            Some(special) if special.condition.matches_earliest_fwd_lazy(last) => &special.pattern,
            _ => &self.default,
        }
    }

    /// The hint of the pattern, or of one or the other.
    pub(crate) fn length_hint(&self) -> LengthHint
        ensures { result ≡ conditional_hint self.now }
    {
        let default = self.default.length_hint();
        match &self.special_case {
            None => default,
            Some(special) => default | special.pattern.length_hint(),
        }
    }
}
