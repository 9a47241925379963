//! Conditions with their pattern texts.

ghost use Rattle.std.specs.Prelude.{◌≡◌, IfErr, IfOk, IsSomeAnd, encode_utf8_all};
ghost use Rattle.std.specs.Str.{chars};
ghost use Rattle.lazy_dfa.specs.Expression.{Expression};
ghost use Rattle.lazy_dfa.specs.ConditionOf.{condition_of};
ghost use Rattle.icu_list.specs.Conditions.{applies};
ghost use Rattle.icu_list.specs.ListFault.{IsFault, condition_fault};
ghost use Rattle.serde_json.specs.Data.{string};
ghost use Rattle.serde_json.specs.Find.{as_str};
ghost use Rattle.serde_json.specs.View.{view};
ghost use Rattle.icu_list.specs.ConditionFaults.{IsConditionFault, IsJsonConditionFault, error_of};
ghost use Rattle.lazy_dfa.specs.Refusals.{condition};

use crate::DataError;
use crate::provider::joiner::is_same;
use lazy_dfa::{Condition, ConditionError, a_pattern_is_read};
use serde_json::Value;
use std::alloc::{AllocError, Global};
use std::marker::Model;
use writeable_core::{OwnedText, Writeable};

/// A condition on texts, with the pattern that it was read from. Contracts see the pattern's text.
#[derive(Drop)]
pub struct SerdeDFA {
    pattern: OwnedText,
    condition: Condition,
}

impl Model for SerdeDFA {
    ghost use Rattle.std.specs.Prelude.{ℕ, List};
    ghost use Rattle.lazy_dfa.specs.ConditionOf.{condition_of};
    ghost use Rattle.icu_list.specs.Conditions.{IsForCondition};

    ghost Value = { List ℕ };

    ghost view = { λ d. d.pattern };

    ghost invariant = { λ d. IsForCondition (condition_of d.pattern) d.condition };
}

impl SerdeDFA {
    /// The condition that a pattern is.
    pub fn new(alloc: Global, pattern: &str) -> Result<SerdeDFA, DataError>
        ensures ok { IfOk result (λ dfa. dfa ≡ chars pattern.now) }
        ensures condition { IfOk result (λ _. (e : Expression) × condition (chars pattern.now) e) }
        ensures err { IfErr result (IsConditionFault (chars pattern.now)) }
        ensures fault { IfErr result
            (IsFault (condition_fault (condition_of (chars pattern.now)))) }
    {
        a_pattern_is_read();
        let mut condition = Condition::new(alloc, pattern).map_err(lifted)?;
        let _ = condition.determinise(alloc)?;
        let pattern = OwnedText::new(alloc, pattern)?;
        Ok(SerdeDFA { pattern, condition })
    }

    /// The condition that the text of a JSON string is.
    pub fn from_json(alloc: Global, value: &Value) -> Result<Self, DataError>
        ensures ok { IfOk result (λ dfa. IsSomeAnd (as_str (view value.now)) (λ text.
            (dfa ≡ chars text) × ((e : Expression) × condition (chars text) e))) }
        ensures err { IfErr result (IsJsonConditionFault (as_str (view value.now))) }
    {
        let Some(pattern) = value.as_str() else {
            return Err(DataError::NotJsonForm);
        };
        SerdeDFA::new(alloc, pattern)
    }

    /// The pattern's text as a JSON string.
    pub fn to_json(&self, alloc: Global) -> Result<Value, AllocError>
        ensures { IfOk result (λ value. view value ≡ string (encode_utf8_all self.now)) }
    {
        json_text(alloc, self.pattern.as_str())
    }

    /// Whether the condition holds on a text. The text is written no further than where that is
    /// decided.
    pub fn matches_earliest_fwd_lazy<W: Writeable>(&self, haystack: &W) -> bool
        ensures { result ≡ applies self.now (W.text haystack.now) }
    {
        self.condition.matches(haystack)
    }
}

/// The error of a condition as one of a pattern: want of memory is its own.
fn lifted(error: ConditionError) -> DataError
    ensures { result ≡ error_of error }
{
    match error {
        ConditionError::NoMemory => DataError::NoMemory,
        error => DataError::Condition(error),
    }
}

/// A text as a JSON string.
fn json_text(alloc: Global, text: &str) -> Result<Value, AllocError>
    ensures { IfOk result (λ value. view value ≡ string text.now) }
{
    Ok(Value::String(String::from_str(alloc, text)?))
}

/// Conditions are equal where their patterns' texts are.
impl PartialEq for SerdeDFA {
    ghost use Rattle.std.specs.Prelude.{◌≡◌, nat_eq};
    ghost use Rattle.std.specs.Cmp.{partial_equiv_from_equiv};
    ghost use Rattle.std.specs.Cmp.Lexicographic.{nat_list_eq_equiv, pointwise};

    ghost eq = { pointwise nat_eq };

    ghost laws = { partial_equiv_from_equiv nat_list_eq_equiv };

    fn eq(&self, other: &SerdeDFA) -> bool
        ensures { result ≡ pointwise nat_eq self.now other.now }
    {
        is_same(self.pattern.as_str(), other.pattern.as_str())
    }
}
