//! Patterns of two items.

ghost use Rattle.std.specs.Prelude.{
  ◌≡◌,
  ◌+◌,
  ◌<◌,
  ◌≤◌,
  ◌++◌,
  ◌||◌,
  [],
  Ok,
  Some,
  None,
  MatchOption,
  IfOk,
  IfErr,
  length,
  codes,
};
ghost use Rattle.std.specs.Str.{chars};
ghost use Rattle.writeable_core.specs.Texts.{same_text};
ghost use Rattle.writeable_core.specs.Hint.{byte_length, text_hint};
ghost use Rattle.serde_json.specs.View.{view};
ghost use Rattle.serde_json.specs.Data.{member, no_members, number, object, string, unsigned};
ghost use Rattle.icu_list.specs.PatternJson.{
  IsJsonFault,
  IsOfJson,
  IsStoredPlace,
  IsUnplaced,
  json_of,
};
ghost use Rattle.icu_list.specs.Pattern.{IsPlace, pattern, pattern_at, texts};
ghost use Rattle.icu_list.specs.PatternTexts.{
  IsFaultOf,
  IsFaultStoring,
  cut,
  is_empty,
  joiner,
  most_bytes,
  pattern_of,
};

use crate::DataError;
use serde_json::{Value, json};
use std::alloc::{AllocError, Global};
use std::marker::Model;
use writeable_core::{LengthHint, OwnedText};

/// How many bytes of prefix and between are stored at most.
const MOST: usize = 255;

/// A pattern of two items: what stands before the first of them, between them, and behind the
/// second. It is one text and two places in it.
#[derive(Drop)]
pub struct ListJoinerPattern {
    string: OwnedText,
    index_0: u8,
    index_1: u8,
}

impl Model for ListJoinerPattern {
    ghost use Rattle.std.specs.Prelude.{◌≤◌};
    ghost use Rattle.icu_list.specs.Pattern.{IsPlace, Pattern, pattern_at};

    ghost Value = { Pattern };

    ghost view = { λ p. pattern_at p.string p.index_0 p.index_1 };

    ghost invariant = { λ p.
        (p.index_0 ≤ p.index_1) × IsPlace p.string p.index_0 × IsPlace p.string p.index_1 };
}

impl ListJoinerPattern {
    /// The pattern of a text that has `{0}` and, behind it, `{1}` for the items.
    pub fn try_from_str(
        alloc: Global,
        pattern: &str,
        allow_prefix: bool,
        allow_suffix: bool,
    ) -> Result<Self, DataError>
        ensures ok { IfOk result
            (λ p. joiner allow_prefix allow_suffix (chars pattern.now) ≡ Ok p) }
        ensures err { IfErr result
            (IsFaultOf (joiner allow_prefix allow_suffix (chars pattern.now))) }
    {
        let Some((prefix, between, suffix)) = split(pattern) else {
            return Err(DataError::InvalidPattern);
        };
        if !is_allowed(allow_prefix, prefix) || !is_allowed(allow_suffix, suffix) {
            return Err(DataError::InvalidPattern);
        }
        ListJoinerPattern::stored(alloc, prefix, between, suffix)
    }

    /// The pattern of a text without prefix, in which the second item stands behind so many bytes.
    pub fn from_parts(string: OwnedText, index_1: u8) -> Result<Self, DataError>
        ensures ok { IfOk result (λ p. p ≡ pattern_at string 0 index_1) }
        ensures place { IfOk result (λ _. IsPlace string index_1) }
        ensures err { IfErr result
            (λ e. (e ≡ DataError.InvalidPattern) × (IsPlace string index_1 → ⊥)) }
    {
        if !string.as_str().is_char_boundary(index_1 as usize) {
            return Err(DataError::InvalidPattern);
        }
        Ok(ListJoinerPattern {
            string,
            index_0: 0,
            index_1,
        })
    }

    /// The pattern that a JSON object is: its text in `string`, and in `index_1` where the second
    /// item stands in it, in bytes. It has no prefix; other members are ignored.
    pub fn from_json(alloc: Global, value: &Value) -> Result<Self, DataError>
        ensures ok { IfOk result (IsOfJson (view value.now)) }
        ensures err { IfErr result (IsJsonFault (view value.now)) }
    {
        let Some(string) = value.get("string").and_then(Value::as_str) else {
            return Err(DataError::NotJsonForm);
        };
        let Some(place) = value.get("index_1").and_then(Value::as_u64) else {
            return Err(DataError::NotJsonForm);
        };
        ListJoinerPattern::placed(alloc, string, place)
    }

    /// The pattern of a text without prefix, in which the second item stands at a place.
    fn placed(alloc: Global, string: &str, place: u64) -> Result<Self, DataError>
        ensures ok { IfOk result (λ p. p ≡ pattern_at (chars string.now) 0 place) }
        ensures place { IfOk result (λ _. IsStoredPlace (chars string.now) place) }
        ensures err { IfErr result (IsUnplaced (chars string.now) place) }
    {
        if place > 255 || !string.is_char_boundary(place as usize) {
            return Err(DataError::NotJsonForm);
        }
        Ok(ListJoinerPattern {
            string: OwnedText::new(alloc, string)?,
            index_0: 0,
            index_1: place as u8,
        })
    }

    /// The pattern as a JSON object: its text in `string`, and in `index_1` where the second item
    /// stands in it, in bytes. Where the first one stands isn't written.
    pub fn to_json(&self, alloc: Global) -> Result<Value, AllocError>
        ensures ok { IfOk result (λ value. view value ≡ json_of self.now) }
        ensures back { self.now.prefix ≡ [] → IfOk result (λ value.
            IsOfJson (view value) self.now) }
    {
        json_object(alloc, self.string.as_str(), self.index_1)
    }

    /// A copy of the pattern.
    pub(crate) fn copied(&self, alloc: Global) -> Result<ListJoinerPattern, AllocError>
        ensures { IfOk result (λ copy. copy ≡ self.now) }
    {
        Ok(ListJoinerPattern {
            string: OwnedText::new(alloc, self.string.as_str())?,
            index_0: self.index_0,
            index_1: self.index_1,
        })
    }

    /// The pattern of these texts.
    fn stored(alloc: Global, prefix: &str, between: &str, suffix: &str) -> Result<Self, DataError>
        ensures ok { IfOk result
            (λ p. p ≡ pattern (chars prefix.now) (chars between.now) (chars suffix.now)) }
        ensures fits { IfOk result (λ _. length prefix.now + length between.now ≤ 255) }
        ensures size { byte_length (chars prefix.now ++ chars between.now)
            ≡ length prefix.now + length between.now }
        ensures err { IfErr result
            (IsFaultStoring (length prefix.now + length between.now)) }
    {
        let index_1 = prefix.len().saturating_add(between.len());
        if index_1 > MOST {
            return Err(DataError::CannotStore);
        }
        let mut string = String::with_capacity(alloc, index_1.saturating_add(suffix.len()))?;
        string.push_str(prefix)?;
        string.push_str(between)?;
        string.push_str(suffix)?;
        Ok(ListJoinerPattern {
            string: OwnedText::from_string(string),
            index_0: prefix.len() as u8,
            index_1: index_1 as u8,
        })
    }

    /// The hint of the pattern's texts.
    pub(crate) fn length_hint(&self) -> LengthHint
        ensures { result ≡ text_hint (texts self.now) }
    {
        LengthHint::of(self.string.as_str())
    }

    /// What stands before the first item.
    pub(crate) fn prefix(&self) -> &str
        ensures { chars result.now ≡ self.now.prefix }
    {
        &self.string.as_str()[..self.index_0 as usize]
    }

    /// What stands between the two items.
    pub(crate) fn between(&self) -> &str
        ensures { chars result.now ≡ self.now.between }
    {
        &self.string.as_str()[self.index_0 as usize..self.index_1 as usize]
    }

    /// What stands behind the second item.
    pub(crate) fn suffix(&self) -> &str
        ensures { chars result.now ≡ self.now.suffix }
    {
        &self.string.as_str()[self.index_1 as usize..]
    }
}

/// Patterns are equal where each of their three texts is.
impl PartialEq for ListJoinerPattern {
    ghost use Rattle.std.specs.Prelude.{◌≡◌};
    ghost use Rattle.icu_list.specs.SamePatterns.{same_pattern, same_pattern_laws};

    ghost eq = { same_pattern };

    ghost laws = { same_pattern_laws };

    fn eq(&self, other: &ListJoinerPattern) -> bool
        ensures { result ≡ same_pattern self.now other.now }
    {
        is_same(self.prefix(), other.prefix())
            && is_same(self.between(), other.between())
            && is_same(self.suffix(), other.suffix())
    }
}

/// A text and a place in it as a JSON object.
fn json_object(alloc: Global, text: &str, place: u8) -> Result<Value, AllocError>
    ensures { IfOk result (λ value. view value ≡ object (member (codes "index_1")
        (number (unsigned place)) (member (codes "string") (string text.now) no_members))) }
{
    json!(in alloc; {"string": text, "index_1": place})
}

/// Whether a text may stand before or behind the items.
pub(crate) fn is_allowed(allowed: bool, text: &str) -> bool
    ensures { result ≡ (allowed || is_empty (chars text.now)) }
{
    allowed || text.is_empty()
}

/// Whether two texts are one.
pub(crate) fn is_same(one: &str, other: &str) -> bool
    ensures { result ≡ same_text (chars one.now) (chars other.now) }
{
    one == other
}

/// What stands before `{0}`, from there to `{1}`, and behind that.
fn split(text: &str) -> Option<(&str, &str, &str)>
    ensures { MatchOption result
        (pattern_of (chars text.now) ≡ None)
        (λ x. pattern_of (chars text.now)
        ≡ Some (pattern (chars x.0.now) (chars x.1.now) (chars x.2.now))) }
{
    let (prefix, rest) = cut(text, "{0}")?;
    if cut(prefix, "{1}").is_some() {
        return None;
    }
    let (between, suffix) = cut(rest, "{1}")?;
    Some((prefix, between, suffix))
}

/// What stands before the first occurrence of a word in a text, and what stands behind it.
fn cut<'a>(text: &'a str, word: &str) -> Option<(&'a str, &'a str)>
    requires { 0 < length word.now }
    ensures { MatchOption result
        (cut (chars word.now) (chars text.now) ≡ None)
        (λ x. cut (chars word.now) (chars text.now) ≡ Some (chars x.0.now, chars x.1.now)) }
{
    text.split_once(word)
}
