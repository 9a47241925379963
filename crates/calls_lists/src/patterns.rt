//! Calls of patterns and conditions.
//!
//! Patterns are an object of the texts `start`, `middle`, `end` and `pair`, and of `end_special`
//! and `pair_special` where they are there, each an object of the texts `condition` and `pattern`.
//! A joiner pattern is answered by its JSON form, and a condition by its text.

use crate::errors::{refused, unread};
use calls::answers;
use calls::answers::Answer;
use calls::arguments::{Wrong, field, flag, size, text};
use icu_list::DataError;
use icu_list::provider::{ListFormatterPatterns, ListJoinerPattern, SerdeDFA, SpecialCasePattern};
use serde_json::Value;
use std::alloc::{AllocError, Global};
use writeable::{OwnedText, Text};

/// A call of `icu_list::provider`, by its path.
pub fn answer<'a>(alloc: Global, call: &str, arguments: &'a [Value]) -> Answer<'a> {
    match (call.split_once("::"), arguments) {
        (Some(("ListJoinerPattern", call)), _) => of_joiner(alloc, call, arguments),
        (Some(("SerdeDFA", call)), _) => of_condition(alloc, call, arguments),
        (Some(("ListFormatterPatterns", "eq")), [left, right]) => {
            patterns_of(alloc, left).and_then(|left| {
                patterns_of(alloc, right).map(|right| Value::Bool(equal(left, right)))
            })
        }
        _ => Err(Wrong::Call),
    }
}

fn equal<T: PartialEq + Drop>(left: T, right: T) -> bool {
    left == right
}

/// A call of a joiner pattern, by its name.
fn of_joiner<'a>(alloc: Global, call: &str, arguments: &'a [Value]) -> Answer<'a> {
    match (call, arguments) {
        ("try_from_str", [pattern, prefix, suffix]) => {
            let (pattern, prefix, suffix) = (text(pattern)?, flag(prefix)?, flag(suffix)?);
            let read = ListJoinerPattern::try_from_str(alloc, pattern, prefix, suffix);
            Ok(joiner(alloc, read)?)
        }
        ("from_parts", [string, index_1]) => of_parts(alloc, string, index_1),
        ("from_json" | "to_json", [given]) => {
            Ok(joiner(alloc, ListJoinerPattern::from_json(alloc, given))?)
        }
        _ => Err(Wrong::Call),
    }
}

/// The joiner pattern of a text and the place where its second part begins.
fn of_parts<'a>(alloc: Global, string: &'a Value, index_1: &'a Value) -> Answer<'a> {
    let string = OwnedText::new(alloc, text(string)?)?;
    match u8::try_from(size(index_1)?) {
        Ok(place) => Ok(joiner(alloc, ListJoinerPattern::from_parts(string, place))?),
        Err(_) => Err(Wrong::Argument(index_1, "a number of 8 bits")),
    }
}

/// A call of a condition, by its name.
fn of_condition<'a>(alloc: Global, call: &str, arguments: &'a [Value]) -> Answer<'a> {
    match (call, arguments) {
        ("new", [given]) => Ok(condition(alloc, SerdeDFA::new(alloc, text(given)?))?),
        ("from_json" | "to_json", [given]) => {
            Ok(condition(alloc, SerdeDFA::from_json(alloc, given))?)
        }
        ("matches_earliest_fwd_lazy", [given, haystack]) => {
            condition_of(alloc, given).and_then(|condition| matches(&condition, haystack))
        }
        _ => Err(Wrong::Call),
    }
}

/// Whether the haystack, a text or a number, matches.
fn matches<'a>(condition: &SerdeDFA, haystack: &'a Value) -> Answer<'a> {
    let matches = match haystack.as_u64() {
        Some(number) => condition.matches_earliest_fwd_lazy(&number),
        None => condition.matches_earliest_fwd_lazy(&Text(text(haystack)?)),
    };
    Ok(Value::Bool(matches))
}

/// A call of a list's patterns, by its name.
pub fn of_patterns<'a>(alloc: Global, call: &str, arguments: &'a [Value]) -> Answer<'a> {
    match (call, arguments) {
        ("try_new", [start, middle, end, pair]) => {
            let (start, middle) = (text(start)?, text(middle)?);
            let (end, pair) = (text(end)?, text(pair)?);
            let made = ListFormatterPatterns::try_new(alloc, start, middle, end, pair);
            Ok(made_or_refused(alloc, made)?)
        }
        ("with_end_special" | "with_pair_special", [given, special]) => {
            with_special(alloc, call, given, special)
        }
        ("length_hint", [given, len]) => {
            patterns_of(alloc, given).and_then(|patterns| length_hint(alloc, &patterns, len))
        }
        (name, []) => Ok(answers::text(alloc, length_named(name)?)?),
        _ => Err(Wrong::Call),
    }
}

/// The name of a length, by its constant.
fn length_named<'a>(name: &str) -> Result<&'static str, Wrong<'a>> {
    match name {
        "NARROW" => Ok(ListFormatterPatterns::NARROW),
        "SHORT" => Ok(ListFormatterPatterns::SHORT),
        "WIDE" => Ok(ListFormatterPatterns::WIDE),
        "NARROW_STR" => Ok(ListFormatterPatterns::NARROW_STR),
        "SHORT_STR" => Ok(ListFormatterPatterns::SHORT_STR),
        "WIDE_STR" => Ok(ListFormatterPatterns::WIDE_STR),
        _ => Err(Wrong::Call),
    }
}

fn length_hint<'a>(alloc: Global, patterns: &ListFormatterPatterns, len: &'a Value) -> Answer<'a> {
    Ok(answers::hint(alloc, patterns.length_hint(size(len)?))?)
}

/// Whether a special pattern, which has a prefix, can stand in the patterns.
fn with_special<'a>(alloc: Global, call: &str, given: &'a Value, special: &'a Value) -> Answer<'a> {
    let made = patterns_of(alloc, given).and_then(|patterns| {
        special_pattern_of(alloc, special).map(|special| match call {
            "with_end_special" => patterns.with_end_special(special),
            _ => patterns.with_pair_special(alloc, special),
        })
    });
    Ok(made_or_refused(alloc, made?)?)
}

/// Null, or the refusal.
fn made_or_refused<T: Drop>(
    alloc: Global,
    made: Result<T, DataError>,
) -> Result<Value, AllocError> {
    match made {
        Ok(_) => Ok(Value::Null),
        Err(error) => refused(alloc, error),
    }
}

fn joiner(alloc: Global, read: Result<ListJoinerPattern, DataError>) -> Result<Value, AllocError> {
    match read {
        Ok(pattern) => pattern.to_json(alloc),
        Err(error) => refused(alloc, error),
    }
}

fn condition(alloc: Global, read: Result<SerdeDFA, DataError>) -> Result<Value, AllocError> {
    match read {
        Ok(condition) => condition.to_json(alloc),
        Err(error) => refused(alloc, error),
    }
}

fn condition_of<'a>(alloc: Global, given: &'a Value) -> Result<SerdeDFA, Wrong<'a>> {
    SerdeDFA::new(alloc, text(given)?).map_err(|error| unread(given, error))
}

/// The patterns that an argument is.
pub fn patterns_of<'a>(
    alloc: Global,
    given: &'a Value,
) -> Result<ListFormatterPatterns, Wrong<'a>> {
    texts_of(given).and_then(|texts| {
        texts.patterns(alloc).map_err(|error| unread(given, error))
    })
}

/// The texts of patterns.
#[derive(Clone, Copy)]
struct Texts<'a> {
    start: &'a str,
    middle: &'a str,
    end: &'a str,
    pair: &'a str,
    end_special: Option<Special<'a>>,
    pair_special: Option<Special<'a>>,
}

fn texts_of(given: &Value) -> Result<Texts<'_>, Wrong<'_>> {
    let (start, middle) = texts_at(given, "start", "middle")?;
    let (end, pair) = texts_at(given, "end", "pair")?;
    let end_special = special_at(given, "end_special")?;
    special_at(given, "pair_special").map(|pair_special| Texts {
        start,
        middle,
        end,
        pair,
        end_special,
        pair_special,
    })
}

/// The texts of two members.
fn texts_at<'a>(
    given: &'a Value,
    first: &'static str,
    second: &'static str,
) -> Result<(&'a str, &'a str), Wrong<'a>> {
    let first = field(given, first).and_then(text)?;
    field(given, second)
        .and_then(text)
        .map(|second| (first, second))
}

impl Texts<'_> {
    fn patterns(&self, alloc: Global) -> Result<ListFormatterPatterns, DataError> {
        let patterns = ListFormatterPatterns::try_new(
            alloc,
            self.start,
            self.middle,
            self.end,
            self.pair,
        )?;
        let patterns = with_end(alloc, patterns, self.end_special)?;
        with_pair(alloc, patterns, self.pair_special)
    }
}

fn with_end(
    alloc: Global,
    patterns: ListFormatterPatterns,
    special: Option<Special<'_>>,
) -> Result<ListFormatterPatterns, DataError> {
    match special {
        Some(special) => {
            let special = special.pattern(alloc, false);
            special.and_then(|special| patterns.with_end_special(special))
        }
        None => Ok(patterns),
    }
}

fn with_pair(
    alloc: Global,
    patterns: ListFormatterPatterns,
    special: Option<Special<'_>>,
) -> Result<ListFormatterPatterns, DataError> {
    match special {
        Some(special) => {
            let special = special.pattern(alloc, true);
            special.and_then(|special| patterns.with_pair_special(alloc, special))
        }
        None => Ok(patterns),
    }
}

/// The texts of a special pattern.
#[derive(Clone, Copy)]
struct Special<'a> {
    condition: &'a str,
    pattern: &'a str,
}

fn special_of(given: &Value) -> Result<Special<'_>, Wrong<'_>> {
    texts_at(given, "condition", "pattern").map(|(condition, pattern)| Special {
        condition,
        pattern,
    })
}

/// The special pattern of the member with this name, if it is there.
fn special_at<'a>(given: &'a Value, name: &str) -> Result<Option<Special<'a>>, Wrong<'a>> {
    match given.get(name) {
        Some(given) => special_of(given).map(Some),
        None => Ok(None),
    }
}

fn special_pattern_of<'a>(
    alloc: Global,
    given: &'a Value,
) -> Result<SpecialCasePattern, Wrong<'a>> {
    let special = special_of(given)?;
    special
        .pattern(alloc, true)
        .map_err(|error| unread(given, error))
}

impl Special<'_> {
    /// The special pattern, whose condition is read first.
    fn pattern(&self, alloc: Global, prefix: bool) -> Result<SpecialCasePattern, DataError> {
        let condition = SerdeDFA::new(alloc, self.condition)?;
        let pattern = ListJoinerPattern::try_from_str(alloc, self.pattern, prefix, true)?;
        Ok(SpecialCasePattern { condition, pattern })
    }
}
