//! The patterns that a list's texts are. They are looked at as start, middle, end and pair, then as
//! the special end and the special pair, each condition before its pattern.

ghost use Rattle.std.specs.Prelude.{◌≡◌, Some, None, IfOk, IfErr, true, false};
ghost use Rattle.std.specs.Option.{option_map};
ghost use Rattle.icu_list.specs.ListFault.{IsFault, first_fault, list_fault, special_faults};
ghost use Rattle.localise.specs.Lists.{ArePatterns, EndsWith, IsSpecialPattern, PairsWith};
ghost use Rattle.localise.specs.Lists.{list_texts, special_texts};

use icu_list::DataError;
use icu_list::provider::{ListFormatterPatterns, ListJoinerPattern, SerdeDFA, SpecialCasePattern};
use lazy_dfa::a_pattern_is_read;
use localise_texts::{PatternTexts, Special};
use std::alloc::Global;

/// The patterns of a list.
pub(crate) fn patterns_of(
    alloc: Global,
    texts: &PatternTexts,
) -> Result<ListFormatterPatterns, DataError>
    ensures ok { IfOk result (ArePatterns (list_texts texts.now)) }
    ensures err { IfErr result (IsFault (list_fault (list_texts texts.now))) }
{
    let plain = ListFormatterPatterns::try_new(
        alloc,
        texts.start.as_str(),
        texts.middle.as_str(),
        texts.end.as_str(),
        texts.pair.as_str(),
    )?;
    let ended = with_end(alloc, plain, &texts.end_special)?;
    with_pair(alloc, ended, &texts.pair_special)
}

/// The patterns with a special end, where there is one.
fn with_end(
    alloc: Global,
    plain: ListFormatterPatterns,
    special: &Option<Special>,
) -> Result<ListFormatterPatterns, DataError>
    ensures ok { IfOk result (EndsWith (option_map special_texts special.now) plain) }
    ensures faultless { IfOk result (λ _.
        first_fault (special_faults false (option_map special_texts special.now)) ≡ None) }
    ensures err { IfErr result (IsFault
        (first_fault (special_faults false (option_map special_texts special.now)))) }
{
    match special {
        Some(special) => plain.with_end_special(special_case(alloc, special, false)?),
        None => Ok(plain),
    }
}

/// The patterns with a special pair, where there is one.
fn with_pair(
    alloc: Global,
    ended: ListFormatterPatterns,
    special: &Option<Special>,
) -> Result<ListFormatterPatterns, DataError>
    ensures ok { IfOk result (PairsWith (option_map special_texts special.now) ended) }
    ensures faultless { IfOk result (λ _.
        first_fault (special_faults true (option_map special_texts special.now)) ≡ None) }
    ensures err { IfErr result (IsFault
        (first_fault (special_faults true (option_map special_texts special.now)))) }
{
    match special {
        Some(special) => ended.with_pair_special(alloc, special_case(alloc, special, true)?),
        None => Ok(ended),
    }
}

/// A special pattern, which has a prefix where that is allowed.
fn special_case(
    alloc: Global,
    special: &Special,
    allow_prefix: bool,
) -> Result<SpecialCasePattern, DataError>
    ensures condition { IfOk result (λ case. case.condition ≡ special.now.condition) }
    ensures pattern { IfOk result (λ case.
        IsSpecialPattern allow_prefix (special_texts special.now) case.pattern) }
    ensures faultless { IfOk result (λ _.
        first_fault (special_faults allow_prefix (Some (special_texts special.now))) ≡ None) }
    ensures err { IfErr result (IsFault
        (first_fault (special_faults allow_prefix (Some (special_texts special.now))))) }
{
    a_pattern_is_read();
    let condition = SerdeDFA::new(alloc, special.condition.as_str())?;
    let pattern = ListJoinerPattern::try_from_str(
        alloc,
        special.pattern.as_str(),
        allow_prefix,
        true,
    )?;
    Ok(SpecialCasePattern { condition, pattern })
}
