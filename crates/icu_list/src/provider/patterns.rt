//! The patterns of a locale's lists.

ghost use Rattle.std.specs.Prelude.{◌≡◌, ◌≢◌, [], Err, Ok, Some, None, IfErr, IfOk};
ghost use Rattle.std.specs.Str.{chars};
ghost use Rattle.icu_list.specs.ListFault.{ArePatternsOf, IsFault, list_fault, without_specials};
ghost use Rattle.icu_list.specs.Frames.{frame_for, frame_of};
ghost use Rattle.icu_list.specs.ListHint.{patterns_hint};
ghost use Rattle.icu_list.specs.PatternTexts.{IsFaultOf, middle};

use crate::DataError;
use crate::provider::joiner::{is_allowed, is_same};
use crate::provider::{
    ConditionalListJoinerPattern, Joints, ListJoinerPattern, SpecialCasePattern,
};
use std::alloc::Global;
use std::marker::Model;
use writeable_core::{LengthHint, OwnedText, Writeable};

/// How the items of a list are joined: the patterns of its start, its middle, its end, and of a
/// list of two. Where no pair is stored, the end serves for two items.
#[derive(Drop)]
pub struct ListFormatterPatterns {
    start: ListJoinerPattern,
    middle: OwnedText,
    end: ConditionalListJoinerPattern,
    pair: Option<ConditionalListJoinerPattern>,
}

impl Model for ListFormatterPatterns {
    ghost use Rattle.std.specs.Prelude.{◌≡◌, []};
    ghost use Rattle.icu_list.specs.Patterns.{Patterns};

    ghost Value = { Patterns };

    ghost use Rattle.icu_list.specs.PatternsView.{patterns, prefix_of_special};

    ghost view = { λ p. patterns p.start p.middle p.end p.pair };

    ghost invariant = { λ p.
        (p.start.suffix ≡ []) × (p.end.default.prefix ≡ [])
        × (prefix_of_special p.end.special_case ≡ []) };
}

impl ListFormatterPatterns {
    ghost use Rattle.icu_list.specs.Specials.{with_end, with_pair};
    ghost use Rattle.icu_list.specs.PatternsView.{special_closing_of, special_pattern_of};

    /// The lengths' names in tables.
    pub const NARROW: &'static str = "N";

    pub const SHORT: &'static str = "S";

    pub const WIDE: &'static str = "W";

    pub const NARROW_STR: &'static str = "N";

    pub const SHORT_STR: &'static str = "S";

    pub const WIDE_STR: &'static str = "W";

    /// The patterns that four texts are.
    pub fn try_new(
        alloc: Global,
        start: &str,
        middle: &str,
        end: &str,
        pair: &str,
    ) -> Result<Self, DataError>
        ensures ok { IfOk result (ArePatternsOf (chars start.now) (chars middle.now)
            (chars end.now) (chars pair.now)) }
        ensures err { IfErr result (IsFault (list_fault
            (without_specials (chars start.now) (chars middle.now)
            (chars end.now) (chars pair.now)))) }
    {
        let start = ListJoinerPattern::try_from_str(alloc, start, true, false)?;
        let middle = middle_of(alloc, middle)?;
        let last = ListJoinerPattern::try_from_str(alloc, end, false, true)?;
        let pair = if pair == end {
            None
        } else {
            let two = ListJoinerPattern::try_from_str(alloc, pair, true, true)?;
            Some(ConditionalListJoinerPattern::from(two))
        };
        Ok(ListFormatterPatterns {
            start,
            middle,
            end: ConditionalListJoinerPattern::from(last),
            pair,
        })
    }

    /// The patterns with a special end: its pattern replaces the end's before a last item on which
    /// its condition holds.
    pub fn with_end_special(self, special: SpecialCasePattern) -> Result<Self, DataError>
        ensures ok { IfOk result (λ p. p ≡ with_end self (special_closing_of special)) }
        ensures allowed { IfOk result (λ _. special.pattern.prefix ≡ []) }
        ensures err { IfErr result
            (λ e. (e ≡ DataError.InvalidPattern) × (special.pattern.prefix ≢ [])) }
    {
        if !is_allowed(false, special.pattern.prefix()) {
            return Err(DataError::InvalidPattern);
        }
        let ListFormatterPatterns {
            start,
            middle,
            end,
            pair,
        } = self;
        let ConditionalListJoinerPattern {
            default,
            special_case: _,
        } = end;
        Ok(ListFormatterPatterns {
            start,
            middle,
            end: ConditionalListJoinerPattern {
                default,
                special_case: Some(special),
            },
            pair,
        })
    }

    /// The patterns with a special pair. Where no pair is stored, one is that is equal to the end.
    pub fn with_pair_special(
        self,
        alloc: Global,
        special: SpecialCasePattern,
    ) -> Result<Self, DataError>
        ensures ok { IfOk result (λ p. p ≡ with_pair self (special_pattern_of special)) }
        ensures err { IfErr result (λ e. e ≡ DataError.NoMemory) }
    {
        let ListFormatterPatterns {
            start,
            middle,
            end,
            pair,
        } = self;
        let default = match pair {
            Some(pair) => {
                let ConditionalListJoinerPattern {
                    default,
                    special_case: _,
                } = pair;
                default
            }
            None => end.default.copied(alloc)?,
        };
        let pair = Some(ConditionalListJoinerPattern {
            default,
            special_case: Some(special),
        });
        Ok(ListFormatterPatterns {
            start,
            middle,
            end,
            pair,
        })
    }

    /// The hint of the patterns alone, for so many items.
    pub fn length_hint(&self, len: usize) -> LengthHint
        ensures { result ≡ patterns_hint self.now len }
    {
        match len {
            0 | 1 => LengthHint::exact(0),
            2 => self.pair.as_ref().unwrap_or(&self.end).length_hint(),
            _ => {
                let middle = LengthHint::of(self.middle.as_str()) * (len - 3);
                self.start.length_hint() + middle + self.end.length_hint()
            }
        }
    }

    /// The texts round the items of a list of two, or of more, that ends with an item.
    pub(crate) fn joints<W: Writeable>(&self, is_pair: bool, last: &W) -> Joints<'_>
        ensures { frame_of result ≡ frame_for self.now is_pair (W.text last.now) }
    {
        if is_pair {
            let two = self.pair.as_ref().unwrap_or(&self.end).pattern_for(last);
            let between = two.between();
            return Joints {
                before: two.prefix(),
                first: between,
                middle: between,
                last: between,
                behind: two.suffix(),
            };
        }
        let end = self.end.pattern_for(last);
        Joints {
            before: self.start.prefix(),
            first: self.start.between(),
            middle: self.middle.as_str(),
            last: end.between(),
            behind: end.suffix(),
        }
    }
}

/// Patterns are equal where those of start, middle, end and pair are.
impl PartialEq for ListFormatterPatterns {
    ghost use Rattle.std.specs.Prelude.{◌≡◌};
    ghost use Rattle.icu_list.specs.SamePatterns.{same_patterns, same_patterns_laws};

    ghost eq = { same_patterns };

    ghost laws = { same_patterns_laws };

    fn eq(&self, other: &ListFormatterPatterns) -> bool
        ensures { result ≡ same_patterns self.now other.now }
    {
        self.start == other.start
            && is_same(self.middle.as_str(), other.middle.as_str())
            && self.end == other.end
            && self.pair == other.pair
    }
}

/// What stands between the two items of a middle pattern.
fn middle_of(alloc: Global, text: &str) -> Result<OwnedText, DataError>
    ensures ok { IfOk result (λ between. middle (chars text.now) ≡ Ok between) }
    ensures err { IfErr result (IsFaultOf (middle (chars text.now))) }
{
    let Some(rest) = text.strip_prefix("{0}") else {
        return Err(DataError::InvalidPattern);
    };
    let Some(between) = rest.strip_suffix("{1}") else {
        return Err(DataError::InvalidPattern);
    };
    Ok(OwnedText::new(alloc, between)?)
}
