ghost use Rattle.std.specs.Prelude.{◌≡◌, IfOk};

use std::alloc::{AllocError, Global};
use writeable_core::OwnedText;

/// A pattern that replaces another before a last item on which a condition holds.
#[derive(Debug, Drop)]
pub struct Special {
    /// The condition on the last item, as a pattern of characters (`lazy_dfa`).
    pub condition: OwnedText,
    pub pattern: OwnedText,
}

/// How a locale joins the items of lists (UTS 35, list patterns): each pattern has the places `{0}`
/// and `{1}`.
#[derive(Debug, Drop)]
pub struct PatternTexts {
    /// Of the first item and the rest of a list of three or more.
    pub start: OwnedText,
    /// Of an item and the rest.
    pub middle: OwnedText,
    /// Of the last two items.
    pub end: OwnedText,
    /// Of a list of two.
    pub pair: OwnedText,
    pub end_special: Option<Special>,
    pub pair_special: Option<Special>,
}

impl Special {
    /// A copy.
    pub fn try_clone(&self, alloc: Global) -> Result<Special, AllocError>
        ensures { IfOk result (λ copy. copy ≡ self.now) }
    {
        Ok(Special {
            condition: OwnedText::new(alloc, self.condition.as_str())?,
            pattern: OwnedText::new(alloc, self.pattern.as_str())?,
        })
    }
}

impl PatternTexts {
    /// A copy.
    pub fn try_clone(&self, alloc: Global) -> Result<PatternTexts, AllocError>
        ensures { IfOk result (λ copy. copy ≡ self.now) }
    {
        Ok(PatternTexts {
            start: OwnedText::new(alloc, self.start.as_str())?,
            middle: OwnedText::new(alloc, self.middle.as_str())?,
            end: OwnedText::new(alloc, self.end.as_str())?,
            pair: OwnedText::new(alloc, self.pair.as_str())?,
            end_special: copied(alloc, &self.end_special)?,
            pair_special: copied(alloc, &self.pair_special)?,
        })
    }
}

fn copied(alloc: Global, special: &Option<Special>) -> Result<Option<Special>, AllocError>
    ensures { IfOk result (λ copy. copy ≡ special.now) }
{
    match special {
        Some(special) => Ok(Some(special.try_clone(alloc)?)),
        None => Ok(None),
    }
}
