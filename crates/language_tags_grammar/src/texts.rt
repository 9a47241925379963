//! Whether a text is a tag. No memory is taken.
ghost use Rattle.std.specs.Prelude.{◌≡◌, ◌+◌, ◌≤◌, ◌↔◌, IsTrue, None, length};
ghost use Rattle.language_tags_grammar.specs.Case.{in_case};
ghost use Rattle.language_tags_grammar.specs.Grandfathered.{grandfathered};
ghost use Rattle.language_tags_grammar.specs.Pieces.{lowercase, uppercase};
ghost use Rattle.language_tags_grammar.specs.Tag.{Tag, print};
ghost use Rattle.language_tags_grammar.specs.TagOf.{BeginsOtherwise, IsTagOf};

use crate::characters::{has_no_capitals, has_no_smalls};
use crate::ends::Ends;
use crate::grandfathered::grandfathered;
use crate::private_use::{behind_x, check};
use crate::scan::scan;

/// Whether a text is a tag.
pub fn is_tag(text: &str) -> bool
    ensures { IsTrue result ↔ ((tag : Tag) × IsTagOf text.now tag) }
{
    if grandfathered(text).is_some() {
        return true;
    }
    match behind_x(text) {
        Some(rest) => check(rest).is_ok(),
        None => scan(text).is_ok(),
    }
}

/// Whether a text is a tag that prints as it stands there.
pub fn is_printed_tag(text: &str) -> bool
    ensures { IsTrue result ↔ ((tag : Tag) × IsTagOf text.now tag × (print tag ≡ text.now)) }
{
    if let Some(tag) = grandfathered(text) {
        return text == tag;
    }
    match behind_x(text) {
        Some(rest) => check(rest).is_ok() && is_in_lowercase(text.as_bytes()),
        None => is_printed_langtag(text),
    }
}

fn is_printed_langtag(text: &str) -> bool
    requires whole { grandfathered text.now ≡ None }
    requires private { BeginsOtherwise text.now }
    ensures { IsTrue result ↔ ((tag : Tag) × IsTagOf text.now tag × (print tag ≡ text.now)) }
{
    match scan(text) {
        Ok(ends) => is_in_case(text.as_bytes(), &ends),
        Err(_) => false,
    }
}

/// Whether the text of a langtag stands in its case.
fn is_in_case(text: &[u8], ends: &Ends) -> bool
    requires script { ends.now.extlang ≤ ends.now.script }
    requires region { ends.now.script ≤ ends.now.region }
    requires within { ends.now.region ≤ length text.now }
    ensures { IsTrue result ↔ (in_case ends.now text.now ≡ text.now) }
{
    let capital = ends.script.min(ends.extlang.saturating_add(2));
    is_cased(&text[..ends.extlang], &text[ends.extlang..capital])
        && is_cased(&text[capital..ends.script], &text[ends.script..ends.region])
        && is_in_lowercase(&text[ends.region..])
}

/// Whether one text is in lower case and the next in upper case.
fn is_cased(small: &[u8], capital: &[u8]) -> bool
    ensures { IsTrue result
        ↔ ((lowercase small.now ≡ small.now) × (uppercase capital.now ≡ capital.now)) }
{
    is_in_lowercase(small) && is_in_uppercase(capital)
}

fn is_in_lowercase(text: &[u8]) -> bool
    ensures { IsTrue result ↔ (lowercase text.now ≡ text.now) }
{
    has_no_capitals(text)
}

fn is_in_uppercase(text: &[u8]) -> bool
    ensures { IsTrue result ↔ (uppercase text.now ≡ text.now) }
{
    has_no_smalls(text)
}
