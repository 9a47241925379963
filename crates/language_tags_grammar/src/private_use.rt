//! Private use tags.
ghost use Rattle.std.specs.Prelude.{◌≡◌, ◌||◌, IsTrue, MatchOption, MatchResult};
ghost use Rattle.std.specs.Char.{is_ascii_alphanumeric};
ghost use Rattle.std.specs.List.{list_all};
ghost use Rattle.language_tags_grammar.specs.Pieces.{is_dash, lowercase, pieces};
ghost use Rattle.language_tags_grammar.specs.Shapes.{is_private};
ghost use Rattle.language_tags_grammar.specs.TagFault.{IsFaultBehindX, are_allowed};
ghost use Rattle.language_tags_grammar.specs.TagOf.{BeginsOtherwise, StandsBehindX};

use crate::{ParseError, SubtagsIter};

/// What stands behind the `x-` that a text begins with.
pub fn behind_x(text: &str) -> Option<&str>
    ensures { MatchOption result (BeginsOtherwise text.now)
        (λ rest. StandsBehindX (lowercase rest.now) text.now) }
{
    match text.split_once('-') {
        Some((first, rest)) => {
            if first.eq_ignore_ascii_case("x") {
                Some(rest)
            } else {
                None
            }
        }
        None => None,
    }
}

/// Looks for the fault of what stands behind `x-`.
pub fn check(rest: &str) -> Result<(), ParseError>
    ensures { MatchResult result (λ _. IsTrue (list_all is_private (pieces (lowercase rest.now))))
        (IsFaultBehindX (lowercase rest.now)) }
{
    if !are_allowed(rest.as_bytes()) {
        return Err(ParseError::ForbiddenChar);
    }
    if rest.is_empty() {
        return Err(ParseError::EmptyPrivateUse);
    }
    for piece in SubtagsIter::new(Some(rest)) {
        if piece.is_empty() {
            return Err(ParseError::EmptySubtag);
        }
        if piece.len() > 8 {
            return Err(ParseError::SubtagTooLong);
        }
    }
    Ok(())
}

#[tactic(auto, using(crate::specs::Lemmas::PrivateLaws::allowed_lowercase))]
fn are_allowed(rest: &[u8]) -> bool
    ensures { result ≡ are_allowed (lowercase rest.now) }
{
    are_characters_of_tags(rest)
}

fn are_characters_of_tags(text: &[u8]) -> bool
    ensures { result ≡ list_all (λ c. is_ascii_alphanumeric c || is_dash c) text.now }
{
    text.iter()
        .all(|byte| byte.is_ascii_alphanumeric() || *byte == b'-')
}
