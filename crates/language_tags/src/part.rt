//! Parts of a tag's text.
ghost use Rattle.std.specs.Prelude.{◌≡◌, ℕ, ◌≤◌, List, length, take, chars};
ghost use Rattle.std.specs.Option.{option_copied};
ghost use Rattle.std.specs.Str.{IsAscii};
ghost use Rattle.language_tags_grammar.specs.Kept.{between};
ghost use Rattle.language_tags_grammar.specs.Pieces.{dashed, part_text};

/// The text up to a place.
pub(crate) fn front(text: &str, end: usize) -> &str
    requires ascii { IsAscii text.now }
    requires within { end ≤ length text.now }
    ensures { result.now ≡ take end text.now }
{
    &text[..end]
}

/// The text of the pieces that stand between two places, each with a dash before it; None where
/// there is none.
pub(crate) fn part(text: &str, start: usize, end: usize) -> Option<&str>
    requires ascii { IsAscii text.now }
    requires ordered { start ≤ end }
    requires within { end ≤ length text.now }
    ensures { (ps : List (List ℕ)) → between start end text.now ≡ dashed ps
        → option_copied result ≡ part_text ps }
{
    if start == end {
        None
    } else {
        Some(&text[start + 1..end])
    }
}
