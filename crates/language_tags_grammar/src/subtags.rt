ghost use Rattle.std.specs.Prelude.{◌≡◌, ◌↔◌, ℕ, List, [], length, IsSome, IfSome, Some, None};
ghost use Rattle.std.specs.Iterator.{YieldsFirstRef, item_count};
ghost use Rattle.language_tags_grammar.specs.Pieces.{pieces};

use std::marker::Model;

/// The subtags of a part, in order.
#[derive(Drop)]
pub struct SubtagsIter<'a> {
    rest: Option<&'a str>,
}

impl<'a> Model for SubtagsIter<'a> {
    ghost use Rattle.std.specs.Prelude.{ℕ, List};
    ghost use Rattle.std.specs.Option.{option_copied};
    ghost use Rattle.language_tags_grammar.specs.Pieces.{pieces_of};

    ghost Value = { List (List ℕ) };

    ghost view = { λ s. pieces_of (option_copied s.rest) };
}

impl<'a> SubtagsIter<'a> {
    ghost use Rattle.std.specs.Option.{option_copied};
    ghost use Rattle.language_tags_grammar.specs.Pieces.{pieces_of};

    /// The pieces of a text, or none where there is no text.
    pub fn new(text: Option<&'a str>) -> SubtagsIter<'a>
        ensures { result ≡ pieces_of (option_copied text.entry) }
    {
        SubtagsIter { rest: text }
    }
}

impl<'a> Iterator for SubtagsIter<'a> {
    type Item = &'a str;

    ghost next_gives = { YieldsFirstRef (λ s. s) };

    ghost remaining = { item_count (λ s. s) };

    fn next(&mut self) -> Option<&'a str> {
        let text = self.rest.take()?;
        match text.split_once('-') {
            Some((first, rest)) => {
                self.rest = Some(rest);
                Some(first)
            }
            None => Some(text),
        }
    }
}
