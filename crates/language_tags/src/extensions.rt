ghost use Rattle.std.specs.Prelude.{◌≡◌, ◌+◌, ◌<◌, ◌^◌, ◌↔◌, ℕ, List, [], length, map, IsSome};
ghost use Rattle.std.specs.Prelude.{IfSome, Some, None};
ghost use Rattle.std.specs.Iterator.{YieldsFirstBy, item_count};
ghost use Rattle.language_tags_grammar.specs.Kept.{grouped};
ghost use Rattle.language_tags_grammar.specs.Pieces.{dashed};

use crate::SubtagsIter;
use crate::part::part;
use std::marker::Model;

/// The extensions of a tag in order, each its singleton and its content.
#[derive(Drop)]
pub struct ExtensionsIterator<'a> {
    rest: Option<&'a str>,
}

impl<'a> Model for ExtensionsIterator<'a> {
    ghost use Rattle.std.specs.Prelude.{List};
    ghost use Rattle.std.specs.Option.{option_copied};
    ghost use Rattle.language_tags_grammar.specs.Tag.{Extension};
    ghost use Rattle.language_tags.specs.Extensions.{IsExtensionsText, extensions_in};

    ghost Value = { List Extension };

    ghost view = { λ e. extensions_in (option_copied e.rest) };

    ghost invariant = { λ e. IsExtensionsText (option_copied e.rest) };
}

impl<'a> ExtensionsIterator<'a> {
    ghost use Rattle.std.specs.Option.{option_copied};
    ghost use Rattle.language_tags.specs.Extensions.{IsExtensionsText, extensions_in};

    /// The extensions of a text, or none where there is no text.
    pub(crate) fn new(text: Option<&'a str>) -> ExtensionsIterator<'a>
        requires { IsExtensionsText (option_copied text) }
        ensures { result ≡ extensions_in (option_copied text.entry) }
    {
        ExtensionsIterator { rest: text }
    }

    /// The extensions that are left, from here.
    pub(crate) fn again(&self) -> ExtensionsIterator<'a>
        ensures { result ≡ self.now }
    {
        ExtensionsIterator { rest: self.rest }
    }
}

impl<'a> Iterator for ExtensionsIterator<'a> {
    type Item = (char, &'a str);

    ghost use Rattle.language_tags.specs.Extensions.{item_of};

    ghost next_gives = { YieldsFirstBy (λ item. (item.0, item.1.now)) (map item_of) };

    ghost remaining = { item_count (map item_of) };

    fn next(&mut self) -> Option<(char, &'a str)> {
        let text = self.rest.take()?;
        let bytes = text.as_bytes();
        let mut pieces = SubtagsIter::new(Some(text));
        let first = pieces.next()?;
        let end = first.len() + content_length(pieces);
        self.rest = part(text, end, text.len());
        let content = part(text, first.len(), end)?;
        Some((char::from(bytes[0]), content))
    }
}

/// How long the pieces before the first singleton are, with a dash before each.
fn content_length(pieces: SubtagsIter<'_>) -> usize
    requires { length (dashed pieces) < 2 ^ 64 }
    ensures { result ≡ length (dashed (grouped pieces.entry).front) }
{
    let mut length = 0;
    for piece in pieces {
        if piece.len() == 1 {
            break;
        }
        length += piece.len() + 1;
    }
    length
}
