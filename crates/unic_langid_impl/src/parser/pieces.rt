ghost use Rattle.std.specs.Prelude.{◌≡◌, Some, drop, position};
ghost use Rattle.std.specs.Option.{option_copied};
ghost use Rattle.unic_langid_impl.specs.Pieces.{first_piece, is_separator, pieces_of};
ghost use Rattle.unic_langid_impl.specs.Cuts.{cut_pieces};

use std::marker::Model;

/// The pieces of a text, cut at `-` and `_`, that are not read yet. Contracts see the list of
/// these.
#[derive(Drop)]
pub struct SubtagPieces<'a> {
    first: Option<&'a [u8]>,
    behind: Option<&'a [u8]>,
}

impl<'a> Model for SubtagPieces<'a> {
    ghost use Rattle.std.specs.Prelude.{ℕ, List};
    ghost use Rattle.std.specs.Option.{option_copied};
    ghost use Rattle.unic_langid_impl.specs.Cuts.{cut_pieces};

    ghost Value = { List (List ℕ) };

    ghost view = { λ s. cut_pieces (option_copied s.first) (option_copied s.behind) };
}

impl<'a> SubtagPieces<'a> {
    /// The pieces of a text. No byte is one empty piece.
    pub fn new(bytes: &'a [u8]) -> SubtagPieces<'a>
        ensures { result ≡ pieces_of bytes.now }
    {
        let (first, behind) = split_first(bytes);
        SubtagPieces {
            first: Some(first),
            behind,
        }
    }

    /// Takes the next piece.
    pub fn next(&mut self) -> Option<&'a [u8]>
        ensures first { option_copied result ≡ first_piece self.old }
        ensures left { self.new ≡ drop 1 self.old }
    {
        let first = self.first?;
        match self.behind {
            Some(bytes) => {
                let (next, behind) = split_first(bytes);
                self.first = Some(next);
                self.behind = behind;
            }
            None => self.first = None,
        }
        Some(first)
    }

    /// The next piece, which stays.
    pub fn peek(&self) -> Option<&'a [u8]>
        ensures { option_copied result ≡ first_piece self.now }
    {
        self.first
    }
}

/// The first piece, and the bytes behind the separator that ends it, where there is one.
fn split_first(bytes: &[u8]) -> (&[u8], Option<&[u8]>)
    ensures { cut_pieces (Some result.0.now) (option_copied result.1) ≡ pieces_of bytes.now }
{
    match separator(bytes) {
        Some(end) => (&bytes[..end], Some(&bytes[end + 1..])),
        None => (bytes, None),
    }
}

/// Where the first separator stands.
fn separator(bytes: &[u8]) -> Option<usize>
    ensures { result ≡ position is_separator bytes.now }
{
    bytes.iter().position(|byte| *byte == b'-' || *byte == b'_')
}
