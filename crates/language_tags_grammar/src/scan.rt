//! The scanner of langtags.
ghost use Rattle.std.specs.Prelude.{◌≡◌};
ghost use Rattle.std.specs.Char.{is_ascii_digit, is_ascii_lowercase};
ghost use Rattle.std.specs.List.{list_all};
ghost use Rattle.language_tags_grammar.specs.Pieces.{lowercase, pieces};
ghost use Rattle.language_tags_grammar.specs.Scan.{at_last, at_start, behind_content};
ghost use Rattle.language_tags_grammar.specs.Scan.{behind_extlang, behind_extlangs, behind_region};
ghost use Rattle.language_tags_grammar.specs.Scan.{behind_script, behind_singleton, behind_x};
ghost use Rattle.language_tags_grammar.specs.Scan.{ends_at, in_place, is_single, is_small_region};
ghost use Rattle.language_tags_grammar.specs.Scan.{is_small_script, opening, scanned, stage_after};
ghost use Rattle.language_tags_grammar.specs.Shapes.{is_content, is_extlang, is_private, is_small};
ghost use Rattle.language_tags_grammar.specs.Shapes.{is_variant};

use crate::characters::{are_alphabetic, are_alphanumeric, are_numeric};
use crate::ends::Ends;
use crate::stage::Stage;
use crate::{ParseError, SubtagsIter};

/// Where the parts of a langtag end, or what is wrong with the text.
pub fn scan(text: &str) -> Result<Ends, ParseError>
    ensures { result ≡ scanned (pieces (lowercase text.now)) }
{
    let mut stage = Stage::Start;
    let mut ends = Ends {
        language: 0,
        extlang: 0,
        script: 0,
        region: 0,
        variant: 0,
        extension: 0,
    };
    let mut at = 0;
    for piece in SubtagsIter::new(Some(text)) {
        stage = stage_after(stage, piece)?;
        let end = at + piece.len();
        ends = ends_at(ends, stage, end);
        at = end + 1;
    }
    match stage {
        Stage::Singleton => Err(ParseError::EmptyExtension),
        Stage::X => Err(ParseError::EmptyPrivateUse),
        _ => Ok(ends),
    }
}

/// The ends, once a piece that ends at `end` has led to the stage. Parts that may still follow are
/// empty there.
fn ends_at(ends: Ends, stage: Stage, end: usize) -> Ends
    ensures { result ≡ ends_at ends stage end }
{
    match stage {
        Stage::LongLanguage | Stage::Extlangs(0) => Ends {
            language: end,
            extlang: end,
            script: end,
            region: end,
            variant: end,
            extension: end,
        },
        Stage::Extlangs(_) => Ends {
            extlang: end,
            script: end,
            region: end,
            variant: end,
            extension: end,
            ..ends
        },
        Stage::Script => Ends {
            script: end,
            region: end,
            variant: end,
            extension: end,
            ..ends
        },
        Stage::Region => Ends {
            region: end,
            variant: end,
            extension: end,
            ..ends
        },
        Stage::Variant => Ends {
            variant: end,
            extension: end,
            ..ends
        },
        Stage::Singleton | Stage::Extension => Ends {
            extension: end,
            ..ends
        },
        Stage::Start | Stage::X | Stage::Private => ends,
    }
}

/// What a piece is, behind a piece that was this.
fn stage_after(stage: Stage, piece: &str) -> Result<Stage, ParseError>
    ensures { result ≡ stage_after stage (lowercase piece.now) }
{
    if piece.is_empty() {
        return Err(ParseError::EmptySubtag);
    }
    if piece.len() > 8 {
        return Err(ParseError::SubtagTooLong);
    }
    in_place(stage, piece)
}

fn in_place(stage: Stage, piece: &str) -> Result<Stage, ParseError>
    ensures { result ≡ in_place stage (lowercase piece.now) }
{
    match stage {
        Stage::Start => at_start(piece),
        Stage::LongLanguage => behind_extlangs(piece),
        Stage::Extlangs(count) => behind_extlang(count, piece),
        Stage::Script => behind_script(piece),
        Stage::Region | Stage::Variant => behind_region(piece),
        Stage::Singleton => behind_singleton(piece),
        Stage::Extension => behind_content(piece),
        Stage::X | Stage::Private => behind_x(piece),
    }
}

fn at_start(piece: &str) -> Result<Stage, ParseError>
    ensures { result ≡ at_start (lowercase piece.now) }
{
    if !(piece.len() >= 2 && are_letters(piece)) {
        return Err(ParseError::InvalidLanguage);
    }
    if piece.len() <= 3 {
        Ok(Stage::Extlangs(0))
    } else {
        Ok(Stage::LongLanguage)
    }
}

fn behind_extlang(count: u8, piece: &str) -> Result<Stage, ParseError>
    ensures { result ≡ behind_extlang count (lowercase piece.now) }
{
    if !is_extlang(piece) {
        return behind_extlangs(piece);
    }
    if count < 3 {
        Ok(Stage::Extlangs(count + 1))
    } else {
        Err(ParseError::TooManyExtlangs)
    }
}

fn behind_extlangs(piece: &str) -> Result<Stage, ParseError>
    ensures { result ≡ behind_extlangs (lowercase piece.now) }
{
    if is_script(piece) {
        Ok(Stage::Script)
    } else {
        behind_script(piece)
    }
}

fn behind_script(piece: &str) -> Result<Stage, ParseError>
    ensures { result ≡ behind_script (lowercase piece.now) }
{
    if is_region(piece) {
        Ok(Stage::Region)
    } else {
        behind_region(piece)
    }
}

fn behind_region(piece: &str) -> Result<Stage, ParseError>
    ensures { result ≡ behind_region (lowercase piece.now) }
{
    if is_variant(piece) {
        Ok(Stage::Variant)
    } else {
        opening(piece)
    }
}

fn behind_singleton(piece: &str) -> Result<Stage, ParseError>
    ensures { result ≡ behind_singleton (lowercase piece.now) }
{
    if is_content(piece) {
        Ok(Stage::Extension)
    } else if is_single(piece) {
        Err(ParseError::EmptyExtension)
    } else {
        Err(ParseError::InvalidSubtag)
    }
}

fn behind_content(piece: &str) -> Result<Stage, ParseError>
    ensures { result ≡ behind_content (lowercase piece.now) }
{
    if is_content(piece) {
        Ok(Stage::Extension)
    } else {
        opening(piece)
    }
}

fn behind_x(piece: &str) -> Result<Stage, ParseError>
    ensures { result ≡ behind_x (lowercase piece.now) }
{
    if is_private(piece) {
        Ok(Stage::Private)
    } else {
        Err(ParseError::InvalidSubtag)
    }
}

/// The piece that begins an extension or private use.
fn opening(piece: &str) -> Result<Stage, ParseError>
    ensures { result ≡ opening (lowercase piece.now) }
{
    if !is_single(piece) {
        Err(ParseError::InvalidSubtag)
    } else if piece.eq_ignore_ascii_case("x") {
        Ok(Stage::X)
    } else {
        Ok(Stage::Singleton)
    }
}

fn is_extlang(piece: &str) -> bool
    ensures { result ≡ is_extlang (lowercase piece.now) }
{
    piece.len() == 3 && are_letters(piece)
}

fn is_script(piece: &str) -> bool
    ensures { result ≡ is_small_script (lowercase piece.now) }
{
    piece.len() == 4 && are_letters(piece)
}

fn is_region(piece: &str) -> bool
    ensures { result ≡ is_small_region (lowercase piece.now) }
{
    (piece.len() == 2 && are_letters(piece)) || (piece.len() == 3 && are_digits(piece))
}

fn is_variant(piece: &str) -> bool
    ensures { result ≡ is_variant (lowercase piece.now) }
{
    let bytes = piece.as_bytes();
    ((5..=8).contains(&bytes.len()) || (bytes.len() == 4 && bytes[0].is_ascii_digit()))
        && are_letters_or_digits(piece)
}

fn is_content(piece: &str) -> bool
    ensures { result ≡ is_content (lowercase piece.now) }
{
    (2..=8).contains(&piece.len()) && are_letters_or_digits(piece)
}

fn is_private(piece: &str) -> bool
    ensures { result ≡ is_private (lowercase piece.now) }
{
    (1..=8).contains(&piece.len()) && are_letters_or_digits(piece)
}

fn is_single(piece: &str) -> bool
    ensures { result ≡ is_single (lowercase piece.now) }
{
    piece.len() == 1 && are_letters_or_digits(piece)
}

#[tactic(auto, using(crate::proofs::Cases::letters_lowercase))]
fn are_letters(piece: &str) -> bool
    ensures { result ≡ list_all is_ascii_lowercase (lowercase piece.now) }
{
    are_alphabetic(piece.as_bytes())
}

#[tactic(auto, using(crate::proofs::Cases::digits_lowercase))]
fn are_digits(piece: &str) -> bool
    ensures { result ≡ list_all is_ascii_digit (lowercase piece.now) }
{
    are_numeric(piece.as_bytes())
}

#[tactic(auto, using(crate::proofs::Cases::small_lowercase))]
fn are_letters_or_digits(piece: &str) -> bool
    ensures { result ≡ list_all is_small (lowercase piece.now) }
{
    are_alphanumeric(piece.as_bytes())
}
