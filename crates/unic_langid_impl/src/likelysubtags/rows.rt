ghost use Rattle.std.specs.Prelude.{◌≡◌, ◌≢◌, None, MatchOption, IfOk};
ghost use Rattle.writeable_core.specs.declared.text.TextRow.{TextRow};
ghost use Rattle.unic_langid_impl.specs.Likely.{Triple, identifier_of};
ghost use Rattle.unic_langid_impl.specs.Identifier.{print};
ghost use Rattle.std.specs.declared.cmp.Ordering.TheVariants.{Equal};
ghost use Rattle.unic_langid_impl.specs.KeyLaws.{language_pairs_tie, options_tie, pairs_tie};
ghost use Rattle.unic_langid_impl.specs.KeyLaws.{texts_tie};
ghost use Rattle.unic_langid_impl.specs.LikelyRows.{LanguageCell, LanguageKey, LanguageRegionKey};
ghost use Rattle.unic_langid_impl.specs.LikelyRows.{LanguageScriptKey, PrintsTriple, RegionCell};
ghost use Rattle.unic_langid_impl.specs.LikelyRows.{RegionKey, ScriptCell, ScriptKey};
ghost use Rattle.unic_langid_impl.specs.LikelyRows.{ScriptRegionKey, ThereCell};
ghost use Rattle.unic_langid_impl.specs.Words.{words_of_rows};

use crate::parser::parse_language_identifier;
use crate::subtags::{Language, Region, Script};
use crate::{LanguageIdentifier, ParserError};
use std::alloc::{AllocError, Global};
use thiserror::Error;
use writeable_core::{OwnedText, TextRow};

/// The likely tables as rows of texts, each subtag in canonical case. Table and row are numbered
/// from 0.
///
/// The third cell of a row is its value: a printed identifier without variants, whose language
/// isn't `und`.
#[derive(Drop)]
pub struct LikelyRows {
    /// Table 0: a language, `und` among them, and an unused cell.
    pub lang_only: Vec<TextRow>,
    /// Table 1: language and region.
    pub lang_region: Vec<TextRow>,
    /// Table 2: language and script.
    pub lang_script: Vec<TextRow>,
    /// Table 3: script and region.
    pub script_region: Vec<TextRow>,
    /// Table 4: a script, and an unused cell.
    pub script_only: Vec<TextRow>,
    /// Table 5: a region, and an unused cell.
    pub region_only: Vec<TextRow>,
}

/// Why rows make no tables: what is wrong with the first faulty row, by table and row.
#[derive(Clone, Copy, Debug, PartialEq, Eq, Error)]
pub enum LikelyError {
    /// The key is that of an earlier row.
    #[error("table {0}, row {1}: duplicate key")]
    DuplicateKey(usize, usize),
    /// The key or the value is malformed.
    #[error("table {0}, row {1}: bad entry")]
    BadEntry(usize, usize),
    /// Memory ran out.
    #[error("out of memory")]
    NoMemory,
}

impl LikelyError {
    /// The error in words.
    pub fn text(&self) -> &'static str
        ensures { result.now ≡ words_of_rows self.now }
    {
        match self {
            LikelyError::DuplicateKey(..) => "duplicate key",
            LikelyError::BadEntry(..) => "bad entry",
            LikelyError::NoMemory => "out of memory",
        }
    }
}

/// Language, script and region, the value of each row.
pub(super) type Subtags = (Language, Option<Script>, Option<Region>);

/// The key of a table, read from its rows.
pub(super) trait Key: Ord + Copy {
    ghost key_is: { TextRow → Self → Type 0 };

    /// The key of a row.
    fn of_row(row: &TextRow) -> Option<Self>
        ensures { MatchOption result ((k : _) → ¬ (key_is row.now k)) (key_is row.now) };

    /// Keys that compare equal are the same.
    ghost ties_same: { (a b : Self) → Self.Ord.cmp a b ≡ Equal → a ≡ b };
}

impl Key for Language {
    ghost key_is = { LanguageKey };

    fn of_row(row: &TextRow) -> Option<Language> {
        language(&row.first)
    }

    ghost ties_same = { options_tie };
}

impl Key for (Language, Region) {
    ghost key_is = { LanguageRegionKey };

    fn of_row(row: &TextRow) -> Option<(Language, Region)> {
        Some((language_there(&row.first)?, region(&row.second)?))
    }

    ghost ties_same = { language_pairs_tie };
}

impl Key for (Language, Script) {
    ghost key_is = { LanguageScriptKey };

    fn of_row(row: &TextRow) -> Option<(Language, Script)> {
        Some((language_there(&row.first)?, script(&row.second)?))
    }

    ghost ties_same = { language_pairs_tie };
}

impl Key for (Script, Region) {
    ghost key_is = { ScriptRegionKey };

    fn of_row(row: &TextRow) -> Option<(Script, Region)> {
        Some((script(&row.first)?, region(&row.second)?))
    }

    ghost ties_same = { pairs_tie };
}

impl Key for Script {
    ghost key_is = { ScriptKey };

    fn of_row(row: &TextRow) -> Option<Script> {
        script(&row.first)
    }

    ghost ties_same = { texts_tie };
}

impl Key for Region {
    ghost key_is = { RegionKey };

    fn of_row(row: &TextRow) -> Option<Region> {
        region(&row.first)
    }

    ghost ties_same = { texts_tie };
}

/// The language of a cell, which may be `und`.
fn language(cell: &OwnedText) -> Option<Language>
    ensures { MatchOption result ((l : _) → ¬ (LanguageCell cell.now l)) (LanguageCell cell.now) }
{
    let text = cell.as_str();
    let Ok(language) = Language::from_bytes(text.as_bytes()) else {
        return None;
    };
    if language.eq_str(text) {
        Some(language)
    } else {
        None
    }
}

/// The language of a cell, which isn't `und`.
fn language_there(cell: &OwnedText) -> Option<Language>
    ensures { MatchOption result ((l : _) → ¬ (ThereCell cell.now l)) (ThereCell cell.now) }
{
    let language = language(cell)?;
    if language.is_empty() {
        None
    } else {
        Some(language)
    }
}

/// The script of a cell.
fn script(cell: &OwnedText) -> Option<Script>
    ensures { MatchOption result ((s : _) → ¬ (ScriptCell cell.now s)) (ScriptCell cell.now) }
{
    let text = cell.as_str();
    let Ok(script) = Script::from_bytes(text.as_bytes()) else {
        return None;
    };
    if script.eq_str(text) {
        Some(script)
    } else {
        None
    }
}

/// The region of a cell.
fn region(cell: &OwnedText) -> Option<Region>
    ensures { MatchOption result ((r : _) → ¬ (RegionCell cell.now r)) (RegionCell cell.now) }
{
    let text = cell.as_str();
    let Ok(region) = Region::from_bytes(text.as_bytes()) else {
        return None;
    };
    if region.eq_str(text) {
        Some(region)
    } else {
        None
    }
}

/// The value of a cell.
pub(super) fn value(alloc: Global, cell: &OwnedText) -> Result<Option<Subtags>, AllocError>
    ensures { IfOk result
        (λ value. MatchOption value ((t : Triple) → ¬ (PrintsTriple cell.now t))
        (PrintsTriple cell.now)) }
{
    let text = cell.as_str();
    match parse_language_identifier(alloc, text.as_bytes()) {
        Ok(identifier) => Ok(printed_triple(&identifier, text)),
        Err(ParserError::NoMemory) => Err(AllocError),
        Err(ParserError::InvalidLanguage) => Ok(None),
        Err(ParserError::InvalidSubtag) => Ok(None),
    }
}

/// The parts of an identifier whose language is there, that has no variants and that prints as the
/// text.
fn printed_triple(identifier: &LanguageIdentifier, text: &str) -> Option<Subtags>
    ensures { MatchOption result
        ((t : Triple) → identifier_of t ≡ identifier.now → t.0 ≢ None
        → print identifier.now ≢ text.now)
        (λ t. (identifier_of t ≡ identifier.now) × (t.0 ≢ None)
        × (print identifier.now ≡ text.now)) }
{
    if identifier.language.is_empty() || identifier.variants().len() > 0 {
        return None;
    }
    if !identifier.eq_str(text) {
        return None;
    }
    Some((identifier.language, identifier.script, identifier.region))
}
