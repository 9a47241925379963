ghost use Rattle.std.specs.Prelude.{◌≡◌, MatchOption};
ghost use Rattle.std.specs.FinMap.{IsAntisymmetric};
ghost use Rattle.std.specs.Option.{SomeIff};
ghost use Rattle.icu_locale_core.specs.Shapes.{IsLanguage, IsRegion, IsScript};
ghost use Rattle.writeable_core.specs.declared.text.TextRow.{TextRow};
ghost use Rattle.icu_locale_fallback.specs.Cells.{PrintsAs, PrintsNone};
ghost use Rattle.icu_locale_fallback.specs.KeyLaws.{pairs_tie, texts_tie, triples_tie};
ghost use Rattle.icu_locale_fallback.specs.Rows.{ChildKey, LanguageKey, LanguageRegionKey};
ghost use Rattle.icu_locale_fallback.specs.Rows.{LanguageScriptKey, LikelyValue, ParentValue};
ghost use Rattle.icu_locale_fallback.specs.Rows.{RegionValue, ScriptValue};
ghost use Rattle.icu_locale_fallback.specs.Words.{words_of};

use crate::provider::Likely;
use crate::triple::Triple;
use icu_locale_core::{DataLocale, Language, Region, Script};
use thiserror::Error;
use writeable_core::{OwnedText, TextRow};

/// The tables of a fallbacker as rows of texts. Table and row are numbered from 0.
#[derive(Drop)]
pub struct FallbackRows {
    /// Table 0: language, script, region. The language most likely has them.
    pub likely_language: Vec<TextRow>,
    /// Table 1: language, script, region. The first two most likely have it.
    pub likely_language_script: Vec<TextRow>,
    /// Table 2: language, region, script. The first two most likely have it.
    pub likely_language_region: Vec<TextRow>,
    /// Table 3: child, parent, each a printed data locale without variant and subdivision.
    pub parents: Vec<TextRow>,
}

/// Why rows make no fallbacker: what is wrong with the first faulty row, by table and row.
#[derive(Clone, Copy, Debug, PartialEq, Eq, Error)]
pub enum TableError {
    /// The key is that of an earlier row.
    #[error("table {0}, row {1}: duplicate key")]
    DuplicateKey(usize, usize),
    /// The key is malformed.
    #[error("table {0}, row {1}: bad key")]
    BadKey(usize, usize),
    /// The value is malformed.
    #[error("table {0}, row {1}: bad value")]
    BadValue(usize, usize),
    /// Memory ran out.
    #[error("out of memory")]
    NoMemory,
}

impl TableError {
    /// The error in words.
    pub fn text(&self) -> &'static str
        ensures { result.now ≡ words_of self.now }
    {
        match self {
            TableError::DuplicateKey(..) => "duplicate key",
            TableError::BadKey(..) => "bad key",
            TableError::BadValue(..) => "bad value",
            TableError::NoMemory => "out of memory",
        }
    }
}

/// The key of a table, read from its rows.
pub(crate) trait RowKey: Copy + Ord {
    ghost key_is: { TextRow → Self → Type 0 };

    /// The key of a row.
    fn key(row: &TextRow) -> Option<Self>
        ensures { MatchOption result ((k : _) → ¬ (key_is row.now k)) (key_is row.now) };

    /// Keys that compare equal are the same.
    ghost ties_same: { IsAntisymmetric Self.Ord.cmp };
}

impl RowKey for Language {
    ghost key_is = { LanguageKey };

    fn key(row: &TextRow) -> Option<Language> {
        language(&row.first)
    }

    ghost ties_same = { texts_tie };
}

impl RowKey for (Language, Script) {
    ghost key_is = { LanguageScriptKey };

    fn key(row: &TextRow) -> Option<(Language, Script)> {
        Some((language(&row.first)?, script(&row.second)?))
    }

    ghost ties_same = { pairs_tie };
}

impl RowKey for (Language, Region) {
    ghost key_is = { LanguageRegionKey };

    fn key(row: &TextRow) -> Option<(Language, Region)> {
        Some((language(&row.first)?, region(&row.second)?))
    }

    ghost ties_same = { pairs_tie };
}

impl RowKey for Triple {
    ghost key_is = { ChildKey };

    fn key(row: &TextRow) -> Option<Triple> {
        triple(&row.first)
    }

    ghost ties_same = { triples_tie };
}

/// The value of a table, read from its rows.
pub(crate) trait RowValue: Copy {
    ghost value_is: { TextRow → Self → Type 0 };

    /// The value of a row.
    fn value(row: &TextRow) -> Option<Self>
        ensures { MatchOption result ((v : _) → ¬ (value_is row.now v)) (value_is row.now) };
}

impl RowValue for Likely {
    ghost value_is = { LikelyValue };

    fn value(row: &TextRow) -> Option<Likely> {
        Some(Likely {
            script: script(&row.second)?,
            region: region(&row.third)?,
        })
    }
}

impl RowValue for Region {
    ghost value_is = { RegionValue };

    fn value(row: &TextRow) -> Option<Region> {
        region(&row.third)
    }
}

impl RowValue for Script {
    ghost value_is = { ScriptValue };

    fn value(row: &TextRow) -> Option<Script> {
        script(&row.third)
    }
}

impl RowValue for Triple {
    ghost value_is = { ParentValue };

    fn value(row: &TextRow) -> Option<Triple> {
        triple(&row.second)
    }
}

/// The language of a cell.
fn language(cell: &OwnedText) -> Option<Language>
    ensures { SomeIff result (IsLanguage cell.now) cell.now }
{
    Language::try_from_str(cell.as_str()).ok()
}

/// The script of a cell.
fn script(cell: &OwnedText) -> Option<Script>
    ensures { SomeIff result (IsScript cell.now) cell.now }
{
    Script::try_from_str(cell.as_str()).ok()
}

/// The region of a cell.
fn region(cell: &OwnedText) -> Option<Region>
    ensures { SomeIff result (IsRegion cell.now) cell.now }
{
    Region::try_from_str(cell.as_str()).ok()
}

/// The triple that a cell prints, a data locale without variant and subdivision.
fn triple(cell: &OwnedText) -> Option<Triple>
    ensures { MatchOption result (PrintsNone cell.now) (PrintsAs cell.now) }
{
    match DataLocale::try_from_str(cell.as_str()) {
        Ok(locale) => Triple::try_of(&locale),
        Err(_) => None,
    }
}
