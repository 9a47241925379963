//! Tables of list patterns, which are handed in.

ghost use Rattle.std.specs.Prelude.{◌≡◌};
ghost use Rattle.icu_list.specs.Tables.{is_row_of, same_kind, same_length};

use crate::options::ListLength;
use crate::provider::ListFormatterPatterns;
use icu_locale_core::DataLocale;

/// What a list says of its items.
#[derive(Clone, Copy, Debug, PartialEq, Eq)]
pub enum ListKind {
    /// All of them, as `A, B, and C`.
    And,
    /// One of them, as `A, B, or C`.
    Or,
    /// Parts of one measure, as `5 feet, 7 inches`.
    Unit,
}

/// The patterns of a locale's lists of one kind and length.
#[derive(Drop)]
pub struct ListTableRow {
    pub kind: ListKind,
    pub locale: DataLocale,
    pub length: ListLength,
    pub patterns: ListFormatterPatterns,
}

/// A table of list patterns. Of equal rows the first one counts.
#[derive(Drop)]
pub struct ListTables {
    pub rows: Vec<ListTableRow>,
}

impl ListKind {
    /// Whether the two are one kind.
    fn is(self, other: ListKind) -> bool
        ensures { result ≡ same_kind self other }
    {
        match (self, other) {
            (ListKind::And, ListKind::And) => true,
            (ListKind::Or, ListKind::Or) => true,
            (ListKind::Unit, ListKind::Unit) => true,
            _ => false,
        }
    }
}

impl ListLength {
    /// Whether the two are one length.
    fn is(self, other: ListLength) -> bool
        ensures { result ≡ same_length self other }
    {
        match (self, other) {
            (ListLength::Wide, ListLength::Wide) => true,
            (ListLength::Short, ListLength::Short) => true,
            (ListLength::Narrow, ListLength::Narrow) => true,
            _ => false,
        }
    }
}

impl ListTableRow {
    /// Whether the row is of this kind, locale and length.
    pub(crate) fn is_of(&self, kind: ListKind, locale: DataLocale, length: ListLength) -> bool
        ensures { result ≡ is_row_of kind locale length self.now }
    {
        self.kind.is(kind) && self.locale == locale && self.length.is(length)
    }
}
