//! Formatters: the patterns that lists are written by.

ghost use Rattle.std.specs.Prelude.{◌≡◌, IfErr, IfOk, find, map};
ghost use Rattle.std.specs.Str.{chars};
ghost use Rattle.std.specs.Option.{option_map};
ghost use Rattle.icu_list.specs.FirstRow.{IsMissing, IsOfFirstRow, row_of};
ghost use Rattle.icu_list.specs.Joined.{joined};
ghost use Rattle.icu_list.specs.Tables.{is_row_of};

use crate::options::{ListFormatterOptions, ListLength};
use crate::provider::ListFormatterPatterns;
use crate::{DataError, FormattedList, ListKind, ListTableRow, ListTables};
use icu_locale_core::DataLocale;
use std::alloc::{AllocError, Global};
use writeable_core::{OwnedText, StringSink, Writeable};

/// Writes lists by the patterns of a locale.
#[derive(Clone, Copy)]
pub struct ListFormatter<'a> {
    patterns: &'a ListFormatterPatterns,
}

impl<'a> ListFormatter<'a> {
    /// The formatter by these patterns.
    pub fn from_patterns(patterns: &'a ListFormatterPatterns) -> ListFormatter<'a>
        ensures { result.patterns.now ≡ patterns.now }
    {
        ListFormatter { patterns }
    }

    /// The formatter of lists of all their items, in a locale: by the first row of the table that
    /// is of this kind, locale and length.
    pub fn try_new_and(
        tables: &'a ListTables,
        locale: DataLocale,
        options: ListFormatterOptions,
    ) -> Result<ListFormatter<'a>, DataError>
        ensures ok { IfOk result
            (IsOfFirstRow (row_of ListKind.And locale options.length tables.now.rows.items)) }
        ensures err { IfErr result
            (IsMissing (row_of ListKind.And locale options.length tables.now.rows.items)) }
    {
        ListFormatter::of_row(tables, ListKind::And, locale, options)
    }

    /// The formatter of lists of which one item counts.
    pub fn try_new_or(
        tables: &'a ListTables,
        locale: DataLocale,
        options: ListFormatterOptions,
    ) -> Result<ListFormatter<'a>, DataError>
        ensures ok { IfOk result
            (IsOfFirstRow (row_of ListKind.Or locale options.length tables.now.rows.items)) }
        ensures err { IfErr result
            (IsMissing (row_of ListKind.Or locale options.length tables.now.rows.items)) }
    {
        ListFormatter::of_row(tables, ListKind::Or, locale, options)
    }

    /// The formatter of lists of the parts of one measure.
    pub fn try_new_unit(
        tables: &'a ListTables,
        locale: DataLocale,
        options: ListFormatterOptions,
    ) -> Result<ListFormatter<'a>, DataError>
        ensures ok { IfOk result
            (IsOfFirstRow (row_of ListKind.Unit locale options.length tables.now.rows.items)) }
        ensures err { IfErr result
            (IsMissing (row_of ListKind.Unit locale options.length tables.now.rows.items)) }
    {
        ListFormatter::of_row(tables, ListKind::Unit, locale, options)
    }

    /// The formatter by the first row of this kind, locale and length.
    fn of_row(
        tables: &'a ListTables,
        kind: ListKind,
        locale: DataLocale,
        options: ListFormatterOptions,
    ) -> Result<ListFormatter<'a>, DataError>
        ensures ok { IfOk result
            (IsOfFirstRow (row_of kind locale options.length tables.now.rows.items)) }
        ensures err { IfErr result
            (IsMissing (row_of kind locale options.length tables.now.rows.items)) }
    {
        let length = options.length.unwrap_or(ListLength::Wide);
        match first_row(&tables.rows, kind, locale, length) {
            Some(row) => Ok(ListFormatter::from_patterns(&row.patterns)),
            None => Err(DataError::MissingLocale),
        }
    }
}

/// The first row of this kind, locale and length.
fn first_row(
    rows: &[ListTableRow],
    kind: ListKind,
    locale: DataLocale,
    length: ListLength,
) -> Option<&ListTableRow>
    ensures { option_map (λ row. row.now) result ≡ find (is_row_of kind locale length) rows.now }
{
    rows.iter().find(|row| row.is_of(kind, locale, length))
}

impl ListFormatter<'_> {
    /// The items as one text, which is written when it is asked for.
    pub fn format<'a, W: Writeable>(&'a self, values: &'a [W]) -> FormattedList<'a, W>
        ensures patterns { result.patterns.now ≡ self.now.patterns.now }
        ensures values { result.values.now ≡ values.now }
    {
        FormattedList {
            patterns: self.patterns,
            values,
        }
    }

    /// The text of the items joined.
    pub fn format_to_string<W: Writeable>(
        &self,
        alloc: Global,
        values: &[W],
    ) -> Result<OwnedText, AllocError>
        ensures text { IfOk result
            (λ text. text ≡ joined self.now.patterns.now (map W.text values.now)) }
    {
        let list = self.format(values);
        let room = list.writeable_length_hint().capacity();
        let mut sink = StringSink::with_capacity(alloc, room)?;
        list.write_to(&mut sink).map_err(|_| AllocError)?;
        Ok(OwnedText::from_string(sink.into_string()))
    }
}
