//! Reading a whole MO file (GNU gettext manual, section 10.3).

ghost use Rattle.std.specs.Prelude.{◌≡◌, true, Some, None, IfOk};
ghost use Rattle.writeable_core.specs.FirstFailure.{first_failure};
ghost use Rattle.gettext.specs.declared.error.Error.{Error};
ghost use Rattle.gettext.specs.Errors.{error_of};
ghost use Rattle.gettext.specs.Files.{AreFileRows, IsFile, buffer_of, is_in_utf8};
ghost use Rattle.gettext.specs.Checks.{all_rows_checks, found_fault};
ghost use Rattle.gettext.specs.Reader.{GivesInMemory, IsHeader};
ghost use Rattle.gettext.specs.Parse.{ParsesBytes, ParsesSource};

use super::decoding::{Decoded, decode};
use super::layout::{Header, header_of};
use super::options::Options;
use super::rows::{push_rows, row_at};
use super::settings::Settings;
use super::sorting::sorted;
use crate::catalog::Table;
use crate::encoding::Encoding;
use crate::error::Error;
use crate::spans::Row;
use reading::{ReadError, read_all};
use std::alloc::{AllocError, Global};
use writeable_core::Source;

/// The table of a file's messages. Of equal keys the last row counts.
pub fn table_of_bytes(alloc: Global, bytes: &[u8], options: Options) -> Result<Table, Error>
    ensures { ParsesBytes result bytes.now options }
{
    let File {
        texts,
        rows,
        settings,
    } = read(alloc, bytes, options)?;
    let buffer = texts_or_copy(alloc, texts, bytes)?;
    Ok(Table::new(buffer, rows, settings.rule, settings.plurals))
}

/// The same of a file that a source gives. Its bytes become the table's buffer.
pub fn table_of_source<S: Source>(
    alloc: Global,
    source: &mut S,
    options: Options,
) -> Result<Table, Error>
    ensures { ParsesSource S.left S.ended S.faults source.old source.new
        result options }
{
    let bytes = match read_all(alloc, source) {
        Ok(bytes) => bytes,
        Err(error) => return Err(read_error(error)),
    };
    let File {
        texts,
        rows,
        settings,
    } = read(alloc, &bytes, options)?;
    let buffer = texts_or(texts, bytes);
    Ok(Table::new(buffer, rows, settings.rule, settings.plurals))
}

/// The error of a catalog for one of reading a source.
fn read_error(error: ReadError) -> Error
    ensures { result ≡ error_of error }
{
    match error {
        ReadError::Fault => Error::Io,
        ReadError::TooLong => Error::TooLong,
        ReadError::NoMemory => Error::NoMemory,
    }
}

/// What is read of a file: its rows in the order of their keys.
#[derive(Drop)]
struct File {
    /// The decoded texts. There are none where every row is in UTF-8: the rows are ranges of the
    /// file's own bytes then.
    pub texts: Option<Vec<u8>>,
    pub rows: Vec<Row>,
    pub settings: Settings,
}

/// The rows of a file in their order, and what its metadata settle.
#[derive(Drop)]
struct FileRows {
    rows: Vec<Row>,
    settings: Settings,
}

/// Reads a file.
fn read(alloc: Global, bytes: &[u8], options: Options) -> Result<File, Error>
    ensures { GivesInMemory (IsFile bytes.now options) result (found_fault bytes.now options) }
{
    let header = header_of(bytes)?;
    let FileRows { rows, settings } = rows_of(alloc, bytes, header, options)?;
    let first = options.first_encoding();
    if is_in_utf8(rows.len(), first, settings.encoding) {
        let rows = sorted(alloc, bytes, &rows)?;
        return Ok(File {
            texts: None,
            rows,
            settings,
        });
    }
    let Decoded { texts, rows } = decode(alloc, bytes, &rows, first, settings.encoding)?;
    let rows = sorted(alloc, &texts, &rows)?;
    Ok(File {
        texts: Some(texts),
        rows,
        settings,
    })
}

/// The buffer of a table: decoded texts, or the bytes of the file.
fn texts_or(texts: Option<Vec<u8>>, bytes: Vec<u8>) -> Vec<u8>
    ensures { result.items ≡ buffer_of bytes.items texts }
{
    texts.unwrap_or(bytes)
}

/// The buffer of a table: decoded texts, or a copy of the bytes of the file.
fn texts_or_copy(alloc: Global, texts: Option<Vec<u8>>, bytes: &[u8]) -> Result<Vec<u8>, AllocError>
    ensures { IfOk result (λ buffer. buffer.items ≡ buffer_of bytes.now texts) }
{
    match texts {
        Some(texts) => Ok(texts),
        None => Vec::from_slice(alloc, bytes),
    }
}

fn rows_of(alloc: Global, bytes: &[u8], header: Header, options: Options) -> Result<FileRows, Error>
    requires { IsHeader bytes.now header }
    ensures { GivesInMemory
        (λ r. AreFileRows bytes.now options header.count r.rows.items r.settings) result
        (first_failure (all_rows_checks bytes.now options header.count)) }
{
    let mut rows = Vec::new(alloc);
    if header.count == 0 {
        return Ok(FileRows {
            rows,
            settings: Settings::plain(options),
        });
    }
    let first = row_at(bytes, header, options.first_encoding(), 0)?;
    let settings = Settings::of_row(alloc, bytes, first, options)?;
    rows.push(first)?;
    push_rows(&mut rows, bytes, header, settings.encoding, 1)?;
    Ok(FileRows { rows, settings })
}

/// Whether each of so many rows is in UTF-8, given the encoding of the first and that of the
/// others.
fn is_in_utf8(count: usize, first: Encoding, later: Encoding) -> bool
    ensures { result ≡ is_in_utf8 count first later }
{
    match count {
        0 => true,
        1 => first == Encoding::Utf8,
        _ => first == Encoding::Utf8 && later == Encoding::Utf8,
    }
}
