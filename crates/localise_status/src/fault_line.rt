//! The line that tells of each answer but `Done`.

ghost use Rattle.std.specs.Prelude.{◌≡◌, ◌++◌, OnOk, OnErr, codes, true};
ghost use Rattle.std.specs.Str.{chars};
ghost use Rattle.icu_list.specs.Words.{words_of};
ghost use Rattle.localise_document.specs.Names.{fallback_name, registry_name};
ghost use Rattle.localise_status.specs.Ascii.{in_ascii};
ghost use Rattle.localise_status.specs.FaultLines.{
  bundle_text,
  fallback_text,
  fault_line,
  fault_text,
  numbered_text,
  place_text,
  placed_text,
  registry_text,
  request_text,
  row_text,
  table_text,
};
ghost use Rattle.writeable_core.specs.Sink.{HasCause, TookPrefix};

use crate::{RequestCause, Status, TableCause};
use icu_list::DataError;
use icu_locale_fallback::TableError;
use language_tags_registry::RegistryError;
use localise::BundleCause;
use localise_document::{Field, ShapePlace};
use writeable_core::{Sink, SinkError, Writeable};

/// Writes the line that tells of a status. Of `Done` none is to be written.
pub fn write_fault_line<E: Sink>(status: &Status, err: &mut E) -> Result<(), SinkError>
    ensures ok { OnOk result (E.took err.old (fault_line status.now) err.new) }
    ensures err { OnErr result (TookPrefix E.took err.old (fault_line status.now) err.new) }
    ensures cause { HasCause (E.faults err.old) (E.faults err.new) (E.takes_memory err.old) result }
{
    write_words("localise: ", err)?;
    write_fault(status, err)?;
    err.push_char('\n')?;
    Ok(())
}

/// Writes what is said of a status.
fn write_fault<E: Sink>(status: &Status, err: &mut E) -> Result<(), SinkError>
    ensures ok { OnOk result (E.took err.old (fault_text status.now) err.new) }
    ensures err { OnErr result (TookPrefix E.took err.old (fault_text status.now) err.new) }
    ensures cause { HasCause (E.faults err.old) (E.faults err.new) (E.takes_memory err.old) result }
{
    match status {
        Status::Done => Ok(()),
        Status::BadWords => write_words("bad command line", err),
        Status::NotJson => write_words("not JSON", err),
        Status::Shape(place) => write_place(place, err),
        Status::Table(cause) => write_table(cause, err),
        Status::Bundle(i, cause) => write_bundle(*i, cause, err),
        Status::DuplicateLocale(i) => write_duplicate(*i, err),
        Status::Root(fault) => write_root(fault, err),
        Status::Request(i, cause) => write_request(*i, cause, err),
        Status::ReadFault => write_words("read fault", err),
        Status::WriteFault => write_words("write fault", err),
        Status::NoMemory => write_words("no memory", err),
        Status::TooLong => write_words("input too long", err),
    }
}

/// Writes words in ASCII, whose characters are their bytes.
fn write_words<E: Sink>(words: &str, err: &mut E) -> Result<(), SinkError>
    requires { in_ascii words.now ≡ true }
    ensures ok { OnOk result (E.took err.old words.now err.new) }
    ensures err { OnErr result (TookPrefix E.took err.old words.now err.new) }
    ensures cause { HasCause (E.faults err.old) (E.faults err.new) (E.takes_memory err.old) result }
{
    err.push_str(words)
}

/// Writes that a place is misshapen.
fn write_place<E: Sink>(place: &ShapePlace, err: &mut E) -> Result<(), SinkError>
    ensures ok { OnOk result (E.took err.old
        (codes "wrong shape: " ++ place_text place.now) err.new) }
    ensures err { OnErr result (TookPrefix E.took err.old
        (codes "wrong shape: " ++ place_text place.now) err.new) }
    ensures cause { HasCause (E.faults err.old) (E.faults err.new) (E.takes_memory err.old) result }
{
    let section = place.section.name();
    let field = place.field.name();
    write_placed(section, place.index, field, err)
}

/// Writes that this section, index and field are misshapen.
fn write_placed<E: Sink>(
    section: &str,
    index: usize,
    field: &str,
    err: &mut E,
) -> Result<(), SinkError>
    ensures ok { OnOk result (E.took err.old
        (codes "wrong shape: "
        ++ placed_text (chars section.now) index (chars field.now)) err.new) }
    ensures err { OnErr result (TookPrefix E.took err.old
        (codes "wrong shape: "
        ++ placed_text (chars section.now) index (chars field.now)) err.new) }
    ensures cause { HasCause (E.faults err.old) (E.faults err.new) (E.takes_memory err.old) result }
{
    write_words("wrong shape: ", err)?;
    err.push_str(section)?;
    err.push_char(' ')?;
    index.write_to(err)?;
    err.push_char(' ')?;
    err.push_str(field)?;
    Ok(())
}

/// Writes the fault of a table.
fn write_table<E: Sink>(cause: &TableCause, err: &mut E) -> Result<(), SinkError>
    ensures ok { OnOk result (E.took err.old (table_text cause.now) err.new) }
    ensures err { OnErr result (TookPrefix E.took err.old (table_text cause.now) err.new) }
    ensures cause { HasCause (E.faults err.old) (E.faults err.new) (E.takes_memory err.old) result }
{
    match cause {
        TableCause::Registry(error) => write_registry(error, err),
        TableCause::Fallback(error) => write_fallback(error, err),
    }
}

/// Writes the fault of a table of the registry.
fn write_registry<E: Sink>(error: &RegistryError, err: &mut E) -> Result<(), SinkError>
    ensures ok { OnOk result (E.took err.old (registry_text error.now) err.new) }
    ensures err { OnErr result (TookPrefix E.took err.old (registry_text error.now) err.new) }
    ensures cause { HasCause (E.faults err.old) (E.faults err.new) (E.takes_memory err.old) result }
{
    let words = error.text();
    match error {
        RegistryError::DuplicateKey(table, row) => write_registry_row(*table, *row, words, err),
        RegistryError::BadKey(table, row) => write_registry_row(*table, *row, words, err),
        RegistryError::BadValue(table, row) => write_registry_row(*table, *row, words, err),
        RegistryError::NoMemory => err.push_str(words),
    }
}

/// Writes a row of a table of the registry, and what is wrong with it.
fn write_registry_row<E: Sink>(
    table: usize,
    row: usize,
    words: &str,
    err: &mut E,
) -> Result<(), SinkError>
    ensures ok { OnOk result (E.took err.old
        (row_text (registry_name table) row (chars words.now)) err.new) }
    ensures err { OnErr result (TookPrefix E.took err.old
        (row_text (registry_name table) row (chars words.now)) err.new) }
    ensures cause { HasCause (E.faults err.old) (E.faults err.new) (E.takes_memory err.old) result }
{
    let name = Field::RegistryTable(table).name();
    write_row(name, row, words, err)
}

/// Writes the fault of a table of fallback.
fn write_fallback<E: Sink>(error: &TableError, err: &mut E) -> Result<(), SinkError>
    ensures ok { OnOk result (E.took err.old (fallback_text error.now) err.new) }
    ensures err { OnErr result (TookPrefix E.took err.old (fallback_text error.now) err.new) }
    ensures cause { HasCause (E.faults err.old) (E.faults err.new) (E.takes_memory err.old) result }
{
    let words = error.text();
    match error {
        TableError::DuplicateKey(table, row) => write_fallback_row(*table, *row, words, err),
        TableError::BadKey(table, row) => write_fallback_row(*table, *row, words, err),
        TableError::BadValue(table, row) => write_fallback_row(*table, *row, words, err),
        TableError::NoMemory => err.push_str(words),
    }
}

/// Writes a row of a table of fallback, and what is wrong with it.
fn write_fallback_row<E: Sink>(
    table: usize,
    row: usize,
    words: &str,
    err: &mut E,
) -> Result<(), SinkError>
    ensures ok { OnOk result (E.took err.old
        (row_text (fallback_name table) row (chars words.now)) err.new) }
    ensures err { OnErr result (TookPrefix E.took err.old
        (row_text (fallback_name table) row (chars words.now)) err.new) }
    ensures cause { HasCause (E.faults err.old) (E.faults err.new) (E.takes_memory err.old) result }
{
    let name = Field::FallbackTable(table).name();
    write_row(name, row, words, err)
}

/// Writes a row of a table, and what is wrong with it.
fn write_row<E: Sink>(name: &str, row: usize, words: &str, err: &mut E) -> Result<(), SinkError>
    ensures ok { OnOk result (E.took err.old
        (row_text (chars name.now) row (chars words.now)) err.new) }
    ensures err { OnErr result (TookPrefix E.took err.old
        (row_text (chars name.now) row (chars words.now)) err.new) }
    ensures cause { HasCause (E.faults err.old) (E.faults err.new) (E.takes_memory err.old) result }
{
    write_words("table ", err)?;
    err.push_str(name)?;
    write_words(" row ", err)?;
    row.write_to(err)?;
    write_words(": ", err)?;
    err.push_str(words)?;
    Ok(())
}

/// Writes the fault of a bundle.
fn write_bundle<E: Sink>(i: usize, cause: &BundleCause, err: &mut E) -> Result<(), SinkError>
    ensures ok { OnOk result (E.took err.old
        (numbered_text (codes "bundle") i (bundle_text cause.now)) err.new) }
    ensures err { OnErr result (TookPrefix E.took err.old
        (numbered_text (codes "bundle") i (bundle_text cause.now)) err.new) }
    ensures cause { HasCause (E.faults err.old) (E.faults err.new) (E.takes_memory err.old) result }
{
    match cause {
        BundleCause::Tag(cause) => write_numbered("bundle", i, "tag: ", cause.text(), err),
        BundleCause::Mo(error) => write_numbered("bundle", i, "catalog: ", error.text(), err),
        BundleCause::List(error) => write_numbered("bundle", i, "list: ", error.text(), err),
    }
}

/// Writes that a bundle is for the locale of an earlier one.
fn write_duplicate<E: Sink>(i: usize, err: &mut E) -> Result<(), SinkError>
    ensures ok { OnOk result (E.took err.old
        (numbered_text (codes "bundle") i (codes "locale of an earlier bundle")) err.new) }
    ensures err { OnErr result (TookPrefix E.took err.old
        (numbered_text (codes "bundle") i (codes "locale of an earlier bundle")) err.new) }
    ensures cause { HasCause (E.faults err.old) (E.faults err.new) (E.takes_memory err.old) result }
{
    write_numbered("bundle", i, "", "locale of an earlier bundle", err)
}

/// Writes the fault of the root's patterns.
fn write_root<E: Sink>(fault: &DataError, err: &mut E) -> Result<(), SinkError>
    ensures ok { OnOk result (E.took err.old
        (codes "root patterns: " ++ words_of fault.now) err.new) }
    ensures err { OnErr result (TookPrefix E.took err.old
        (codes "root patterns: " ++ words_of fault.now) err.new) }
    ensures cause { HasCause (E.faults err.old) (E.faults err.new) (E.takes_memory err.old) result }
{
    write_behind("root patterns: ", fault.text(), err)
}

/// Writes a text behind another.
fn write_behind<E: Sink>(front: &str, words: &str, err: &mut E) -> Result<(), SinkError>
    ensures ok { OnOk result (E.took err.old
        (chars front.now ++ chars words.now) err.new) }
    ensures err { OnErr result (TookPrefix E.took err.old
        (chars front.now ++ chars words.now) err.new) }
    ensures cause { HasCause (E.faults err.old) (E.faults err.new) (E.takes_memory err.old) result }
{
    err.push_str(front)?;
    err.push_str(words)?;
    Ok(())
}

/// Writes the fault of a request.
fn write_request<E: Sink>(i: usize, cause: &RequestCause, err: &mut E) -> Result<(), SinkError>
    ensures ok { OnOk result (E.took err.old
        (numbered_text (codes "request") i (request_text cause.now)) err.new) }
    ensures err { OnErr result (TookPrefix E.took err.old
        (numbered_text (codes "request") i (request_text cause.now)) err.new) }
    ensures cause { HasCause (E.faults err.old) (E.faults err.new) (E.takes_memory err.old) result }
{
    match cause {
        RequestCause::Tag(cause) => write_numbered("request", i, "tag: ", cause.text(), err),
        RequestCause::ChainLoops => write_numbered("request", i, "", "fallback loops", err),
    }
}

/// Writes which bundle or request it is, and what is wrong with it.
fn write_numbered<E: Sink>(
    what: &str,
    i: usize,
    part: &str,
    words: &str,
    err: &mut E,
) -> Result<(), SinkError>
    ensures ok { OnOk result (E.took err.old
        (numbered_text (chars what.now) i (chars part.now ++ chars words.now)) err.new) }
    ensures err { OnErr result (TookPrefix E.took err.old
        (numbered_text (chars what.now) i (chars part.now ++ chars words.now)) err.new) }
    ensures cause { HasCause (E.faults err.old) (E.faults err.new) (E.takes_memory err.old) result }
{
    err.push_str(what)?;
    err.push_char(' ')?;
    i.write_to(err)?;
    write_words(": ", err)?;
    write_behind(part, words, err)?;
    Ok(())
}
