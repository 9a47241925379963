//! Runs, from words and a source to a status.

ghost use Rattle.std.specs.Prelude.{◌≡◌, ◌≢◌, ◌≤◌, ◌↔◌, ◌⊎◌, ℕ, List, length};
ghost use Rattle.localise.specs.Kept.{AreAlike};
ghost use Rattle.localise.specs.Meaning.{Meaning};
ghost use Rattle.localise.specs.Views.{meanings, root_of, tables_of};
ghost use Rattle.localise_run.specs.Answers.{Begins, IsAnswer, IsBegun, IsMade, Says, SaysFirst};
ghost use Rattle.localise_run.specs.Causes.{status_of_reading};
ghost use Rattle.localise_status.specs.Classes.{ComesAtEnd, IsFailure, class_of};
ghost use Rattle.localise_run.specs.Commands.{AreNoCommand, IsCommand};
ghost use Rattle.localise_status.specs.FaultLines.{IsReported, fault_line};
ghost use Rattle.localise_run.specs.Run.{AreRead, Appended, Gives, IsFlushed, Runs, RunsAndFlushes};
ghost use Rattle.localise_run.specs.Run.{written};
ghost use Rattle.localise_run.specs.Tables.{HasTables};
ghost use Rattle.reading.specs.Reading.{IsReadToEnd, most_bytes};
ghost use Rattle.writeable_core.specs.Sink.{Rose};

use crate::generate::write_numbers;
use crate::laws::one_answer;
use crate::prepare::{localiser_of, of_document, tables_of};
use crate::render::{of_sink, write_lines};
use crate::walk::write_walks;
use crate::{Command, Status};
use localise::{Localiser, Request};
use localise_document::{Document, read_document};
use localise_status::write_fault_line;
use reading::{ReadError, read_all};
use std::alloc::Global;
use wanted_locale::Tables;
use writeable_core::{Sink, Source};
use writeable_sinks::FlushSink;

/// Runs the command that the words are over a document that the source gives, appends its lines to
/// the output, and tells of each answer but `Done` on the second output.
///
/// `words` leaves out the program's name.
pub fn run<S: Source, O: Sink, E: Sink>(
    alloc: Global,
    words: &[String],
    source: &mut S,
    out: &mut O,
    err: &mut E,
) -> Status
    // `render`, Done: the source was read to its end, the bytes are one document, and exactly the
    // document's lines were appended.
    ensures headline { result ≡ Status.Done → (command : Command) → IsCommand words.now command
        → (bytes : List ℕ) × AreRead (S.left source.old) bytes
        × ((lines : List ℕ) × Says command bytes Status.Done lines
        × Appended O.took O.held out.old lines out.new) }
    ensures read_to_end { ComesAtEnd result
        → IsReadToEnd S.left S.ended S.faults source.old source.new }

    // Which answer comes, and what was appended under it.
    ensures bad_words { (result ≡ Status.BadWords) ↔ AreNoCommand words.now }
    ensures runs { (command : Command) → IsCommand words.now command
        → Runs O.took command (S.left source.old) (S.faults source.old) (S.faults source.new)
        (written O.faults O.takes_memory out.old out.new) (class_of result) result }
    ensures no_fault { result ≡ Status.TooLong → S.faults source.new ≡ S.faults source.old }
    ensures unread { result ≡ Status.BadWords → (source.new ≡ source.old) × (out.new ≡ out.old) }

    // The answer that the bytes read have comes, unless a source, an output or memory fails.
    ensures exact { (command : Command) → IsCommand words.now command
        → (bytes : List ℕ) × AreRead (S.left source.old) bytes
        × ((answer : Status) (text : List ℕ) → Says command bytes answer text
        → (result ≡ answer) ⊎ IsFailure result) }
    ensures complete { (command : Command) → IsCommand words.now command
        → (bytes : List ℕ) × AreRead (S.left source.old) bytes
        × ((lines : List ℕ) → Says command bytes Status.Done lines
        → (Rose (S.faults source.old) (S.faults source.new) → ⊥)
        → (Rose (O.faults out.old) (O.faults out.new) → ⊥)
        → (result ≡ Status.Done) ⊎ (result ≡ Status.NoMemory)) }

    // What is told on the second output.
    ensures silent { result ≡ Status.Done → err.new ≡ err.old }
    ensures told { result ≢ Status.Done
        → IsReported E.took E.faults E.takes_memory err.old (fault_line result) err.new }
{
    one_answer();
    let status = run_words(alloc, words, source, out);
    report(status, err);
    status
}

/// Runs over an output that may hold back what it takes, and flushes it at the end. Where that
/// fails the status tells of it, whatever the run's answer was.
pub fn run_and_flush<S: Source, O: FlushSink, E: Sink>(
    alloc: Global,
    words: &[String],
    source: &mut S,
    out: &mut O,
    err: &mut E,
) -> Status
    ensures headline { result ≡ Status.Done → (command : Command) → IsCommand words.now command
        → (bytes : List ℕ) × AreRead (S.left source.old) bytes
        × ((lines : List ℕ) × Says command bytes Status.Done lines
        × Appended O.Sink.took O.Sink.held out.old lines out.new) }
    ensures runs { (command : Command) → IsCommand words.now command
        → RunsAndFlushes O.Sink.took O.Sink.faults O.Sink.takes_memory O.flushes command
        (S.left source.old) (S.faults source.old) (S.faults source.new) out.old out.new result }
    ensures bad_words { AreNoCommand words.now → IsFlushed O.Sink.took O.Sink.faults
        O.Sink.takes_memory O.flushes out.old out.new Status.BadWords result }
    ensures read_to_end { ComesAtEnd result → result ≢ Status.WriteFault
        → IsReadToEnd S.left S.ended S.faults source.old source.new }
    ensures unread { AreNoCommand words.now → source.new ≡ source.old }
    ensures no_fault { result ≡ Status.TooLong → S.faults source.new ≡ S.faults source.old }
    ensures silent { result ≡ Status.Done → err.new ≡ err.old }
    ensures told { result ≢ Status.Done
        → IsReported E.took E.faults E.takes_memory err.old (fault_line result) err.new }
{
    let answer = run_words(alloc, words, source, out);
    let status = flush_behind(answer, out);
    report(status, err);
    status
}

/// Flushes an output behind a run that had an answer.
fn flush_behind<O: FlushSink>(answer: Status, out: &mut O) -> Status
    ensures { IsFlushed O.Sink.took O.Sink.faults O.Sink.takes_memory O.flushes out.old out.new
        answer result }
{
    match out.flush() {
        Ok(()) => answer,
        Err(error) => of_sink(error),
    }
}

/// Tells of each answer but `Done`. No answer of the sink changes the status.
fn report<E: Sink>(status: Status, err: &mut E)
    ensures silent { status ≡ Status.Done → err.new ≡ err.old }
    ensures told { status ≢ Status.Done
        → IsReported E.took E.faults E.takes_memory err.old (fault_line status) err.new }
{
    if status != Status::Done {
        let _ = write_fault_line(&status, err);
    }
}

/// Runs the command that the words are, if they are one.
fn run_words<S: Source, O: Sink>(
    alloc: Global,
    words: &[String],
    source: &mut S,
    out: &mut O,
) -> Status
    ensures bad_words { (result ≡ Status.BadWords) ↔ AreNoCommand words.now }
    ensures unread { result ≡ Status.BadWords → (source.new ≡ source.old) × (out.new ≡ out.old) }
    ensures runs { (command : Command) → IsCommand words.now command
        → Runs O.took command (S.left source.old) (S.faults source.old) (S.faults source.new)
        (written O.faults O.takes_memory out.old out.new) (class_of result) result }
    ensures read_to_end { ComesAtEnd result
        → IsReadToEnd S.left S.ended S.faults source.old source.new }
    ensures no_fault { result ≡ Status.TooLong → S.faults source.new ≡ S.faults source.old }
{
    match Command::of_words(words) {
        Some(command) => run_command(alloc, command, source, out),
        None => Status::BadWords,
    }
}

/// Reads a source to its end, and runs a command over its bytes.
fn run_command<S: Source, O: Sink>(
    alloc: Global,
    command: Command,
    source: &mut S,
    out: &mut O,
) -> Status
    ensures runs { Runs O.took command (S.left source.old) (S.faults source.old)
        (S.faults source.new) (written O.faults O.takes_memory out.old out.new)
        (class_of result) result }
    ensures read_to_end { ComesAtEnd result
        → IsReadToEnd S.left S.ended S.faults source.old source.new }
    ensures no_fault { result ≡ Status.TooLong → S.faults source.new ≡ S.faults source.old }
    ensures command { result ≢ Status.BadWords }
{
    match read_all(alloc, source) {
        Ok(bytes) => run_over(alloc, command, bytes, out),
        Err(error) => of_reading(error),
    }
}

/// The status of a source that isn't read to its end.
fn of_reading(error: ReadError) -> Status
    ensures { result ≡ status_of_reading error }
{
    match error {
        ReadError::Fault => Status::ReadFault,
        ReadError::TooLong => Status::TooLong,
        ReadError::NoMemory => Status::NoMemory,
    }
}

/// Runs a command over the bytes of a document.
fn run_over<O: Sink>(alloc: Global, command: Command, bytes: Vec<u8>, out: &mut O) -> Status
    requires { length bytes.items ≤ most_bytes }
    ensures { Gives O.took (Says command bytes.items) (SaysFirst command bytes.items)
        (written O.faults O.takes_memory out.old out.new) result }
{
    match read_document(alloc, bytes) {
        Ok(mut document) => run_document(alloc, command, &mut document, out),
        Err(error) => of_document(error),
    }
}

/// Runs a command over a document.
fn run_document<O: Sink>(
    alloc: Global,
    command: Command,
    document: &mut Document,
    out: &mut O,
) -> Status
    ensures { Gives O.took (IsAnswer command document.old) (IsBegun command document.old)
        (written O.faults O.takes_memory out.old out.new) result }
{
    match tables_of(alloc, &document.registry, &document.fallback) {
        Ok(tables) => run_bundles(alloc, command, &tables, document, out),
        Err(status) => status,
    }
}

/// Runs a command over a document whose tables stand.
fn run_bundles<O: Sink>(
    alloc: Global,
    command: Command,
    tables: &Tables,
    document: &mut Document,
    out: &mut O,
) -> Status
    requires { HasTables document.old tables.now }
    ensures { Gives O.took (IsAnswer command document.old) (IsBegun command document.old)
        (written O.faults O.takes_memory out.old out.new) result }
{
    match localiser_of(alloc, tables, &document.bundles, &document.root) {
        Ok(localiser) => {
            // What the localiser keeps of the catalogs is its own.
            document.bundles.clear();
            run_requests(
                alloc,
                command,
                tables,
                &localiser,
                &mut document.requests,
                out,
            )
        }
        Err(status) => status,
    }
}

/// Runs a command over requests.
fn run_requests<O: Sink>(
    alloc: Global,
    command: Command,
    tables: &Tables,
    localiser: &Localiser<'_>,
    requests: &mut [Request],
    out: &mut O,
) -> Status
    requires { tables_of localiser.now ≡ tables.now }
    ensures { (bundles : List Meaning) → AreAlike (meanings localiser.now) bundles
        → Gives O.took (IsMade command tables.now bundles (root_of localiser.now) requests.old)
        (Begins command tables.now bundles (root_of localiser.now) requests.old)
        (written O.faults O.takes_memory out.old out.new) result }
{
    match command {
        Command::Render => write_lines(alloc, tables, localiser, requests, out),
        Command::Walk => write_walks(alloc, tables, requests, out),
        Command::Generate(count) => {
            write_numbers(alloc, tables, localiser, requests, count, out)
        }
    }
}
