//! `render`: a localised line for each request.

ghost use Rattle.std.specs.Prelude.{◌≡◌, ◌≤◌, ◌^◌, List, IfErr, IfOk, OnErr, OnOk};
ghost use Rattle.localise.specs.Kept.{AreAlike};
ghost use Rattle.localise.specs.Meaning.{Meaning};
ghost use Rattle.localise.specs.Views.{meanings, root_of, tables_of};
ghost use Rattle.localise_run.specs.Causes.{status_of_sink, status_of_tag};
ghost use Rattle.localise_run.specs.Generating.{Visits};
ghost use Rattle.localise_run.specs.Rendering.{AreRendered, BeginRendered, IsLine, IsLineFault};
ghost use Rattle.localise_run.specs.Requests.{line_of};
ghost use Rattle.localise_run.specs.Run.{Gives, written};
ghost use Rattle.localise_run.specs.Wanting.{Wants};
ghost use Rattle.localise_run.specs.Writing.{FailsLine, TookLine};
ghost use Rattle.writeable_core.specs.Sink.{HasCause, TookPrefix};

use crate::tags::KnownTags;
use crate::{RequestCause, Status};
use icu_locale_core::DataLocale;
use localise::{Localiser, Request};
use std::alloc::Global;
use wanted_locale::{Tables, TagCause};
use writeable_core::{Sink, SinkError, Writeable};

/// Writes the line of each request, in order, up to the first that gets none.
pub(crate) fn write_lines<O: Sink>(
    alloc: Global,
    tables: &Tables,
    localiser: &Localiser<'_>,
    requests: &[Request],
    out: &mut O,
) -> Status
    requires { tables_of localiser.now ≡ tables.now }
    ensures { (bundles : List Meaning) → AreAlike (meanings localiser.now) bundles
        → Gives O.took (AreRendered tables.now bundles (root_of localiser.now) requests.now)
        (BeginRendered tables.now bundles (root_of localiser.now) requests.now)
        (written O.faults O.takes_memory out.old out.new) result }
{
    let Ok(mut tags) = KnownTags::new(alloc) else {
        return Status::NoMemory;
    };
    for number in 0..requests.len() {
        let request = &requests[number];
        let locale = match tags.locale_of(alloc, tables, requests, number) {
            Ok(locale) => locale,
            Err(cause) => return of_tag(number, cause),
        };
        if let Err(status) = write_request(tables, localiser, locale, number, request, out) {
            return status;
        }
    }
    Status::Done
}

/// Writes the line of a request for the locale that its tag asks for, and gives how many locales
/// were visited for it.
pub(crate) fn write_request<O: Sink>(
    tables: &Tables,
    localiser: &Localiser<'_>,
    locale: DataLocale,
    number: usize,
    request: &Request,
    out: &mut O,
) -> Result<u128, Status>
    requires tables { tables_of localiser.now ≡ tables.now }
    requires wants { Wants tables.now request.now locale }
    ensures visited { (bundles : List Meaning) → AreAlike (meanings localiser.now) bundles
        → IfOk result (Visits tables.now bundles (root_of localiser.now) request.now) }
    ensures small { IfOk result (λ visited. visited ≤ 2 ^ 67) }
    ensures ok { (bundles : List Meaning) → AreAlike (meanings localiser.now) bundles
        → OnOk result (TookLine O.took (IsLine tables.now bundles (root_of localiser.now))
        (IsLineFault tables.now bundles (root_of localiser.now))
        (written O.faults O.takes_memory out.old out.new) number request.now) }
    ensures err { (bundles : List Meaning) → AreAlike (meanings localiser.now) bundles
        → IfErr result (FailsLine O.took (IsLine tables.now bundles (root_of localiser.now))
        (IsLineFault tables.now bundles (root_of localiser.now))
        (written O.faults O.takes_memory out.old out.new) number request.now) }
{
    let _tables = tables;
    let Ok(found) = localiser.find(locale, request) else {
        return Err(Status::Request(number, RequestCause::ChainLoops));
    };
    match write_line(&found, out) {
        Ok(()) => Ok(found.visited()),
        Err(error) => Err(of_sink(error)),
    }
}

/// Writes a text and a line feed.
fn write_line<W: Writeable, O: Sink>(text: &W, out: &mut O) -> Result<(), SinkError>
    ensures ok { OnOk result (O.took out.old (line_of (W.text text.now)) out.new) }
    ensures err { OnErr result (TookPrefix O.took out.old (line_of (W.text text.now)) out.new) }
    ensures cause { HasCause (O.faults out.old) (O.faults out.new) (O.takes_memory out.old) result }
{
    text.write_to(out)?;
    out.push_char('\n')?;
    Ok(())
}

/// The status of a request whose tag asks for no locale.
pub(crate) fn of_tag(number: usize, cause: TagCause) -> Status
    ensures { result ≡ status_of_tag number cause }
{
    match cause {
        TagCause::NoMemory => Status::NoMemory,
        cause => Status::Request(number, RequestCause::Tag(cause)),
    }
}

/// The status of a sink that fails.
pub(crate) fn of_sink(error: SinkError) -> Status
    ensures { result ≡ status_of_sink error }
{
    match error {
        SinkError::Fault => Status::WriteFault,
        SinkError::NoMemory => Status::NoMemory,
    }
}
