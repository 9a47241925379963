//! `walk`: for each request the locales of its whole walk.

ghost use Rattle.std.specs.Prelude.{IfErr, OnErr, OnOk};
ghost use Rattle.fallback_chain.specs.Chain.{chain_text};
ghost use Rattle.localise_run.specs.Requests.{line_of};
ghost use Rattle.localise_run.specs.Run.{Gives, written};
ghost use Rattle.localise_run.specs.Wanting.{Wants};
ghost use Rattle.localise_run.specs.Walking.{AreWalked, BeginWalked, IsWalkFault, IsWalkLine};
ghost use Rattle.localise_run.specs.Writing.{FailsLine, TookLine};
ghost use Rattle.writeable_core.specs.Sink.{HasCause, TookPrefix};

use crate::render::{of_sink, of_tag};
use crate::tags::KnownTags;
use crate::{RequestCause, Status};
use fallback_chain::{steps_to_end, write_chain};
use icu_locale_core::DataLocale;
use icu_locale_fallback::LocaleFallbacker;
use localise::Request;
use std::alloc::Global;
use wanted_locale::Tables;
use writeable_core::{Sink, SinkError};

/// Writes the walk of each request, in order, up to the first that gets none.
pub(crate) fn write_walks<O: Sink>(
    alloc: Global,
    tables: &Tables,
    requests: &[Request],
    out: &mut O,
) -> Status
    ensures { Gives O.took (AreWalked tables.now requests.now) (BeginWalked tables.now requests.now)
        (written O.faults O.takes_memory out.old out.new) result }
{
    let Ok(mut tags) = KnownTags::new(alloc) else {
        return Status::NoMemory;
    };
    for number in 0..requests.len() {
        let request = &requests[number];
        let locale = match tags.locale_of(alloc, tables, requests, number) {
            Ok(locale) => locale,
            Err(cause) => return of_tag(number, cause),
        };
        if let Err(status) = write_walk(tables, locale, number, request, out) {
            return status;
        }
    }
    Status::Done
}

/// Writes the locales of a walk and a line feed. The whole walk is gone before anything is written.
fn write_walk<O: Sink>(
    tables: &Tables,
    locale: DataLocale,
    number: usize,
    request: &Request,
    out: &mut O,
) -> Result<(), Status>
    requires { Wants tables.now request.now locale }
    ensures ok { OnOk result (TookLine O.took (IsWalkLine tables.now) (IsWalkFault tables.now)
        (written O.faults O.takes_memory out.old out.new) number request.now) }
    ensures err { IfErr result (FailsLine O.took (IsWalkLine tables.now) (IsWalkFault tables.now)
        (written O.faults O.takes_memory out.old out.new) number request.now) }
{
    let Some(steps) = steps_to_end(&tables.fallbacker, locale) else {
        return Err(Status::Request(number, RequestCause::ChainLoops));
    };
    let _request = request;
    match write_chain_line(&tables.fallbacker, locale, steps, out) {
        Ok(()) => Ok(()),
        Err(error) => Err(of_sink(error)),
    }
}

/// Writes the locales of a walk of so many steps, and a line feed.
fn write_chain_line<O: Sink>(
    fallbacker: &LocaleFallbacker,
    locale: DataLocale,
    steps: u128,
    out: &mut O,
) -> Result<(), SinkError>
    ensures ok { OnOk result
        (O.took out.old (line_of (chain_text fallbacker.now locale steps)) out.new) }
    ensures err { OnErr result
        (TookPrefix O.took out.old (line_of (chain_text fallbacker.now locale steps)) out.new) }
    ensures cause { HasCause (O.faults out.old) (O.faults out.new) (O.takes_memory out.old) result }
{
    write_chain(fallbacker, locale, steps, out)?;
    out.push_char('\n')?;
    Ok(())
}
