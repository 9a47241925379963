//! `generate`: requests made from those of a document, and three numbers of their lines.

ghost use Rattle.std.specs.Prelude.{◌≡◌, ◌≢◌, ◌≤◌, ◌++◌, ◌∷◌, [], true, List, Some, IfErr, IfOk};
ghost use Rattle.std.specs.Prelude.{OnErr, OnOk, length, slice_get, vec_len};
ghost use Rattle.localise.specs.Kept.{AreAlike};
ghost use Rattle.localise.specs.Meaning.{Meaning};
ghost use Rattle.localise.specs.Views.{meanings, root_of, tables_of};
ghost use Rattle.localise_run.specs.Generating.{
  AreCounted,
  AreGenerated,
  AreNumbers,
  AreUncounted,
  known,
  made,
  made_from,
  three_lines,
};
ghost use Rattle.localise_run.specs.Run.{Gives, written};
ghost use Rattle.localise_run.specs.Wanting.{HasTagCause, Wants};
ghost use Rattle.localise_status.specs.Ascii.{in_ascii};
ghost use Rattle.writeable_core.specs.Sink.{HasCause, TookPrefix};

use crate::render::{of_sink, of_tag, write_request};
use crate::{RequestCause, Status};
use icu_locale_core::DataLocale;
use localise::{Localiser, Request};
use std::alloc::{AllocError, Global};
use wanted_locale::{Tables, TagCause, wanted};
use writeable_core::{OwnedText, Sink, SinkError, TextList, Writeable};
use writeable_sinks::CountSink;

/// What is counted of made requests.
#[derive(Clone, Copy)]
pub(crate) struct Counted {
    requests: u32,
    bytes: u64,
    visited: u128,
}

/// Makes so many requests from the document's, finds each, and writes three numbers of their lines.
pub(crate) fn write_numbers<O: Sink>(
    alloc: Global,
    tables: &Tables,
    localiser: &Localiser<'_>,
    requests: &mut [Request],
    count: u32,
    out: &mut O,
) -> Status
    requires { tables_of localiser.now ≡ tables.now }
    ensures { (bundles : List Meaning) → AreAlike (meanings localiser.now) bundles
        → Gives O.took
        (AreGenerated tables.now bundles (root_of localiser.now) (made requests.old 0 count))
        (AreNumbers tables.now bundles (root_of localiser.now) (made requests.old 0 count))
        (written O.faults O.takes_memory out.old out.new) result }
{
    match count_lines(alloc, tables, localiser, requests, count) {
        Ok(counted) => match write_counted(&counted, out) {
            Ok(()) => Status::Done,
            Err(error) => of_sink(error),
        },
        Err(status) => status,
    }
}

/// Makes so many requests and counts their lines, up to the first that gets none.
fn count_lines(
    alloc: Global,
    tables: &Tables,
    localiser: &Localiser<'_>,
    requests: &mut [Request],
    count: u32,
) -> Result<Counted, Status>
    requires { tables_of localiser.now ≡ tables.now }
    ensures ok { (bundles : List Meaning) → AreAlike (meanings localiser.now) bundles
        → IfOk result (AreCounted tables.now bundles (root_of localiser.now)
        (made requests.old 0 count)) }
    ensures err { (bundles : List Meaning) → AreAlike (meanings localiser.now) bundles
        → IfErr result (AreUncounted tables.now bundles (root_of localiser.now)
        (made requests.old 0 count)) }
{
    let mut counted = Counted {
        requests: 0,
        bytes: 0,
        visited: 0,
    };
    if requests.is_empty() {
        return Ok(counted);
    }
    let mut locales = Vec::new(alloc);
    let mut lines = CountSink::new();
    for number in 0..count {
        let place = number as usize % requests.len();
        if remake(alloc, &mut requests[place], number).is_err() {
            return Err(Status::NoMemory);
        }
        let request = &requests[place];
        let locale = match locale_at(alloc, tables, &mut locales, place, request) {
            Ok(locale) => locale,
            Err(cause) => return Err(of_tag(number as usize, cause)),
        };
        match write_request(
            tables,
            localiser,
            locale,
            number as usize,
            request,
            &mut lines,
        ) {
            Ok(visited) => counted.visited += visited,
            Err(status) => return Err(status),
        }
    }
    counted.requests = count;
    counted.bytes = lines.bytes();
    Ok(counted)
}

/// The locale that the request at a place asks for. It is kept for the requests that are made from
/// the same one later.
fn locale_at(
    alloc: Global,
    tables: &Tables,
    locales: &mut Vec<DataLocale>,
    place: usize,
    request: &Request,
) -> Result<DataLocale, TagCause>
    requires within { place ≤ vec_len locales.old }
    requires wants { (l : DataLocale) → slice_get locales.old.items place ≡ Some l
        → Wants tables.now request.now l }
    ensures ok { IfOk result (Wants tables.now request.now) }
    ensures kept { IfOk result (λ l. locales.new.items ≡ known locales.old.items place l) }
    ensures err { IfErr result (λ cause. cause ≢ TagCause.NoMemory
        → HasTagCause tables.now request.now (RequestCause.Tag cause)) }
{
    if place < locales.len() {
        return Ok(locales[place]);
    }
    match wanted(alloc, tables, request.tag.as_str()) {
        Ok(locale) => match locales.push(locale) {
            Ok(()) => Ok(locale),
            Err(_) => Err(TagCause::NoMemory),
        },
        Err(cause) => Err(cause),
    }
}

/// Gives a request the count and the items of a made request.
fn remake(alloc: Global, request: &mut Request, number: u32) -> Result<(), AllocError>
    ensures { OnOk result (request.new ≡ made_from number request.old) }
{
    let mut items = TextList::new(alloc);
    for _item in 0..number % 4 {
        items.push(OwnedText::new(alloc, "x")?)?;
    }
    request.count = (number % 3) as u64;
    request.items = items;
    Ok(())
}

/// Writes the three lines.
fn write_counted<O: Sink>(counted: &Counted, out: &mut O) -> Result<(), SinkError>
    ensures ok { OnOk result (O.took out.old
        (three_lines counted.now.requests counted.now.bytes counted.now.visited) out.new) }
    ensures err { OnErr result (TookPrefix O.took out.old
        (three_lines counted.now.requests counted.now.bytes counted.now.visited) out.new) }
    ensures cause { HasCause (O.faults out.old) (O.faults out.new) (O.takes_memory out.old) result }
{
    write_number("requests ", &counted.requests, out)?;
    write_number("bytes ", &counted.bytes, out)?;
    write_number("visited ", &counted.visited, out)?;
    Ok(())
}

/// Writes a word, a number and a line feed.
fn write_number<N: Writeable, O: Sink>(word: &str, number: &N, out: &mut O) -> Result<(), SinkError>
    requires { in_ascii word.now ≡ true }
    ensures ok { OnOk result
        (O.took out.old (word.now ++ (N.text number.now ++ 10 ∷ [])) out.new) }
    ensures err { OnErr result
        (TookPrefix O.took out.old (word.now ++ (N.text number.now ++ 10 ∷ [])) out.new) }
    ensures cause { HasCause (O.faults out.old) (O.faults out.new) (O.takes_memory out.old) result }
{
    out.push_str(word)?;
    number.write_to(out)?;
    out.push_char('\n')?;
    Ok(())
}
