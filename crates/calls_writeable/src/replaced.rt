//! Texts in which a needle is replaced: `{"Replace": [source, needle, replacement]}`. A source is a
//! text, or the list of the pieces that it comes in, at most 32.

use calls::answers;
use calls::answers::Answer;
use calls::arguments::{Wrong, list, text};
use serde_json::Value;
use std::alloc::{AllocError, Global};
use writeable::adapters::Concat;
use writeable::{StringSink, Text, write_replaced};

type Two<'a> = Concat<Text<'a>, Text<'a>>;

type Four<'a> = Concat<Two<'a>, Two<'a>>;

type Eight<'a> = Concat<Four<'a>, Four<'a>>;

type Sixteen<'a> = Concat<Eight<'a>, Eight<'a>>;

/// A text that comes in up to 32 pieces, each pushed by itself.
pub type Pieces<'a> = Concat<Sixteen<'a>, Sixteen<'a>>;

/// The source that an argument is.
pub fn pieces_of(given: &Value) -> Result<Pieces<'_>, Wrong<'_>> {
    let given = match given {
        Value::Array(pieces) => pieces.as_slice(),
        _ => std::slice::from_ref(given),
    };
    if given.len() > 32 {
        return Err(Wrong::Argument(&given[32], "the end of a list of 32 pieces"));
    }
    Ok(Concat(sixteen(given, 0)?, sixteen(given, 16)?))
}

fn sixteen(given: &[Value], from: usize) -> Result<Sixteen<'_>, Wrong<'_>> {
    Ok(Concat(eight(given, from)?, eight(given, from.saturating_add(8))?))
}

fn eight(given: &[Value], from: usize) -> Result<Eight<'_>, Wrong<'_>> {
    Ok(Concat(four(given, from)?, four(given, from.saturating_add(4))?))
}

fn four(given: &[Value], from: usize) -> Result<Four<'_>, Wrong<'_>> {
    Ok(Concat(two(given, from)?, two(given, from.saturating_add(2))?))
}

fn two(given: &[Value], from: usize) -> Result<Two<'_>, Wrong<'_>> {
    Ok(Concat(piece(given, from)?, piece(given, from.saturating_add(1))?))
}

/// The piece at a place, nothing behind the last one.
fn piece(given: &[Value], place: usize) -> Result<Text<'_>, Wrong<'_>> {
    match given.get(place) {
        Some(piece) => text(piece).map(Text),
        None => Ok(Text("")),
    }
}

/// The source, the needle and the replacement of an argument.
pub fn replacing(given: &Value) -> Result<(&Value, &str, &str), Wrong<'_>> {
    let [source, needle, replacement] = list(given)? else {
        return Err(Wrong::Argument(given, "a source, a needle and a replacement"));
    };
    let needle = text(needle)?;
    text(replacement).map(|replacement| (source, needle, replacement))
}

/// What `write_replaced` writes.
pub fn answer<'a>(alloc: Global, arguments: &'a [Value]) -> Answer<'a> {
    let [source, needle, replacement] = arguments else {
        return Err(Wrong::Call);
    };
    let mut sink = StringSink::new(alloc);
    let replacement = Text(text(replacement)?);
    match write_replaced(&mut sink, text(source)?, text(needle)?, &replacement) {
        Ok(()) => Ok(answers::text(alloc, sink.as_str())?),
        Err(_) => Err(Wrong::NoMemory),
    }
}
