//! Calls of sinks. The pieces that are pushed are a list of texts, which `push_str` takes, and of
//! `{"char": ".."}`, which `push_char` takes; each push is answered by `Ok` or by the name of its
//! error, and beside them stands what the sink holds. A sink of parts takes marks too: see `parts`.

ghost use Rattle.std.specs.Prelude.{◌≤◌};

use crate::parts;
use crate::parts::{Piece, piece_of};
use calls::answers;
use calls::answers::{Answer, Object};
use calls::arguments::{Wrong, list, numbers, text};
use serde_json::Value;
use std::alloc::{AllocError, Global};
use writeable::{
    CountSink, FixedSink, OwnedText, ScriptSink, Sink, SinkError, StringSink, TextList,
};

/// A call of a sink, or of a list of texts, by its path.
pub fn answer<'a>(alloc: Global, call: &str, arguments: &'a [Value]) -> Answer<'a> {
    match (call, arguments) {
        ("SinkError::text", [name]) => Ok(answers::text(alloc, error_of(name)?.text())?),
        ("TextList::push", [texts]) => listed(alloc, texts),
        ("StringSink::push", [pieces]) => {
            let mut sink = StringSink::new(alloc);
            let pushes = pushes(alloc, &mut sink, pieces)?;
            Ok(held(alloc, pushes, sink.as_str())?)
        }
        ("PartsSink::push", [pieces]) => parts::answer(alloc, pieces),
        ("ScriptSink::push", [failing, pieces]) => {
            let mut sink = ScriptSink::new(alloc, numbers(alloc, failing)?);
            let pushes = pushes(alloc, &mut sink, pieces)?;
            Ok(held(alloc, pushes, sink.as_str())?)
        }
        ("CountSink::push", [pieces]) => {
            let mut sink = CountSink::new();
            let pushes = pushes(alloc, &mut sink, pieces)?;
            let bytes = answers::number(sink.bytes());
            Ok(
                Object::new(alloc)
                    .with("pushes", pushes)?
                    .with("bytes", bytes)?
                    .value(),
            )
        }
        ("FixedSink<4>::push", [pieces]) => fixed::<4>(alloc, pieces),
        ("FixedSink<64>::push", [pieces]) => fixed::<64>(alloc, pieces),
        _ => Err(Wrong::Call),
    }
}

fn fixed<'a, const N: usize>(alloc: Global, pieces: &'a Value) -> Answer<'a>
    requires { N ≤ 64 }
{
    let mut sink = FixedSink::<N>::new();
    let pushes = pushes(alloc, &mut sink, pieces)?;
    Ok(held(alloc, pushes, sink.as_str())?)
}

fn held(alloc: Global, pushes: Value, text: &str) -> Result<Value, AllocError> {
    let text = answers::text(alloc, text)?;
    Ok(
        Object::new(alloc)
            .with("pushes", pushes)?
            .with("text", text)?
            .value(),
    )
}

/// Pushes the pieces, and lists what each push answered.
fn pushes<'a, S: Sink>(alloc: Global, sink: &mut S, pieces: &'a Value) -> Answer<'a> {
    let mut answers = Vec::new(alloc);
    for piece in list(pieces)? {
        let pushed = push(sink, piece)?;
        let name = match pushed {
            Ok(()) => "Ok",
            Err(error) => name(error),
        };
        answers.push(answers::text(alloc, name)?)?;
    }
    Ok(Value::Array(answers))
}

fn push<'a, S: Sink>(sink: &mut S, piece: &'a Value) -> Result<Result<(), SinkError>, Wrong<'a>> {
    match piece_of(piece)? {
        Piece::Text(text) => Ok(sink.push_str(text)),
        Piece::Character(c) => Ok(sink.push_char(c)),
        Piece::Open(_) | Piece::Close => Err(Wrong::Argument(piece, "a text or a char")),
    }
}

const ERRORS: [SinkError; 2] = [SinkError::Fault, SinkError::NoMemory];

pub fn name(error: SinkError) -> &'static str {
    match error {
        SinkError::Fault => "Fault",
        SinkError::NoMemory => "NoMemory",
    }
}

fn error_of(given: &Value) -> Result<SinkError, Wrong<'_>> {
    let text = text(given)?;
    for error in ERRORS {
        if name(error) == text {
            return Ok(error);
        }
    }
    Err(Wrong::Argument(given, "the name of an error"))
}

fn listed<'a>(alloc: Global, given: &'a Value) -> Answer<'a> {
    let mut texts = TextList::new(alloc);
    for each in list(given)? {
        texts.push(OwnedText::new(alloc, text(each)?)?)?;
    }
    let mut answer = Vec::new(alloc);
    for text in texts.as_slice() {
        answer.push(Value::String(text.to_string(alloc)?))?;
    }
    Ok(Value::Array(answer))
}
