//! Parts, and calls of a sink of parts.
//!
//! Its pieces are texts, `{"char": ".."}`, `{"open": [category, value]}` and `{"close": null}`,
//! which asks that a part is open. It is answered by what each push gave, and by its text and its
//! spans.

ghost use Rattle.std.specs.Prelude.{◌≡◌, length};

use calls::answers;
use calls::answers::{Answer, Object};
use calls::arguments::{Wrong, character, list, member, text};
use serde_json::Value;
use std::alloc::Global;
use writeable::{Part, PartsSink, PartsWrite, Sink};

/// A step of a marked text.
#[derive(Clone, Copy)]
pub enum Piece<'a> {
    Text(&'a str),
    Character(char),
    Open(Part),
    Close,
}

/// The piece that an argument is.
pub fn piece_of(given: &Value) -> Result<Piece<'_>, Wrong<'_>> {
    if let Value::String(text) = given {
        return Ok(Piece::Text(text.as_str()));
    }
    match member(given)? {
        ("char", inner) => Ok(Piece::Character(character(inner)?)),
        ("close", Value::Null) => Ok(Piece::Close),
        ("open", inner) => match list(inner)? {
            [category, value] => Ok(Piece::Open(part(category, value)?)),
            _ => Err(Wrong::Argument(inner, "a part's category and value")),
        },
        _ => Err(Wrong::Argument(given, "a text, a char, an open or a close")),
    }
}

/// The parts that a line can name: a part's names are known when the program is built.
const PARTS: [Part; 3] = [
    Part {
        category: "foo",
        value: "word",
    },
    Part {
        category: "foo",
        value: "bar",
    },
    Part {
        category: "foo2",
        value: "bar2",
    },
];

/// The part of this category and this name.
pub fn part<'a>(category: &'a Value, name: &'a Value) -> Result<Part, Wrong<'a>> {
    let (category, value) = (text(category)?, text(name)?);
    for part in PARTS {
        if part.category == category && part.value == value {
            return Ok(part);
        }
    }
    Err(Wrong::Argument(name, "foo word, foo bar or foo2 bar2"))
}

/// A sink of parts, and how many of them are open.
#[derive(Drop)]
struct Marked {
    sink: PartsSink,
    opened: usize,
    ghost counted: { length sink.begun ≡ opened },
}

/// What a sink of parts answers to the pieces.
pub fn answer<'a>(alloc: Global, pieces: &'a Value) -> Answer<'a> {
    let mut marked = Marked {
        sink: PartsSink::new(alloc),
        opened: 0,
    };
    let mut pushes = Vec::new(alloc);
    for piece in list(pieces)? {
        marked.push(piece)?;
        pushes.push(answers::text(alloc, "Ok")?)?;
    }
    let text = answers::text(alloc, marked.sink.as_str())?;
    let spans = answers::spans(alloc, marked.sink.spans())?;
    Ok(
        Object::new(alloc)
            .with("pushes", Value::Array(pushes))?
            .with("text", text)?
            .with("spans", spans)?
            .value(),
    )
}

impl Marked {
    /// Pushes a piece. A sink of parts fails only where it finds no memory.
    #[tactic(auto, using(crate::proofs::Opened::opened, crate::proofs::Opened::closed))]
    fn push<'a>(&mut self, given: &'a Value) -> Result<(), Wrong<'a>> {
        match piece_of(given)? {
            Piece::Text(text) => self.sink.push_str(text).map_err(|_| Wrong::NoMemory)?,
            Piece::Character(c) => self.sink.push_char(c).map_err(|_| Wrong::NoMemory)?,
            Piece::Open(part) => {
                let opened = self.opened.checked_add(1).ok_or(Wrong::NoMemory)?;
                self.sink.open_part(part).map_err(|_| Wrong::NoMemory)?;
                self.opened = opened;
            }
            Piece::Close => {
                if self.opened == 0 {
                    return Err(Wrong::Argument(given, "a piece that closes an open part"));
                }
                self.sink.close_part().map_err(|_| Wrong::NoMemory)?;
                self.opened -= 1;
            }
        }
        Ok(())
    }
}
