//! Calls of values that write a text.
//!
//! A value is a text, which is a `Text`, or an object of one member: its type, and what it is made
//! of. A number is the text of its digits. Items of `Concat` and `WithPart` are texts,
//! `{"char": ..}`, `{"u64": ..}` and `{"Part": [category, value, text]}`. `lower` is the text in
//! ASCII lower case, lent where it has no other letters.

use crate::parts::part;
use crate::replaced::{pieces_of, replacing};
use crate::sinks;
use crate::tries::attempt;
use calls::answers;
use calls::answers::{Answer, Object};
use calls::arguments::{Wrong, bytes, character, list, member, text, wide};
use either::{Either, Left, Right};
use serde_json::Value;
use std::alloc::{AllocError, Global};
use std::borrow::CowStr;
use std::boxed::BoxedStr;
use std::rc::{Rc, RcStr};
use std::str::FromStr;
use writeable::adapters::{
    Concat, CoreWriteAsPartsWrite, LossyWrap, Replace, TryWriteableInfallibleAsWriteable, WithPart,
    WriteableAsTryWriteableInfallible,
};
use writeable::{
    CountSink, FixedSink, OwnedText, StringSink, Text, Writeable, cmp_str, cmp_utf8,
    concat_writeable, to_string_or_borrow,
};

/// What is asked of a value.
#[derive(Drop)]
enum Question<'a> {
    Written,
    Text,
    Hint,
    Borrow,
    AgainstText(&'a str),
    AgainstBytes(Vec<u8>),
    BorrowFrom(Vec<u8>),
    WithoutParts,
    CountedBytes,
    Fixed,
}

/// A call whose first argument is a value that writes a text, by the call's path.
pub fn answer<'a>(alloc: Global, call: &str, arguments: &'a [Value]) -> Answer<'a> {
    let [value, others @ ..] = arguments else {
        return Err(Wrong::Call);
    };
    let question = match (call, others) {
        ("Writeable::write_to" | "Writeable::write_to_parts", []) => Question::Written,
        ("Writeable::write_to_string", []) => Question::Text,
        ("Writeable::writeable_length_hint", []) => Question::Hint,
        ("Writeable::writeable_borrow", []) => Question::Borrow,
        ("cmp_str", [other]) => Question::AgainstText(text(other)?),
        ("cmp_utf8", [other]) => Question::AgainstBytes(bytes(alloc, other)?),
        ("to_string_or_borrow", [other]) => Question::BorrowFrom(bytes(alloc, other)?),
        ("adapters::CoreWriteAsPartsWrite", []) => Question::WithoutParts,
        ("CountSink::bytes", []) => Question::CountedBytes,
        ("FixedSink<64>::as_str", []) => Question::Fixed,
        _ => return Err(Wrong::Call),
    };
    question.of(alloc, value)
}

impl Question<'_> {
    /// The answer of a value.
    fn ask<W: Writeable>(&self, alloc: Global, value: &W) -> Result<Value, AllocError> {
        match self {
            Question::Written => answers::written(alloc, value),
            Question::Text => string(alloc, value.write_to_string(alloc)?),
            Question::Hint => answers::hint(alloc, value.writeable_length_hint()),
            Question::Borrow => answers::optional_text(alloc, value.writeable_borrow()),
            Question::AgainstText(other) => answers::ordering(alloc, cmp_str(value, other)),
            Question::AgainstBytes(other) => answers::ordering(alloc, cmp_utf8(value, other)),
            Question::BorrowFrom(other) => string(alloc, to_string_or_borrow(alloc, value, other)?),
            Question::WithoutParts => without_parts(alloc, value),
            Question::CountedBytes => Ok(counted(value)),
            Question::Fixed => fixed(alloc, value),
        }
    }

    fn asked<'a, W: Writeable>(&self, alloc: Global, value: &W) -> Answer<'a> {
        Ok(self.ask(alloc, value)?)
    }

    /// The answer of a value that is made where there is memory.
    fn of_made<'a, W, E>(&self, alloc: Global, made: Result<W, E>) -> Answer<'a>
    where
        W: Writeable + Drop,
        E: Drop,
    {
        match made {
            Ok(value) => self.asked(alloc, &value),
            Err(_) => Err(Wrong::NoMemory),
        }
    }

    /// The answer of the value that an argument makes.
    fn of<'a>(&self, alloc: Global, value: &'a Value) -> Answer<'a> {
        if let Value::String(text) = value {
            return self.asked(alloc, &Text(text.as_str()));
        }
        let (name, inner) = member(value)?;
        match name {
            "Concat" => self.of_items(alloc, inner),
            "WithPart" => self.of_part(alloc, inner),
            "Replace" => self.of_replaced(alloc, inner),
            "char" | "Part" => Ok(self.ask(alloc, &item(value)?)?),
            "LossyWrap" => Ok(self.ask(alloc, &LossyWrap(attempt(inner)?))?),
            _ => match self.of_number(alloc, name, inner) {
                Err(Wrong::Call) => self.of_text(alloc, name, inner),
                answer => answer,
            },
        }
    }

    /// The answer of a text, by the name of the type that holds it.
    fn of_text<'a>(&self, alloc: Global, name: &str, value: &'a Value) -> Answer<'a> {
        let inner = text(value)?;
        match name {
            "CowStr::Borrowed" => self.asked(alloc, &CowStr::Borrowed(inner)),
            "Either::Left" => self.asked(alloc, &Either::<Text, u8>::Left(Text(inner))),
            "Either::Right" => { Ok(self.ask(alloc, &Either::<Text, u8>::Right(wide(value)?))?) }
            "TryWriteableInfallibleAsWriteable" => {
                let infallible = WriteableAsTryWriteableInfallible(Text(inner));
                self.asked(alloc, &TryWriteableInfallibleAsWriteable(infallible))
            }
            _ => match self.of_copy(alloc, name, inner) {
                Err(Wrong::Call) => Err(Wrong::Argument(value, "the text of a known type")),
                answer => answer,
            },
        }
    }

    /// The answer of a copy of a text.
    fn of_copy<'a>(&self, alloc: Global, name: &str, text: &str) -> Answer<'a> {
        match name {
            "String" => self.of_made(alloc, String::from_str(alloc, text)),
            "&String" => self.asked(alloc, &&String::from_str(alloc, text)?),
            "OwnedText" => self.of_made(alloc, OwnedText::new(alloc, text)),
            "CowStr::Owned" => {
                Ok(self.ask(alloc, &CowStr::Owned(String::from_str(alloc, text)?))?)
            }
            "lower" => Ok(self.ask(alloc, &lower(alloc, text)?)?),
            _ => self.of_pointer(alloc, name, text),
        }
    }

    /// The answer of a text behind a pointer.
    fn of_pointer<'a>(&self, alloc: Global, name: &str, text: &str) -> Answer<'a> {
        match name {
            "BoxedStr" => self.of_made(alloc, BoxedStr::from_str(alloc, text)),
            "RcStr" => self.of_made(alloc, RcStr::from_str(alloc, text)),
            "Box" => self.of_made(alloc, Box::new(alloc, Text(text))),
            "Rc" => self.of_made(alloc, Rc::new(alloc, Text(text))),
            _ => Err(Wrong::Call),
        }
    }

    /// The answer of a number, by the name of its type.
    fn of_number<'a>(&self, alloc: Global, name: &str, value: &'a Value) -> Answer<'a> {
        match name {
            "u8" => self.of_wide::<u8>(alloc, value),
            "u16" => self.of_wide::<u16>(alloc, value),
            "u32" => self.of_wide::<u32>(alloc, value),
            "u64" => self.of_wide::<u64>(alloc, value),
            "u128" => self.of_wide::<u128>(alloc, value),
            "usize" => self.of_wide::<usize>(alloc, value),
            "i8" => self.of_wide::<i8>(alloc, value),
            "i16" => self.of_wide::<i16>(alloc, value),
            "i32" => self.of_wide::<i32>(alloc, value),
            "i64" => self.of_wide::<i64>(alloc, value),
            "i128" => self.of_wide::<i128>(alloc, value),
            "isize" => self.of_wide::<isize>(alloc, value),
            _ => Err(Wrong::Call),
        }
    }

    fn of_wide<'a, T>(&self, alloc: Global, value: &'a Value) -> Answer<'a>
    where
        T: FromStr + Writeable + Drop,
        T::Err: Drop,
    {
        Ok(self.ask(alloc, &wide::<T>(value)?)?)
    }

    /// Two to four items, one behind the other.
    fn of_items<'a>(&self, alloc: Global, value: &'a Value) -> Answer<'a> {
        let answer = match list(value)? {
            [a, b] => self.ask(alloc, &two(a, b)?),
            [a, b, c] => self.ask(alloc, &concat_writeable!(item(a)?, item(b)?, item(c)?)),
            [a, b, c, d] => self.ask(alloc, &Concat(two(a, b)?, two(c, d)?)),
            _ => return Err(Wrong::Argument(value, "two to four items")),
        };
        Ok(answer?)
    }

    /// An item in a part.
    fn of_part<'a>(&self, alloc: Global, value: &'a Value) -> Answer<'a> {
        let [category, name, inner] = list(value)? else {
            return Err(Wrong::Argument(value, "a part's category and value, and an item"));
        };
        let part = part(category, name)?;
        let writeable = item(inner)?;
        Ok(self.ask(alloc, &WithPart { part, writeable })?)
    }

    /// A text in which a needle is replaced.
    fn of_replaced<'a>(&self, alloc: Global, value: &'a Value) -> Answer<'a> {
        let (source, needle, replacement) = replacing(value)?;
        let replace = Replace {
            source: pieces_of(source)?,
            needle,
            replacement: Text(replacement),
        };
        Ok(self.ask(alloc, &replace)?)
    }
}

fn two<'a>(first: &'a Value, second: &'a Value) -> Result<Concat<Item<'a>, Item<'a>>, Wrong<'a>> {
    let first = item(first)?;
    item(second).map(|second| Concat(first, second))
}

fn string(alloc: Global, written: CowStr<'_>) -> Result<Value, AllocError> {
    let borrowed = matches!(written, CowStr::Borrowed(_));
    let text = Value::String(written.into_owned(alloc)?);
    Ok(
        Object::new(alloc)
            .with("text", text)?
            .with("borrowed", Value::Bool(borrowed))?
            .value(),
    )
}

/// The text that arrives at a sink that drops the marks of parts.
fn without_parts<W: Writeable>(alloc: Global, value: &W) -> Result<Value, AllocError> {
    let mut sink = CoreWriteAsPartsWrite(StringSink::new(alloc));
    value.write_to_parts(&mut sink).map_err(|_| AllocError)?;
    Ok(Value::String(sink.0.into_string()))
}

/// How many bytes arrive at a sink that counts them.
fn counted<W: Writeable>(value: &W) -> Value {
    let mut sink = CountSink::new();
    let _ = value.write_to(&mut sink);
    answers::number(sink.bytes())
}

/// The text that arrives at a sink of 64 bytes.
fn fixed<W: Writeable>(alloc: Global, value: &W) -> Result<Value, AllocError> {
    let mut sink = FixedSink::<64>::new();
    match value.write_to(&mut sink) {
        Ok(()) => answers::text(alloc, sink.as_str()),
        Err(error) => answers::refused(alloc, sinks::name(error)),
    }
}

/// The text in ASCII lower case. It is lent where it has no other letters.
fn lower(
    alloc: Global,
    text: &str,
) -> Result<Either<Text<'_>, Concat<OwnedText, Text<'_>>>, AllocError> {
    let lower = text
        .bytes()
        .all(|b| b.is_ascii_lowercase() || b.is_ascii_whitespace());
    if lower {
        return Ok(Left(Text(text)));
    }
    let copy = text.to_ascii_lowercase(alloc)?;
    Ok(Right(Concat(OwnedText::from_string(copy), Text(""))))
}

/// A text, a character, a number, or a text in a part.
type Item<'a> = Either<Text<'a>, Either<char, Either<u64, WithPart<Text<'a>>>>>;

fn item(value: &Value) -> Result<Item<'_>, Wrong<'_>> {
    if let Value::String(text) = value {
        return Ok(Left(Text(text.as_str())));
    }
    match member(value)? {
        ("char", inner) => Ok(Right(Left(character(inner)?))),
        ("u64", inner) => Ok(Right(Right(Left(wide(inner)?)))),
        ("Part", inner) => Ok(Right(Right(Right(text_in_part(inner)?)))),
        _ => Err(Wrong::Argument(value, "a text, a char, an u64 or a Part")),
    }
}

fn text_in_part(value: &Value) -> Result<WithPart<Text<'_>>, Wrong<'_>> {
    match list(value)? {
        [category, name, inner] => {
            let part = part(category, name)?;
            text(inner).map(|text| WithPart {
                part,
                writeable: Text(text),
            })
        }
        _ => Err(Wrong::Argument(value, "a part's category and value, and a text")),
    }
}
