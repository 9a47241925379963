//! A text that is borrowed from other bytes where they begin with it.

ghost use Rattle.std.specs.Prelude.{◌≡◌, ℕ, ◌≤◌, ◌↔◌, List, [], ◌∷◌, ◌++◌, ◌+◌, true, false, Some};
ghost use Rattle.std.specs.Prelude.{IsTrue, IfOk, IsErrOf, OnOk, OnErr, length, take, string_bytes};
ghost use Rattle.std.specs.Prelude.{encode_utf8_all};
ghost use Rattle.std.specs.Cow.{cow_str_bytes, IsBorrowedStr};
ghost use Rattle.std.specs.Str.{chars, is_utf8};
ghost use Rattle.std.proofs.Common.{rules};
ghost use Rattle.writeable_cmp.specs.Sharing.{BeginsWith, Shared};
ghost use Rattle.writeable_cmp.specs.SharingLaws.{Shared-nothing, Shared-both};
ghost use Rattle.writeable_core.specs.Sink.{TookPrefix, HasCause};
ghost use Rattle.writeable_core.specs.SinkLaws.{append_held};

use std::alloc::{AllocError, Global};
use std::borrow::CowStr;
use std::marker::Model;
use std::str;
use writeable_core::{Sink, SinkError, Writeable};

/// The text so far of a sink that looks for it at the front of other bytes.
#[derive(Drop)]
enum SoFar {
    /// So many of the other bytes, from the first on.
    Shared(usize),
    /// A copy: the other bytes don't begin with it.
    Copied(String),
}

/// A sink that looks for its text at the front of other bytes, and copies it where it isn't there.
#[derive(Drop)]
struct Sharing<'a> {
    alloc: Global,
    reference: &'a [u8],
    so_far: SoFar,
}

impl<'a> Model for Sharing<'a> {
    ghost use Rattle.writeable_cmp.specs.Sharing.{Sharing as Seen};
    ghost use Rattle.writeable_cmp.specs.SoFar.{text_so_far, IsSoFar};

    ghost Value = { Seen };

    ghost view = { λ s.
        record { text = text_so_far s.reference.now s.so_far; reference = s.reference.now } };

    ghost invariant = { λ s. IsSoFar s.reference.now s.so_far };
}

/// The text that begins the bytes.
fn front_of(bytes: &[u8], count: usize) -> &str
    requires in_range { count ≤ length bytes.now }
    requires text { is_utf8 (take count bytes.now) ≡ true }
    ensures { result.now ≡ take count bytes.now }
{
    match str::from_utf8(&bytes[..count]) {
        Ok(text) => text,
        Err(_) => unreachable!(),
    }
}

/// Whether a text goes on behind so many of the bytes.
fn goes_on(bytes: &[u8], count: usize, text: &str) -> bool
    requires { count ≤ length bytes.now }
    ensures in_range { IsTrue result → count + length text.now ≤ length bytes.now }
    ensures found { IsTrue result
        → take (count + length text.now) bytes.now ≡ take count bytes.now ++ text.now }
    ensures missing { result ≡ false → BeginsWith bytes.now (take count bytes.now ++ text.now) → ⊥ }
{
    bytes[count..].starts_with(text.as_bytes())
}

/// Two texts, one after another.
fn joined(alloc: Global, front: &str, piece: &str) -> Result<String, AllocError>
    ensures { IfOk result (λ text. string_bytes text ≡ front.now ++ piece.now) }
{
    let mut text = String::from_str(alloc, front)?;
    text.push_str(piece)?;
    Ok(text)
}

impl<'a> Sharing<'a> {
    fn new(alloc: Global, reference: &'a [u8]) -> Sharing<'a>
        ensures { result ≡ record { text = []; reference = reference.now } }
    {
        Sharing {
            alloc,
            reference,
            so_far: SoFar::Shared(0),
        }
    }

    /// Takes a text.
    fn take(&mut self, piece: &str) -> Result<(), SinkError>
        ensures ok { OnOk result
            (self.new
            ≡ record {
              text = self.old.text ++ chars piece.now;
              reference = self.old.reference;
            }) }
        ensures err { OnErr result (self.new ≡ self.old) }
        ensures never_faults { IsErrOf result SinkError.Fault → ⊥ }
    {
        match &mut self.so_far {
            SoFar::Copied(text) => {
                text.push_str(piece).map_err(|_| SinkError::NoMemory)?;
            }
            SoFar::Shared(count) if goes_on(self.reference, *count, piece) => {
                *count += piece.len();
            }
            SoFar::Shared(count) => {
                let front = front_of(self.reference, *count);
                let text = joined(self.alloc, front, piece).map_err(|_| SinkError::NoMemory)?;
                self.so_far = SoFar::Copied(text);
            }
        }
        Ok(())
    }

    /// The text, borrowed where it was found.
    fn finish(self) -> CowStr<'a>
        ensures text { chars (cow_str_bytes result) ≡ self.entry.text }
        ensures borrowed { IsBorrowedStr result
            ↔ BeginsWith self.entry.reference (encode_utf8_all self.entry.text) }
    {
        match self.so_far {
            SoFar::Copied(text) => CowStr::Owned(text),
            SoFar::Shared(count) => CowStr::Borrowed(front_of(self.reference, count)),
        }
    }
}

impl Sink for Sharing<'_> {
    ghost took = { Shared };

    ghost held = { λ s. Some s.text };

    ghost faults = { λ _. 0 };

    ghost takes_memory = { λ _. true };

    ghost took_nothing = { Shared-nothing };

    ghost took_both = { Shared-both };

    ghost took_held = { λ a b t h p. append_held a.text b.text t h p.text };

    ghost took_faults = { Prim.search rules };

    ghost took_memory = { Prim.search rules };

    fn push_str(&mut self, piece: &str) -> Result<(), SinkError> {
        self.take(piece)?;
        Ok(())
    }

    fn push_char(&mut self, c: char) -> Result<(), SinkError> {
        let mut buffer = [0; 4];
        self.take(c.encode_utf8(&mut buffer))?;
        Ok(())
    }
}

/// The value's text: borrowed exactly where the reference bytes begin with it.
pub fn to_string_or_borrow<'a, W: Writeable>(
    alloc: Global,
    writeable: &W,
    reference_bytes: &'a [u8],
) -> Result<CowStr<'a>, AllocError>
    ensures text { IfOk result (λ s. chars (cow_str_bytes s) ≡ W.text writeable.now) }
    ensures borrowed { IfOk result
        (λ s. IsBorrowedStr s
        ↔ BeginsWith reference_bytes.now (encode_utf8_all (W.text writeable.now))) }
{
    let mut sink = Sharing::new(alloc, reference_bytes);
    writeable.write_to(&mut sink).map_err(|_| AllocError)?;
    Ok(sink.finish())
}
