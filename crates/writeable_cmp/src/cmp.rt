ghost use Rattle.std.specs.Prelude.{◌≡◌, ℕ, ◌≤◌, List, [], false, None, OnErr, encode_utf8_all};
ghost use Rattle.std.specs.Ordering.{nat_cmp};
ghost use Rattle.std.specs.Cmp.Lexicographic.{slice_cmp};
ghost use Rattle.std.proofs.Common.{rules};
ghost use Rattle.writeable_cmp.specs.Comparing.{outcome, decisions, Compared, ComparedBytes};
ghost use Rattle.writeable_cmp.specs.ComparingLaws.{Compared-nothing, Compared-both};
ghost use Rattle.writeable_core.specs.Sink.{HasCause};

use std::cmp::Ordering;
use std::marker::Model;
use writeable_core::{Sink, SinkError, Writeable};

/// A sink that compares what it takes with other bytes. It faults where the order is decided, so
/// that nothing more is written; what is written all the same it takes as it is.
#[derive(Drop)]
struct Comparing<'a> {
    rest: &'a [u8],
    order: Ordering,
}

impl<'a> Model for Comparing<'a> {
    ghost use Rattle.writeable_cmp.specs.Comparing.{Comparison};

    ghost Value = { Comparison };

    ghost view = { λ s. record { rest = s.rest.now; order = s.order } };
}

impl Comparing<'_> {
    fn new(other: &[u8]) -> Comparing<'_>
        ensures { result ≡ record { rest = other.now; order = Ordering.Equal } }
    {
        Comparing {
            rest: other,
            order: Ordering::Equal,
        }
    }

    /// The order if nothing follows.
    fn order(&self) -> Ordering
        ensures { result ≡ outcome self.now [] }
    {
        self.order.then(if self.rest.is_empty() {
            Ordering::Equal
        } else {
            Ordering::Less
        })
    }

    /// Compares the next bytes.
    fn compare(&mut self, bytes: &[u8]) -> Result<(), SinkError>
        ensures compared { ComparedBytes self.old bytes.now self.new }
        ensures cause { HasCause (decisions self.old.order)
            (decisions self.new.order) false result }
    {
        if self.order != Ordering::Equal {
            return Ok(());
        }
        let (front, rest) = self.rest.split_at(bytes.len().min(self.rest.len()));
        self.rest = rest;
        self.order = bytes.cmp(front);
        if self.order != Ordering::Equal {
            return Err(SinkError::Fault);
        }
        Ok(())
    }
}

impl Sink for Comparing<'_> {
    ghost took = { Compared };

    ghost held = { λ _. None };

    ghost faults = { λ s. decisions s.order };

    ghost takes_memory = { λ _. false };

    ghost took_nothing = { Compared-nothing };

    ghost took_both = { Compared-both };

    ghost took_held = { λ a b t h p q. Prim.cc };

    ghost took_faults = { λ a b t p. p.later };

    ghost took_memory = { Prim.search rules };

    fn push_str(&mut self, piece: &str) -> Result<(), SinkError> {
        self.compare(piece.as_bytes())?;
        Ok(())
    }

    fn push_char(&mut self, c: char) -> Result<(), SinkError> {
        let mut buffer = [0; 4];
        self.compare(c.encode_utf8(&mut buffer).as_bytes())?;
        Ok(())
    }
}

/// The byte order of the value's text in UTF-8 against other bytes. It takes no memory, and ends at
/// the first difference.
pub fn cmp_utf8<W: Writeable>(writeable: &W, other: &[u8]) -> Ordering
    ensures { result ≡ slice_cmp nat_cmp (encode_utf8_all (W.text writeable.now)) other.now }
{
    let mut sink = Comparing::new(other);
    let _ = writeable.write_to(&mut sink);
    sink.order()
}

/// The byte order of the value's text in UTF-8 against that of another text.
pub fn cmp_str<W: Writeable>(writeable: &W, other: &str) -> Ordering
    ensures { result ≡ slice_cmp nat_cmp (encode_utf8_all (W.text writeable.now)) other.now }
{
    cmp_utf8(writeable, other.as_bytes())
}
