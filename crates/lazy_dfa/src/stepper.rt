//! Stepping through a text.

ghost use Rattle.std.specs.Prelude.{◌≡◌, ◌↔◌, ◌++◌, ◌∷◌, [], ℕ, List, false, None};
ghost use Rattle.std.specs.Prelude.{OnErr, OnOk, IsTrue, MatchResult};
ghost use Rattle.std.specs.Str.{chars};
ghost use Rattle.std.proofs.Common.{rules};
ghost use Rattle.lazy_dfa.specs.Expression.{Expression};
ghost use Rattle.lazy_dfa.specs.Machine.{IsFor};
ghost use Rattle.lazy_dfa.specs.Meaning.{early, holds};
ghost use Rattle.lazy_dfa.specs.Stepping.{Decided, Decides, HasRead, Took};
ghost use Rattle.lazy_dfa.specs.Progress.{begun};
ghost use Rattle.lazy_dfa.specs.SteppingLaws.{Took-nothing, Took-both};
ghost use Rattle.writeable_core.specs.Sink.{TookPrefix, HasCause, Rose};

use crate::matcher::{Matcher, Place};
use std::marker::Model;
use writeable_core::{Sink, SinkError};

/// A sink that steps through a text, piece by piece, without memory. It faults where the condition
/// is decided, and takes nothing from then on.
#[derive(Drop)]
pub struct Stepper<'a> {
    matcher: &'a Matcher,
    /// What the text so far reaches.
    place: Place,
    refusals: u64,
}

impl<'a> Model for Stepper<'a> {
    ghost use Rattle.lazy_dfa.specs.Progress.{Progress};
    ghost use Rattle.lazy_dfa.specs.States.{HasTable, IsAt, machine};

    ghost Value = { Progress };

    ghost view = { λ s.
        record {
          machine = machine s.matcher.now;
          reached = s.place.reached;
          refusals = s.refusals;
        } };

    ghost invariant = { λ s.
        HasTable (machine s.matcher.now) s.matcher.now.table
        × IsAt s.matcher.now.table s.place };
}

impl Stepper<'_> {
    ghost use Rattle.lazy_dfa.specs.States.{HasTable, machine};

    pub(crate) fn new(matcher: &Matcher) -> Stepper<'_>
        requires { HasTable (machine matcher.now) matcher.now.table }
        ensures { result ≡ begun (machine matcher.now) }
    {
        Stepper {
            matcher,
            place: Place::START,
            refusals: 0,
        }
    }

    /// Whether the condition holds on the text that was pushed. A decided answer stays.
    pub fn answer(&self) -> bool
        ensures holds { (c : Expression) (u : List ℕ) →
            IsFor self.now.machine c → HasRead c u self.now → IsTrue result ↔ holds c u }
        ensures decided { (c : Expression) (u : List ℕ) →
            IsFor self.now.machine c → HasRead c u self.now → Decided c u →
            IsTrue result ↔ early c u }
    {
        self.matcher.holds_at(self.place.reached)
    }

    fn is_decided(&self) -> bool
        ensures { (c : Expression) (u : List ℕ) →
            IsFor self.now.machine c → HasRead c u self.now → IsTrue result ↔ Decided c u }
    {
        self.matcher.is_decided(self.place.reached)
    }
}

impl Stepper<'_> {
    /// Counts a refused push: the condition is decided.
    fn refuse(&mut self) -> SinkError
        requires { (c : Expression) (u : List ℕ) →
            IsFor self.old.machine c → HasRead c u self.old → Decided c u }
        ensures fault { result ≡ SinkError.Fault }
        ensures took { Took self.old [] self.new }
        ensures rose { Rose self.old.refusals self.new.refusals }
    {
        self.refusals = self.refusals.saturating_add(1);
        SinkError::Fault
    }

    /// Takes a character. It is refused where it decides the condition.
    fn advance(&mut self, c: char) -> Result<(), SinkError>
        requires { (e : Expression) (u : List ℕ) →
            IsFor self.old.machine e → HasRead e u self.old → Decided e u → ⊥ }
        ensures took { Took self.old (c ∷ []) self.new }
        ensures kept { OnOk result (self.new.refusals ≡ self.old.refusals) }
        ensures undecided { OnOk result ((e : Expression) (u : List ℕ) →
            IsFor self.new.machine e → HasRead e u self.new → Decided e u → ⊥) }
        ensures cause { HasCause self.old.refusals self.new.refusals false result }
        ensures decides { (e : Expression) (u : List ℕ) →
            IsFor self.old.machine e → HasRead e u self.old →
            MatchResult result
            (λ _. Decided e (u ++ c ∷ []) → ⊥) (λ _. Decided e (u ++ c ∷ [])) }
    {
        self.place = self.matcher.advance(self.place, c);
        if self.is_decided() {
            return Err(self.refuse());
        }
        Ok(())
    }
}

impl Sink for Stepper<'_> {
    ghost took = { Took };

    ghost held = { λ _. None };

    ghost faults = { λ s. s.refusals };

    ghost takes_memory = { λ _. false };

    ghost took_nothing = { Took-nothing };

    ghost took_both = { Took-both };

    ghost took_held = { λ a b t h p q. Prim.cc };

    ghost took_faults = { λ a b t p. p.later };

    ghost took_memory = { Prim.search rules };

    fn push_str(&mut self, piece: &str) -> Result<(), SinkError>
        ensures ok { OnOk result (Took self.old (chars piece.now) self.new) }
        ensures err { OnErr result (TookPrefix Took self.old (chars piece.now) self.new) }
        ensures cause { HasCause self.old.refusals self.new.refusals false result }
        ensures decides { (e : Expression) (u : List ℕ) →
            IsFor self.old.machine e → HasRead e u self.old →
            Decides e u (chars piece.now) self.old result self.new }
    {
        if self.is_decided() {
            return Err(self.refuse());
        }
        for c in piece.chars() {
            self.advance(c)?;
        }
        Ok(())
    }

    fn push_char(&mut self, c: char) -> Result<(), SinkError>
        ensures ok { OnOk result (Took self.old (c ∷ []) self.new) }
        ensures err { OnErr result (TookPrefix Took self.old (c ∷ []) self.new) }
        ensures cause { HasCause self.old.refusals self.new.refusals false result }
        ensures decides { (e : Expression) (u : List ℕ) →
            IsFor self.old.machine e → HasRead e u self.old →
            Decides e u (c ∷ []) self.old result self.new }
    {
        if self.is_decided() {
            return Err(self.refuse());
        }
        self.advance(c)
    }
}
