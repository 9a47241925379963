//! Conditions: reading a pattern, and what holds of a text.

ghost use Rattle.std.specs.Prelude.{◌≡◌, ◌↔◌, ◌≤◌, false, true, length, take, IfErr, IfOk, IsTrue};
ghost use Rattle.std.specs.Str.{chars};

use crate::automaton::{Automaton, MOST};
use crate::characters::behind;
use crate::error::ConditionError;
use crate::matcher::Matcher;
use crate::parser::Stop;
use crate::stepper::Stepper;
use std::alloc::{AllocError, Global};
use std::marker::Model;
use writeable_core::Writeable;

/// As many characters as tell whether a pattern is too long.
const ROOM: usize = 66;

/// A condition on texts.
#[derive(Drop)]
pub struct Condition {
    matcher: Matcher,
}

impl Model for Condition {
    ghost use Rattle.lazy_dfa.specs.Machine.{Machine};
    ghost use Rattle.lazy_dfa.specs.States.{HasTable, machine};

    ghost Value = { Machine };

    ghost view = { λ c. machine c.matcher };

    ghost invariant = { λ c. HasTable (machine c.matcher) c.matcher.table };
}

impl Condition {
    ghost use Rattle.lazy_dfa.specs.Expression.{Expression};
    ghost use Rattle.lazy_dfa.specs.Machine.{IsFor};
    ghost use Rattle.lazy_dfa.specs.Meaning.{holds};
    ghost use Rattle.lazy_dfa.specs.Progress.{begun};
    ghost use Rattle.lazy_dfa.specs.Refusals.{HasManyStates, IsRefused, IsUnread, condition};
    ghost use Rattle.lazy_dfa.specs.Syntax.{alt};

    /// The condition that a pattern is.
    pub fn new(alloc: Global, pattern: &str) -> Result<Condition, ConditionError>
        ensures ok { IfOk result
            (λ c. (e : Expression) × condition (chars pattern.now) e × IsFor c e) }
        ensures err { IfErr result (IsRefused (chars pattern.now)) }
    {
        let mut characters = ['\0'; ROOM];
        let count = copied(pattern, &mut characters);
        let Some(text) = behind(&characters[..count], '^') else {
            return Err(ConditionError::NotAnchored);
        };
        if text.len() > MOST {
            return Err(ConditionError::TooLong);
        }
        Condition::compiled(alloc, text)
    }

    /// Whether the condition holds on a text. It takes no memory, and the text is written no
    /// further than where that is decided.
    pub fn matches<W: Writeable>(&self, text: &W) -> bool
        ensures { (e : Expression) → IsFor self.now e → IsTrue result ↔ holds e (W.text text.now) }
    {
        let mut stepper = self.stepper();
        let _ = text.write_to(&mut stepper);
        stepper.answer()
    }

    /// A sink that steps through a text.
    pub fn stepper(&self) -> Stepper<'_>
        ensures { result ≡ begun self.now }
    {
        Stepper::new(&self.matcher)
    }

    /// Makes a table of the states that texts reach, by which a step is a look-up. False where they
    /// are more than 256: then stepping goes on without one. No answer of the condition changes.
    #[tactic(auto, using(crate::proofs::FewStates::few_with, crate::proofs::FewStates::few_made))]
    pub fn determinise(&mut self, alloc: Global) -> Result<bool, AllocError>
        ensures kept { self.new ≡ self.old }
        ensures many { IfOk result (λ used. used ≡ false →
            (e : Expression) → IsFor self.old e → HasManyStates e) }
        ensures few { IfOk result (λ used. used ≡ true →
            (e : Expression) → IsFor self.old e → HasManyStates e → ⊥) }
    {
        if self.matcher.table.is_some() {
            return Ok(true);
        }
        let table = self.matcher.tabled(alloc)?;
        let used = table.is_some();
        self.matcher.table = table;
        Ok(used)
    }

    /// The condition that stands behind `^`.
    fn compiled(alloc: Global, text: &[char]) -> Result<Condition, ConditionError>
        requires { length text.now ≤ 64 }
        ensures ok { IfOk result (λ c. (e : Expression) × alt text.now e × IsFor c e) }
        ensures err { IfErr result (IsUnread text.now) }
    {
        let mut automaton = Automaton::new(alloc);
        let parsed = match automaton.alternatives(text) {
            Ok(parsed) => parsed,
            Err(Stop::NoMemory) => return Err(ConditionError::NoMemory),
            Err(Stop::Left(left)) => return Err(ConditionError::Syntax(text.len() - left)),
        };
        if !parsed.rest.is_empty() {
            return Err(ConditionError::Syntax(text.len() - parsed.rest.len()));
        }
        let whole = parsed.part;
        let matcher = Matcher {
            automaton,
            whole,
            table: None,
        };
        Ok(Condition { matcher })
    }
}

/// Copies the first characters of a pattern, and tells how many.
fn copied(pattern: &str, characters: &mut [char; ROOM]) -> usize
    ensures room { result ≤ 66 }
    ensures copied { take result characters.new ≡ take 66 (chars pattern.now) }
{
    let mut count = 0;
    for c in pattern.chars() {
        if count == ROOM {
            return count;
        }
        characters[count] = c;
        count += 1;
    }
    count
}
