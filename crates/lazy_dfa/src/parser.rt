//! Reading a condition into an automaton.

use crate::automaton::Automaton;
use crate::characters::{behind, item, single};
use crate::part::Part;
use std::alloc::AllocError;

/// A part of a condition, and what stands behind it.
#[derive(Clone, Copy)]
pub struct Parsed<'a> {
    pub part: Part,
    pub rest: &'a [char],
}

/// Why a condition was not read.
#[derive(Clone, Copy)]
pub enum Stop {
    NoMemory,
    /// No part goes on where so many characters are left.
    Left(usize),
}

impl From<AllocError> for Stop {
    ghost use Rattle.std.specs.Prelude.{◌≡◌};
    ghost use Rattle.lazy_dfa.specs.declared.parser.Stop.TheVariants.{NoMemory};

    ghost from_gives = { λ _ e. e ≡ NoMemory };

    fn from(_error: AllocError) -> Stop {
        Stop::NoMemory
    }
}

impl Automaton {
    ghost use Rattle.std.specs.Prelude.{◌≡◌, ◌+◌, ◌≤◌, ◌<◌, length, None, Some};
    ghost use Rattle.lazy_dfa.specs.Building.{ReadsClass, ReadsItems, ReadsOne, ReadsRun, Repeats};
    ghost use Rattle.lazy_dfa.specs.Compiled.{IsFresh};
    ghost use Rattle.lazy_dfa.specs.Parsing.{Alternatives, Parts, atom_at, behind, rep_at};

    /// Sequences with `|` between them: the longest that the text begins with.
    #[cycle(parser)]
    pub fn alternatives<'a>(&mut self, text: &'a [char]) -> Result<Parsed<'a>, Stop>
        requires fresh { IsFresh self.old }
        requires room { self.old.size + length text.now ≤ 64 }
        ensures { ReadsRun Alternatives text.now self.old self.new result }
    {
        let first = self.sequence(text)?;
        let Some(rest) = behind(first.rest, '|') else {
            return Ok(first);
        };
        let others = self.alternatives(rest)?;
        Ok(Parsed {
            part: first.part.or(others.part),
            rest: others.rest,
        })
    }

    /// Repetitions, one behind the other.
    #[cycle(parser)]
    fn sequence<'a>(&mut self, text: &'a [char]) -> Result<Parsed<'a>, Stop>
        requires fresh { IsFresh self.old }
        requires room { self.old.size + length text.now ≤ 64 }
        ensures { ReadsRun Parts text.now self.old self.new result }
    {
        let Some(first) = self.repetition(text)? else {
            return Ok(Parsed {
                part: Part::nothing(),
                rest: text,
            });
        };
        let others = self.sequence(first.rest)?;
        self.link(first.part.last, others.part.first);
        Ok(Parsed {
            part: first.part.then(others.part),
            rest: others.rest,
        })
    }

    /// An atom with what follows it, or a `$`, where the text begins with one.
    #[cycle(parser)]
    fn repetition<'a>(&mut self, text: &'a [char]) -> Result<Option<Parsed<'a>>, Stop>
        requires fresh { IsFresh self.old }
        requires room { self.old.size + length text.now ≤ 64 }
        ensures { ReadsOne rep_at text.now self.old self.new result }
    {
        if let Some(rest) = behind(text, '$') {
            let part = Part::end();
            return Ok(Some(Parsed { part, rest }));
        }
        let Some(atom) = self.atom(text)? else {
            return Ok(None);
        };
        Ok(Some(self.repeated(atom)))
    }

    /// An atom, where the text begins with one.
    #[cycle(parser)]
    fn atom<'a>(&mut self, text: &'a [char]) -> Result<Option<Parsed<'a>>, Stop>
        requires fresh { IsFresh self.old }
        requires room { self.old.size + length text.now ≤ 64 }
        ensures { ReadsOne atom_at text.now self.old self.new result }
    {
        if let Some(inside) = behind(text, '(') {
            return self.group(text, inside);
        }
        if let Some(items) = behind(text, '[') {
            return self.class(text, items);
        }
        let Some((negated, first, last, rest)) = single(text) else {
            return Ok(None);
        };
        self.add_range(first, last)?;
        let part = self.add_atom(negated);
        Ok(Some(Parsed { part, rest }))
    }

    /// A group, behind its opening parenthesis.
    #[cycle(parser)]
    fn group<'a>(
        &mut self,
        text: &'a [char],
        inside: &'a [char],
    ) -> Result<Option<Parsed<'a>>, Stop>
        requires fresh { IsFresh self.old }
        requires room { self.old.size + length text.now ≤ 64 }
        requires opened { behind 40 text.now ≡ Some inside.now }
        ensures { ReadsOne atom_at text.now self.old self.new result }
    {
        let inner = match self.alternatives(inside) {
            Ok(inner) => inner,
            Err(Stop::NoMemory) => return Err(Stop::NoMemory),
            Err(Stop::Left(_)) => return Err(Stop::Left(text.len())),
        };
        let Some(rest) = behind(inner.rest, ')') else {
            return Err(Stop::Left(text.len()));
        };
        let part = inner.part;
        Ok(Some(Parsed { part, rest }))
    }

    /// A class, behind its opening bracket.
    fn class<'a>(&mut self, text: &'a [char], items: &'a [char]) -> Result<Option<Parsed<'a>>, Stop>
        requires fresh { IsFresh self.old }
        requires room { self.old.size + length text.now ≤ 64 }
        requires no_group { behind 40 text.now ≡ None }
        requires opened { behind 91 text.now ≡ Some items.now }
        ensures { ReadsOne atom_at text.now self.old self.new result }
    {
        match behind(items, '^') {
            Some(others) => self.class_of(text.len(), true, others),
            None => self.class_of(text.len(), false, items),
        }
    }

    /// A class from its first item on, where so many characters are left before it.
    fn class_of<'a>(
        &mut self,
        left: usize,
        negated: bool,
        items: &'a [char],
    ) -> Result<Option<Parsed<'a>>, Stop>
        requires fresh { IsFresh self.old }
        requires room { self.old.size < 64 }
        ensures { ReadsClass left negated items.now self.old self.new result }
    {
        let Some(rest) = self.items(items)? else {
            return Err(Stop::Left(left));
        };
        let part = self.add_atom(negated);
        Ok(Some(Parsed { part, rest }))
    }

    /// The items of a class as ranges of the next atom, and what stands behind the closing bracket.
    fn items<'a>(&mut self, text: &'a [char]) -> Result<Option<&'a [char]>, AllocError>
        requires { self.old.size < 64 }
        ensures { ReadsItems text.now self.old self.new result }
    {
        let Some((first, last, rest)) = item(text) else {
            return Ok(None);
        };
        self.add_range(first, last)?;
        match behind(rest, ']') {
            Some(rest) => Ok(Some(rest)),
            None => self.items(rest),
        }
    }

    /// An atom with the `*`, `+` or `?` that follows it, if one does.
    fn repeated<'a>(&mut self, atom: Parsed<'a>) -> Parsed<'a>
        ensures { Repeats self.old atom.entry self.new result }
    {
        if let Some(rest) = behind(atom.rest, '*') {
            self.link(atom.part.last, atom.part.first);
            let part = atom.part.optional();
            return Parsed { part, rest };
        }
        if let Some(rest) = behind(atom.rest, '+') {
            self.link(atom.part.last, atom.part.first);
            let part = atom.part;
            return Parsed { part, rest };
        }
        if let Some(rest) = behind(atom.rest, '?') {
            let part = atom.part.optional();
            return Parsed { part, rest };
        }
        atom
    }
}
