ghost use Rattle.std.specs.Prelude.{◌≡◌, ◌≢◌, ◌↔◌, ◌∷◌, ◌++◌, ℕ, List, Some, IsTrue, IfOk, IfErr};
ghost use Rattle.std.specs.Prelude.{MatchOption, drop};
ghost use Rattle.std.specs.Option.{option_copied};
ghost use Rattle.std.specs.Str.{byte};
ghost use Rattle.unic_langid_impl.specs.Identifier.{Identifier, print};
ghost use Rattle.unic_langid_impl.specs.Faults.{IsFaultOf};
ghost use Rattle.unic_langid_impl.specs.Pieces.{first_piece};
ghost use Rattle.unic_langid_impl.specs.Reading.{id_of};

use crate::subtags::{Region, Script, Variant};
use crate::{LanguageIdentifier, LanguageIdentifierError};
use std::alloc::Global;
use std::fmt;
use std::marker::Model;
use writeable_core::OwnedText;

/// The printed identifier that these bytes are.
pub fn canonicalize(alloc: Global, input: &[u8]) -> Result<OwnedText, LanguageIdentifierError>
    ensures ok { IfOk result (λ text. (i : Identifier) × id_of input.now i × (text ≡ print i)) }
    ensures err { IfErr result (IsFaultOf input.now) }
{
    let identifier = LanguageIdentifier::from_bytes(alloc, input)?;
    match identifier.to_string(alloc) {
        Ok(text) => Ok(OwnedText::from_string(text)),
        Err(_) => Err(LanguageIdentifierError::NoMemory),
    }
}

impl LanguageIdentifier {
    /// Whether this is the printed text.
    pub fn eq_str(&self, other: &str) -> bool
        ensures { IsTrue result ↔ (other.now ≡ print self.now) }
    {
        let language = self.language.as_str().as_bytes();
        let Some(mut rest) = behind_prefix(other.as_bytes(), language) else {
            return false;
        };
        let mut subtags = Behind::of(self);
        while let Some(subtag) = subtags.next() {
            match behind_subtag(rest, subtag.as_bytes()) {
                Some(behind) => rest = behind,
                None => return false,
            }
        }
        rest.is_empty()
    }
}

/// What stands behind the prefix, where the text begins with it.
fn behind_prefix<'a>(text: &'a [u8], prefix: &[u8]) -> Option<&'a [u8]>
    ensures { MatchOption result ((rest : List ℕ) → text.now ≢ prefix.now ++ rest)
        (λ rest. text.now ≡ prefix.now ++ rest.now) }
{
    text.strip_prefix(prefix)
}

/// What stands behind `-` and the subtag, where the text begins with them.
fn behind_subtag<'a>(text: &'a [u8], subtag: &[u8]) -> Option<&'a [u8]>
    ensures { MatchOption result ((rest : List ℕ) → text.now ≢ byte "-" ∷ (subtag.now ++ rest))
        (λ rest. text.now ≡ byte "-" ∷ (subtag.now ++ rest.now)) }
{
    match text {
        [b'-', rest @ ..] => behind_prefix(rest, subtag),
        _ => None,
    }
}

impl fmt::Display for LanguageIdentifier {
    ghost output = { λ i. Some (print i) };

    fn fmt<W: fmt::Write>(&self, f: &mut fmt::Formatter<W>) -> fmt::Result {
        f.write_str(self.language.as_str())?;
        let mut subtags = Behind::of(self);
        while let Some(subtag) = subtags.next() {
            f.write_str("-")?;
            f.write_str(subtag)?;
        }
        Ok(())
    }
}

/// The subtags behind the language that are left. Contracts see the list of their texts.
#[derive(Drop)]
struct Behind<'a> {
    script: Option<&'a Script>,
    region: Option<&'a Region>,
    variants: &'a [Variant],
}

impl<'a> Model for Behind<'a> {
    ghost use Rattle.std.specs.Prelude.{ℕ, List, ◌++◌};
    ghost use Rattle.std.specs.Option.{option_copied};
    ghost use Rattle.unic_langid_impl.specs.Identifier.{part};

    ghost Value = { List (List ℕ) };

    ghost view = { λ s. part (option_copied s.script)
        ++ (part (option_copied s.region) ++ s.variants.now) };
}

impl<'a> Behind<'a> {
    ghost use Rattle.unic_langid_impl.specs.Printing.{behind_language};

    fn of(identifier: &'a LanguageIdentifier) -> Behind<'a>
        ensures { result ≡ behind_language identifier.now }
    {
        Behind {
            script: identifier.script.as_ref(),
            region: identifier.region.as_ref(),
            variants: identifier.variants.as_slice(),
        }
    }

    /// Takes the next one.
    fn next(&mut self) -> Option<&'a str>
        ensures first { option_copied result ≡ first_piece self.old }
        ensures left { self.new ≡ drop 1 self.old }
    {
        if let Some(script) = self.script.take() {
            return Some(script.as_str());
        }
        if let Some(region) = self.region.take() {
            return Some(region.as_str());
        }
        let (first, others) = self.variants.split_first()?;
        self.variants = others;
        Some(first.as_str())
    }
}
