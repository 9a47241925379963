//! Reading a catalog from an MO file, with what overrules the file.
//!
//! - `layout`: what stands where in the bytes.
//! - `rows`: where the texts of each message stand.
//! - `options`: what is forced on a file.
//! - `settings`: what a file's metadata say of its texts and its plural rule.
//! - `decoding`: texts in other encodings than UTF-8.
//! - `sorting`: rows in the order of their keys.
//! - `reader`: a whole file, from bytes or a source.

mod decoding;
mod layout;
mod options;
mod reader;
mod rows;
mod settings;
mod sorting;

ghost use Rattle.std.specs.Prelude.{◌≡◌, ℕ, ◌<◌, ◌^◌, Some, None, Option, IfOk};
ghost use Rattle.gettext.specs.declared.error.Error.{Error};
ghost use Rattle.gettext.specs.Mo.{entries};
ghost use Rattle.gettext.specs.Options.{options_of};
ghost use Rattle.gettext.specs.Parse.{ParsesBytes, ParsesSource, held_in};

use crate::catalog::Catalog;
use crate::encoding::Encoding;
use crate::error::Error;
use crate::plurals::{FileRule, FormRule, PluralFunction};
use options::Options;
use reader::{table_of_bytes, table_of_source};
use std::alloc::Global;
use writeable_core::Source;

/// How a catalog is read: an encoding and a plural rule that count in place of the file's.
///
/// `P` is [`PluralFunction`] once a function is forced.
#[derive(Drop)]
pub struct ParseOptions<P = FileRule> {
    encoding: Option<Encoding>,
    plural: P,
}

impl<P: Drop> ParseOptions<P> {
    /// Every text of the file is in that encoding, whatever its metadata say.
    pub fn force_encoding(self, encoding: Encoding) -> Self
        ensures encoding { result.encoding ≡ Some encoding }
        ensures plural { result.plural ≡ self.plural }
    {
        ParseOptions {
            encoding: Some(encoding),
            plural: self.plural,
        }
    }

    /// The function gives the number of the form for each count, whatever the metadata say.
    pub fn force_plural(self, plural: fn(u64) -> usize) -> ParseOptions<PluralFunction>
        requires { (n : ℕ) → n < 2 ^ 64 → pre plural n }
        ensures encoding { result.encoding ≡ self.encoding }
        ensures plural { result.plural.plural ≡ plural }
    {
        ParseOptions {
            encoding: self.encoding,
            plural: PluralFunction::new(plural),
        }
    }
}

impl ParseOptions {
    /// Nothing is forced.
    pub fn new() -> ParseOptions
        ensures { result.encoding ≡ None }
    {
        ParseOptions {
            encoding: None,
            plural: FileRule,
        }
    }
}

impl<P: FormRule> ParseOptions<P> {
    /// As [`Catalog::parse`].
    pub fn parse<S: Source>(self, alloc: Global, source: &mut S) -> Result<Catalog<P>, Error>
        ensures read { ParsesSource S.left S.ended S.faults source.old source.new
            (held_in (λ catalog. catalog.entries) result) (options_of self.encoding P.forced) }
        ensures plural { IfOk result (λ catalog. catalog.plural ≡ self.plural) }
    {
        let entries = table_of_source(alloc, source, self.options())?;
        Ok(Catalog {
            entries,
            plural: self.plural,
        })
    }

    /// As [`Catalog::parse_bytes`].
    pub fn parse_bytes(self, alloc: Global, bytes: &[u8]) -> Result<Catalog<P>, Error>
        ensures read { ParsesBytes (held_in (λ catalog. catalog.entries) result) bytes.now
            (options_of self.encoding P.forced) }
        ensures plural { IfOk result (λ catalog. catalog.plural ≡ self.plural) }
    {
        let entries = table_of_bytes(alloc, bytes, self.options())?;
        Ok(Catalog {
            entries,
            plural: self.plural,
        })
    }

    /// What the reader is told: of a function that is forced, only that there is one.
    fn options(&self) -> Options
        ensures { result ≡ options_of self.now.encoding P.forced }
    {
        Options {
            encoding: self.encoding,
            forced: self.plural.is_forced(),
        }
    }
}
