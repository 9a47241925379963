//! Messages in the reader's language: MO files, and the look-up of messages in them.
//!
//! ```
//! let catalog = Catalog::parse_bytes(alloc, bytes)?;
//! assert_eq!(catalog.gettext("Hi"), "Salut");
//! assert_eq!(catalog.ngettext("%s file", "%s files", 2), "%s fichiers");
//! ```
//!
//! [`Catalog::parse`] reads a file that a source gives, and [`ParseOptions`] one with an
//! [`Encoding`] or a plural rule in place of the file's. [`Catalog::find`] tells a form's number
//! beside its text. The plural rule is an expression ([`Ast`]) in the file's metadata, or a
//! function ([`PluralFunction`]).
//!
//! - `catalog`: [`Catalog`] and its look-ups, the table behind them, and the law [`one_meaning`].
//! - `parser`: [`ParseOptions`], and the reader of MO files.
//! - `metadata`: [`parse_metadata`] and [`MetadataMap`], the fields of a file's metadata.
//! - `plurals`: [`Ast`], [`Resolver`] and [`PluralFunction`], how the number of a form follows from
//!   a count, and the law [`one_tree`].
//! - `encoding`: [`Encoding`], the encodings of texts and their labels.
//! - `error`: [`Error`], why a catalog could not be read.
//! - `spans`: ranges of a buffer, which the reader finds and the table keeps.
#![tactic(auto)]

mod catalog;
mod encoding;
mod error;
mod metadata;
mod parser;
mod plurals;
mod spans;

pub use catalog::{Catalog, Form, one_meaning};
pub use encoding::Encoding;
pub use error::Error;
pub use metadata::{MetadataMap, parse_metadata};
pub use parser::ParseOptions;
pub use plurals::{
    Ast, FileRule, FormRule, Operator, PluralFunction, Resolver, default_resolver, one_tree,
};
