//! Language tags of BCP 47 (RFC 5646).
//!
//! A text is a tag where it is a grandfathered tag, begins with `x-`, or is a language with the
//! parts that may follow it. A tag prints in the case that the RFC recommends. Over a registry of
//! subtags a tag is valid or has a first fault, and has a canonical form.
//!
//! ```
//! let tag = LanguageTag::parse(alloc, "ZH-cmn-hans-cn")?;
//! assert_eq!(tag.as_str(), "zh-cmn-Hans-CN");
//! assert_eq!(tag.script(), Some("Hans"));
//! ```
//!
//! - `tag`: [`LanguageTag`], its parts, and what it matches.
//! - `extensions`: [`ExtensionsIterator`], the extensions of a tag one by one.
//! - `validity`: whether a tag is valid.
//! - `canonical`: the canonical form of a tag.
//! - `laws`: a law of canonical forms, for contracts above.
//! - `error`: [`TagJsonError`], why a JSON value is no tag, and [`ValidationError`].
//! - `part`: a part of a tag's text.
//!
//! The grammar stands in `language_tags_grammar`, and the registry in `language_tags_registry`;
//! this crate passes them on.
#![tactic(auto)]

mod canonical;
mod error;
mod extensions;
pub mod laws;
mod part;
mod tag;
mod validity;

pub use error::{TagJsonError, ValidationError};
pub use extensions::ExtensionsIterator;
pub use language_tags_grammar::{GRANDFATHEREDS, ParseError, SubtagsIter, texts_and_tags};
pub use language_tags_registry::{
    LanguageSubtag, RegionSubtag, Registry, RegistryError, RegistryRows, RegistryTable,
    ScriptSubtag, SubtagError,
};
pub use tag::LanguageTag;
