//! The locale that a language tag asks for.
//!
//! A tag is read (RFC 5646), put into its canonical form over a registry, and cut before its
//! extensions. What is left is an identifier (UTS 35), whose subtags are the locale's; of several
//! variants the least in text order is kept.
//!
//! ```
//! let tables = Tables { registry, fallbacker };
//! let locale = wanted(alloc, &tables, "en-x-twain")?;
//! assert_eq!(locale, DataLocale::try_from_str("en")?);
//! ```
//!
//! - `tag`: [`wanted`], the locale of a tag.
//! - `tables`: [`Tables`], what tags and locales are looked up in.
//! - `subtags`: an identifier's subtags as those of a locale.
//! - `error`: [`TagCause`], why a tag has no locale.
//! - `laws`: laws of wanted locales, for contracts above.
#![tactic(auto)]

mod error;
pub mod laws;
mod subtags;
mod tables;
mod tag;

pub use error::TagCause;
pub use tables::Tables;
pub use tag::wanted;
