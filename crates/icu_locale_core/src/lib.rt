//! The locale that data is looked up by, and its subtags.
//!
//! A [`DataLocale`] has five subtags, of which only the language is always there, and prints as
//! `sr-Latn-ME` or `en-US-u-sd-usca`.
//!
//! ```
//! let locale = DataLocale::try_from_str("sr-Latn-ME")?;
//! assert_eq!(locale.language.as_str(), "sr");
//! assert_eq!(locale.region, Some(Region::try_from_str("ME")?));
//! assert_eq!(locale.strict_cmp(b"sr-Latn-ME"), Ordering::Equal);
//! assert!(DataLocale::default().is_unknown());
//! ```
//!
//! Each subtag is a small text of its shape in canonical case. Every value is copied like a
//! number, and no call takes memory.
//!
//! - `data`: [`DataLocale`], how it is read, printed and compared.
//! - `subtags`: [`Language`], [`Script`], [`Region`], [`Variant`] and [`Subtag`].
//! - `error`: [`LocaleError`], why a text is no subtag or no locale.
//! - `laws`: one locale for each printed text, and what `==` means.
//! - `parser`: the subtags at the front of a text.
#![tactic(auto)]

mod data;
mod error;
pub mod laws;
mod parser;
pub mod subtags;

pub use data::DataLocale;
pub use error::LocaleError;
pub use subtags::{Language, Region, Script, Subtag, Variant};
