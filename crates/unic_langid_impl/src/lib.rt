//! Unicode language identifiers, as UTS 35 has them.
//!
//! A [`LanguageIdentifier`] has a language, or none (`und`), and may have a script, a region and
//! variants. It is read from bytes in any case and prints in canonical case; its subtags are small
//! values that are copied like numbers.
//!
//! ```
//! let identifier = LanguageIdentifier::from_bytes(alloc, b"eN_latn_Us-Valencia")?;
//! assert_eq!(identifier.script.map(|script| script.to_raw()), Some(1_853_120_844));
//! assert!(identifier.eq_str("en-Latn-US-valencia"));
//! ```
//!
//! - `identifier`: [`LanguageIdentifier`], its variants, order, printed text and JSON.
//! - `subtags`: the four subtags.
//! - `parser`: what reads an identifier, whole or from [`SubtagPieces`], and [`ParserError`].
//! - `likelysubtags`: [`LikelyTables`], made of rows that are handed in, and the maximal and
//!   minimal forms by them.
//! - `direction`: [`CharacterDirection`].
//! - `laws`: laws of these, for contracts that cite them.
#![tactic(auto)]

mod direction;
mod errors;
mod identifier;
pub mod laws;
pub mod likelysubtags;
pub mod parser;
pub mod subtags;

pub use direction::CharacterDirection;
pub use errors::LanguageIdentifierError;
pub use identifier::{IdJsonError, LanguageIdentifier, VariantsIter, canonicalize};
pub use likelysubtags::{LikelyError, LikelyRows, LikelyTables};
pub use parser::{ParserError, SubtagPieces};
