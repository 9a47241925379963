//! The grammar of language tags (RFC 5646, section 2.1), over texts that are read in place.
//!
//! A text is a tag where it is a grandfathered tag, begins with `x-`, or is a language with the
//! parts that may follow it. Nothing here takes memory but the case of a tag.
//!
//! ```
//! assert!(is_tag("ZH-cmn-hans-cn"));
//! assert!(is_printed_tag("zh-cmn-Hans-CN"));
//! assert!(!is_tag("x--"));
//! ```
//!
//! - `texts`: [`is_tag`] and [`is_printed_tag`], whether a text is a tag, and in its own case.
//! - `error`: [`ParseError`], why a text is no tag.
//! - `subtags`: [`SubtagsIter`], the subtags of a text one by one.
//! - `grandfathered`: [`GRANDFATHEREDS`], the tags that are kept as they are, and
//!   [`is_grandfathered`].
//! - `laws`: [`texts_and_tags`], what holds of every text and its tag.
//! - `scan`, `ends`, `private_use`: the scanner, which says where the parts of a text end, or its
//!   first fault.
//! - `case`, `characters`: the case of a tag, and of which characters a text is.
#![tactic(auto)]

pub mod case;
pub mod characters;
pub mod ends;
mod error;
pub mod grandfathered;
mod laws;
pub mod private_use;
pub mod scan;
mod stage;
mod subtags;
mod texts;

pub use error::ParseError;
pub use grandfathered::{GRANDFATHEREDS, is_grandfathered};
pub use laws::texts_and_tags;
pub use subtags::SubtagsIter;
pub use texts::{is_printed_tag, is_tag};
