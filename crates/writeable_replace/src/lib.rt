//! A text in which each occurrence of another is replaced, written as it comes.
//!
//! ```
//! let text = Replace {
//!     source: Text("10 22 1101"),
//!     needle: "10",
//!     replacement: 44u8,
//! };
//! assert_eq!(text.write_to_string(alloc)?.as_str(), "44 22 1441");
//! ```
//!
//! - `replace`: [`Replace`], a value that writes its text so, and [`write_replaced`].
//! - `replacing`: the sink that a source writes to, over the sink that takes its text replaced.
//! - `matching`: how much of an occurrence is matched, from one character to the next.
//! - `hints`: [`replaced_hint`], the hint of such a text.
#![tactic(auto)]

mod hints;
mod matching;
mod replace;
mod replacing;

pub use hints::replaced_hint;
pub use replace::{Replace, write_replaced};
