//! Small ASCII texts that lie in the value itself.
//!
//! A [`TinyStr<N>`](TinyStr) is a text of at most `N` bytes, as a subtag of a locale is: copied
//! like a number, compared, ordered and hashed as its text.
//!
//! ```
//! let script = TinyStr::<4>::try_from_bytes(b"LATN")?;
//! assert_eq!(script.to_ascii_titlecase().as_str(), "Latn");
//! assert_eq!(
//!     TinyStr::<4>::try_from_bytes(b"Latin"),
//!     Err(TinyError::TooLarge)
//! );
//! ```
//!
//! No call takes memory.
//!
//! - `tiny_str`: [`TinyStr`].
//! - `error`: [`TinyError`], why bytes are no such text.
//! - `shapes`: tests of the shapes of subtags, of which crates above make their types.
#![tactic(auto)]

mod error;
pub mod shapes;
mod tiny_str;

pub use error::TinyError;
pub use tiny_str::TinyStr;
