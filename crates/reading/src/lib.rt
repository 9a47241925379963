//! Sources read to their end, within a limit.
//!
//! [`read_all`] takes all bytes that a source has left, and no more than [`MOST_BYTES`]. It stops
//! at the first read that fails, so what it gives is the whole of the source's bytes.
//!
//! ```
//! let mut source = SliceSource::new(b"Salut");
//! let bytes = read_all(alloc, &mut source)?;
//! assert_eq!(bytes.as_slice(), b"Salut");
//! ```
//!
//! - `turns`: [`read_all`], a piece a turn.
//! - `error`: [`ReadError`], why a source wasn't read to its end.
#![tactic(auto)]

mod error;
mod turns;

pub use error::ReadError;
pub use turns::{MOST_BYTES, read_all};
