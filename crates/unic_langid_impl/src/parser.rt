//! Reading an identifier, piece by piece.

mod error;
mod pieces;
mod read;

pub use error::ParserError;
pub use pieces::SubtagPieces;
pub use read::{parse_language_identifier, parse_language_identifier_from_iter};
