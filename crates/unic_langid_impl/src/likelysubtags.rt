//! Likely subtags (UTS 35): the subtags that most likely stand where none are
//! given.
//!
//! The tables are handed in, as rows of texts.

mod forms;
mod rows;
mod tables;

pub use forms::{maximize, minimize};
pub use rows::{LikelyError, LikelyRows};
pub use tables::LikelyTables;
