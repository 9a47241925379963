//! Calls of `localise_document`, `localise` and `localise_run`.
//!
//! - `documents`: documents, and localisers and requests as members of one.
//! - `contents`: the call of `localise_document`.
//! - `localising`: calls of `localise`.
//! - `refusals`: refusals by their names.
//! - `program`: calls of `localise_run`.
#![tactic(auto)]

pub mod contents;
mod documents;
pub mod localising;
pub mod program;
mod refusals;
