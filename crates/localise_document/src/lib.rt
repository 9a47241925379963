//! Documents: what is handed in to localise, read from JSON (RFC 8259).
//!
//! ```
//! let document = read_document(alloc, bytes)?;
//! for request in document.requests.iter() {
//!     println!(rt; "{}", request.singular)?;
//! }
//! ```
//!
//! A document is an object of tables, bundles, the root's patterns of lists and requests. What
//! isn't one is refused by its first misshapen place, in the order in which a document is read.
//!
//! - `document`: [`read_document`] and [`Document`].
//! - `error`: [`DocumentError`], why bytes give no document.
//! - `place`: [`ShapePlace`], where a value is misshapen, with its [`Section`] and [`Field`].
//! - `bundles`, `patterns`, `requests`, `tables`: what a document has, each from a value.
//! - `rows`: lists of rows, or their first misshapen one.
//! - `values`: texts, numbers and lists of texts.
//! - `members`: the members of an object, by name.
//! - `laws`: a document as plain facts on its members.
#![tactic(auto)]

mod bundles;
mod document;
mod error;
pub mod laws;
mod members;
mod patterns;
mod place;
mod requests;
mod rows;
mod tables;
mod values;

pub use document::{Document, read_document};
pub use error::DocumentError;
pub use place::{Field, Section, ShapePlace};
