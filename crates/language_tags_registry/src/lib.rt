//! The registry of language subtags (RFC 5646, section 3.1), as tables that are handed in.
//!
//! ```
//! let registry = Registry::try_new(alloc, &rows)?;
//! assert_eq!(registry.get(RegistryTable::RegionsPreferred, "DD"), Some("DE"));
//! assert!(ScriptSubtag::from_str("latn").is_err());
//! ```
//!
//! Each subtag stands in canonical case. A look-up takes no memory, and the time of the logarithm
//! of its table's length.
//!
//! - `registry`: [`Registry`], the tables.
//! - `rows`: [`RegistryRows`], the rows that a registry is made from.
//! - `kind`: [`RegistryTable`], the names of the tables, and what each asks of its rows.
//! - `table`: a table.
//! - `subtags`: [`LanguageSubtag`], [`ScriptSubtag`] and [`RegionSubtag`].
//! - `error`: [`RegistryError`] and [`SubtagError`].
//! - `laws`: what rows have for faults.
#![tactic(auto)]

mod error;
mod kind;
pub mod laws;
mod registry;
mod rows;
mod subtags;
mod table;

pub use error::{RegistryError, SubtagError};
pub use kind::RegistryTable;
pub use registry::Registry;
pub use rows::RegistryRows;
pub use subtags::{LanguageSubtag, RegionSubtag, ScriptSubtag};
