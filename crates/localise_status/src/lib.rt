//! How a run ends: its status, the exit status of that, and the line that tells of it.
//!
//! ```
//! let status = Status::DuplicateLocale(1);
//! assert_eq!(status.code(), 6);
//! write_fault_line(&status, &mut err)?;
//! assert_eq!(err.as_str(), "localise: bundle 1: locale of an earlier bundle\n");
//! ```
//!
//! - `status`: [`Status`], how a run ended, and its code.
//! - `fault_line`: the line that tells of a status.
#![tactic(auto)]

mod fault_line;
mod status;

pub use fault_line::write_fault_line;
pub use localise_document::{Field, Section, ShapePlace};
pub use status::{RequestCause, Status, TableCause};
