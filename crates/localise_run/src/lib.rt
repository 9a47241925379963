//! The program's runs: a document in, one localised line per request out.
//!
//! [`run`] is the call that the program makes: it reads the document from a source and appends the
//! lines to an output. Its answer, a [`Status`], is the program's exit status too, and all but
//! `Done` are told on a second output in one line.
//!
//! ```
//! let mut source = SliceSource::new(document);
//! let mut out = StringSink::new(alloc);
//! let mut err = StringSink::new(alloc);
//! let status = run(alloc, &words, &mut source, &mut out, &mut err);
//! assert_eq!(status.code(), 0);
//! assert_eq!(out.as_str(), "Salut\n");
//! ```
//!
//! - `running`: [`run`], from words and a source to a status, and [`run_and_flush`], over an output
//!   that is flushed behind it.
//! - `command`: [`Command`], what words ask for.
//! - `prepare`: what all commands do first: the document, its tables, its bundles.
//! - `render`, `walk`, `generate`: what each command makes of a document's requests.
//! - `laws`: an input has one answer.
//!
//! Statuses and the lines that tell of them stand in `localise_status`; this crate passes them on.
#![tactic(auto)]

mod command;
mod generate;
pub mod laws;
mod prepare;
mod render;
mod running;
mod tags;
mod walk;

pub use command::Command;
pub use localise_status::{
    Field, RequestCause, Section, ShapePlace, Status, TableCause, write_fault_line,
};
pub use running::{run, run_and_flush};
