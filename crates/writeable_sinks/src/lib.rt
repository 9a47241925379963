//! Sinks and sources of the crate `writeable` that its ground doesn't need: of a fixed size,
//! counting, scripted, for marked texts, and over std's writers and readers.
//!
//! ```
//! let mut sink = FixedSink::<8>::new();
//! assert!(sink.push_str("Salut").is_ok());
//! assert!(sink.push_str(", Ana").is_err());
//! assert_eq!(sink.as_str(), "Salut");
//! ```
//!
//! - `count_sink`: [`CountSink`] counts bytes.
//! - `fixed_sink`: [`FixedSink`] holds a text in an array of its own, and takes no memory.
//! - `flush_sink`: [`FlushSink`] is for sinks that may hold back what they take.
//! - `laws`: what a [`PartsSink`] holds, as laws that contracts may cite.
//! - `parts_sink`: [`PartsSink`] holds a marked text, and where its parts lie.
//! - `script_sink`, `script_source`: [`ScriptSink`] and [`ScriptSource`] fail at the calls that
//!   they are told, for tests of what happens then.
//! - `standard`: [`StdSink`] and [`StdSource`] are over std's writers and readers.
#![tactic(auto)]

mod count_sink;
mod fixed_sink;
mod flush_sink;
mod laws;
mod parts_sink;
mod script_sink;
mod script_source;
mod standard;

pub use count_sink::CountSink;
pub use fixed_sink::FixedSink;
pub use flush_sink::FlushSink;
pub use laws::spans_are_those_of_the_marks;
pub use parts_sink::{PartSpan, PartsSink};
pub use script_sink::ScriptSink;
pub use script_source::ScriptSource;
pub use standard::{StdSink, StdSource};
