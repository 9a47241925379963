//! Texts that values write, and the outside that they are written to and read from.
//!
//! A [`Writeable`] value means one text and writes it, piece by piece, to a [`Sink`], without
//! making it in memory first.
//!
//! ```
//! let page = concat_writeable!(Text("page "), 7u8);
//! let mut sink = StringSink::new(alloc);
//! page.write_to(&mut sink)?;
//! assert_eq!(sink.as_str(), "page 7");
//! assert_eq!(page.writeable_length_hint(), LengthHint::exact(6));
//! ```
//!
//! This crate passes on what stands in crates of their own, so that each is small. A crate that
//! needs the traits alone stands on `writeable_core`.
//!
//! - `writeable_core`: the traits [`Writeable`], [`Sink`], [`PartsWrite`] and [`Source`], hints,
//!   parts,
//!   [`StringSink`], [`SliceSource`], and texts that structs own.
//! - `writeable_sinks`: the other sinks and sources.
//! - `writeable_adapters`: [`adapters`], [`TryWriteable`], and hints of several texts.
//! - `writeable_cmp`: comparison, and borrowing from other bytes.
//! - `writeable_replace`: a text with a needle replaced, written as it comes.
//! - `testing`: what a value writes, with its parts, for tests.
#![tactic(auto)]

pub mod adapters;
mod concat_macro;
mod testing;

pub use testing::{try_writeable_to_parts_for_test, writeable_to_parts_for_test};
pub use writeable_adapters::{TryWriteable, sum_hints, sum_lengths};
pub use writeable_cmp::{cmp_str, cmp_utf8, to_string_or_borrow};
pub use writeable_core::{
    LengthHint, OwnedText, Part, PartsWrite, Sink, SinkError, SliceSource, Source, SourceFault,
    StringSink, Text, TextList, TextRow, Writeable,
};
pub use writeable_replace::{replaced_hint, write_replaced};
pub use writeable_sinks::{
    CountSink, FixedSink, PartSpan, PartsSink, ScriptSink, ScriptSource, StdSink, StdSource,
};
