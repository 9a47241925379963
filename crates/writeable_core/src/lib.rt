//! Texts that values write, and what they are written to and read from: the ground of the crate
//! `writeable`.
//!
//! A [`Writeable`] value means one text and writes it, piece by piece, to a [`Sink`].
//!
//! ```
//! let mut sink = StringSink::new(alloc);
//! Text("page ").write_to(&mut sink)?;
//! 7u8.write_to(&mut sink)?;
//! assert_eq!(sink.as_str(), "page 7");
//! ```
//!
//! - `writeable`: the trait [`Writeable`], of a text with a hint on its length and marks of its
//!   parts.
//! - `length_hint`, `ops`: [`LengthHint`] and its operators.
//! - `impls`: the types of std that are writeable, references, boxes, and a text of one of two
//!   types.
//! - `part`: [`Part`], and [`PartsWrite`], a sink that takes the marks of parts too.
//! - `sink`, `string_sink`: the trait [`Sink`], and [`StringSink`], which holds a text in memory.
//! - `source`, `slice_source`: the trait [`Source`], and [`SliceSource`], which gives the bytes of
//!   a slice.
//! - `text`: [`OwnedText`], [`TextRow`] and [`TextList`], texts that structs own.
#![tactic(auto)]

mod impls;
mod length_hint;
mod ops;
mod part;
mod sink;
mod slice_source;
mod source;
mod string_sink;
mod text;
mod writeable;

pub use impls::Text;
pub use length_hint::LengthHint;
pub use part::{Part, PartsWrite};
pub use sink::{Sink, SinkError};
pub use slice_source::SliceSource;
pub use source::{Source, SourceFault};
pub use string_sink::StringSink;
pub use text::{OwnedText, TextList, TextRow};
pub use writeable::Writeable;
