//! Writeable values of the crate `writeable` that are made of others, and values that may mean an
//! error.
//!
//! ```
//! let page = Concat(Text("page "), 7u8);
//! assert_eq!(page.write_to_string(alloc)?.as_str(), "page 7");
//!
//! let missing: Result<Text, u8> = Err(44);
//! assert_eq!(LossyWrap(missing).write_to_string(alloc)?.as_str(), "44");
//! ```
//!
//! - `concat`: [`Concat`], one value and then another.
//! - `parts_write_adapter`: [`WithPart`], a value inside a part, and [`CoreWriteAsPartsWrite`], a
//!   sink of marked texts that drops the marks.
//! - `try_writeable`: the trait [`TryWriteable`], `Result`, and values that have no error.
//! - `sides`: a value of one of two types.
//! - `lossy`: [`LossyWrap`], which drops a value's error.
//! - `hints`: hints of several texts.
#![tactic(auto)]

mod concat;
mod hints;
mod lossy;
mod parts_write_adapter;
mod sides;
mod try_writeable;

pub use concat::Concat;
pub use hints::{sum_hints, sum_lengths};
pub use lossy::LossyWrap;
pub use parts_write_adapter::{CoreWriteAsPartsWrite, WithPart};
pub use try_writeable::{
    TryWriteable, TryWriteableInfallibleAsWriteable, WriteableAsTryWriteableInfallible,
};
