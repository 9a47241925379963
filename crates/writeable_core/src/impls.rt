//! The types of std that are writeable.

mod character;
mod numbers;
mod pointers;
mod sides;
mod signed;
mod strings;
mod texts;
mod unsigned;

pub use texts::Text;
