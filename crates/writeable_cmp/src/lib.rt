//! Comparing what the values of the crate `writeable` write with other bytes, without making it in
//! memory.
//!
//! ```
//! let page = concat_writeable!(Text("page "), 7u8);
//! assert_eq!(cmp_str(&page, "page 10"), Ordering::Greater);
//! assert_eq!(to_string_or_borrow(alloc, &page, b"page 7")?, CowStr::Borrowed("page 7"));
//! ```
//!
//! - `borrow`: [`to_string_or_borrow`], a value's text, borrowed where other bytes begin with it.
//! - `cmp`: [`cmp_utf8`] and [`cmp_str`], the order of a value's text against other bytes.
#![tactic(auto)]

mod borrow;
mod cmp;

pub use borrow::to_string_or_borrow;
pub use cmp::{cmp_str, cmp_utf8};
