//! Lists: items joined as a locale joins them (UTS 35, list patterns).
//!
//! ```
//! let patterns = ListFormatterPatterns::try_new(
//!     alloc, "{0}, {1}", "{0}, {1}", "{0} et {1}", "{0} et {1}",
//! )?;
//! let formatter = ListFormatter::from_patterns(&patterns);
//! let text = formatter.format_to_string(alloc, &[Text("Ana"), Text("Bob"), Text("Eve")])?;
//! assert_eq!(text.as_str(), "Ana, Bob et Eve");
//! ```
//!
//! A list is a [`FormattedList`]: it is written piece by piece, and takes no memory. Its marked
//! text has a part for each item and for each text of the patterns.
//!
//! - `formatter`: [`ListFormatter`], by patterns or by a row of [`ListTables`].
//! - `formatted`: [`FormattedList`], the items with the patterns that join them.
//! - `provider`: the patterns, and the conditions of their special forms.
//! - `tables`: rows of patterns by kind, locale and length, which are handed in.
//! - `options`, `parts`: the length of lists, and the parts of their marked text.
//! - `error`: [`DataError`], why patterns, tables or JSON values were refused.
//! - `laws`: laws of these, for contracts above.
#![tactic(auto)]

mod error;
mod formatted;
mod formatter;
pub mod laws;
pub mod options;
pub mod parts;
pub mod provider;
mod tables;

pub use error::DataError;
pub use formatted::FormattedList;
pub use formatter::ListFormatter;
pub use tables::{ListKind, ListTableRow, ListTables};
