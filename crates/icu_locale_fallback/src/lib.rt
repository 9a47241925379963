//! Locale fallback: from a locale to those whose data may stand for its own (UTS 35, locale
//! inheritance and matching).
//!
//! ```
//! let fallbacker = LocaleFallbacker::try_new(alloc, &rows)?;
//! let mut walk = fallbacker
//!     .for_config(LocaleFallbackConfig::default())
//!     .fallback_for(DataLocale::try_from_str("hi-Latn-IN")?);
//! while !walk.get().is_unknown() {
//!     println!(rt; "{}", walk.get())?;
//!     walk.step();
//! }
//! ```
//!
//! With likely subtags and parents from CLDR this prints `hi-Latn-IN`, `hi-Latn`, `en-IN`,
//! `en-001` and `en`; behind them the walk stays at `und`, the unknown locale.
//!
//! Tables are handed in as rows of texts, and may be hostile: parents may form a ring, and then a
//! walk has no end. The contract of [`LocaleFallbackerWithConfig::fallback_for`] says after how
//! many steps it has ended or come round. A walk takes no memory.
//!
//! - `config`: [`LocaleFallbackConfig`], what a walk holds on to longest.
//! - `fallbacker`: [`LocaleFallbacker`], the tables that walks go by, and views of them.
//! - `iterator`: [`LocaleFallbackIterator`], the walk.
//! - `laws`: when a walk ends or repeats, and what rows have for faults.
//! - `normal`: the locale that a walk begins with.
//! - `provider`: the tables as a fallbacker holds them.
//! - `rows`: [`FallbackRows`] and [`TableError`], the rows that tables are made from.
//! - `rule`: what one step of a walk does.
//! - `table`: a table from its rows, and a look-up in one.
//! - `triple`: the language, script and region by which a locale has a parent.
#![tactic(auto)]

mod config;
mod fallbacker;
mod iterator;
pub mod laws;
mod normal;
pub mod provider;
mod rows;
mod rule;
mod table;
mod triple;

pub use config::{LocaleFallbackConfig, LocaleFallbackPriority};
pub use fallbacker::{LocaleFallbacker, LocaleFallbackerBorrowed, LocaleFallbackerWithConfig};
pub use iterator::LocaleFallbackIterator;
pub use rows::{FallbackRows, TableError};
