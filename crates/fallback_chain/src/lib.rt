//! The whole walk of a locale: where it ends, and its locales as one text.
//!
//! ```
//! let fallbacker = LocaleFallbacker::try_new(alloc, &rows)?;
//! let locale = DataLocale::try_from_str("hi-Latn-IN")?;
//! match steps_to_end(&fallbacker, locale) {
//!     Some(steps) => write_chain(&fallbacker, locale, steps, &mut sink)?,
//!     None => return Err(ChainLoops),
//! }
//! ```
//!
//! With likely subtags and parents from CLDR this writes `hi-Latn-IN hi-Latn en-IN en-001 en und`.
//!
//! A walk goes by the language priority of `icu_locale_fallback`, from a locale's normal form to
//! the unknown locale, `und`. Where parents form a ring it may have no end, and then it repeats.
//! Nothing here takes memory: the walk is taken twice, first to its end and then for its text.
//!
//! - `ends`: [`steps_to_end`], how long a walk is, or that it has no end.
//! - `writing`: [`write_chain`], the locales of a walk as a text.
//! - `laws`: a walk has one end at most, and one that has an end never repeats.
//! - `walk`: the walk as both of them go it.
#![tactic(auto)]

mod ends;
pub mod laws;
mod walk;
mod writing;

pub use ends::steps_to_end;
pub use writing::write_chain;
