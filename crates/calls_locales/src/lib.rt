//! Calls of the crates of locales.
//!
//! - `tags`: those of `tinystr`.
//! - `locales`: those of `icu_locale_core`.
//! - `fallback`: those of `icu_locale_fallback`.
#![tactic(auto)]

pub mod fallback;
pub mod locales;
pub mod tags;
