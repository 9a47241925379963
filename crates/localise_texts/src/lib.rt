//! What is handed in to localise: bundles of translations and requests, as texts that nothing has
//! looked at yet.
//!
//! ```
//! let bundle = BundleText {
//!     tag: OwnedText::new(alloc, "fr")?,
//!     mo: MoBytes::from_vec(bytes),
//!     list: root.try_clone(alloc)?,
//! };
//! ```
//!
//! - `bundle`: [`BundleText`], a bundle, and [`MoBytes`], the bytes of its catalog.
//! - `patterns`: [`PatternTexts`] and [`Special`], how a locale joins lists.
//! - `request`: [`Request`], what is asked for.
#![tactic(auto)]

mod bundle;
mod patterns;
mod request;

pub use bundle::{BundleText, MoBytes};
pub use patterns::{PatternTexts, Special};
pub use request::Request;
