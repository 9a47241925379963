//! Bundles of translations, and the text that they give a request.
//!
//! A [`Localiser`] holds bundles: for each a locale, a catalog of messages and the patterns of its
//! lists. [`Localiser::find`] walks from a wanted locale to those that may stand for it, up to the
//! first that translates. What it [`Found`] writes itself; where no locale translates that is the
//! request's own words.
//!
//! ```
//! let localiser = Localiser::try_new(alloc, &tables, &bundles, &root)?;
//! let wanted = Localiser::wanted(alloc, &tables, request.tag.as_str())?;
//! let found = localiser.find(wanted, &request)?;
//! found.write_to(&mut sink)?;
//! ```
//!
//! [`render`] is these four calls for one request.
//!
//! - `localiser`: [`Localiser`], bundles that are ready for requests.
//! - `found`: [`Found`], the text that a request gets, and where it is from.
//! - `rendered`: [`render`], and what it answers beside the text, [`Rendered`].
//! - `bundle`, `bundles`: a bundle that is read, and the bundles by their locales.
//! - `key`: a locale, as bundles are looked up by it.
//! - `lists`: the patterns that a list's texts are.
//! - `walk`: the walk over locales, up to one that translates.
//! - `laws`: laws of localisers, for contracts above.
//! - `error`: [`RenderError`], [`BundleCause`] and [`ChainLoops`], why there is no text.
#![tactic(auto)]

mod bundle;
mod bundles;
mod error;
mod found;
mod key;
pub mod laws;
mod lists;
mod localiser;
mod rendered;
mod walk;

pub use error::{BundleCause, ChainLoops, RenderError};
pub use found::Found;
pub use localise_texts::{BundleText, MoBytes, PatternTexts, Request, Special};
pub use localiser::Localiser;
pub use rendered::{Rendered, render};
pub use wanted_locale::{Tables, TagCause};
