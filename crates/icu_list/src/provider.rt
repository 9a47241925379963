//! List patterns, and the conditions of their special forms.

mod conditional;
mod joiner;
mod joints;
mod patterns;
mod serde_dfa;

pub use conditional::{ConditionalListJoinerPattern, SpecialCasePattern};
pub use joiner::ListJoinerPattern;
pub(crate) use joints::Joints;
pub use patterns::ListFormatterPatterns;
pub use serde_dfa::SerdeDFA;
