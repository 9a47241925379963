//! Subtags in canonical case (UTS 35, Unicode locale identifiers), each compared, ordered and
//! hashed as its text.

mod language;
mod region;
mod script;
mod subtag;
mod variant;

pub use language::Language;
pub use region::Region;
pub use script::Script;
pub use subtag::Subtag;
pub use variant::Variant;
