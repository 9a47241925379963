//! The subtags of an identifier in canonical case (UTS 35, Unicode locale identifiers), each a
//! copied value that is compared, ordered and hashed as its text.

mod language;
mod raw;
mod region;
mod script;
mod variant;

pub use language::Language;
pub use region::Region;
pub use script::Script;
pub use variant::Variant;
