//! Conditions on texts: small anchored regular expressions, and stepping through a text that is
//! written piece by piece.
//!
//! ```
//! let condition = Condition::new(alloc, "^11(000)*$")?;
//! assert!(condition.matches(&11_000u32));
//! assert!(!condition.matches(&12u32)); // asked for no more than "12"
//! ```
//!
//! A condition holds on a text where some prefix of the text matches. [`Condition::new`] reads a
//! pattern, or tells by [`ConditionError`] where it breaks off; [`Condition::matches`] writes a
//! value into a [`Stepper`], a sink that stops the writer once the answer is fixed.
//! [`Condition::determinise`] makes stepping a look-up in a table, and changes no answer.
//!
//! - `condition`, `error`: the condition that a pattern is, and why a pattern is none.
//! - `stepper`: the sink that steps through a text.
//! - `laws`: laws of the definitions, for contracts above.
//! - `parser`, `characters`: reading a pattern.
//! - `matcher`, `table`: stepping by sets of positions, or by a table of states.
//! - `automaton`, `part`, `positions`: which of a pattern's atoms can read first, last, and behind
//!   which.
#![tactic(auto)]

mod automaton;
mod characters;
mod condition;
mod error;
mod laws;
mod matcher;
mod parser;
mod part;
mod positions;
mod stepper;
mod table;

pub use condition::Condition;
pub use error::ConditionError;
pub use laws::{a_pattern_is_read, early_answer_is_right, stepper_has_read};
pub use stepper::Stepper;
