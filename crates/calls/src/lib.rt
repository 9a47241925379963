//! Calls of libraries as lines of text: reading their arguments, and making their answers.
//!
//! - `arguments`: reading an argument, and what is wrong with a line that isn't a call.
//! - `answers`: making an answer.
//! - `scripts`: sources, as an argument says them.
#![tactic(auto)]

pub mod answers;
pub mod arguments;
pub mod scripts;
