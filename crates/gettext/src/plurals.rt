//! Plural rules (the GNU gettext manual, 'Additional functions for plural forms').
//!
//! - `tokens`: the tokens of a plural expression.
//! - `grammar`: its levels.
//! - `expression`: [`Ast`] and [`Operator`], the trees and their values, and the law [`one_tree`].
//! - `resolver`: [`Resolver`] and [`PluralFunction`], how the number of a form follows from a
//!   count.
//! - `rule`: the plural rule that a catalog keeps.

mod expression;
mod grammar;
mod resolver;
mod rule;
mod tokens;

pub use expression::{Ast, Operator, one_tree};
pub use resolver::{FileRule, FormRule, PluralFunction, Resolver, default_resolver};
pub use rule::PluralRule;
