//! Plural expressions (the GNU gettext manual, 'Additional functions for plural forms'): C's
//! conditional expressions over one unsigned number of 64 bits.

ghost use Rattle.std.specs.Prelude.{◌≡◌, ◌⊎◌, ◌↔◌, ℕ, List, Some, IfOk, IfErr};
ghost use Rattle.std.specs.Str.{chars};
ghost use Rattle.gettext.specs.declared.error.Error.TheVariants.{NoMemory, PluralParsing};
ghost use Rattle.gettext.specs.Expression.{Expression, tree_of, value, apply};
ghost use Rattle.gettext.specs.Grammar.{expr, IsWhole, IsNoWhole, IsNoExpression};
ghost use Rattle.gettext.specs.Parsing.{expression_of};

use super::grammar::{Level, part_at};
use super::tokens::{Token, tokens_of};
use crate::error::Error;
use std::alloc::Global;

/// The greatest height of an expression.
const HEIGHT_LIMIT: u32 = 64;

/// A plural expression as a tree. Parentheses leave no node.
#[derive(Drop, PartialEq)]
pub enum Ast {
    /// The second where the first isn't 0, else the third.
    Ternary(Box<Ast>, Box<Ast>, Box<Ast>),
    /// The count.
    N,
    Integer(u64),
    Op(Operator, Box<Ast>, Box<Ast>),
    Not(Box<Ast>),
}

/// An operator between two parts.
#[derive(Clone, Copy, Debug, PartialEq, Eq)]
pub enum Operator {
    Equal,
    NotEqual,
    GreaterOrEqual,
    SmallerOrEqual,
    Greater,
    Smaller,
    And,
    Or,
    Modulo,
    Add,
    Subtract,
    Multiply,
    Divide,
}

impl Ast {
    /// The tree of a plural expression. A text that isn't one, or whose height passes 64, is
    /// `PluralParsing`: parentheses count for the height, and leave no node.
    pub fn parse(alloc: Global, src: &str) -> Result<Ast, Error>
        ensures ok { IfOk result (λ ast. expr (chars src.now) (tree_of ast)) }
        ensures err { IfErr result
            (λ e. (e ≡ NoMemory) ⊎ ((e ≡ PluralParsing) × IsNoExpression (chars src.now))) }
    {
        let tokens = tokens_of(alloc, src.as_bytes())?;
        whole(alloc, &tokens)
    }

    /// The value at a count. None where a division by zero is reached.
    pub(crate) fn value(&self, n: u64) -> Option<u64>
        ensures { result ≡ value (tree_of self.now) n }
    {
        match self {
            Ast::N => Some(n),
            Ast::Integer(number) => Some(*number),
            Ast::Not(part) => Some(u64::from(part.value(n)? == 0)),
            Ast::Ternary(condition, first, second) => {
                if condition.value(n)? == 0 {
                    second.value(n)
                } else {
                    first.value(n)
                }
            }
            Ast::Op(Operator::And, left, right) => {
                if left.value(n)? == 0 {
                    return Some(0);
                }
                Some(u64::from(right.value(n)? != 0))
            }
            Ast::Op(Operator::Or, left, right) => {
                if left.value(n)? != 0 {
                    return Some(1);
                }
                Some(u64::from(right.value(n)? != 0))
            }
            Ast::Op(operator, left, right) => operator.apply(left.value(n)?, right.value(n)?),
        }
    }
}

/// The expression that all of the tokens are.
fn whole(alloc: Global, tokens: &[Token]) -> Result<Ast, Error>
    ensures ok { IfOk result (λ ast. IsWhole tokens.now (tree_of ast)) }
    ensures err { IfErr result
        (λ e. (e ≡ NoMemory) ⊎ ((e ≡ PluralParsing) × IsNoWhole tokens.now)) }
{
    let part = part_at(alloc, tokens, Level::Conditional, HEIGHT_LIMIT)?;
    if !part.rest.is_empty() {
        return Err(Error::PluralParsing);
    }
    Ok(part.tree)
}

/// A text has at most one tree, and `expression_of` finds it.
pub fn one_tree()
    ensures unique { (t : List ℕ) (e f : Expression) → expr t e → expr t f → e ≡ f }
    ensures found { (t : List ℕ) (e : Expression) → (expression_of t ≡ Some e) ↔ expr t e }
{}

impl Operator {
    /// What the operator gives of two values, both of which it needs.
    fn apply(self, left: u64, right: u64) -> Option<u64>
        ensures { result ≡ apply self left right }
    {
        match self {
            Operator::Equal => Some(u64::from(left == right)),
            Operator::NotEqual => Some(u64::from(left != right)),
            Operator::GreaterOrEqual => Some(u64::from(left >= right)),
            Operator::SmallerOrEqual => Some(u64::from(left <= right)),
            Operator::Greater => Some(u64::from(left > right)),
            Operator::Smaller => Some(u64::from(left < right)),
            Operator::And => Some(u64::from(left != 0 && right != 0)),
            Operator::Or => Some(u64::from(left != 0 || right != 0)),
            Operator::Modulo => left.checked_rem(right),
            Operator::Add => Some(left.wrapping_add(right)),
            Operator::Subtract => Some(left.wrapping_sub(right)),
            Operator::Multiply => Some(left.wrapping_mul(right)),
            Operator::Divide => left.checked_div(right),
        }
    }
}
