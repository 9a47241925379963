//! The grammar of plural expressions, level by level.

ghost use Rattle.std.specs.Prelude.{◌≡◌, ◌+◌, ◌-◌, ◌<◌, ◌≤◌, ◌^◌, max, MatchResult, IfOk, IfSome};
ghost use Rattle.std.specs.Prelude.{None};
ghost use Rattle.std.specs.Option.{option_map};
ghost use Rattle.gettext.specs.declared.error.Error.TheVariants.{NoMemory};
ghost use Rattle.gettext.specs.declared.plurals.grammar.Level.TheVariants as Level;
ghost use Rattle.gettext.specs.Grammar.{rank, tighter, level_of};
ghost use Rattle.gettext.specs.Parsing.{IsParsed, found_of, parse, leaf_at, is_mark, after};
ghost use Rattle.gettext.specs.Parsing.{operator_at, closed, negated, joined, chosen, IsBinary};

use super::expression::{Ast, Operator};
use super::tokens::Token;
use crate::error::Error;
use std::alloc::Global;

/// A level of the grammar, from the tightest to the loosest.
#[derive(Clone, Copy)]
pub enum Level {
    Atom,
    Unary,
    Product,
    Sum,
    Relation,
    Equality,
    Conjunction,
    Disjunction,
    Conditional,
}

impl Level {
    fn rank(self) -> u8
        ensures { result ≡ rank self }
    {
        self as u8
    }

    /// The next tighter level.
    fn tighter(self) -> Level
        ensures { result ≡ tighter self }
    {
        match self {
            Level::Atom | Level::Unary => Level::Atom,
            Level::Product => Level::Unary,
            Level::Sum => Level::Product,
            Level::Relation => Level::Sum,
            Level::Equality => Level::Relation,
            Level::Conjunction => Level::Equality,
            Level::Disjunction => Level::Conjunction,
            Level::Conditional => Level::Disjunction,
        }
    }
}

fn level_of(operator: Operator) -> Level
    ensures { result ≡ level_of operator }
{
    match operator {
        Operator::Multiply | Operator::Divide | Operator::Modulo => Level::Product,
        Operator::Add | Operator::Subtract => Level::Sum,
        Operator::Greater | Operator::Smaller => Level::Relation,
        Operator::GreaterOrEqual | Operator::SmallerOrEqual => Level::Relation,
        Operator::Equal | Operator::NotEqual => Level::Equality,
        Operator::And => Level::Conjunction,
        Operator::Or => Level::Disjunction,
    }
}

/// The operator of that level that the tokens begin with, and what stands behind it.
fn operator_at(level: Level, tokens: &[Token]) -> Option<(Operator, &[Token])>
    ensures { option_map (λ x. (x.0, x.1.now)) result ≡ operator_at level tokens.now }
{
    match tokens.split_first()? {
        (Token::Operator(operator), rest) if level_of(*operator).rank() == level.rank() => {
            Some((*operator, rest))
        }
        _ => None,
    }
}

/// The tokens behind a mark, where they begin with it.
fn after(mark: Token, tokens: &[Token]) -> Option<&[Token]>
    ensures { option_map (λ x. x.now) result ≡ after mark tokens.now }
{
    let (first, rest) = tokens.split_first()?;
    if is_mark(mark, *first) {
        Some(rest)
    } else {
        None
    }
}

/// Whether a token is that mark.
fn is_mark(mark: Token, token: Token) -> bool
    ensures { result ≡ is_mark mark token }
{
    match mark {
        Token::Bang => matches!(token, Token::Bang),
        Token::Open => matches!(token, Token::Open),
        Token::Close => matches!(token, Token::Close),
        Token::Question => matches!(token, Token::Question),
        Token::Colon => matches!(token, Token::Colon),
        _ => false,
    }
}

/// A part, its height, and the tokens behind it.
#[derive(Drop)]
pub struct Part<'a> {
    pub tree: Ast,
    pub height: u32,
    pub rest: &'a [Token],
}

/// The part of a level that the tokens begin with, if its height is at most `budget`.
#[cycle(grammar)]
#[tactic(auto, using(crate::proofs::Chains::parsed))]
pub fn part_at(
    alloc: Global,
    tokens: &[Token],
    level: Level,
    budget: u32,
) -> Result<Part<'_>, Error>
    ensures found { IsParsed found_of result (parse budget level tokens.now) }
    ensures low { IfOk result (λ p. p.height ≤ budget) }
{
    if budget == 0 {
        return Err(Error::PluralParsing);
    }
    match level {
        Level::Atom => atom(alloc, tokens, budget),
        Level::Unary => unary(alloc, tokens, budget),
        Level::Conditional => conditional(alloc, tokens, budget),
        _ => chain(alloc, tokens, level, budget),
    }
}

#[cycle(grammar)]
#[tactic(auto, using(crate::proofs::Chains::parsed))]
fn atom(alloc: Global, tokens: &[Token], budget: u32) -> Result<Part<'_>, Error>
    requires { 0 < budget }
    ensures found { IsParsed found_of result (parse budget Level.Atom tokens.now) }
    ensures low { IfOk result (λ p. p.height ≤ budget) }
{
    match leaf(tokens) {
        Some(part) => Ok(part),
        None => in_parentheses(alloc, tokens, budget),
    }
}

#[cycle(grammar)]
#[tactic(auto, using(crate::proofs::Chains::parsed))]
fn in_parentheses(alloc: Global, tokens: &[Token], budget: u32) -> Result<Part<'_>, Error>
    requires positive { 0 < budget }
    requires no_leaf { leaf_at tokens.now ≡ None }
    ensures found { IsParsed found_of result (parse budget Level.Atom tokens.now) }
    ensures low { IfOk result (λ p. p.height ≤ budget) }
{
    let Some(rest) = after(Token::Open, tokens) else {
        return Err(Error::PluralParsing);
    };
    let inside = part_at(alloc, rest, Level::Conditional, budget - 1)?;
    let Some(rest) = after(Token::Close, inside.rest) else {
        return Err(Error::PluralParsing);
    };
    Ok(closed(inside, rest))
}

#[cycle(grammar)]
#[tactic(auto, using(crate::proofs::Chains::parsed))]
fn unary(alloc: Global, tokens: &[Token], budget: u32) -> Result<Part<'_>, Error>
    requires { 0 < budget }
    ensures found { IsParsed found_of result (parse budget Level.Unary tokens.now) }
    ensures low { IfOk result (λ p. p.height ≤ budget) }
{
    let Some(rest) = after(Token::Bang, tokens) else {
        return part_at(alloc, tokens, Level::Atom, budget);
    };
    let operand = part_at(alloc, rest, Level::Unary, budget - 1)?;
    negated(alloc, operand)
}

/// Parts of the next tighter level with operators of this level between them, from left to right.
#[cycle(grammar)]
#[tactic(auto, using(crate::proofs::Chains::parsed))]
fn chain(alloc: Global, tokens: &[Token], level: Level, budget: u32) -> Result<Part<'_>, Error>
    requires positive { 0 < budget }
    requires binary { IsBinary level }
    ensures found { IsParsed found_of result (parse budget level tokens.now) }
    ensures low { IfOk result (λ p. p.height ≤ budget) }
{
    let mut left = part_at(alloc, tokens, level.tighter(), budget)?;
    while let Some((operator, rest)) = operator_at(level, left.rest) {
        if left.height >= budget {
            return Err(Error::PluralParsing);
        }
        let right = part_at(alloc, rest, level.tighter(), budget - 1)?;
        left = joined(alloc, operator, left, right)?;
    }
    Ok(left)
}

#[cycle(grammar)]
#[tactic(auto, using(crate::proofs::Chains::parsed))]
fn conditional(alloc: Global, tokens: &[Token], budget: u32) -> Result<Part<'_>, Error>
    requires { 0 < budget }
    ensures found { IsParsed found_of result (parse budget Level.Conditional tokens.now) }
    ensures low { IfOk result (λ p. p.height ≤ budget) }
{
    let condition = part_at(alloc, tokens, Level::Disjunction, budget)?;
    let Some(rest) = after(Token::Question, condition.rest) else {
        return Ok(condition);
    };
    if condition.height >= budget {
        return Err(Error::PluralParsing);
    }
    let first = part_at(alloc, rest, Level::Conditional, budget - 1)?;
    let Some(rest) = after(Token::Colon, first.rest) else {
        return Err(Error::PluralParsing);
    };
    let second = part_at(alloc, rest, Level::Conditional, budget - 1)?;
    chosen(alloc, condition, first, second)
}

/// The count or a number.
fn leaf(tokens: &[Token]) -> Option<Part<'_>>
    ensures found { option_map found_of result ≡ leaf_at tokens.now }
    ensures low { IfSome result (λ p. p.height ≡ 1) }
{
    let (first, rest) = tokens.split_first()?;
    let tree = match first {
        Token::Name => Ast::N,
        Token::Numeral(number) => Ast::Integer(*number),
        _ => return None,
    };
    Some(Part {
        tree,
        height: 1,
        rest,
    })
}

/// A part in parentheses, which leave no node.
fn closed<'a>(inside: Part<'a>, rest: &'a [Token]) -> Part<'a>
    requires { inside.height + 1 < 2 ^ 32 }
    ensures { found_of result ≡ closed (found_of inside.entry) rest.now }
{
    Part {
        tree: inside.tree,
        height: inside.height + 1,
        rest,
    }
}

fn negated(alloc: Global, operand: Part<'_>) -> Result<Part<'_>, Error>
    requires { operand.height + 1 < 2 ^ 32 }
    ensures { MatchResult result (λ p. found_of p ≡ negated (found_of operand.entry))
        (λ e. e ≡ NoMemory) }
{
    Ok(Part {
        tree: Ast::Not(Box::new(alloc, operand.tree)?),
        height: operand.height + 1,
        rest: operand.rest,
    })
}

fn joined<'a>(
    alloc: Global,
    operator: Operator,
    left: Part<'a>,
    right: Part<'a>,
) -> Result<Part<'a>, Error>
    requires { max left.height right.height + 1 < 2 ^ 32 }
    ensures { MatchResult result
        (λ p. found_of p ≡ joined operator (found_of left.entry) (found_of right.entry))
        (λ e. e ≡ NoMemory) }
{
    Ok(Part {
        height: left.height.max(right.height) + 1,
        rest: right.rest,
        tree: Ast::Op(
            operator,
            Box::new(alloc, left.tree)?,
            Box::new(alloc, right.tree)?,
        ),
    })
}

fn chosen<'a>(
    alloc: Global,
    condition: Part<'a>,
    first: Part<'a>,
    second: Part<'a>,
) -> Result<Part<'a>, Error>
    requires { max condition.height (max first.height second.height) + 1 < 2 ^ 32 }
    ensures { MatchResult result
        (λ p. found_of p
        ≡ chosen (found_of condition.entry) (found_of first.entry) (found_of second.entry))
        (λ e. e ≡ NoMemory) }
{
    Ok(Part {
        height: condition.height.max(first.height.max(second.height)) + 1,
        rest: second.rest,
        tree: Ast::Ternary(
            Box::new(alloc, condition.tree)?,
            Box::new(alloc, first.tree)?,
            Box::new(alloc, second.tree)?,
        ),
    })
}
