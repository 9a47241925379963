//! Calls of plural expressions, which are their text, and of resolvers.
//!
//! A tree is `"n"`, a number, or an object of one member: `Not` and a tree, or the name of an
//! operator and the trees that it stands between. A resolver is an expression; null, which is the
//! default; or `{"Function": "n<2?0:1"}`.

use crate::catalogs::two_forms;
use crate::metadata;
use calls::answers;
use calls::answers::{Answer, Object};
use calls::arguments::{Wrong, number, text};
use gettext::{Ast, Operator, PluralFunction, Resolver, default_resolver};
use serde_json::Value;
use std::alloc::{AllocError, Global};

/// A call by its path.
pub fn answer<'a>(alloc: Global, call: &str, arguments: &'a [Value]) -> Answer<'a> {
    match (call, arguments) {
        ("Ast::parse", [expression]) => match Ast::parse(alloc, text(expression)?) {
            Ok(ast) => Ok(tree(alloc, &ast)?),
            Err(error) => metadata::refused(alloc, error),
        },
        ("Resolver::resolve", [given, n]) => {
            let value = resolved(alloc, given, number(n)?)?;
            Ok(answers::optional_size(value))
        }
        ("default_resolver", [n]) => Ok(answers::size(default_resolver(number(n)?))),
        _ => Err(Wrong::Call),
    }
}

/// What the resolver that an argument is makes of a count.
fn resolved<'a>(alloc: Global, given: &'a Value, n: u64) -> Result<Option<usize>, Wrong<'a>> {
    match given {
        Value::Null => Ok(Resolver::Default.resolve(n)),
        Value::Object(_) => Ok(Resolver::Function(PluralFunction::new(two_forms)).resolve(n)),
        _ => match Ast::parse(alloc, text(given)?) {
            Ok(ast) => Ok(Resolver::Expr(ast).resolve(n)),
            Err(error) => Err(metadata::unread(given, error)),
        },
    }
}

fn tree(alloc: Global, ast: &Ast) -> Result<Value, AllocError> {
    match ast {
        Ast::N => answers::text(alloc, "n"),
        Ast::Integer(integer) => Ok(answers::number(*integer)),
        Ast::Not(inner) => Ok(Object::new(alloc).with("Not", tree(alloc, inner)?)?.value()),
        Ast::Op(operator, left, right) => {
            let sides = answers::list(alloc, [tree(alloc, left)?, tree(alloc, right)?])?;
            Ok(
                Object::new(alloc)
                    .with(operator_name(*operator), sides)?
                    .value(),
            )
        }
        Ast::Ternary(condition, first, second) => {
            let condition = tree(alloc, condition)?;
            let (first, second) = (tree(alloc, first)?, tree(alloc, second)?);
            let parts = answers::list(alloc, [condition, first, second])?;
            Ok(Object::new(alloc).with("Ternary", parts)?.value())
        }
    }
}

fn operator_name(operator: Operator) -> &'static str {
    match operator {
        Operator::Equal => "Equal",
        Operator::NotEqual => "NotEqual",
        Operator::GreaterOrEqual => "GreaterOrEqual",
        Operator::SmallerOrEqual => "SmallerOrEqual",
        Operator::Greater => "Greater",
        Operator::Smaller => "Smaller",
        Operator::And => "And",
        Operator::Or => "Or",
        Operator::Modulo => "Modulo",
        Operator::Add => "Add",
        Operator::Subtract => "Subtract",
        Operator::Multiply => "Multiply",
        Operator::Divide => "Divide",
    }
}
