//! How the number of a form follows from a count.

ghost use Rattle.std.specs.Prelude.{◌≡◌, ℕ, ◌<◌, ◌^◌, ◌==◌, Bool, true, false, Option, Some, None};
ghost use Rattle.std.specs.Prelude.{IsSomeAnd, if◌then◌else◌};
ghost use Rattle.std.specs.Option.{option_map};
ghost use Rattle.gettext.specs.Expression.{tree_of, value};
ghost use Rattle.gettext.specs.Messages.{value_by};
ghost use Rattle.gettext.specs.declared.plurals.expression.Ast.{Ast};

use super::expression::Ast;

/// A function from counts to numbers of forms, which may be called on every count.
#[derive(Drop)]
pub struct PluralFunction {
    plural: fn(u64) -> usize,
    ghost callable: { (n : ℕ) → n < 2 ^ 64 → pre plural n },
}

impl PluralFunction {
    /// Keeps the function, which may be called on every count.
    pub fn new(plural: fn(u64) -> usize) -> PluralFunction
        requires { (n : ℕ) → n < 2 ^ 64 → pre plural n }
        ensures { result.plural ≡ plural }
    {
        PluralFunction { plural }
    }

    /// The number of the form for `n`.
    pub(crate) fn call(&self, n: u64) -> usize
        ensures { post self.now.plural n result }
    {
        (self.plural)(n)
    }
}

/// What numbers the forms beside a file: nothing ([`FileRule`]), or a function that is forced
/// ([`PluralFunction`]).
pub trait FormRule: Drop {
    /// Whether a function is forced, so that a file's own rule isn't read.
    ghost forced: { Bool };

    /// What it may answer at a count.
    ghost answers: { Self → ℕ → Option ℕ → Type 0 };

    /// Whether a function is forced.
    fn is_forced(&self) -> bool
        ensures { result ≡ forced };

    /// The number of the form for `n`. None where the file's rule gives it.
    fn forced_number(&self, n: u64) -> Option<usize>
        ensures { answers self.now n result };
}

impl FormRule for PluralFunction {
    ghost forced = { true };

    ghost answers = { λ f n given. IsSomeAnd given (λ k. post f.plural n k) };

    fn is_forced(&self) -> bool
        ensures { result ≡ true }
    {
        true
    }

    fn forced_number(&self, n: u64) -> Option<usize>
        ensures { IsSomeAnd result (λ k. post self.now.plural n k) }
    {
        Some(self.call(n))
    }
}

/// The plural rule that a file names, or else the default.
#[derive(Drop)]
pub struct FileRule;

impl FormRule for FileRule {
    ghost forced = { false };

    ghost answers = { λ f n given. given ≡ None };

    fn is_forced(&self) -> bool {
        false
    }

    fn forced_number(&self, _n: u64) -> Option<usize> {
        None
    }
}

/// A plural rule.
#[derive(Drop)]
pub enum Resolver {
    Expr(Ast),
    Function(PluralFunction),
    /// 0 for 1, and 1 for every other count.
    Default,
}

impl Resolver {
    /// The number of the form for `n`. None where an expression has no value.
    pub fn resolve(&self, n: u64) -> Option<usize>
        ensures expression { (e : Ast) → self.now ≡ Resolver.Expr e → result ≡ value (tree_of e) n }
        ensures function { (f : _) → self.now ≡ Resolver.Function f
            → IsSomeAnd result (λ k. post f.plural n k) }
        ensures default { self.now ≡ Resolver.Default → result ≡ Some (if n == 1 then 0 else 1) }
    {
        match self {
            Resolver::Expr(ast) => number_by(Some(ast), n),
            Resolver::Function(function) => Some(function.call(n)),
            Resolver::Default => number_by(None, n),
        }
    }
}

/// The number of the form for `n` by an expression, or by the default rule where there is none.
pub(super) fn number_by(expression: Option<&Ast>, n: u64) -> Option<usize>
    ensures { result ≡ value_by (option_map (λ ast. tree_of ast.now) expression.entry) n }
{
    match expression {
        Some(ast) => ast.value(n).map(|number| number as usize),
        None => Some(default_resolver(n)),
    }
}

/// The number of the form for `n` where a file names no rule: 0 for 1, and 1 for every other count.
pub fn default_resolver(n: u64) -> usize
    ensures { result ≡ (if n == 1 then 0 else 1) }
{
    if n == 1 { 0 } else { 1 }
}
