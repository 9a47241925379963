//! The plural rule of a file.

ghost use Rattle.std.specs.Prelude.{◌≡◌};
ghost use Rattle.gettext.specs.Messages.{number_for};
ghost use Rattle.gettext.specs.Rule.{rule_shown};

use super::expression::Ast;
use super::resolver::number_by;

/// How the number of a form follows from a count, by a file or by who reads it.
#[derive(Drop)]
pub enum PluralRule {
    /// 0 for 1, and 1 for every other count.
    Default,
    /// The expression of the metadata.
    Expr(Ast),
    /// A function is forced, which stands beside the table.
    Function,
}

impl PluralRule {
    /// The number of the form for `n`, given what a forced function answered. None where an
    /// expression has no value.
    pub fn number(&self, n: u64, given: Option<usize>) -> Option<usize>
        ensures { result ≡ number_for (rule_shown self.now) given n }
    {
        if given.is_some() {
            return given;
        }
        match self {
            PluralRule::Default => number_by(None, n),
            PluralRule::Expr(ast) => number_by(Some(ast), n),
            PluralRule::Function => None,
        }
    }
}
