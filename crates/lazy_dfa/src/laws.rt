//! Laws of conditions, for contracts that cite them. Each function does nothing: its contract is
//! the law.

ghost use Rattle.std.specs.Prelude.{◌≡◌, ◌≢◌, ◌++◌, ◌⊎◌, [], ℕ, List, Ok, Err};
ghost use Rattle.lazy_dfa.specs.ConditionOf.{condition_of};
ghost use Rattle.lazy_dfa.specs.Expression.{Expression};
ghost use Rattle.lazy_dfa.specs.Machine.{IsFor, Machine};
ghost use Rattle.lazy_dfa.specs.Meaning.{early, front, holds};
ghost use Rattle.lazy_dfa.specs.Refusals.{IsRefused, condition};
ghost use Rattle.lazy_dfa.specs.Stepping.{HasRead, Took};
ghost use Rattle.lazy_dfa.specs.Progress.{Progress, begun};

use crate::error::ConditionError;

/// Where a prefix matches without a `$`, the condition holds on every text that goes on; where none
/// does and the text is no front, it holds on none.
pub fn early_answer_is_right()
    ensures holds { (c : Expression) (u w : List ℕ) → early c u → holds c (u ++ w) }
    ensures fails { (c : Expression) (u w : List ℕ) →
        ¬ (early c u) → ¬ (front c u) → ¬ (holds c (u ++ w)) }
{}

/// What a stepper took from its beginning on, it has read.
pub fn stepper_has_read()
    ensures { (c : Expression) (m : Machine) (u : List ℕ) (s : Progress) →
        IsFor m c → Took (begun m) u s → HasRead c u s }
{}

/// What a pattern is read as: a condition has one expression, and another pattern one fault.
pub fn a_pattern_is_read()
    ensures ok { (pattern : List ℕ) (e : Expression) →
        condition pattern e → condition_of pattern ≡ Ok e }
    ensures err { (pattern : List ℕ) (error : ConditionError) → error ≢ ConditionError.NoMemory →
        IsRefused pattern error → condition_of pattern ≡ Err error }
{}
