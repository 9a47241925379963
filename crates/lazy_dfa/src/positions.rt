//! Sets of positions: the places of a condition's atoms, of which there are 64 at most, as the bits
//! of a number.

ghost use Rattle.std.specs.Prelude.{◌≡◌, ◌<◌, ◌^◌, ◌==◌, ◌&&◌, ◌||◌, ◌↔◌, ℕ, IsTrue, Bool};
ghost use Rattle.lazy_dfa.specs.Sets.{has, Meet};

/// A set of positions.
pub type Positions = u64;

/// The set of one place.
pub fn only(place: usize) -> Positions
    requires { place < 64 }
    ensures bits { result ≡ 2 ^ place }
    ensures place { (p : ℕ) → has result p ≡ (p == place) }
{
    1 << place
}

/// Whether a place is in the set.
pub fn has(positions: Positions, place: usize) -> bool
    requires { place < 64 }
    ensures { result ≡ has positions place }
{
    positions >> place & 1 == 1
}

/// The places of both sets.
pub fn union(left: Positions, right: Positions) -> Positions
    ensures { (p : ℕ) → has result p ≡ (has left p || has right p) }
{
    left | right
}

/// Whether two sets have a place in common.
pub fn meet(left: Positions, right: Positions) -> bool
    ensures { IsTrue result ↔ Meet left right }
{
    left & right != 0
}

/// The places of the left set, and where the condition is true those of the right one.
pub fn union_if(condition: bool, left: Positions, right: Positions) -> Positions
    ensures { (p : ℕ) → has result p ≡ (has left p || (condition && has right p)) }
{
    if condition { union(left, right) } else { left }
}
