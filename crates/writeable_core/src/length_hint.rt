ghost use Rattle.std.specs.Prelude.{◌≡◌, ℕ, ◌↔◌, Some, IsTrue, chars};
ghost use Rattle.writeable_core.specs.Hint.{undefined, exact, at_least, at_most, between};
ghost use Rattle.writeable_core.specs.Hint.{hint_capacity, text_hint};

/// A lower bound of a text's length in UTF-8, and an upper bound where there is one.
///
/// The operators saturate the lower bound, and give no upper bound where one is missing or where
/// the result passes the greatest `usize`.
#[derive(Clone, Copy, Debug, PartialEq, Eq)]
pub struct LengthHint(pub usize, pub Option<usize>);

impl LengthHint {
    /// Nothing is known of the length.
    pub fn undefined() -> LengthHint
        ensures { result ≡ undefined }
    {
        LengthHint(0, None)
    }

    /// The length is `n`.
    pub fn exact(n: usize) -> LengthHint
        ensures { result ≡ exact n }
    {
        LengthHint(n, Some(n))
    }

    /// The length of this text.
    pub fn of(text: &str) -> LengthHint
        ensures { result ≡ text_hint (chars text.now) }
    {
        LengthHint::exact(text.len())
    }

    /// The length is `n` or more.
    pub fn at_least(n: usize) -> LengthHint
        ensures { result ≡ at_least n }
    {
        LengthHint(n, None)
    }

    /// The length is `n` or less.
    pub fn at_most(n: usize) -> LengthHint
        ensures { result ≡ at_most n }
    {
        LengthHint(0, Some(n))
    }

    /// The length lies between the two, of which either may be the lesser.
    pub fn between(n: usize, m: usize) -> LengthHint
        ensures { result ≡ between n m }
    {
        LengthHint(n.min(m), Some(n.max(m)))
    }

    /// A number of bytes to ask for: the upper bound where there is one, else the lower.
    pub fn capacity(&self) -> usize
        ensures { result ≡ hint_capacity self.now }
    {
        self.1.unwrap_or(self.0)
    }

    /// Whether the text is known to be empty.
    pub fn is_zero(&self) -> bool
        ensures { IsTrue result ↔ (self.now.1 ≡ Some 0) }
    {
        self.1 == Some(0)
    }
}
