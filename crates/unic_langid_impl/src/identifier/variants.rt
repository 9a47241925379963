ghost use Rattle.std.specs.Prelude.{◌≡◌, length};
ghost use Rattle.unic_langid_impl.specs.Reading.{IsAscendingOf};

use crate::subtags::Variant;
use std::marker::Model;

/// The variants of an identifier that are left, in order. Contracts see the list of these.
#[derive(Drop)]
pub struct VariantsIter<'a> {
    left: &'a [Variant],
}

impl<'a> Model for VariantsIter<'a> {
    ghost use Rattle.std.specs.Prelude.{ℕ, List};

    ghost Value = { List (List ℕ) };

    ghost view = { λ s. s.left.now };
}

impl<'a> VariantsIter<'a> {
    pub(super) fn new(variants: &'a [Variant]) -> VariantsIter<'a>
        ensures { result ≡ variants.now }
    {
        VariantsIter { left: variants }
    }

    /// How many are left.
    pub fn len(&self) -> usize
        ensures { result ≡ length self.now }
    {
        self.left.len()
    }
}

impl<'a> Iterator for VariantsIter<'a> {
    ghost use Rattle.std.specs.Iterator.{YieldsFirstRef, item_count};

    type Item = &'a Variant;

    ghost next_gives = { YieldsFirstRef (λ s. s) };

    ghost remaining = { item_count (λ s. s) };

    fn next(&mut self) -> Option<&'a Variant> {
        let (first, others) = self.left.split_first()?;
        self.left = others;
        Some(first)
    }
}

/// The variants in order, each once.
pub(crate) fn ascending(mut variants: Vec<Variant>) -> Vec<Variant>
    ensures { IsAscendingOf variants.items result.items }
{
    variants.sort_unstable();
    variants.dedup();
    variants
}
