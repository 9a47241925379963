//! Identifiers are compared, ordered and hashed by language, script, region and variants; what is
//! missing comes first.
ghost use Rattle.std.specs.Prelude.{Some, refl};
ghost use Rattle.std.specs.Cmp.{partial_equiv_from_equiv};
ghost use Rattle.unic_langid_impl.specs.Order.{identifier_cmp, identifier_eq, identifier_writes};
ghost use Rattle.unic_langid_impl.specs.OrderLaws.{identifier_cmp-eq, identifier_cmp_po};
ghost use Rattle.unic_langid_impl.specs.OrderLaws.{identifier_cmp_total, identifier_eq-writes};
ghost use Rattle.unic_langid_impl.specs.OrderLaws.{identifier_eq_equiv};

use crate::LanguageIdentifier;
use std::cmp::Ordering;
use std::hash::{Hash, Hasher};

impl PartialEq for LanguageIdentifier {
    ghost eq = { identifier_eq };

    ghost laws = { partial_equiv_from_equiv identifier_eq_equiv };

    fn eq(&self, other: &Self) -> bool {
        self.language == other.language
            && self.script == other.script
            && self.region == other.region
            && self.variants == other.variants
    }
}

impl Eq for LanguageIdentifier {
    ghost laws = { identifier_eq_equiv };
}

impl PartialOrd for LanguageIdentifier {
    ghost partial_cmp = { λ a b. Some (identifier_cmp a b) };

    ghost laws = { identifier_cmp_po };

    fn partial_cmp(&self, other: &Self) -> Option<Ordering> {
        Some(self.cmp(other))
    }
}

impl Ord for LanguageIdentifier {
    ghost cmp = { identifier_cmp };

    ghost total = { identifier_cmp_total };

    ghost matches_partial_cmp = { λ a b. refl };

    ghost matches_eq = { identifier_cmp-eq };

    fn cmp(&self, other: &Self) -> Ordering {
        self.language
            .cmp(&other.language)
            .then_with(|| self.script.cmp(&other.script))
            .then_with(|| self.region.cmp(&other.region))
            .then_with(|| self.variants.cmp(&other.variants))
    }
}

impl Hash for LanguageIdentifier {
    ghost hash_input = { identifier_writes };

    ghost respects_eq = { identifier_eq-writes };

    fn hash<H: Hasher>(&self, state: &mut H) {
        self.language.hash(state);
        self.script.hash(state);
        self.region.hash(state);
        self.variants.hash(state);
    }
}
