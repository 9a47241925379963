ghost use Rattle.std.specs.Prelude.{◌≡◌, false, true, MatchOption};
ghost use Rattle.unic_langid_impl.specs.Likely.{maximal, minimal, triple_of, with_triple};

use crate::LanguageIdentifier;
use crate::likelysubtags::{self, LikelyTables};

impl LanguageIdentifier {
    /// Puts the maximal form of its language, script and region in their place, and answers whether
    /// there is one.
    pub fn maximize(&mut self, tables: &LikelyTables) -> bool
        ensures { MatchOption (maximal tables.now (triple_of self.old))
            ((result ≡ false) × (self.new ≡ self.old))
            (λ form. (result ≡ true) × (self.new ≡ with_triple self.old form)) }
    {
        let form = likelysubtags::maximize(tables, self.language, self.script, self.region);
        let Some((language, script, region)) = form else {
            return false;
        };
        self.language = language;
        self.script = script;
        self.region = region;
        true
    }

    /// Puts the minimal form of its language, script and region in their place, and answers whether
    /// there is one.
    pub fn minimize(&mut self, tables: &LikelyTables) -> bool
        ensures { MatchOption (minimal tables.now (triple_of self.old))
            ((result ≡ false) × (self.new ≡ self.old))
            (λ form. (result ≡ true) × (self.new ≡ with_triple self.old form)) }
    {
        let form = likelysubtags::minimize(tables, self.language, self.script, self.region);
        let Some((language, script, region)) = form else {
            return false;
        };
        self.language = language;
        self.script = script;
        self.region = region;
        true
    }
}
