//! The tables of a fallbacker, as it holds them.
ghost use Rattle.std.specs.Prelude.{◌≡◌, IfErr, IfOk};
ghost use Rattle.std.specs.FinMap as map;
ghost use Rattle.icu_locale_fallback.specs.Faults.{AreLikelyOf, AreParentsOf, IsLikelyFault};
ghost use Rattle.icu_locale_fallback.specs.Faults.{IsParentsFault};
ghost use Rattle.icu_locale_fallback.specs.Tables.{default_script, likely_region, likely_script};
ghost use Rattle.icu_locale_fallback.specs.Tables.{no_likely_subtags};

use crate::rows::{FallbackRows, TableError};
use crate::table::{table_of_rows, value_at};
use crate::triple::Triple;
use icu_locale_core::{Language, Region, Script};
use std::alloc::Global;
use std::collections::BTreeMap;
use std::marker::Model;

/// The script and region that a language most likely has.
#[derive(Clone, Copy, Debug)]
pub(crate) struct Likely {
    pub script: Script,
    pub region: Region,
}

impl Model for Likely {
    ghost use Rattle.icu_locale_fallback.specs.Tables.{Likely as LikelyOf};

    ghost Value = { LikelyOf };

    ghost view = { λ l. record { script = l.script; region = l.region } };

    ghost inverse = { λ l. record { script = l.script; region = l.region } };
}

/// The likely subtags: of a language, of a language and a script, of a language and a region
/// (UTS 35, likely subtags).
#[derive(Drop)]
pub struct LikelySubtagsForLanguage {
    language: BTreeMap<Language, Likely>,
    language_script: BTreeMap<(Language, Script), Region>,
    language_region: BTreeMap<(Language, Region), Script>,
}

impl Model for LikelySubtagsForLanguage {
    ghost use Rattle.std.specs.FinMap as map;
    ghost use Rattle.icu_locale_fallback.specs.Tables.{LikelySubtags, likely_subtags_code};

    ghost Value = { LikelySubtags };

    ghost coded = { likely_subtags_code };

    ghost view = { λ a. record {
      language = map.from_entries a.language.entries;
      language_script = map.from_entries a.language_script.entries;
      language_region = map.from_entries a.language_region.entries;
    } };
}

impl LikelySubtagsForLanguage {
    /// Tables with no row.
    pub(crate) fn new(alloc: Global) -> LikelySubtagsForLanguage
        ensures { result ≡ no_likely_subtags }
    {
        LikelySubtagsForLanguage {
            language: BTreeMap::new(alloc),
            language_script: BTreeMap::new(alloc),
            language_region: BTreeMap::new(alloc),
        }
    }

    /// The tables of these rows.
    pub(crate) fn try_new(
        alloc: Global,
        rows: &FallbackRows,
    ) -> Result<LikelySubtagsForLanguage, TableError>
        ensures ok { IfOk result (AreLikelyOf rows.now) }
        ensures err { IfErr result (IsLikelyFault rows.now) }
    {
        let language = table_of_rows(alloc, 0, rows.likely_language.as_slice())?;
        let language_script = table_of_rows(alloc, 1, rows.likely_language_script.as_slice())?;
        let language_region = table_of_rows(alloc, 2, rows.likely_language_region.as_slice())?;
        Ok(LikelySubtagsForLanguage {
            language,
            language_script,
            language_region,
        })
    }

    /// The likely script of a language.
    pub(crate) fn script(&self, language: Language) -> Option<Script>
        ensures { result ≡ likely_script self.now language }
    {
        let row = value_at(&self.language, &language)?;
        Some(row.script)
    }

    /// The likely region of a language and, where there is a row for both, of a script.
    pub(crate) fn region(&self, language: Language, script: Option<Script>) -> Option<Region>
        ensures { result ≡ likely_region self.now language script }
    {
        if let Some(script) = script {
            if let Some(region) = value_at(&self.language_script, &(language, script)) {
                return Some(region);
            }
        }
        let row = value_at(&self.language, &language)?;
        Some(row.region)
    }

    /// The default script of a language and, where there is a row for both, of a region.
    pub(crate) fn default_script(
        &self,
        language: Language,
        region: Option<Region>,
    ) -> Option<Script>
        ensures { result ≡ default_script self.now language region }
    {
        if let Some(region) = region {
            if let Some(script) = value_at(&self.language_region, &(language, region)) {
                return Some(script);
            }
        }
        self.script(language)
    }
}

/// The parents of locales (UTS 35, parent locales).
#[derive(Drop)]
pub struct Parents {
    rows: BTreeMap<Triple, Triple>,
}

impl Model for Parents {
    ghost use Rattle.std.specs.Prelude.{◌≡◌, length};
    ghost use Rattle.std.specs.FinMap as map;
    ghost use Rattle.icu_locale_fallback.specs.Triple.{Triple as TripleOf, triple_cmp, triple_code};

    ghost Value = { map.FinMap triple_cmp TripleOf };

    ghost coded = { map.code triple_code triple_code };

    ghost view = { λ a. map.from_entries a.rows.entries };

    ghost invariant = { λ a. map.len (map.from_entries {R = triple_cmp} a.rows.entries)
        ≡ length a.rows.entries };
}

impl Parents {
    /// A table with no row.
    pub(crate) fn new(alloc: Global) -> Parents
        ensures { result ≡ map.empty }
    {
        Parents {
            rows: BTreeMap::new(alloc),
        }
    }

    /// The table of these rows.
    pub(crate) fn try_new(alloc: Global, rows: &FallbackRows) -> Result<Parents, TableError>
        ensures ok { IfOk result (AreParentsOf rows.now) }
        ensures err { IfErr result (IsParentsFault rows.now) }
    {
        Ok(Parents {
            rows: table_of_rows(alloc, 3, rows.parents.as_slice())?,
        })
    }

    /// The number of parent entries.
    pub fn len(&self) -> usize
        ensures { result ≡ map.len self.now }
    {
        self.rows.len()
    }

    /// The parent of a locale that stands as a key.
    pub(crate) fn get(&self, child: Triple) -> Option<Triple>
        ensures { result ≡ map.get self.now child }
    {
        value_at(&self.rows, &child)
    }
}
