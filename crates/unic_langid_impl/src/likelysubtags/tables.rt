ghost use Rattle.std.specs.Prelude.{◌≡◌, None, IfErr, IfOk, OnOk, option_and_then};
ghost use Rattle.unic_langid_impl.specs.Identifier.{text_cmp};
ghost use Rattle.unic_langid_impl.specs.LikelyFaults.{AreLanguagesOf, AreScriptsOf, AreTablesOf};
ghost use Rattle.unic_langid_impl.specs.LikelyFaults.{IsFirstFault, IsLanguagesFault};
ghost use Rattle.unic_langid_impl.specs.LikelyFaults.{IsScriptsFault, IsTableFault};
ghost use Rattle.unic_langid_impl.specs.LikelyRows.{AreSound, IsTableOf};

use super::rows::{Key, LikelyError, LikelyRows, Subtags, value};
use crate::subtags::{Language, Region, Script};
use std::alloc::Global;
use std::collections::BTreeMap;
use std::marker::Model;
use writeable_core::TextRow;

/// The likely tables. Contracts see the record `Tables` of their rows.
#[derive(Drop)]
pub struct LikelyTables {
    pub(super) languages: LanguageTables,
    pub(super) scripts: ScriptTables,
}

impl Model for LikelyTables {
    ghost use Rattle.unic_langid_impl.specs.Likely.{Tables};

    ghost Value = { Tables };

    ghost view = { λ t. record { languages = t.languages; scripts = t.scripts } };
}

impl LikelyTables {
    /// The tables of these rows, which are looked at table by table; the first faulty row is named.
    pub fn try_new(alloc: Global, rows: &LikelyRows) -> Result<LikelyTables, LikelyError>
        ensures ok { IfOk result (AreTablesOf rows.now) }
        ensures err { IfErr result (IsFirstFault rows.now) }
    {
        let languages = LanguageTables::try_new(alloc, rows)?;
        let scripts = ScriptTables::try_new(alloc, rows)?;
        Ok(LikelyTables { languages, scripts })
    }
}

/// The tables that are looked at where the language is there.
#[derive(Drop)]
pub struct LanguageTables {
    lang_only: BTreeMap<Language, Subtags>,
    lang_region: BTreeMap<(Language, Region), Subtags>,
    lang_script: BTreeMap<(Language, Script), Subtags>,
}

impl Model for LanguageTables {
    ghost use Rattle.unic_langid_impl.specs.Likely.{LanguageTables as TablesOf};

    ghost Value = { TablesOf };

    ghost view = { λ t. record {
      lang_only = t.lang_only.entries;
      lang_region = t.lang_region.entries;
      lang_script = t.lang_script.entries;
    } };
}

impl LanguageTables {
    ghost use Rattle.unic_langid_impl.specs.Likely.{language_pair_cmp, row, with_language};

    fn try_new(alloc: Global, rows: &LikelyRows) -> Result<LanguageTables, LikelyError>
        ensures ok { IfOk result (AreLanguagesOf rows.now) }
        ensures err { IfErr result (IsLanguagesFault rows.now) }
    {
        let lang_only = table(alloc, 0, rows.lang_only.as_slice())?;
        let lang_region = table(alloc, 1, rows.lang_region.as_slice())?;
        let lang_script = table(alloc, 2, rows.lang_script.as_slice())?;
        Ok(LanguageTables {
            lang_only,
            lang_region,
            lang_script,
        })
    }

    /// The likely subtags.
    pub(super) fn likely(
        &self,
        language: Language,
        script: Option<Script>,
        region: Option<Region>,
    ) -> Option<Subtags>
        ensures { result ≡ with_language self.now (language, script, region) }
    {
        if let Some(found) = self.of_language_region(language, &region) {
            return Some(found);
        }
        if let Some(found) = self.of_language_script(language, &script) {
            return Some(found);
        }
        let (language, likely_script, likely_region) = self.lang_only.get(&language).copied()?;
        Some((language, script.or(likely_script), region.or(likely_region)))
    }

    fn of_language_region(&self, language: Language, region: &Option<Region>) -> Option<Subtags>
        ensures { result ≡
            option_and_then
            (λ region. row language_pair_cmp self.now.lang_region (language, region)) region.now }
    {
        let region = (*region)?;
        self.lang_region.get(&(language, region)).copied()
    }

    fn of_language_script(&self, language: Language, script: &Option<Script>) -> Option<Subtags>
        ensures { result ≡
            option_and_then
            (λ script. row language_pair_cmp self.now.lang_script (language, script)) script.now }
    {
        let script = (*script)?;
        self.lang_script.get(&(language, script)).copied()
    }
}

/// The tables that are looked at where it isn't.
#[derive(Drop)]
pub struct ScriptTables {
    script_region: BTreeMap<(Script, Region), Subtags>,
    script_only: BTreeMap<Script, Subtags>,
    region_only: BTreeMap<Region, Subtags>,
}

impl Model for ScriptTables {
    ghost use Rattle.unic_langid_impl.specs.Likely.{ScriptTables as TablesOf};

    ghost Value = { TablesOf };

    ghost view = { λ t. record {
      script_region = t.script_region.entries;
      script_only = t.script_only.entries;
      region_only = t.region_only.entries;
    } };
}

impl ScriptTables {
    ghost use Rattle.unic_langid_impl.specs.Likely.{pair_cmp, row, without_language};

    fn try_new(alloc: Global, rows: &LikelyRows) -> Result<ScriptTables, LikelyError>
        ensures ok { IfOk result (AreScriptsOf rows.now) }
        ensures err { IfErr result (IsScriptsFault rows.now) }
    {
        let script_region = table(alloc, 3, rows.script_region.as_slice())?;
        let script_only = table(alloc, 4, rows.script_only.as_slice())?;
        let region_only = table(alloc, 5, rows.region_only.as_slice())?;
        Ok(ScriptTables {
            script_region,
            script_only,
            region_only,
        })
    }

    /// The likely subtags.
    pub(super) fn likely(&self, script: Option<Script>, region: Option<Region>) -> Option<Subtags>
        ensures { result ≡ without_language self.now (None, script, region) }
    {
        let Some(script) = script else {
            return self.of_region(region);
        };
        if let Some(found) = self.of_script_region(script, &region) {
            return Some(found);
        }
        let (language, script, likely_region) = self.script_only.get(&script).copied()?;
        Some((language, script, region.or(likely_region)))
    }

    fn of_script_region(&self, script: Script, region: &Option<Region>) -> Option<Subtags>
        ensures { result ≡
            option_and_then
            (λ region. row pair_cmp self.now.script_region (script, region)) region.now }
    {
        let region = (*region)?;
        self.script_region.get(&(script, region)).copied()
    }

    fn of_region(&self, region: Option<Region>) -> Option<Subtags>
        ensures { result ≡
            option_and_then (λ region. row text_cmp self.now.region_only region) region }
    {
        self.region_only.get(&region?).copied()
    }
}

/// The table of these rows; `number` is its number in an error.
fn table<K: Key>(
    alloc: Global,
    number: usize,
    rows: &[TextRow],
) -> Result<BTreeMap<K, Subtags>, LikelyError>
    ensures ok { IfOk result (λ table. IsTableOf K.key_is K.Ord.cmp rows.now table.entries) }
    ensures sound { OnOk result (AreSound K.key_is rows.now) }
    ensures err { IfErr result (IsTableFault K.key_is number rows.now) }
{
    let mut table = BTreeMap::new(alloc);
    for (index, row) in rows.iter().enumerate() {
        let Some(key) = K::of_row(row) else {
            return Err(LikelyError::BadEntry(number, index));
        };
        let value = match value(alloc, &row.third) {
            Ok(Some(value)) => value,
            Ok(None) => return Err(LikelyError::BadEntry(number, index)),
            Err(_) => return Err(LikelyError::NoMemory),
        };
        match table.insert(key, value) {
            Ok(None) => {}
            Ok(Some(_)) => return Err(LikelyError::DuplicateKey(number, index)),
            Err(_) => return Err(LikelyError::NoMemory),
        }
    }
    Ok(table)
}
