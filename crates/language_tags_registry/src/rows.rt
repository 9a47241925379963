ghost use Rattle.std.specs.Prelude.{◌≡◌};
ghost use Rattle.language_tags_registry.specs.Rows.{rows_of};

use crate::RegistryTable;
use writeable_core::TextRow;

/// The tables of a registry as rows of texts, each subtag in canonical case.
///
/// The first cell of a row is its key. The second is its value, where the table has values; else
/// it isn't looked at, and the third never is.
#[derive(Drop)]
pub struct RegistryRows {
    /// Table 0: a language, two or three small letters.
    pub languages: Vec<TextRow>,
    /// Table 1: a language, and the language that stands for it.
    pub languages_preferred: Vec<TextRow>,
    /// Table 2: a language, and the script that isn't written behind it.
    pub languages_suppress_script: Vec<TextRow>,
    /// Table 3: an extended language, three small letters, and what its tags begin with.
    pub extlangs: Vec<TextRow>,
    /// Table 4: an extended language, and the language that stands for it.
    pub extlangs_preferred: Vec<TextRow>,
    /// Table 5: a script, a capital and three small letters.
    pub scripts: Vec<TextRow>,
    /// Table 6: a script, and the script that stands for it.
    pub scripts_preferred: Vec<TextRow>,
    /// Table 7: a region, two capitals or three digits.
    pub regions: Vec<TextRow>,
    /// Table 8: a region, and the region that stands for it.
    pub regions_preferred: Vec<TextRow>,
    /// Table 9: a variant in lower case, and what its tags begin with, cut at single spaces.
    pub variants: Vec<TextRow>,
    /// Table 10: a variant, and the variant that stands for it.
    pub variants_preferred: Vec<TextRow>,
    /// Table 11: a grandfathered tag in its spelling, and the tag that stands for it.
    pub grandfathereds_preferred: Vec<TextRow>,
    /// Table 12: a redundant tag as it prints, and the tag that stands for it.
    pub redundants_preferred: Vec<TextRow>,
}

impl RegistryRows {
    /// The rows of a table.
    pub(crate) fn of_table(&self, table: RegistryTable) -> &[TextRow]
        ensures { result.now ≡ rows_of table self.now }
    {
        match table {
            RegistryTable::Languages => self.languages.as_slice(),
            RegistryTable::LanguagesPreferred => self.languages_preferred.as_slice(),
            RegistryTable::LanguagesSuppressScript => self.languages_suppress_script.as_slice(),
            RegistryTable::Extlangs => self.extlangs.as_slice(),
            RegistryTable::ExtlangsPreferred => self.extlangs_preferred.as_slice(),
            RegistryTable::Scripts => self.scripts.as_slice(),
            RegistryTable::ScriptsPreferred => self.scripts_preferred.as_slice(),
            RegistryTable::Regions => self.regions.as_slice(),
            RegistryTable::RegionsPreferred => self.regions_preferred.as_slice(),
            RegistryTable::Variants => self.variants.as_slice(),
            RegistryTable::VariantsPreferred => self.variants_preferred.as_slice(),
            RegistryTable::GrandfatheredsPreferred => self.grandfathereds_preferred.as_slice(),
            RegistryTable::RedundantsPreferred => self.redundants_preferred.as_slice(),
        }
    }
}
