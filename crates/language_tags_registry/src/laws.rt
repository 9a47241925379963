//! Laws of the rows, for contracts that cite them. Each function does nothing: its contract is
//! the law.
ghost use Rattle.std.specs.Prelude.{◌≡◌, ◌≢◌, ℕ, List};
ghost use Rattle.language_tags_registry.specs.Faults.{AreRowsSound, AreTablesOf, IsFirstFault};
ghost use Rattle.language_tags_registry.specs.Registry.{Tables, table_of, value_of};
ghost use Rattle.language_tags_registry.specs.declared.error.RegistryError.{RegistryError as Refusal};
ghost use Rattle.language_tags_registry.specs.declared.kind.RegistryTable.{RegistryTable as Name};
ghost use Rattle.language_tags_registry.specs.declared.rows.RegistryRows.{RegistryRows};

use crate::RegistryError;

/// Registries of the same rows answer each key alike, and where rows make one, none of them is
/// faulty.
pub fn rows_make_one_registry()
    ensures one { (rows : RegistryRows) (F G : Tables) →
        AreTablesOf rows F → AreTablesOf rows G → (table : Name) (key : List ℕ) →
        value_of (table_of table F) key ≡ value_of (table_of table G) key }
    ensures sound { (rows : RegistryRows) (F : Tables) → AreTablesOf rows F → AreRowsSound rows }
{}

/// Rows have one fault at most, and none where no row is faulty. Want of memory is no fault of
/// the rows.
pub fn rows_have_one_fault()
    ensures one { (rows : RegistryRows) (error other : Refusal) →
        error ≢ RegistryError.NoMemory → other ≢ RegistryError.NoMemory →
        IsFirstFault rows error → IsFirstFault rows other → error ≡ other }
    ensures none { (rows : RegistryRows) (error : Refusal) →
        AreRowsSound rows → IsFirstFault rows error → error ≡ RegistryError.NoMemory }
{}
