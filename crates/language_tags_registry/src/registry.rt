ghost use Rattle.std.specs.Prelude.{◌≡◌, IfErr, IfOk, IfSome, option_copied};
ghost use Rattle.language_tags_registry.specs.Faults.{AreTablesOf, IsFirstFault};
ghost use Rattle.language_tags_registry.specs.Kinds.{MeetsAny, kind_of};
ghost use Rattle.language_tags_registry.specs.Registry.{table_of, value_of};

use crate::kind::TABLES;
use crate::table::Table;
use crate::{RegistryError, RegistryRows, RegistryTable};
use std::alloc::Global;
use std::marker::Model;

/// A registry of subtags. Contracts see the record `Tables` of its tables.
#[derive(Drop)]
pub struct Registry {
    /// The tables in the order of their numbers.
    tables: Vec<Table>,
}

impl Model for Registry {
    ghost use Rattle.language_tags_registry.specs.Registry.{Tables, tables_at};
    ghost use Rattle.language_tags_registry.specs.Kinds.{HoldTables};

    ghost Value = { Tables };

    ghost view = { λ a. tables_at a.tables.items };

    ghost invariant = { λ a. HoldTables a.tables.items };
}

impl Registry {
    /// The registry of these rows. The error names the first faulty row in the order of the
    /// tables.
    pub fn try_new(alloc: Global, rows: &RegistryRows) -> Result<Registry, RegistryError>
        ensures ok { IfOk result (AreTablesOf rows.now) }
        ensures err { IfErr result (IsFirstFault rows.now) }
    {
        let mut tables = Vec::new(alloc);
        for table in TABLES {
            let filled = Table::of_rows(alloc, table.kind(), rows.of_table(table))?;
            if tables.push(filled).is_err() {
                return Err(RegistryError::NoMemory);
            }
        }
        Ok(Registry { tables })
    }

    /// The value of a key of a table, the empty text where the table has no values. It takes no
    /// memory.
    pub fn get(&self, table: RegistryTable, key: &str) -> Option<&str>
        ensures value { option_copied result ≡ value_of (table_of table self.now) key.now }
        ensures shape { IfSome result (λ value. MeetsAny (kind_of table).value value.now) }
    {
        self.tables[table.kind().number].get(key)
    }
}
