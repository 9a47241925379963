ghost use Rattle.std.specs.Prelude.{◌≡◌, ℕ, List, [], Some, IfErr, IfOk, OnOk, is_none};
ghost use Rattle.std.specs.Prelude.{option_copied, if◌then◌else◌};
ghost use Rattle.std.specs.Str.{bytes_eq};
ghost use Rattle.language_tags_registry.specs.Faults.{IsFaultOf};
ghost use Rattle.language_tags_registry.specs.Registry.{value_of};
ghost use Rattle.language_tags_registry.specs.Rows.{IsTableOf};

use crate::RegistryError;
use crate::kind::{Kind, text_of};
use std::alloc::{AllocError, Global};
use std::collections::BTreeMap;
use std::marker::Model;
use writeable_core::TextRow;

/// Values by their keys.
#[derive(Drop)]
pub(crate) struct Table {
    entries: BTreeMap<String, String>,
}

impl Model for Table {
    ghost use Rattle.std.specs.Prelude.{List, map};
    ghost use Rattle.language_tags_registry.specs.Registry.{Entry, entry_of_strings};

    ghost Value = { List Entry };

    ghost view = { λ a. map entry_of_strings a.entries.entries };
}

impl Table {
    /// A table without entries.
    fn new(alloc: Global) -> Table
        ensures { result ≡ [] }
    {
        Table {
            entries: BTreeMap::new(alloc),
        }
    }

    /// The table that these rows make.
    pub fn of_rows(alloc: Global, kind: Kind, rows: &[TextRow]) -> Result<Table, RegistryError>
        ensures ok { IfOk result (IsTableOf kind rows.now) }
        ensures err { IfErr result (IsFaultOf kind rows.now) }
    {
        let mut table = Table::new(alloc);
        for (index, row) in rows.iter().enumerate() {
            let key = text_of(&row.first);
            if !kind.key.is_met_by(key) {
                return Err(RegistryError::BadKey(kind.number, index));
            }
            let Some(value) = kind.value_of_row(row) else {
                return Err(RegistryError::BadValue(kind.number, index));
            };
            match table.insert(alloc, key, value) {
                Ok(true) => {}
                Ok(false) => return Err(RegistryError::DuplicateKey(kind.number, index)),
                Err(_) => return Err(RegistryError::NoMemory),
            }
        }
        Ok(table)
    }

    /// Puts in a value, and answers whether the key is new.
    fn insert(&mut self, alloc: Global, key: &str, value: &str) -> Result<bool, AllocError>
        ensures fresh { IfOk result (λ fresh. fresh ≡ is_none (value_of self.old key.now)) }
        ensures value { OnOk result ((other : List ℕ) → value_of self.new other
            ≡ (if bytes_eq key.now other then Some value.now else value_of self.old other)) }
    {
        let key = String::from_str(alloc, key)?;
        let value = String::from_str(alloc, value)?;
        let old = self.entries.insert(key, value)?;
        Ok(old.is_none())
    }

    /// The value of a key.
    pub fn get(&self, key: &str) -> Option<&str>
        ensures { option_copied result ≡ value_of self.now key.now }
    {
        match self.entries.get(key) {
            Some(value) => Some(value.as_str()),
            None => None,
        }
    }
}
