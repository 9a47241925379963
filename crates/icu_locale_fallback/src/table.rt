ghost use Rattle.std.specs.Prelude.{◌≡◌, IfErr, IfOk, length};
ghost use Rattle.std.specs.FinMap as map;
ghost use Rattle.icu_locale_fallback.specs.Faults.{IsFaultOf};
ghost use Rattle.icu_locale_fallback.specs.Rows.{IsTableOf};

use crate::rows::{RowKey, RowValue, TableError};
use std::alloc::Global;
use std::collections::BTreeMap;
use writeable_core::TextRow;

/// The table that these rows make; `number` is its number in an error.
pub(crate) fn table_of_rows<K: RowKey, V: RowValue>(
    alloc: Global,
    number: usize,
    rows: &[TextRow],
) -> Result<BTreeMap<K, V>, TableError>
    ensures ok { IfOk result (λ table.
        IsTableOf K.key_is V.value_is rows.now (map.from_entries {R = K.Ord.cmp} table.entries)) }
    ensures len { IfOk result (λ table. length table.entries ≡ length rows.now) }
    ensures err { IfErr result (IsFaultOf K.key_is V.value_is number rows.now) }
{
    let mut table = BTreeMap::new(alloc);
    for (index, row) in rows.iter().enumerate() {
        let Some(key) = K::key(row) else {
            return Err(TableError::BadKey(number, index));
        };
        let Some(value) = V::value(row) else {
            return Err(TableError::BadValue(number, index));
        };
        match table.insert(key, value) {
            Ok(None) => {}
            Ok(Some(_)) => return Err(TableError::DuplicateKey(number, index)),
            Err(_) => return Err(TableError::NoMemory),
        }
    }
    Ok(table)
}

/// The value of a key.
pub(crate) fn value_at<K: Ord, V: Copy>(table: &BTreeMap<K, V>, key: &K) -> Option<V>
    ensures { result ≡ map.get (map.from_entries {R = K.Ord.cmp} table.now.entries) key.now }
{
    table.get(key).copied()
}
