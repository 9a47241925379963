//! Rows in the order of their keys.

ghost use Rattle.std.specs.Prelude.{◌≡◌, IfOk};
ghost use Rattle.std.specs.List.{AllByRecursion};
ghost use Rattle.std.specs.BTreeMap.{values};
ghost use Rattle.gettext.specs.Reader.{Collects};
ghost use Rattle.gettext.specs.Table.{IsRowOf, Sorts};

use crate::spans::{Row, bytes_of};
use std::alloc::{AllocError, Global};
use std::collections::BTreeMap;

/// The rows in the order of their keys. Of equal keys the last row stays.
pub fn sorted(alloc: Global, buffer: &[u8], rows: &[Row]) -> Result<Vec<Row>, AllocError>
    requires { AllByRecursion (IsRowOf buffer.now) rows.now }
    ensures { IfOk result (λ sorted. Sorts buffer.now rows.now sorted.items) }
{
    let rows = by_key(alloc, buffer, rows)?;
    in_key_order(alloc, &rows)
}

fn by_key<'a>(
    alloc: Global,
    buffer: &'a [u8],
    rows: &[Row],
) -> Result<BTreeMap<&'a [u8], Row>, AllocError>
    requires { AllByRecursion (IsRowOf buffer.now) rows.now }
    ensures { IfOk result (Collects buffer.now rows.now) }
{
    let mut found = BTreeMap::new(alloc);
    for row in rows {
        found.insert(bytes_of(buffer, row.key), *row)?;
    }
    Ok(found)
}

fn in_key_order(alloc: Global, rows: &BTreeMap<&[u8], Row>) -> Result<Vec<Row>, AllocError>
    ensures { IfOk result (λ v. v.items ≡ values rows.now) }
{
    rows.values().copied().collect(alloc)
}
