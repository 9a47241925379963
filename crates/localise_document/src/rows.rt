ghost use Rattle.std.specs.Prelude.{◌≡◌, Ok, Result, option_map, IfErr, IfOk};
ghost use Rattle.std.specs.Result.{result_map_both};
ghost use Rattle.serde_json.specs.Data.{Data};
ghost use Rattle.serde_json.specs.View.{items_view, view};
ghost use Rattle.localise_document.specs.Misread.{IsFaultOf};
ghost use Rattle.localise_document.specs.Shape.{list_of, needed_list, rows_from};
ghost use Rattle.localise_document.specs.declared.place.Field.{Field};

use crate::error::Misread;
use crate::{Field, Section, ShapePlace};
use serde_json::Value;
use std::alloc::{AllocError, Global};

/// What reads the rows of a list.
pub(crate) trait RowReader {
    type Row: Drop;

    ghost row_of: { Self → Data → Result Self.Row Field };

    /// The row that a value is.
    fn read(&self, alloc: Global, value: Value) -> Result<Self::Row, Misread<Field>>
        ensures ok { IfOk result (λ row. row_of self.now (view value) ≡ Ok row) }
        ensures err { IfErr result (IsFaultOf (row_of self.now (view value))) };
}

/// The rows of a list, or its first misshapen row.
fn rows_of_values<R: RowReader>(
    alloc: Global,
    reader: &R,
    section: Section,
    values: Vec<Value>,
) -> Result<Result<Vec<R::Row>, ShapePlace>, AllocError>
    ensures { IfOk result (λ rows.
        result_map_both (λ v. v.items) (λ place. place) rows
        ≡ rows_from (R.row_of reader.now) section 0 (items_view values.items)) }
{
    let mut rows = Vec::with_capacity(alloc, values.len())?;
    for value in values {
        match reader.read(alloc, value) {
            Ok(row) => rows.push(row)?,
            Err(Misread::NoMemory) => return Err(AllocError),
            Err(Misread::Shape(field)) => {
                return Ok(Err(ShapePlace {
                    section,
                    index: rows.len(),
                    field,
                }));
            }
        }
    }
    Ok(Ok(rows))
}

/// The rows of the list that a value is.
pub(crate) fn rows_of_value<R: RowReader>(
    alloc: Global,
    reader: &R,
    section: Section,
    whole: Field,
    value: Value,
) -> Result<Result<Vec<R::Row>, ShapePlace>, AllocError>
    ensures { IfOk result (λ rows.
        result_map_both (λ v. v.items) (λ place. place) rows
        ≡ list_of (R.row_of reader.now) section whole (view value)) }
{
    match value {
        Value::Array(values) => rows_of_values(alloc, reader, section, values),
        _ => Ok(Err(ShapePlace::of_section(section, whole))),
    }
}

/// The rows of a list that must be there.
pub(crate) fn needed_rows<R: RowReader>(
    alloc: Global,
    reader: &R,
    section: Section,
    member: Option<Value>,
) -> Result<Result<Vec<R::Row>, ShapePlace>, AllocError>
    ensures { IfOk result (λ rows.
        result_map_both (λ v. v.items) (λ place. place) rows
        ≡ needed_list (R.row_of reader.now) section (option_map view member)) }
{
    match member {
        None => Ok(Err(ShapePlace::of_section(section, Field::Whole))),
        Some(value) => rows_of_value(alloc, reader, section, Field::Whole, value),
    }
}
