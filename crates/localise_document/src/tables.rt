ghost use Rattle.std.specs.Prelude.{◌≡◌, Err, Ok, Some, option_map, IfErr, IfOk};
ghost use Rattle.std.specs.Result.{result_map_both};
ghost use Rattle.serde_json.specs.Data.{no_members};
ghost use Rattle.serde_json.specs.View.{items_view, view};
ghost use Rattle.localise_document.specs.Contents.{fallback_lists, registry_lists};
ghost use Rattle.localise_document.specs.Misread.{IsFaultOf};
ghost use Rattle.localise_document.specs.Names.{fallback_names, registry_names};
ghost use Rattle.localise_document.specs.Objects.{HasFallbackMembers, HasRegistryMembers};
ghost use Rattle.localise_document.specs.Objects.{IsFallbackSection, IsRegistrySection};
ghost use Rattle.localise_document.specs.Tables.{cell_of, cells_of, fallback_of, registry_of};
ghost use Rattle.localise_document.specs.Tables.{row_of, section_of, table_of};

use crate::error::Misread;
use crate::members::members_by_name;
use crate::rows::{RowReader, rows_of_value};
use crate::values::text_from;
use crate::{Field, Section, ShapePlace};
use icu_locale_fallback::FallbackRows;
use language_tags_registry::RegistryRows;
use serde_json::Value;
use std::alloc::{AllocError, Global};
use writeable_core::{OwnedText, TextRow};

/// What reads the rows of a table: how many cells they have, and the table's name.
#[derive(Clone, Copy)]
pub(crate) struct TableReader {
    pub cells: usize,
    pub field: Field,
}

impl RowReader for TableReader {
    type Row = TextRow;

    ghost row_of = { λ reader d. row_of reader.cells reader.field d };

    fn read(&self, alloc: Global, value: Value) -> Result<TextRow, Misread<Field>> {
        let reader = *self;
        let Value::Array(values) = value else {
            return Err(Misread::Shape(reader.field));
        };
        cells_from(alloc, reader.cells, values).ok_or(Misread::Shape(reader.field))
    }
}

/// A row of exactly so many texts.
fn cells_from(alloc: Global, cells: usize, values: Vec<Value>) -> Option<TextRow>
    ensures { result ≡ cells_of cells (items_view values.items) }
{
    if values.len() != cells {
        return None;
    }
    let mut values = values.into_iter();
    let first = values.next();
    let second = values.next();
    let third = values.next();
    Some(TextRow {
        first: cell_from(alloc, first)?,
        second: cell_from(alloc, second)?,
        third: cell_from(alloc, third)?,
    })
}

fn cell_from(alloc: Global, cell: Option<Value>) -> Option<OwnedText>
    ensures { result ≡ cell_of (option_map view cell) }
{
    match cell {
        None => Some(OwnedText::empty(alloc)),
        Some(value) => text_from(value),
    }
}

/// A table, which is empty where it is absent.
fn table_from(
    alloc: Global,
    section: Section,
    field: Field,
    cells: usize,
    member: Option<Value>,
) -> Result<Result<Vec<TextRow>, ShapePlace>, AllocError>
    ensures { IfOk result (λ rows.
        result_map_both (λ v. v.items) (λ place. place) rows
        ≡ table_of section field cells (option_map view member)) }
{
    match member {
        None => Ok(Ok(Vec::new(alloc))),
        Some(value) => {
            let reader = TableReader { cells, field };
            rows_of_value(alloc, &reader, section, field, value)
        }
    }
}

/// A table of the registry, by its number.
fn registry_table(
    alloc: Global,
    table: usize,
    cells: usize,
    member: Option<Value>,
) -> Result<Result<Vec<TextRow>, ShapePlace>, AllocError>
    ensures { IfOk result (λ rows.
        result_map_both (λ v. v.items) (λ place. place) rows
        ≡ table_of Section.Registry (Field.RegistryTable table) cells (option_map view member)) }
{
    table_from(
        alloc,
        Section::Registry,
        Field::RegistryTable(table),
        cells,
        member,
    )
}

/// A table of fallback, by its number.
fn fallback_table(
    alloc: Global,
    table: usize,
    cells: usize,
    member: Option<Value>,
) -> Result<Result<Vec<TextRow>, ShapePlace>, AllocError>
    ensures { IfOk result (λ rows.
        result_map_both (λ v. v.items) (λ place. place) rows
        ≡ table_of Section.Fallback (Field.FallbackTable table) cells (option_map view member)) }
{
    table_from(
        alloc,
        Section::Fallback,
        Field::FallbackTable(table),
        cells,
        member,
    )
}

/// The members of the registry.
#[derive(Drop)]
pub(crate) struct RegistryMembers {
    languages: Option<Value>,
    languages_preferred: Option<Value>,
    languages_suppress_script: Option<Value>,
    extlangs: Option<Value>,
    extlangs_preferred: Option<Value>,
    scripts: Option<Value>,
    scripts_preferred: Option<Value>,
    regions: Option<Value>,
    regions_preferred: Option<Value>,
    variants: Option<Value>,
    variants_preferred: Option<Value>,
    grandfathereds_preferred: Option<Value>,
    redundants_preferred: Option<Value>,
}

/// The members of the registry without tables.
fn no_registry_members() -> RegistryMembers
    ensures { HasRegistryMembers no_members result }
{
    RegistryMembers {
        languages: None,
        languages_preferred: None,
        languages_suppress_script: None,
        extlangs: None,
        extlangs_preferred: None,
        scripts: None,
        scripts_preferred: None,
        regions: None,
        regions_preferred: None,
        variants: None,
        variants_preferred: None,
        grandfathereds_preferred: None,
        redundants_preferred: None,
    }
}

/// The members of the registry, which has none where it is absent.
fn registry_members(section: Option<Value>) -> Result<RegistryMembers, ShapePlace>
    ensures ok { IfOk result (IsRegistrySection (option_map view section)) }
    ensures err { IfErr result (λ place.
        section_of Section.Registry registry_names (option_map view section) ≡ Err place) }
{
    match section {
        None => Ok(no_registry_members()),
        Some(value) => registry_members_of(value),
    }
}

fn registry_members_of(value: Value) -> Result<RegistryMembers, ShapePlace>
    ensures ok { IfOk result (IsRegistrySection (Some (view value))) }
    ensures err { IfErr result (λ place.
        section_of Section.Registry registry_names (Some (view value)) ≡ Err place) }
{
    let Value::Object(members) = value else {
        return Err(ShapePlace::of_section(Section::Registry, Field::Whole));
    };
    let names = [
        "languages",
        "languages_preferred",
        "languages_suppress_script",
        "extlangs",
        "extlangs_preferred",
        "scripts",
        "scripts_preferred",
        "regions",
        "regions_preferred",
        "variants",
        "variants_preferred",
        "grandfathereds_preferred",
        "redundants_preferred",
    ];
    let Some(mut slots) = members_by_name::<13>(members, &names) else {
        return Err(ShapePlace::of_section(Section::Registry, Field::Unknown));
    };
    Ok(RegistryMembers {
        languages: slots[0].take(),
        languages_preferred: slots[1].take(),
        languages_suppress_script: slots[2].take(),
        extlangs: slots[3].take(),
        extlangs_preferred: slots[4].take(),
        scripts: slots[5].take(),
        scripts_preferred: slots[6].take(),
        regions: slots[7].take(),
        regions_preferred: slots[8].take(),
        variants: slots[9].take(),
        variants_preferred: slots[10].take(),
        grandfathereds_preferred: slots[11].take(),
        redundants_preferred: slots[12].take(),
    })
}

/// The registry.
#[tactic(auto, unfolding(crate::specs::Tables::registry_of, crate::specs::Tables::registry_in))]
pub(crate) fn registry_from(
    alloc: Global,
    section: Option<Value>,
) -> Result<RegistryRows, Misread<ShapePlace>>
    ensures ok { IfOk result (λ rows.
        registry_of (option_map view section) ≡ Ok (registry_lists rows)) }
    ensures err { IfErr result (IsFaultOf (registry_of (option_map view section))) }
{
    let members = registry_members(section)?;
    Ok(RegistryRows {
        languages: registry_table(alloc, 0, 1, members.languages)??,
        languages_preferred: registry_table(alloc, 1, 2, members.languages_preferred)??,
        languages_suppress_script: registry_table(alloc, 2, 2, members.languages_suppress_script)??,
        extlangs: registry_table(alloc, 3, 2, members.extlangs)??,
        extlangs_preferred: registry_table(alloc, 4, 2, members.extlangs_preferred)??,
        scripts: registry_table(alloc, 5, 1, members.scripts)??,
        scripts_preferred: registry_table(alloc, 6, 2, members.scripts_preferred)??,
        regions: registry_table(alloc, 7, 1, members.regions)??,
        regions_preferred: registry_table(alloc, 8, 2, members.regions_preferred)??,
        variants: registry_table(alloc, 9, 2, members.variants)??,
        variants_preferred: registry_table(alloc, 10, 2, members.variants_preferred)??,
        grandfathereds_preferred: registry_table(alloc, 11, 2, members.grandfathereds_preferred)??,
        redundants_preferred: registry_table(alloc, 12, 2, members.redundants_preferred)??,
    })
}

/// The members of the section of fallback.
#[derive(Drop)]
pub(crate) struct FallbackMembers {
    likely_language: Option<Value>,
    likely_language_script: Option<Value>,
    likely_language_region: Option<Value>,
    parents: Option<Value>,
}

/// The members of the section of fallback without tables.
fn no_fallback_members() -> FallbackMembers
    ensures { HasFallbackMembers no_members result }
{
    FallbackMembers {
        likely_language: None,
        likely_language_script: None,
        likely_language_region: None,
        parents: None,
    }
}

/// The members of the section of fallback, which has none where it is absent.
fn fallback_members(section: Option<Value>) -> Result<FallbackMembers, ShapePlace>
    ensures ok { IfOk result (IsFallbackSection (option_map view section)) }
    ensures err { IfErr result (λ place.
        section_of Section.Fallback fallback_names (option_map view section) ≡ Err place) }
{
    match section {
        None => Ok(no_fallback_members()),
        Some(value) => fallback_members_of(value),
    }
}

fn fallback_members_of(value: Value) -> Result<FallbackMembers, ShapePlace>
    ensures ok { IfOk result (IsFallbackSection (Some (view value))) }
    ensures err { IfErr result (λ place.
        section_of Section.Fallback fallback_names (Some (view value)) ≡ Err place) }
{
    let Value::Object(members) = value else {
        return Err(ShapePlace::of_section(Section::Fallback, Field::Whole));
    };
    let names = [
        "likely_language",
        "likely_language_script",
        "likely_language_region",
        "parents",
    ];
    let Some(mut slots) = members_by_name::<4>(members, &names) else {
        return Err(ShapePlace::of_section(Section::Fallback, Field::Unknown));
    };
    Ok(FallbackMembers {
        likely_language: slots[0].take(),
        likely_language_script: slots[1].take(),
        likely_language_region: slots[2].take(),
        parents: slots[3].take(),
    })
}

/// The section of fallback.
#[tactic(auto, unfolding(crate::specs::Tables::fallback_of, crate::specs::Tables::fallback_in))]
pub(crate) fn fallback_from(
    alloc: Global,
    section: Option<Value>,
) -> Result<FallbackRows, Misread<ShapePlace>>
    ensures ok { IfOk result (λ rows.
        fallback_of (option_map view section) ≡ Ok (fallback_lists rows)) }
    ensures err { IfErr result (IsFaultOf (fallback_of (option_map view section))) }
{
    let members = fallback_members(section)?;
    Ok(FallbackRows {
        likely_language: fallback_table(alloc, 0, 3, members.likely_language)??,
        likely_language_script: fallback_table(alloc, 1, 3, members.likely_language_script)??,
        likely_language_region: fallback_table(alloc, 2, 3, members.likely_language_region)??,
        parents: fallback_table(alloc, 3, 2, members.parents)??,
    })
}
