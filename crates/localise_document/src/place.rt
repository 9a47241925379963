ghost use Rattle.std.specs.Prelude.{◌≡◌};
ghost use Rattle.localise_document.specs.Names.{fallback_name, field_name, registry_name};
ghost use Rattle.localise_document.specs.Names.{section_name};
ghost use Rattle.localise_document.specs.Shape.{place_of};

/// A part of a document.
#[derive(Clone, Copy, Debug, PartialEq, Eq)]
pub enum Section {
    /// The document itself.
    Document,
    Registry,
    Fallback,
    Bundles,
    Root,
    Requests,
}

/// What of a row or of a section is misshapen.
#[derive(Clone, Copy, Debug, PartialEq, Eq)]
pub enum Field {
    /// It isn't there, or is no object or list as it must be.
    Whole,
    /// It has a key that it can't have.
    Unknown,
    Tag,
    Mo,
    List,
    Context,
    Singular,
    Plural,
    Count,
    Placeholder,
    Items,
    /// A table of the registry, by its number.
    RegistryTable(usize),
    /// A table of fallback, by its number.
    FallbackTable(usize),
}

/// Where a document is misshapen. Rows are numbered from 0; where no row is meant, the index is 0.
#[derive(Clone, Copy, Debug, PartialEq, Eq)]
pub struct ShapePlace {
    pub section: Section,
    pub index: usize,
    pub field: Field,
}

impl ShapePlace {
    /// A field that is in no row.
    pub(crate) fn of_section(section: Section, field: Field) -> ShapePlace
        ensures { result ≡ place_of section field }
    {
        ShapePlace {
            section,
            index: 0,
            field,
        }
    }
}

impl Section {
    /// The section's name.
    pub fn name(self) -> &'static str
        ensures { result.now ≡ section_name self }
    {
        match self {
            Section::Document => "document",
            Section::Registry => "registry",
            Section::Fallback => "fallback",
            Section::Bundles => "bundles",
            Section::Root => "root",
            Section::Requests => "requests",
        }
    }
}

impl Field {
    /// The field's name; of a table it is the table's name.
    pub fn name(self) -> &'static str
        ensures { result.now ≡ field_name self }
    {
        match self {
            Field::Whole => "whole",
            Field::Unknown => "unknown",
            Field::Tag => "tag",
            Field::Mo => "mo",
            Field::List => "list",
            Field::Context => "context",
            Field::Singular => "singular",
            Field::Plural => "plural",
            Field::Count => "count",
            Field::Placeholder => "placeholder",
            Field::Items => "items",
            Field::RegistryTable(table) => registry_table_name(table),
            Field::FallbackTable(table) => fallback_table_name(table),
        }
    }
}

fn registry_table_name(table: usize) -> &'static str
    ensures { result.now ≡ registry_name table }
{
    match table {
        0 => "languages",
        1 => "languages_preferred",
        2 => "languages_suppress_script",
        3 => "extlangs",
        4 => "extlangs_preferred",
        5 => "scripts",
        6 => "scripts_preferred",
        7 => "regions",
        8 => "regions_preferred",
        9 => "variants",
        10 => "variants_preferred",
        11 => "grandfathereds_preferred",
        12 => "redundants_preferred",
        _ => "table",
    }
}

fn fallback_table_name(table: usize) -> &'static str
    ensures { result.now ≡ fallback_name table }
{
    match table {
        0 => "likely_language",
        1 => "likely_language_script",
        2 => "likely_language_region",
        3 => "parents",
        _ => "table",
    }
}
