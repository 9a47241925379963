//! How a run ended, and the exit status of that.

ghost use Rattle.std.specs.Prelude.{◌≡◌};
ghost use Rattle.localise_status.specs.Classes.{code_of};

use icu_list::DataError;
use icu_locale_fallback::TableError;
use language_tags_registry::RegistryError;
use localise::BundleCause;
use localise_document::ShapePlace;
use wanted_locale::TagCause;

/// How a run ended.
#[derive(Clone, Copy, Debug, PartialEq, Eq)]
pub enum Status {
    /// All lines were appended.
    Done,
    /// The words are no command.
    BadWords,
    /// The input is no JSON.
    NotJson,
    /// The input is JSON, but no document: its first misshapen place.
    Shape(ShapePlace),
    /// The first faulty row of a table.
    Table(TableCause),
    /// The bundle with this number, counted from 0, is the first that is faulty.
    Bundle(usize, BundleCause),
    /// The bundle with this number is for the locale of an earlier one.
    DuplicateLocale(usize),
    /// A pattern of the root is faulty.
    Root(DataError),
    /// The request with this number, counted from 0, is the first that gets no line.
    Request(usize, RequestCause),
    /// The source failed.
    ReadFault,
    /// The output failed.
    WriteFault,
    /// There was no memory.
    NoMemory,
    /// The input has more bytes than are read.
    TooLong,
}

/// What is wrong with a row of a table.
#[derive(Clone, Copy, Debug, PartialEq, Eq)]
pub enum TableCause {
    /// The table is one of the registry.
    Registry(RegistryError),
    /// The table is one of fallback.
    Fallback(TableError),
}

/// Why a request gets no line.
#[derive(Clone, Copy, Debug, PartialEq, Eq)]
pub enum RequestCause {
    /// Its tag asks for no locale.
    Tag(TagCause),
    /// Its walk comes round before a locale translates.
    ChainLoops,
}

impl Status {
    /// The exit status of a program that ends with it. It takes no memory.
    pub fn code(&self) -> u8
        ensures { result ≡ code_of self.now }
    {
        match self {
            Status::Done => 0,
            Status::BadWords => 2,
            Status::NotJson => 3,
            Status::Shape(_) => 4,
            Status::Table(_) => 5,
            Status::Bundle(..) | Status::DuplicateLocale(_) | Status::Root(_) => 6,
            Status::Request(..) => 7,
            Status::ReadFault => 8,
            Status::WriteFault => 9,
            Status::NoMemory => 10,
            Status::TooLong => 11,
        }
    }
}
