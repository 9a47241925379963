ghost use Rattle.std.specs.Prelude.{◌≡◌};
ghost use Rattle.localise_document.specs.Words.{words_of};

use crate::{Field, ShapePlace};
use std::alloc::{AllocError, AllocFailed};
use thiserror::Error;

/// Why bytes give no document.
#[derive(Clone, Copy, Debug, PartialEq, Eq, Error)]
pub enum DocumentError {
    /// They are no JSON.
    #[error("not JSON")]
    NotJson,
    /// The value that they are has another shape than a document: its first misshapen place.
    #[error("wrong shape")]
    Shape(ShapePlace),
    /// Memory ran out.
    #[error("out of memory")]
    NoMemory,
}

impl DocumentError {
    /// A few words on the error, without its place.
    pub fn text(&self) -> &'static str
        ensures { result.now ≡ words_of self.now }
    {
        match self {
            DocumentError::NotJson => "not JSON",
            DocumentError::Shape(_) => "wrong shape",
            DocumentError::NoMemory => "out of memory",
        }
    }
}

/// Why a reader gave nothing: what it reads is misshapen, or memory ran out.
#[derive(Clone, Copy, Debug)]
pub(crate) enum Misread<F> {
    Shape(F),
    NoMemory,
}

impl From<Field> for Misread<Field> {
    ghost use Rattle.std.specs.Prelude.{◌≡◌};
    ghost use Rattle.localise_document.specs.declared.error.Misread.TheVariants.{Shape};

    ghost from_gives = { λ fault e. e ≡ Shape fault };

    fn from(fault: Field) -> Misread<Field> {
        Misread::Shape(fault)
    }
}

impl From<ShapePlace> for Misread<ShapePlace> {
    ghost use Rattle.std.specs.Prelude.{◌≡◌};
    ghost use Rattle.localise_document.specs.declared.error.Misread.TheVariants.{Shape};

    ghost from_gives = { λ fault e. e ≡ Shape fault };

    fn from(fault: ShapePlace) -> Misread<ShapePlace> {
        Misread::Shape(fault)
    }
}

impl<F: Copy> From<AllocError> for Misread<F> {
    ghost use Rattle.std.specs.Prelude.{◌≡◌};
    ghost use Rattle.localise_document.specs.declared.error.Misread.TheVariants.{NoMemory};

    ghost from_gives = { λ _ e. e ≡ NoMemory };

    fn from(_error: AllocError) -> Misread<F> {
        Misread::NoMemory
    }
}

impl<F: Copy, T: Drop> From<AllocFailed<T>> for Misread<F> {
    ghost use Rattle.std.specs.Prelude.{◌≡◌};
    ghost use Rattle.localise_document.specs.declared.error.Misread.TheVariants.{NoMemory};

    ghost from_gives = { λ _ e. e ≡ NoMemory };

    fn from(_error: AllocFailed<T>) -> Misread<F> {
        Misread::NoMemory
    }
}
