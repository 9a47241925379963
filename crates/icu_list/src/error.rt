//! Why patterns, tables or JSON values were refused.

ghost use Rattle.std.specs.Prelude.{◌≡◌};
ghost use Rattle.icu_list.specs.Words.{words_of};

use lazy_dfa::ConditionError;
use std::alloc::AllocError;
use thiserror::Error;

/// Why no patterns, no formatter or no value was made.
#[derive(Clone, Copy, Debug, PartialEq, Eq, Error)]
pub enum DataError {
    /// The text is no list pattern, or has a prefix or a suffix where none is allowed.
    #[error("Invalid list pattern")]
    InvalidPattern,
    /// Prefix and between together have more than 255 bytes.
    #[error("Found valid pattern that cannot be stored in ListFormatterPatterns")]
    CannotStore,
    /// The condition of a special pattern is none.
    #[error("{0}")]
    Condition(ConditionError),
    /// No row of the table is of that kind, locale and length.
    #[error("no such row")]
    MissingLocale,
    /// The JSON value is not of the form that is read.
    #[error("not of the JSON form")]
    NotJsonForm,
    /// Memory ran out.
    #[error("out of memory")]
    NoMemory,
}

impl DataError {
    /// A few words on the error.
    pub fn text(&self) -> &'static str
        ensures { result.now ≡ words_of self.now }
    {
        match self {
            DataError::InvalidPattern => "Invalid list pattern",
            DataError::CannotStore => {
                "Found valid pattern that cannot be stored in ListFormatterPatterns"
            }
            DataError::Condition(error) => error.text(),
            DataError::MissingLocale => "no such row",
            DataError::NotJsonForm => "not of the JSON form",
            DataError::NoMemory => "out of memory",
        }
    }
}

impl From<AllocError> for DataError {
    ghost use Rattle.std.specs.Prelude.{◌≡◌};
    ghost use Rattle.icu_list.specs.declared.error.DataError.TheVariants.{NoMemory};

    ghost from_gives = { λ _ e. e ≡ NoMemory };

    fn from(_error: AllocError) -> DataError {
        DataError::NoMemory
    }
}
