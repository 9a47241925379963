ghost use Rattle.std.specs.Prelude.{◌≡◌};
ghost use Rattle.language_tags_registry.specs.Words.{words_of, words_of_subtag};

use thiserror::Error;

/// Why rows make no registry: what is wrong with the first faulty row, by table and row, both
/// numbered from 0.
#[derive(Clone, Copy, Debug, PartialEq, Eq, Error)]
pub enum RegistryError {
    /// The key is that of an earlier row.
    #[error("table {0}, row {1}: duplicate key")]
    DuplicateKey(usize, usize),
    /// The key is malformed.
    #[error("table {0}, row {1}: bad key")]
    BadKey(usize, usize),
    /// The value is malformed.
    #[error("table {0}, row {1}: bad value")]
    BadValue(usize, usize),
    /// Memory ran out.
    #[error("out of memory")]
    NoMemory,
}

impl RegistryError {
    /// The error in words.
    pub fn text(&self) -> &'static str
        ensures { result.now ≡ words_of self.now }
    {
        match self {
            RegistryError::DuplicateKey(..) => "duplicate key",
            RegistryError::BadKey(..) => "bad key",
            RegistryError::BadValue(..) => "bad value",
            RegistryError::NoMemory => "out of memory",
        }
    }
}

/// Why a text is no subtag.
#[derive(Clone, Copy, Debug, PartialEq, Eq, Error)]
pub enum SubtagError {
    /// The text hasn't the form of the subtag, in canonical case.
    #[error("the text hasn't the form of the subtag")]
    Malformed,
}

impl SubtagError {
    /// The error in words.
    pub fn text(&self) -> &'static str
        ensures { result.now ≡ words_of_subtag self.now }
    {
        match self {
            SubtagError::Malformed => "the text hasn't the form of the subtag",
        }
    }
}
