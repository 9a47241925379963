ghost use Rattle.std.specs.Prelude.{◌≡◌};
ghost use Rattle.icu_locale_core.specs.Words.{words_of};

use thiserror::Error;

/// Why a text is no subtag, or no data locale.
#[derive(Clone, Copy, Debug, PartialEq, Eq, Error)]
pub enum LocaleError {
    /// The text isn't of the form, or not in canonical case.
    #[error("malformed")]
    Malformed,
}

impl LocaleError {
    /// The error in words.
    pub fn text(&self) -> &'static str
        ensures { result.now ≡ words_of self.now }
    {
        match self {
            LocaleError::Malformed => "malformed",
        }
    }
}
