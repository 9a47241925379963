ghost use Rattle.std.specs.Prelude.{◌≡◌, ◌↔◌, IsTrue, Some, codes};
ghost use Rattle.std.specs.Result.{OkIff};
ghost use Rattle.std.specs.Str.{chars};
ghost use Rattle.icu_locale_core.specs.Shapes.{IsLanguage, is_language};

use crate::LocaleError;
use std::fmt;
use std::marker::Model;
use tinystr::TinyStr;
use tinystr::shapes::are_lowercase;

/// A language: two or three small letters, as `en` or `yue`.
#[derive(Clone, Copy, Debug, PartialEq, Eq, PartialOrd, Ord, Hash)]
pub struct Language {
    text: TinyStr<3>,
}

impl Model for Language {
    ghost use Rattle.std.specs.Prelude.{ℕ, List};
    ghost use Rattle.icu_locale_core.specs.Shapes.{IsLanguage};

    ghost Value = { List ℕ };

    ghost view = { λ s. s.text };

    ghost invariant = { λ s. IsLanguage s.text };

    ghost inverse = { λ text. record { text = text } };
}

impl Language {
    /// `und`, the language of which nothing is known.
    pub fn unknown() -> Language
        ensures { result ≡ codes "und" }
    {
        match Language::try_from_str("und") {
            Ok(language) => language,
            Err(_) => unreachable!(),
        }
    }

    /// Whether it is `und`.
    pub fn is_unknown(&self) -> bool
        ensures { IsTrue result ↔ (self.now ≡ codes "und") }
    {
        self.as_str() == "und"
    }

    /// The subtag of this text, which must be in canonical case.
    #[tactic(auto, using(crate::specs::ShapeLaws::tiny_language))]
    pub fn try_from_str(text: &str) -> Result<Language, LocaleError>
        ensures { OkIff result (IsLanguage text.now) text.now }
    {
        if !is_language(text.as_bytes()) {
            return Err(LocaleError::Malformed);
        }
        match TinyStr::try_from_bytes(text.as_bytes()) {
            Ok(text) => Ok(Language { text }),
            Err(_) => Err(LocaleError::Malformed),
        }
    }

    /// The text.
    pub fn as_str(&self) -> &str
        ensures value { result.now ≡ self.now }
        ensures characters { chars result.now ≡ self.now }
        ensures shape { IsLanguage result.now }
    {
        self.text.as_str()
    }
}

impl fmt::Display for Language {
    ghost output = { λ s. Some s };

    fn fmt<W: fmt::Write>(&self, f: &mut fmt::Formatter<W>) -> fmt::Result {
        f.pad(self.as_str())
    }
}

/// Two or three small letters.
fn is_language(text: &[u8]) -> bool
    ensures { result ≡ is_language text.now }
{
    match text.len() {
        2 | 3 => are_lowercase(text),
        _ => false,
    }
}
