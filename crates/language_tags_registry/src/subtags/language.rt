ghost use Rattle.std.specs.Prelude.{◌≡◌, Some, IfErr};
ghost use Rattle.std.specs.Result.{OkIff};
ghost use Rattle.std.specs.Str.{chars};
ghost use Rattle.language_tags_registry.specs.Subtags.{IsLanguage};

use super::shapes::is_language;
use crate::SubtagError;
use std::fmt;
use std::marker::Model;
use tinystr::TinyStr;

/// A language: two or three small letters, as `en` or `yue`.
#[derive(Clone, Copy, Debug, PartialEq, Eq, PartialOrd, Ord, Hash)]
pub struct LanguageSubtag {
    text: TinyStr<3>,
}

impl Model for LanguageSubtag {
    ghost use Rattle.std.specs.Prelude.{ℕ, List};
    ghost use Rattle.language_tags_registry.specs.Subtags.{IsLanguage};

    ghost Value = { List ℕ };

    ghost view = { λ s. s.text };

    ghost invariant = { λ s. IsLanguage s.text };

    ghost inverse = { λ text. record { text = text } };
}

impl LanguageSubtag {
    /// The subtag of a text in canonical case.
    #[tactic(auto, using(crate::proofs::SubtagLemmas::language_fits))]
    pub fn from_str(text: &str) -> Result<Self, SubtagError>
        ensures value { OkIff result (IsLanguage text.now) text.now }
        ensures cause { IfErr result (λ error. error ≡ SubtagError.Malformed) }
    {
        if !is_language(text.as_bytes()) {
            return Err(SubtagError::Malformed);
        }
        match TinyStr::<3>::try_from_bytes(text.as_bytes()) {
            Ok(text) => Ok(LanguageSubtag { text }),
            Err(_) => Err(SubtagError::Malformed),
        }
    }

    /// The text.
    pub fn as_str(&self) -> &str
        ensures value { result.now ≡ self.now }
        ensures characters { chars result.now ≡ self.now }
        ensures shape { IsLanguage result.now }
    {
        self.text.as_str()
    }
}

impl fmt::Display for LanguageSubtag {
    ghost output = { λ s. Some s };

    fn fmt<W: fmt::Write>(&self, f: &mut fmt::Formatter<W>) -> fmt::Result {
        f.pad(self.as_str())
    }
}
