ghost use Rattle.std.specs.Prelude.{◌≡◌, ◌≢◌, ◌↔◌, ◌⊎◌, ℕ, List, Option, Some, None, IsTrue, IfOk};
ghost use Rattle.std.specs.Prelude.{IfErr, OnErr, IfSome, option_and_then};
ghost use Rattle.std.specs.Int.{w64};
ghost use Rattle.std.specs.Option.{option_copied, option_map};
ghost use Rattle.std.specs.Result.{OkIff};
ghost use Rattle.std.specs.Str.{chars};
ghost use Rattle.unic_langid_impl.specs.Subtags.{Fits, IsLanguage, IsLanguageOrNone, is_language};
ghost use Rattle.unic_langid_impl.specs.Subtags.{language_of, language_text, lowercase, raw};

use super::raw::{number_u64, without_zeros};
use crate::ParserError;
use std::fmt;
use std::marker::Model;
use tinystr::TinyStr;
use tinystr::shapes::are_lowercase;

/// A language, as `en` or `yue`, or no language, whose text is `und`.
#[derive(Clone, Copy, Debug, PartialEq, Eq, PartialOrd, Ord, Hash)]
pub struct Language {
    text: Option<TinyStr<8>>,
}

impl Model for Language {
    ghost use Rattle.std.specs.Prelude.{ℕ, List, Option};
    ghost use Rattle.unic_langid_impl.specs.Subtags.{IsLanguageOrNone};

    ghost Value = { Option (List ℕ) };

    ghost view = { λ s. s.text };

    ghost invariant = { λ s. IsLanguageOrNone s.text };

    ghost inverse = { λ text. record { text = text } };
}

impl Language {
    /// The language that these bytes name in any case: two, three or five to eight letters.
    #[tactic(auto, using(crate::proofs::SubtagLemmas::tiny_language))]
    pub fn from_bytes(v: &[u8]) -> Result<Self, ParserError>
        ensures value { OkIff result (IsLanguage (lowercase v.now))
            (language_of (lowercase v.now)) }
        ensures cause { IfErr result (λ error. error ≡ ParserError.InvalidLanguage) }
    {
        let Ok(text) = TinyStr::<8>::try_from_bytes(v) else {
            return Err(ParserError::InvalidLanguage);
        };
        let text = text.to_ascii_lowercase();
        if !is_language(text.as_str().as_bytes()) {
            return Err(ParserError::InvalidLanguage);
        }
        if text.as_str() == "und" {
            return Ok(Language { text: None });
        }
        Ok(Language { text: Some(text) })
    }

    /// No language for None, else as `from_bytes`.
    pub fn try_from_option(v: Option<&[u8]>) -> Result<Self, ParserError>
        ensures value { OkIff result
            (IfSome (option_copied v.entry) (λ v. IsLanguage (lowercase v)))
            (option_and_then (λ v. language_of (lowercase v)) (option_copied v.entry)) }
        ensures cause { IfErr result (λ error. error ≡ ParserError.InvalidLanguage) }
    {
        match v {
            Some(v) => Language::from_bytes(v),
            None => Ok(Language::default()),
        }
    }

    /// The text, `und` for no language.
    pub fn as_str(&self) -> &str
        ensures value { result.now ≡ language_text self.now }
        ensures characters { chars result.now ≡ language_text self.now }
        ensures shape { IsLanguageOrNone self.now }
    {
        match &self.text {
            Some(text) => text.as_str(),
            None => "und",
        }
    }

    /// The little-endian number of its bytes, with zeros behind them; none for no language.
    pub fn to_raw(&self) -> Option<u64>
        ensures { result ≡ option_map (raw w64) self.now }
    {
        match &self.text {
            Some(text) => Some(number_u64(text.as_str().as_bytes())),
            None => None,
        }
    }

    /// The language of this number.
    pub fn from_raw(v: u64) -> Result<Self, ParserError>
        ensures ok { IfOk result (λ language. option_map (raw w64) language ≡ Some v) }
        ensures err { OnErr result ((language : Option (List ℕ)) → IsLanguageOrNone language
            → option_map (raw w64) language ≢ Some v) }
        ensures cause { IfErr result (λ error. error ≡ ParserError.InvalidLanguage) }
    {
        let language = Language::from_bytes(without_zeros(&v.to_le_bytes()))?;
        let Some(number) = language.to_raw() else {
            return Err(ParserError::InvalidLanguage);
        };
        if number != v {
            return Err(ParserError::InvalidLanguage);
        }
        Ok(language)
    }

    /// Whether this is the text.
    pub fn eq_str(&self, other: &str) -> bool
        ensures { IsTrue result ↔ (other.now ≡ language_text self.now) }
    {
        self.as_str() == other
    }

    /// Whether the two are equal, or one is missing whose side is a range.
    pub fn matches(self, other: Language, self_as_range: bool, other_as_range: bool) -> bool
        ensures { IsTrue result ↔ Fits self other self_as_range other_as_range }
    {
        (self_as_range && self.is_empty()) || (other_as_range && other.is_empty()) || self == other
    }

    /// Makes it no language.
    pub fn clear(&mut self)
        ensures { self.new ≡ None }
    {
        self.text = None;
    }

    /// Whether it is no language.
    pub fn is_empty(self) -> bool
        ensures { IsTrue result ↔ (self ≡ None) }
    {
        self.text.is_none()
    }
}

impl Default for Language {
    ghost is_default = { λ language. language ≡ None };

    fn default() -> Self {
        Language { text: None }
    }
}

impl fmt::Display for Language {
    ghost output = { λ s. Some (language_text s) };

    fn fmt<W: fmt::Write>(&self, f: &mut fmt::Formatter<W>) -> fmt::Result {
        f.pad(self.as_str())
    }
}

fn is_language(text: &[u8]) -> bool
    ensures { result ≡ is_language text.now }
{
    match text.len() {
        2 | 3 | 5..=8 => are_lowercase(text),
        _ => false,
    }
}
