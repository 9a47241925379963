ghost use Rattle.std.specs.Prelude.{◌≡◌, Some};
ghost use Rattle.std.specs.Result.{OkIff};
ghost use Rattle.std.specs.Str.{chars};
ghost use Rattle.icu_locale_core.specs.Shapes.{IsSubtag, is_subtag};

use crate::LocaleError;
use std::fmt;
use std::marker::Model;
use tinystr::TinyStr;
use tinystr::shapes::are_small;

/// A subtag of two to eight small letters or digits, as the subdivision `usca`.
#[derive(Clone, Copy, Debug, PartialEq, Eq, PartialOrd, Ord, Hash)]
pub struct Subtag {
    text: TinyStr<8>,
}

impl Model for Subtag {
    ghost use Rattle.std.specs.Prelude.{ℕ, List};
    ghost use Rattle.icu_locale_core.specs.Shapes.{IsSubtag};

    ghost Value = { List ℕ };

    ghost view = { λ s. s.text };

    ghost invariant = { λ s. IsSubtag s.text };

    ghost inverse = { λ text. record { text = text } };
}

impl Subtag {
    /// The subtag of this text, which must be in canonical case.
    #[tactic(auto, using(crate::specs::ShapeLaws::tiny_subtag))]
    pub fn try_from_str(text: &str) -> Result<Subtag, LocaleError>
        ensures { OkIff result (IsSubtag text.now) text.now }
    {
        if !is_subtag(text.as_bytes()) {
            return Err(LocaleError::Malformed);
        }
        match TinyStr::try_from_bytes(text.as_bytes()) {
            Ok(text) => Ok(Subtag { text }),
            Err(_) => Err(LocaleError::Malformed),
        }
    }

    /// The text.
    pub fn as_str(&self) -> &str
        ensures value { result.now ≡ self.now }
        ensures characters { chars result.now ≡ self.now }
        ensures shape { IsSubtag result.now }
    {
        self.text.as_str()
    }
}

impl fmt::Display for Subtag {
    ghost output = { λ s. Some s };

    fn fmt<W: fmt::Write>(&self, f: &mut fmt::Formatter<W>) -> fmt::Result {
        f.pad(self.as_str())
    }
}

/// Two to eight small letters or digits.
fn is_subtag(text: &[u8]) -> bool
    ensures { result ≡ is_subtag text.now }
{
    match text.len() {
        2..=8 => are_small(text),
        _ => false,
    }
}
