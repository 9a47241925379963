ghost use Rattle.std.specs.Prelude.{◌≡◌, Some};
ghost use Rattle.std.specs.Result.{OkIff};
ghost use Rattle.std.specs.Str.{chars};
ghost use Rattle.icu_locale_core.specs.Shapes.{IsVariant};

use crate::LocaleError;
use std::fmt;
use std::marker::Model;
use tinystr::TinyStr;
use tinystr::shapes::is_variant;

/// A variant: five to eight small letters or digits, or four of which the first is a digit, as
/// `fonipa` or `1996`.
#[derive(Clone, Copy, Debug, PartialEq, Eq, PartialOrd, Ord, Hash)]
pub struct Variant {
    text: TinyStr<8>,
}

impl Model for Variant {
    ghost use Rattle.std.specs.Prelude.{ℕ, List};
    ghost use Rattle.icu_locale_core.specs.Shapes.{IsVariant};

    ghost Value = { List ℕ };

    ghost view = { λ s. s.text };

    ghost invariant = { λ s. IsVariant s.text };

    ghost inverse = { λ text. record { text = text } };
}

impl Variant {
    /// The subtag of this text, which must be in canonical case.
    #[tactic(auto, using(tinystr::specs::ShapesLaws::tiny_variant))]
    pub fn try_from_str(text: &str) -> Result<Variant, LocaleError>
        ensures { OkIff result (IsVariant text.now) text.now }
    {
        if !is_variant(text.as_bytes()) {
            return Err(LocaleError::Malformed);
        }
        match TinyStr::try_from_bytes(text.as_bytes()) {
            Ok(text) => Ok(Variant { text }),
            Err(_) => Err(LocaleError::Malformed),
        }
    }

    /// The text.
    pub fn as_str(&self) -> &str
        ensures value { result.now ≡ self.now }
        ensures characters { chars result.now ≡ self.now }
        ensures shape { IsVariant result.now }
    {
        self.text.as_str()
    }
}

impl fmt::Display for Variant {
    ghost output = { λ s. Some s };

    fn fmt<W: fmt::Write>(&self, f: &mut fmt::Formatter<W>) -> fmt::Result {
        f.pad(self.as_str())
    }
}
