ghost use Rattle.std.specs.Prelude.{◌≡◌, Some};
ghost use Rattle.std.specs.Result.{OkIff};
ghost use Rattle.std.specs.Str.{chars};
ghost use Rattle.icu_locale_core.specs.Shapes.{IsRegion};

use crate::LocaleError;
use std::fmt;
use std::marker::Model;
use tinystr::TinyStr;
use tinystr::shapes::is_region;

/// A region: two capitals or three digits, as `US` or `419`.
#[derive(Clone, Copy, Debug, PartialEq, Eq, PartialOrd, Ord, Hash)]
pub struct Region {
    text: TinyStr<3>,
}

impl Model for Region {
    ghost use Rattle.std.specs.Prelude.{ℕ, List};
    ghost use Rattle.icu_locale_core.specs.Shapes.{IsRegion};

    ghost Value = { List ℕ };

    ghost view = { λ s. s.text };

    ghost invariant = { λ s. IsRegion s.text };

    ghost inverse = { λ text. record { text = text } };
}

impl Region {
    /// The subtag of this text, which must be in canonical case.
    #[tactic(auto, using(tinystr::specs::ShapesLaws::tiny_region))]
    pub fn try_from_str(text: &str) -> Result<Region, LocaleError>
        ensures { OkIff result (IsRegion text.now) text.now }
    {
        if !is_region(text.as_bytes()) {
            return Err(LocaleError::Malformed);
        }
        match TinyStr::try_from_bytes(text.as_bytes()) {
            Ok(text) => Ok(Region { text }),
            Err(_) => Err(LocaleError::Malformed),
        }
    }

    /// The text.
    pub fn as_str(&self) -> &str
        ensures value { result.now ≡ self.now }
        ensures characters { chars result.now ≡ self.now }
        ensures shape { IsRegion result.now }
    {
        self.text.as_str()
    }
}

impl fmt::Display for Region {
    ghost output = { λ s. Some s };

    fn fmt<W: fmt::Write>(&self, f: &mut fmt::Formatter<W>) -> fmt::Result {
        f.pad(self.as_str())
    }
}
