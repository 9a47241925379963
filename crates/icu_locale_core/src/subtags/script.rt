ghost use Rattle.std.specs.Prelude.{◌≡◌, Some};
ghost use Rattle.std.specs.Result.{OkIff};
ghost use Rattle.std.specs.Str.{chars};
ghost use Rattle.icu_locale_core.specs.Shapes.{IsScript};

use crate::LocaleError;
use std::fmt;
use std::marker::Model;
use tinystr::TinyStr;
use tinystr::shapes::is_script;

/// A script: four letters, of which the first is a capital, as `Latn`.
#[derive(Clone, Copy, Debug, PartialEq, Eq, PartialOrd, Ord, Hash)]
pub struct Script {
    text: TinyStr<4>,
}

impl Model for Script {
    ghost use Rattle.std.specs.Prelude.{ℕ, List};
    ghost use Rattle.icu_locale_core.specs.Shapes.{IsScript};

    ghost Value = { List ℕ };

    ghost view = { λ s. s.text };

    ghost invariant = { λ s. IsScript s.text };

    ghost inverse = { λ text. record { text = text } };
}

impl Script {
    /// The subtag of this text, which must be in canonical case.
    #[tactic(auto, using(tinystr::specs::ShapesLaws::tiny_script))]
    pub fn try_from_str(text: &str) -> Result<Script, LocaleError>
        ensures { OkIff result (IsScript text.now) text.now }
    {
        if !is_script(text.as_bytes()) {
            return Err(LocaleError::Malformed);
        }
        match TinyStr::try_from_bytes(text.as_bytes()) {
            Ok(text) => Ok(Script { text }),
            Err(_) => Err(LocaleError::Malformed),
        }
    }

    /// The text.
    pub fn as_str(&self) -> &str
        ensures value { result.now ≡ self.now }
        ensures characters { chars result.now ≡ self.now }
        ensures shape { IsScript result.now }
    {
        self.text.as_str()
    }
}

impl fmt::Display for Script {
    ghost output = { λ s. Some s };

    fn fmt<W: fmt::Write>(&self, f: &mut fmt::Formatter<W>) -> fmt::Result {
        f.pad(self.as_str())
    }
}
