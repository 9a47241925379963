ghost use Rattle.std.specs.Prelude.{◌≡◌, ◌≢◌, ◌↔◌, ℕ, List, Some, IsTrue, IfOk, IfErr, OnErr};
ghost use Rattle.std.specs.Int.{w32};
ghost use Rattle.std.specs.Result.{OkIff};
ghost use Rattle.std.specs.Str.{chars};
ghost use Rattle.tinystr.specs.Shapes.{IsScript};
ghost use Rattle.tinystr.specs.Text.{titlecase};
ghost use Rattle.unic_langid_impl.specs.Subtags.{raw};

use super::raw::{number_u32, without_zeros};
use crate::ParserError;
use std::fmt;
use std::marker::Model;
use tinystr::TinyStr;
use tinystr::shapes::is_script;

/// A script: four letters, of which the first is a capital, as `Latn`.
#[derive(Clone, Copy, Debug, PartialEq, Eq, PartialOrd, Ord, Hash)]
pub struct Script {
    text: TinyStr<4>,
}

impl Model for Script {
    ghost use Rattle.std.specs.Prelude.{ℕ, List};
    ghost use Rattle.tinystr.specs.Shapes.{IsScript};

    ghost Value = { List ℕ };

    ghost view = { λ s. s.text };

    ghost invariant = { λ s. IsScript s.text };

    ghost inverse = { λ text. record { text = text } };
}

impl Script {
    /// The script that these bytes name in any case.
    #[tactic(auto, using(crate::proofs::SubtagLemmas::script_fits))]
    pub fn from_bytes(v: &[u8]) -> Result<Self, ParserError>
        ensures value { OkIff result (IsScript (titlecase v.now)) (titlecase v.now) }
        ensures cause { IfErr result (λ error. error ≡ ParserError.InvalidSubtag) }
    {
        let Ok(text) = TinyStr::<4>::try_from_bytes(v) else {
            return Err(ParserError::InvalidSubtag);
        };
        let text = text.to_ascii_titlecase();
        if !is_script(text.as_str().as_bytes()) {
            return Err(ParserError::InvalidSubtag);
        }
        Ok(Script { text })
    }

    /// The text.
    pub fn as_str(&self) -> &str
        ensures value { result.now ≡ self.now }
        ensures characters { chars result.now ≡ self.now }
        ensures shape { IsScript result.now }
    {
        self.text.as_str()
    }

    /// The little-endian number of its bytes, with zeros behind them.
    pub fn to_raw(&self) -> u32
        ensures { result ≡ raw w32 self.now }
    {
        number_u32(self.as_str().as_bytes())
    }

    /// The script of this number.
    pub fn from_raw(v: u32) -> Result<Self, ParserError>
        ensures ok { IfOk result (λ script. raw w32 script ≡ v) }
        ensures err { OnErr result ((script : List ℕ) → IsScript script → raw w32 script ≢ v) }
        ensures cause { IfErr result (λ error. error ≡ ParserError.InvalidSubtag) }
    {
        let script = Script::from_bytes(without_zeros(&v.to_le_bytes()))?;
        if script.to_raw() != v {
            return Err(ParserError::InvalidSubtag);
        }
        Ok(script)
    }

    /// Whether this is the text.
    pub fn eq_str(&self, other: &str) -> bool
        ensures { IsTrue result ↔ (other.now ≡ self.now) }
    {
        self.as_str() == other
    }
}

impl fmt::Display for Script {
    ghost output = { λ s. Some s };

    fn fmt<W: fmt::Write>(&self, f: &mut fmt::Formatter<W>) -> fmt::Result {
        f.pad(self.as_str())
    }
}
