ghost use Rattle.std.specs.Prelude.{◌≡◌, ◌≢◌, ◌↔◌, ℕ, List, Some, IsTrue, IfOk, IfErr, OnErr};
ghost use Rattle.std.specs.Int.{w32};
ghost use Rattle.std.specs.Result.{OkIff};
ghost use Rattle.std.specs.Str.{chars};
ghost use Rattle.tinystr.specs.Shapes.{IsRegion};
ghost use Rattle.unic_langid_impl.specs.Subtags.{raw, uppercase};

use super::raw::{number_u32, without_zeros};
use crate::ParserError;
use std::fmt;
use std::marker::Model;
use tinystr::TinyStr;
use tinystr::shapes::is_region;

/// A region: two capitals or three digits, as `US` or `419`.
#[derive(Clone, Copy, Debug, PartialEq, Eq, PartialOrd, Ord, Hash)]
pub struct Region {
    text: TinyStr<3>,
}

impl Model for Region {
    ghost use Rattle.std.specs.Prelude.{ℕ, List};
    ghost use Rattle.tinystr.specs.Shapes.{IsRegion};

    ghost Value = { List ℕ };

    ghost view = { λ s. s.text };

    ghost invariant = { λ s. IsRegion s.text };

    ghost inverse = { λ text. record { text = text } };
}

impl Region {
    /// The region that these bytes name in any case.
    #[tactic(auto, using(crate::proofs::SubtagLemmas::region_fits))]
    pub fn from_bytes(v: &[u8]) -> Result<Self, ParserError>
        ensures value { OkIff result (IsRegion (uppercase v.now)) (uppercase v.now) }
        ensures cause { IfErr result (λ error. error ≡ ParserError.InvalidSubtag) }
    {
        let Ok(text) = TinyStr::<3>::try_from_bytes(v) else {
            return Err(ParserError::InvalidSubtag);
        };
        let text = text.to_ascii_uppercase();
        if !is_region(text.as_str().as_bytes()) {
            return Err(ParserError::InvalidSubtag);
        }
        Ok(Region { text })
    }

    /// The text.
    pub fn as_str(&self) -> &str
        ensures value { result.now ≡ self.now }
        ensures characters { chars result.now ≡ self.now }
        ensures shape { IsRegion result.now }
    {
        self.text.as_str()
    }

    /// The little-endian number of its bytes, with zeros behind them.
    pub fn to_raw(&self) -> u32
        ensures { result ≡ raw w32 self.now }
    {
        number_u32(self.as_str().as_bytes())
    }

    /// The region of this number.
    pub fn from_raw(v: u32) -> Result<Self, ParserError>
        ensures ok { IfOk result (λ region. raw w32 region ≡ v) }
        ensures err { OnErr result ((region : List ℕ) → IsRegion region → raw w32 region ≢ v) }
        ensures cause { IfErr result (λ error. error ≡ ParserError.InvalidSubtag) }
    {
        let region = Region::from_bytes(without_zeros(&v.to_le_bytes()))?;
        if region.to_raw() != v {
            return Err(ParserError::InvalidSubtag);
        }
        Ok(region)
    }

    /// Whether this is the text.
    pub fn eq_str(&self, other: &str) -> bool
        ensures { IsTrue result ↔ (other.now ≡ self.now) }
    {
        self.as_str() == other
    }
}

impl fmt::Display for Region {
    ghost output = { λ s. Some s };

    fn fmt<W: fmt::Write>(&self, f: &mut fmt::Formatter<W>) -> fmt::Result {
        f.pad(self.as_str())
    }
}
