ghost use Rattle.std.specs.Prelude.{◌≡◌, ◌≢◌, ◌↔◌, ℕ, List, Some, IsTrue, IfOk, IfErr, OnErr};
ghost use Rattle.std.specs.Int.{w64};
ghost use Rattle.std.specs.Result.{OkIff};
ghost use Rattle.std.specs.Str.{chars};
ghost use Rattle.tinystr.specs.Shapes.{IsVariant};
ghost use Rattle.unic_langid_impl.specs.Subtags.{raw, lowercase};

use super::raw::{number_u64, without_zeros};
use crate::ParserError;
use std::fmt;
use std::marker::Model;
use tinystr::TinyStr;
use tinystr::shapes::is_variant;

/// A variant: five to eight letters or digits, or a digit and three of them, as `valencia` or
/// `1996`.
#[derive(Clone, Copy, Debug, PartialEq, Eq, PartialOrd, Ord, Hash)]
pub struct Variant {
    text: TinyStr<8>,
}

impl Model for Variant {
    ghost use Rattle.std.specs.Prelude.{ℕ, List};
    ghost use Rattle.tinystr.specs.Shapes.{IsVariant};

    ghost Value = { List ℕ };

    ghost view = { λ s. s.text };

    ghost invariant = { λ s. IsVariant s.text };

    ghost inverse = { λ text. record { text = text } };
}

impl Variant {
    /// The variant that these bytes name in any case.
    #[tactic(auto, using(crate::proofs::SubtagLemmas::variant_fits))]
    pub fn from_bytes(v: &[u8]) -> Result<Self, ParserError>
        ensures value { OkIff result (IsVariant (lowercase v.now)) (lowercase v.now) }
        ensures cause { IfErr result (λ error. error ≡ ParserError.InvalidSubtag) }
    {
        let Ok(text) = TinyStr::<8>::try_from_bytes(v) else {
            return Err(ParserError::InvalidSubtag);
        };
        let text = text.to_ascii_lowercase();
        if !is_variant(text.as_str().as_bytes()) {
            return Err(ParserError::InvalidSubtag);
        }
        Ok(Variant { text })
    }

    /// The text.
    pub fn as_str(&self) -> &str
        ensures value { result.now ≡ self.now }
        ensures characters { chars result.now ≡ self.now }
        ensures shape { IsVariant result.now }
    {
        self.text.as_str()
    }

    /// The little-endian number of its bytes, with zeros behind them.
    pub fn to_raw(&self) -> u64
        ensures { result ≡ raw w64 self.now }
    {
        number_u64(self.as_str().as_bytes())
    }

    /// The variant of this number.
    pub fn from_raw(v: u64) -> Result<Self, ParserError>
        ensures ok { IfOk result (λ variant. raw w64 variant ≡ v) }
        ensures err { OnErr result ((variant : List ℕ) → IsVariant variant → raw w64 variant ≢ v) }
        ensures cause { IfErr result (λ error. error ≡ ParserError.InvalidSubtag) }
    {
        let variant = Variant::from_bytes(without_zeros(&v.to_le_bytes()))?;
        if variant.to_raw() != v {
            return Err(ParserError::InvalidSubtag);
        }
        Ok(variant)
    }

    /// Whether this is the text.
    pub fn eq_str(&self, other: &str) -> bool
        ensures { IsTrue result ↔ (other.now ≡ self.now) }
    {
        self.as_str() == other
    }
}

impl fmt::Display for Variant {
    ghost output = { λ s. Some s };

    fn fmt<W: fmt::Write>(&self, f: &mut fmt::Formatter<W>) -> fmt::Result {
        f.pad(self.as_str())
    }
}
