ghost use Rattle.std.specs.Prelude.{◌≡◌, ◌↔◌, false, [], Ok, IfOk, IfErr, OnOk, OnErr, IsTrue};
ghost use Rattle.std.specs.Prelude.{Contains};
ghost use Rattle.std.specs.Result.{OkIff};
ghost use Rattle.unic_langid_impl.specs.Reading.{IsAscendingOf, Reads, id_of};
ghost use Rattle.unic_langid_impl.specs.Faults.{IsFaultOf, RefusesPieces};
ghost use Rattle.unic_langid_impl.specs.Identifier.{Ascend};
ghost use Rattle.unic_langid_impl.specs.Parts.{FitVariants};
ghost use Rattle.unic_langid_impl.specs.Subtags.{Fits};

use crate::parser::{self, SubtagPieces};
use crate::subtags::{Language, Region, Script, Variant};
use crate::{LanguageIdentifierError, ParserError};
use std::alloc::{AllocError, Global};
use std::cmp::Ordering;
use std::marker::Model;

mod json;
mod likely;
mod order;
mod print;
mod variants;

pub use json::IdJsonError;
pub use print::canonicalize;
pub use variants::VariantsIter;
pub(crate) use variants::ascending;

/// An identifier: a language, or none, and script, region and variants where they are there.
/// Contracts see it as the record `Identifier` of its subtags' texts.
///
/// The variants are in order and distinct.
#[derive(Debug, Drop)]
pub struct LanguageIdentifier {
    pub language: Language,
    pub script: Option<Script>,
    pub region: Option<Region>,
    variants: Vec<Variant>,
}

impl Model for LanguageIdentifier {
    ghost use Rattle.unic_langid_impl.specs.Identifier.{Ascend, Identifier, identifier_code};

    ghost Value = { Identifier };

    ghost coded = { identifier_code };

    ghost view = { λ i. record {
      language = i.language;
      script = i.script;
      region = i.region;
      variants = i.variants.items;
    } };

    ghost invariant = { λ i. Ascend i.variants.items };
}

impl LanguageIdentifier {
    ghost use Rattle.unic_langid_impl.specs.Identifier.{Identifier};
    ghost use Rattle.unic_langid_impl.specs.Parts.{HasParts, Matches};

    /// The identifier that these bytes are. It takes memory for variants alone.
    pub fn from_bytes(alloc: Global, v: &[u8]) -> Result<Self, LanguageIdentifierError>
        ensures ok { IfOk result (id_of v.now) }
        ensures err { IfErr result (IsFaultOf v.now) }
    {
        parser::parse_language_identifier(alloc, v).map_err(LanguageIdentifierError::of_parser)
    }

    /// The identifier that the pieces begin with; where `allow_extension` is false it must be all
    /// of them.
    ///
    /// Where no piece is left it is the identifier without subtags. The pieces that were read are
    /// taken off.
    pub fn try_from_iter(
        alloc: Global,
        iter: &mut SubtagPieces,
        allow_extension: bool,
    ) -> Result<Self, LanguageIdentifierError>
        ensures ok { IfOk result (Reads iter.old iter.new) }
        ensures whole { OnOk result (allow_extension ≡ false → iter.new ≡ []) }
        ensures err { IfErr result (RefusesPieces allow_extension iter.old iter.new) }
    {
        parser::parse_language_identifier_from_iter(alloc, iter, allow_extension).map_err(
            LanguageIdentifierError::of_parser,
        )
    }

    /// The identifier of these subtags, each variant once.
    pub fn from_parts(
        alloc: Global,
        language: Language,
        script: Option<Script>,
        region: Option<Region>,
        variants: &[Variant],
    ) -> Result<Self, LanguageIdentifierError>
        ensures ok { IfOk result (HasParts language script region variants.now) }
        ensures cause { IfErr result (λ error. error ≡ LanguageIdentifierError.NoMemory) }
    {
        match variants.to_vec(alloc) {
            Ok(variants) => {
                let variants = ascending(variants);
                Ok(LanguageIdentifier::of_ascending(language, script, region, variants))
            }
            Err(_) => Err(LanguageIdentifierError::NoMemory),
        }
    }

    /// The identifier of these subtags, of which the variants must ascend.
    pub fn from_raw_parts(
        language: Language,
        script: Option<Script>,
        region: Option<Region>,
        variants: Vec<Variant>,
    ) -> Result<Self, LanguageIdentifierError>
        ensures value { OkIff result (Ascend variants.items) (record {
          language = language;
          script = script;
          region = region;
          variants = variants.items;
        }) }
        ensures cause { IfErr result
            (λ error. error ≡ LanguageIdentifierError.ParserError ParserError.InvalidSubtag) }
    {
        if !ascend(variants.as_slice()) {
            return Err(LanguageIdentifierError::ParserError(ParserError::InvalidSubtag));
        }
        Ok(LanguageIdentifier::of_ascending(language, script, region, variants))
    }

    /// The identifier of these subtags, of which the variants ascend.
    pub(crate) fn of_ascending(
        language: Language,
        script: Option<Script>,
        region: Option<Region>,
        variants: Vec<Variant>,
    ) -> LanguageIdentifier
        requires { Ascend variants.items }
        ensures { result ≡ record {
          language = language;
          script = script;
          region = region;
          variants = variants.items;
        } }
    {
        LanguageIdentifier {
            language,
            script,
            region,
            variants,
        }
    }

    /// The subtags.
    pub fn into_parts(self) -> (Language, Option<Script>, Option<Region>, Vec<Variant>)
        ensures language { result.0 ≡ self.language }
        ensures script { result.1 ≡ self.script }
        ensures region { result.2 ≡ self.region }
        ensures variants { result.3.items ≡ self.variants }
        ensures ascend { Ascend self.variants }
    {
        (self.language, self.script, self.region, self.variants)
    }

    /// The variants in order.
    pub fn variants(&self) -> VariantsIter<'_>
        ensures items { result ≡ self.now.variants }
        ensures ascend { Ascend self.now.variants }
    {
        VariantsIter::new(self.variants.as_slice())
    }

    /// Whether it has this variant.
    pub fn has_variant(&self, variant: Variant) -> bool
        ensures { IsTrue result ↔ Contains self.now.variants variant }
    {
        self.variants.as_slice().binary_search(&variant).is_ok()
    }

    /// Puts these variants in the place of its own, each once. Where memory runs out it stays as it
    /// was.
    pub fn set_variants(&mut self, variants: &[Variant]) -> Result<(), AllocError>
        ensures ok { OnOk result
            (HasParts self.old.language self.old.script self.old.region variants.now self.new) }
        ensures err { OnErr result (self.new ≡ self.old) }
    {
        let variants = variants.to_vec(*self.variants.allocator())?;
        self.variants = ascending(variants);
        Ok(())
    }

    /// Takes its variants away.
    pub fn clear_variants(&mut self)
        ensures { self.new ≡ record self.old { variants = [] } }
    {
        self.variants.clear();
    }

    /// Whether each part of the two is equal, or missing on a side that is a range.
    pub fn matches(
        &self,
        other: &LanguageIdentifier,
        self_as_range: bool,
        other_as_range: bool,
    ) -> bool
        ensures { IsTrue result ↔ Matches self.now other.now self_as_range other_as_range }
    {
        self.language
            .matches(other.language, self_as_range, other_as_range)
            && scripts_fit(self.script, other.script, self_as_range, other_as_range)
            && regions_fit(self.region, other.region, self_as_range, other_as_range)
            && variants_fit(
                self.variants.as_slice(),
                other.variants.as_slice(),
                self_as_range,
                other_as_range,
            )
    }

    /// An equal identifier.
    pub fn try_clone(&self, alloc: Global) -> Result<Self, AllocError>
        ensures { IfOk result (λ copy. copy ≡ self.now) }
    {
        Ok(LanguageIdentifier {
            language: self.language,
            script: self.script,
            region: self.region,
            variants: self.variants.as_slice().to_vec(alloc)?,
        })
    }
}

/// Whether the two scripts are equal, or one is missing whose side is a range.
fn scripts_fit(
    one: Option<Script>,
    other: Option<Script>,
    one_as_range: bool,
    other_as_range: bool,
) -> bool
    ensures { IsTrue result ↔ Fits one other one_as_range other_as_range }
{
    (one_as_range && one.is_none()) || (other_as_range && other.is_none()) || one == other
}

/// The same of regions.
fn regions_fit(
    one: Option<Region>,
    other: Option<Region>,
    one_as_range: bool,
    other_as_range: bool,
) -> bool
    ensures { IsTrue result ↔ Fits one other one_as_range other_as_range }
{
    (one_as_range && one.is_none()) || (other_as_range && other.is_none()) || one == other
}

/// The same of variants.
fn variants_fit(
    one: &[Variant],
    other: &[Variant],
    one_as_range: bool,
    other_as_range: bool,
) -> bool
    ensures { IsTrue result ↔ FitVariants one.now other.now one_as_range other_as_range }
{
    (one_as_range && one.is_empty())
        || (other_as_range && other.is_empty())
        || same_variants(one, other)
}

/// Whether each variant is less than those behind it.
fn ascend(variants: &[Variant]) -> bool
    ensures { IsTrue result ↔ Ascend variants.now }
{
    for next in 1..variants.len() {
        match variants[next - 1].cmp(&variants[next]) {
            Ordering::Less => {}
            _ => return false,
        }
    }
    true
}

/// Whether the two are the same.
fn same_variants(one: &[Variant], other: &[Variant]) -> bool
    ensures { IsTrue result ↔ (one.now ≡ other.now) }
{
    one == other
}
