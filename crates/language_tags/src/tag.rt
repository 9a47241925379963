ghost use Rattle.std.specs.Prelude.{◌≡◌, ◌≢◌, ◌↔◌, ℕ, List, Some, None, IfOk, IfErr, IfSome};
ghost use Rattle.std.specs.Prelude.{IsSome, IsTrue, nat_eq, string_bytes};
ghost use Rattle.std.specs.List.{flat_map, list_all};
ghost use Rattle.std.specs.Option.{option_copied};
ghost use Rattle.language_tags.specs.Equality.{Agree};

use crate::part::{front, part};
use crate::validity::has_different_pieces;
use crate::{ExtensionsIterator, ParseError, SubtagsIter, TagJsonError, ValidationError};
use language_tags_grammar::case::{in_case, push_lowercase};
use language_tags_grammar::ends::Ends;
use language_tags_grammar::grandfathered::grandfathered;
use language_tags_grammar::private_use::{behind_x, check};
use language_tags_grammar::scan::scan;
use language_tags_registry::Registry;
use serde_json::Value;
use std::alloc::{AllocError, Global};
use std::fmt;
use std::hash::{Hash, Hasher};
use std::marker::Model;

/// A language tag. Contracts see it as a `Tag`.
#[derive(Drop)]
pub struct LanguageTag {
    text: String,
    /// None for a whole text
    ends: Option<Ends>,
}

impl Model for LanguageTag {
    ghost use Rattle.std.specs.Prelude.{string_bytes};
    ghost use Rattle.language_tags_grammar.specs.Tag.{Tag};

    ghost Value = { Tag };

    ghost use Rattle.language_tags_grammar.specs.Kept.{IsKept, tag_at};

    ghost view = { λ t. tag_at t.ends (string_bytes t.text) };

    ghost invariant = { λ t. IsKept t.ends (string_bytes t.text) };
}

impl LanguageTag {
    ghost use Rattle.serde_json.specs.Find.{as_str};
    ghost use Rattle.serde_json.specs.View.{view};
    ghost use Rattle.language_tags_grammar.specs.declared.error.ParseError.{ParseError as Fault};
    ghost use Rattle.std.specs.Str.{IsAscii, chars};
    ghost use Rattle.language_tags_grammar.specs.Pieces.{lowercase, part_text, pieces};
    ghost use Rattle.language_tags_grammar.specs.Scan.{scanned};
    ghost use Rattle.language_tags_grammar.specs.Tag.{Parts, Whole, Plain, print};
    ghost use Rattle.language_tags_grammar.specs.Tag.{at_most_one, extension_pieces, extensions_of};
    ghost use Rattle.language_tags_grammar.specs.Tag.{extlangs_of, front_of, full_language_of};
    ghost use Rattle.language_tags_grammar.specs.Tag.{language_of, private_of, private_pieces};
    ghost use Rattle.language_tags_grammar.specs.Tag.{region_of, script_of, variants_of};
    ghost use Rattle.std.specs.Str.{bytes_eq};
    ghost use Rattle.language_tags.specs.Equality.{IsRange, Matches};
    ghost use Rattle.language_tags.specs.Canon.{Rewrites};
    ghost use Rattle.language_tags.specs.Valid.{are_different};
    ghost use Rattle.language_tags_grammar.specs.Kept.{KeepsParts, parts_at};
    ghost use Rattle.language_tags_grammar.specs.TagFault.{IsFaultBehindX, IsFaultOf};
    ghost use Rattle.language_tags_grammar.specs.TagFault.{IsFaultOfPieces};
    ghost use Rattle.language_tags_grammar.specs.TagOf.{IsLangtag, IsTagOf, StandsBehindX};
    ghost use Rattle.language_tags_grammar.specs.Shapes.{is_private};

    /// The tag that a text is.
    pub fn parse(alloc: Global, input: &str) -> Result<LanguageTag, ParseError>
        ensures ok { IfOk result (IsTagOf input.now) }
        ensures err { IfErr result (λ fault. fault ≢ ParseError.NoMemory
            → IsFaultOf input.now fault) }
    {
        match grandfathered(input) {
            Some(tag) => match LanguageTag::whole(alloc, tag) {
                Ok(tag) => Ok(tag),
                Err(_) => Err(ParseError::NoMemory),
            },
            None => match behind_x(input) {
                Some(rest) => LanguageTag::private_tag(alloc, input, rest),
                None => LanguageTag::langtag(alloc, input),
            },
        }
    }

    /// The tag of a text that begins with `x-`, with `rest` behind it.
    fn private_tag(alloc: Global, text: &str, rest: &str) -> Result<LanguageTag, ParseError>
        requires { StandsBehindX (lowercase rest.now) text.now }
        ensures ok { IfOk result (λ tag. IsTrue (list_all is_private (pieces (lowercase rest.now)))
            × (tag ≡ Whole (lowercase text.now))) }
        ensures err { IfErr result (λ fault. fault ≢ ParseError.NoMemory
            → IsFaultBehindX (lowercase rest.now) fault) }
    {
        check(rest)?;
        match LanguageTag::whole_in_lowercase(alloc, text) {
            Ok(tag) => Ok(tag),
            Err(_) => Err(ParseError::NoMemory),
        }
    }

    /// The tag of any other text.
    fn langtag(alloc: Global, text: &str) -> Result<LanguageTag, ParseError>
        ensures ok { IfOk result (λ tag. (p : Parts) × IsLangtag text.now p × (tag ≡ Plain p)) }
        ensures err { IfErr result (λ fault. fault ≢ ParseError.NoMemory
            → IsFaultOfPieces (pieces (lowercase text.now)) fault) }
    {
        let ends = scan(text)?;
        match LanguageTag::with_ends(alloc, text, ends) {
            Ok(tag) => Ok(tag),
            Err(_) => Err(ParseError::NoMemory),
        }
    }

    fn whole(alloc: Global, text: &str) -> Result<LanguageTag, AllocError>
        requires { IsAscii text.now }
        ensures { IfOk result (λ tag. tag ≡ Whole text.now) }
    {
        Ok(LanguageTag {
            text: String::from_str(alloc, text)?,
            ends: None,
        })
    }

    fn whole_in_lowercase(alloc: Global, text: &str) -> Result<LanguageTag, AllocError>
        requires { IsAscii (lowercase text.now) }
        ensures { IfOk result (λ tag. tag ≡ Whole (lowercase text.now)) }
    {
        let mut bytes = Vec::with_capacity(alloc, text.len())?;
        push_lowercase(&mut bytes, text.as_bytes())?;
        Ok(LanguageTag {
            text: unsafe { String::from_utf8_unchecked(bytes) },
            ends: None,
        })
    }

    /// The tag of a text whose parts end there.
    fn with_ends(alloc: Global, text: &str, ends: Ends) -> Result<LanguageTag, AllocError>
        requires { scanned (pieces (lowercase text.now)) ≡ Ok ends }
        ensures { IfOk result (λ tag. (p : Parts) × IsLangtag text.now p × (tag ≡ Plain p)) }
    {
        let bytes = in_case(alloc, text.as_bytes(), &ends)?;
        Ok(LanguageTag {
            text: unsafe { String::from_utf8_unchecked(bytes) },
            ends: Some(ends),
        })
    }

    /// The tag of a text whose parts end there.
    pub(crate) fn of_parts(text: String, ends: Ends) -> LanguageTag
        requires { KeepsParts (string_bytes text) ends (parts_at ends (string_bytes text)) }
        ensures { result ≡ Plain (parts_at ends (string_bytes text)) }
    {
        LanguageTag {
            text,
            ends: Some(ends),
        }
    }

    /// The tag with its parts in canonical form, but where two extlangs or more refuse it.
    pub(crate) fn rewritten(
        &self,
        alloc: Global,
        registry: &Registry,
    ) -> Result<LanguageTag, ValidationError>
        ensures ok { IfOk result (λ tag. Rewrites registry.now self.now (Some tag)) }
        ensures err { IfErr result (λ fault. fault ≢ ValidationError.NoMemory
            → (fault ≡ ValidationError.MultipleExtendedLanguageSubtags)
            × Rewrites registry.now self.now None) }
    {
        if self.ends.is_none() {
            return self.same(alloc);
        }
        if !self.has_few_extlangs() {
            return Err(ValidationError::MultipleExtendedLanguageSubtags);
        }
        match self.canonical_parts(alloc, registry) {
            Ok(tag) => Ok(tag),
            Err(_) => Err(ValidationError::NoMemory),
        }
    }

    /// The printed tag.
    pub fn as_str(&self) -> &str
        ensures value { result.now ≡ print self.now }
        ensures characters { chars result.now ≡ result.now }
    {
        let _ends = &self.ends;
        self.text.as_str()
    }

    /// The printed tag, without a copy.
    pub fn into_string(self) -> String
        ensures { string_bytes result ≡ print self }
    {
        self.text
    }

    /// The language; all of a whole tag.
    pub fn primary_language(&self) -> &str
        ensures value { result.now ≡ language_of self.now }
    {
        match &self.ends {
            None => self.text.as_str(),
            Some(ends) => front(self.text.as_str(), ends.language),
        }
    }

    /// The language and its extlangs; all of a whole tag.
    pub fn full_language(&self) -> &str
        ensures value { result.now ≡ full_language_of self.now }
    {
        match &self.ends {
            None => self.text.as_str(),
            Some(ends) => front(self.text.as_str(), ends.extlang),
        }
    }

    /// The tag up to its variants; all of a whole tag.
    pub fn without_extensions(&self) -> &str
        ensures value { result.now ≡ front_of self.now }
    {
        match &self.ends {
            None => self.text.as_str(),
            Some(ends) => front(self.text.as_str(), ends.variant),
        }
    }

    /// The extlangs.
    pub fn extended_language(&self) -> Option<&str>
        ensures value { option_copied result ≡ part_text (extlangs_of self.now) }
    {
        match &self.ends {
            None => None,
            Some(ends) => part(self.text.as_str(), ends.language, ends.extlang),
        }
    }

    /// The script.
    pub fn script(&self) -> Option<&str>
        ensures value { option_copied result ≡ part_text (at_most_one (script_of self.now)) }
    {
        match &self.ends {
            None => None,
            Some(ends) => part(self.text.as_str(), ends.extlang, ends.script),
        }
    }

    /// The region.
    pub fn region(&self) -> Option<&str>
        ensures value { option_copied result ≡ part_text (at_most_one (region_of self.now)) }
    {
        match &self.ends {
            None => None,
            Some(ends) => part(self.text.as_str(), ends.script, ends.region),
        }
    }

    /// The variants.
    pub fn variant(&self) -> Option<&str>
        ensures value { option_copied result ≡ part_text (variants_of self.now) }
    {
        match &self.ends {
            None => None,
            Some(ends) => part(self.text.as_str(), ends.region, ends.variant),
        }
    }

    /// The extensions, each with its singleton.
    pub fn extension(&self) -> Option<&str>
        ensures value { option_copied result
            ≡ part_text (flat_map extension_pieces (extensions_of self.now)) }
    {
        match &self.ends {
            None => None,
            Some(ends) => part(self.text.as_str(), ends.variant, ends.extension),
        }
    }

    /// Private use, with its `x`; of a whole tag that begins with `x-` all.
    pub fn private_use(&self) -> Option<&str>
        ensures value { option_copied result ≡ part_text (private_pieces (private_of self.now)) }
    {
        let text = self.text.as_str();
        match &self.ends {
            None => {
                if text.starts_with("x-") {
                    Some(text)
                } else {
                    None
                }
            }
            Some(ends) => part(text, ends.extension, text.len()),
        }
    }

    /// Whether the tag has neither extensions nor private use.
    pub fn is_language_range(&self) -> bool
        ensures { IsTrue result ↔ IsRange self.now }
    {
        self.extension().is_none() && self.private_use().is_none()
    }

    /// The extlangs, one by one.
    pub fn extended_language_subtags(&self) -> SubtagsIter<'_>
        ensures { result ≡ extlangs_of self.now }
    {
        let _ends = &self.ends;
        SubtagsIter::new(self.extended_language())
    }

    /// The variants, one by one.
    pub fn variant_subtags(&self) -> SubtagsIter<'_>
        ensures { result ≡ variants_of self.now }
    {
        let _ends = &self.ends;
        SubtagsIter::new(self.variant())
    }

    /// The extensions one by one, each its singleton and its content.
    pub fn extension_subtags(&self) -> ExtensionsIterator<'_>
        ensures { result ≡ extensions_of self.now }
    {
        let _ends = &self.ends;
        ExtensionsIterator::new(self.extension())
    }

    /// The pieces of private use, without the `x`.
    pub fn private_use_subtags(&self) -> SubtagsIter<'_>
        ensures { result ≡ private_of self.now }
    {
        let _ends = &self.ends;
        match self.private_use() {
            None => SubtagsIter::new(None),
            Some(text) => SubtagsIter::new(text.strip_prefix("x-")),
        }
    }

    /// Whether no variant stands twice. Each is looked for behind it: where all are in a registry,
    /// as they are here, that is at most once for each of the registry's variants.
    pub(crate) fn has_different_variants(&self) -> bool
        ensures { result ≡ are_different bytes_eq (variants_of self.now) }
    {
        let _ends = &self.ends;
        match self.variant() {
            Some(text) => has_different_pieces(text),
            None => true,
        }
    }

    /// Whether a tag has this range's full language, its script and region where it has them, and
    /// its variants in the places that both have.
    pub fn matches(&self, other: &LanguageTag) -> bool
        requires { IsRange self.now }
        ensures { IsTrue result ↔ Matches self.now other.now }
    {
        self.full_language() == other.full_language()
            && is_none_or_equal(self.script(), other.script())
            && is_none_or_equal(self.region(), other.region())
            && agree(self.variant_subtags(), other.variant_subtags())
    }

    /// An equal tag.
    pub fn try_clone(&self, alloc: Global) -> Result<LanguageTag, AllocError>
        ensures { IfOk result (λ tag. tag ≡ self.now) }
    {
        Ok(LanguageTag {
            text: String::from_str(alloc, self.text.as_str())?,
            ends: self.ends,
        })
    }

    /// The tag that a JSON text is, by `parse`.
    pub fn from_json(alloc: Global, value: &Value) -> Result<LanguageTag, TagJsonError>
        ensures ok { IfOk result
            (λ tag. IfSome (as_str (view value.now)) (λ text. IsTagOf text tag)) }
        ensures some { IfOk result (λ _. IsSome (as_str (view value.now))) }
        ensures not_text { result ≡ Err TagJsonError.NotText → as_str (view value.now) ≡ None }
        ensures fault { (fault : Fault) → result ≡ Err (TagJsonError.Parse fault)
            → fault ≢ ParseError.NoMemory
            × IfSome (as_str (view value.now)) (λ text. IsFaultOf text fault) }
    {
        let Some(text) = value.as_str() else {
            return Err(TagJsonError::NotText);
        };
        match LanguageTag::parse(alloc, text) {
            Ok(tag) => Ok(tag),
            Err(fault) => match fault {
                ParseError::NoMemory => Err(TagJsonError::NoMemory),
                _ => Err(TagJsonError::Parse(fault)),
            },
        }
    }

    /// The printed tag as a JSON text.
    pub fn to_json(&self, alloc: Global) -> Result<Value, AllocError>
        ensures { IfOk result (λ value. as_str (view value) ≡ Some (print self.now)) }
    {
        Ok(Value::String(String::from_str(alloc, self.as_str())?))
    }
}

impl fmt::Display for LanguageTag {
    ghost use Rattle.language_tags_grammar.specs.Tag.{print};

    ghost output = { λ tag. Some (print tag) };

    fn fmt<W: fmt::Write>(&self, f: &mut fmt::Formatter<W>) -> fmt::Result {
        f.write_str(self.as_str())
    }
}

impl PartialEq for LanguageTag {
    ghost use Rattle.std.specs.Cmp.{on_per, partial_equiv_from_equiv};
    ghost use Rattle.std.specs.Cmp.Lexicographic.{nat_list_eq_equiv, pointwise};
    ghost use Rattle.language_tags.specs.Equality.{key};

    ghost eq = { λ s t. pointwise nat_eq (key s) (key t) };

    ghost laws = { on_per key (partial_equiv_from_equiv nat_list_eq_equiv) };

    fn eq(&self, other: &LanguageTag) -> bool
        ensures value { result ≡ pointwise nat_eq (key self.now) (key other.now) }
        ensures same { IsTrue result ↔ (self.now ≡ other.now) }
    {
        self.ends.is_none() == other.ends.is_none() && self.as_str() == other.as_str()
    }
}

impl Eq for LanguageTag {
    ghost use Rattle.std.specs.Cmp.{on_equiv};
    ghost use Rattle.std.specs.Cmp.Lexicographic.{nat_list_eq_equiv};
    ghost use Rattle.language_tags.specs.Equality.{key};

    ghost laws = { on_equiv key nat_list_eq_equiv };
}

impl Hash for LanguageTag {
    ghost use Rattle.std.specs.Hash as fed;
    ghost use Rattle.std.proofs.Common.{ap};
    ghost use Rattle.language_tags.specs.EqualityLaws.{same_print};
    ghost use Rattle.language_tags_grammar.specs.Tag.{print};

    ghost hash_input = { λ tag. fed.str (print tag) };

    ghost respects_eq = { λ s t e. ap fed.str (same_print s t e) };

    fn hash<H: Hasher>(&self, state: &mut H) {
        self.as_str().hash(state);
    }
}

/// Whether a part is missing or is the same in the other tag.
fn is_none_or_equal(part: Option<&str>, other: Option<&str>) -> bool
    ensures { IsTrue result
        ↔ IfSome (option_copied part.entry) (λ p. option_copied other.entry ≡ Some p) }
{
    match (part, other) {
        (None, _) => true,
        (Some(part), Some(other)) => part == other,
        (Some(_), None) => false,
    }
}

/// Whether pieces agree in the places that both have.
fn agree(range: SubtagsIter<'_>, tag: SubtagsIter<'_>) -> bool
    ensures { IsTrue result ↔ Agree range.entry tag.entry }
{
    let mut others = tag;
    for subtag in range {
        match others.next() {
            None => return true,
            Some(other) => {
                if subtag != other {
                    return false;
                }
            }
        }
    }
    true
}
