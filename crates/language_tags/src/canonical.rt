//! The canonical form of a tag over a registry.
ghost use Rattle.std.specs.Prelude.{◌≡◌, ◌≢◌, ◌⊎◌, ◌≤◌, ◌++◌, ◌∷◌, ℕ, List, [], Option, Some};
ghost use Rattle.std.specs.Prelude.{None, true, IfOk, IfErr, IfSome, OnOk, IsTrue, if◌then◌else◌};
ghost use Rattle.std.specs.Prelude.{is_some, length, map, string_bytes, unwrap_or};
ghost use Rattle.std.specs.List.{AllByRecursion, flat_map, list_all};
ghost use Rattle.std.specs.List.Sorted.{IsPermutation, IsSortedBy};
ghost use Rattle.std.specs.Option.{option_copied, option_map};
ghost use Rattle.language_tags_grammar.specs.Pieces.{dashed, pieces};
ghost use Rattle.language_tags_grammar.specs.Shapes.{IsExtension, is_language, is_region};
ghost use Rattle.language_tags_grammar.specs.Shapes.{is_script, is_small, is_variant};
ghost use Rattle.language_tags_grammar.specs.Tag.{Extension, Parts, Plain, at_most_one};
ghost use Rattle.language_tags_grammar.specs.Tag.{extension_pieces, extensions_of, extlangs_of};
ghost use Rattle.language_tags_grammar.specs.Tag.{language_of, print, region_of, script_of};
ghost use Rattle.language_tags_grammar.specs.Tag.{variants_of};
ghost use Rattle.language_tags_grammar.specs.TagOf.{IsTagOf};
ghost use Rattle.language_tags_registry.specs.Kinds.{MeetsAny, kind_of};
ghost use Rattle.language_tags_registry.specs.Registry.{table_of, value_of};
ghost use Rattle.language_tags.specs.Canon.{AreCanonical, GoesTo, IsCanonOf, Rewrites, Stays};
ghost use Rattle.language_tags.specs.Canon.{extlang_value, is_before, not_written, replaced};
ghost use Rattle.language_tags.specs.Canon.{unless_suppressed};
ghost use Rattle.language_tags.specs.Extensions.{item_of};
ghost use Rattle.language_tags.specs.CanonText.{IsShaped, dash_text, dashed_items};
ghost use Rattle.language_tags.specs.CanonText.{is_item_before, pair_of};

use crate::validity::{begins, contains};
use crate::{LanguageTag, SubtagsIter, ValidationError};
use language_tags_grammar::ends::Ends;
use language_tags_grammar::is_grandfathered;
use language_tags_registry::{Registry, RegistryTable};
use std::alloc::{AllocError, Global};

impl LanguageTag {
    /// The canonical form of the tag (RFC 5646, section 4.5).
    pub fn canonicalize(
        &self,
        alloc: Global,
        registry: &Registry,
    ) -> Result<LanguageTag, ValidationError>
        ensures ok { IfOk result (λ tag. IsCanonOf registry.now self.now (Some tag)) }
        ensures err { IfErr result (λ fault. fault ≢ ValidationError.NoMemory
            → (fault ≡ ValidationError.MultipleExtendedLanguageSubtags)
            × IsCanonOf registry.now self.now None) }
    {
        let text = self.as_str();
        if begins(text, "x-") {
            self.same(alloc)
        } else if is_grandfathered(text) {
            self.grandfathered_form(alloc, registry)
        } else {
            self.other_form(alloc, registry)
        }
    }

    /// The form of a grandfathered tag.
    fn grandfathered_form(
        &self,
        alloc: Global,
        registry: &Registry,
    ) -> Result<LanguageTag, ValidationError>
        ensures ok { IfOk result
            (λ tag. GoesTo (value_of registry.now.grandfathereds_preferred (print self.now))
            (Stays self.now) (Some tag)) }
        ensures err { IfErr result (λ fault. fault ≡ ValidationError.NoMemory) }
    {
        match registry.get(RegistryTable::GrandfatheredsPreferred, self.as_str()) {
            Some(text) => tag_of(alloc, text),
            None => self.same(alloc),
        }
    }

    /// The form of a tag that is neither grandfathered nor for private use.
    fn other_form(&self, alloc: Global, registry: &Registry) -> Result<LanguageTag, ValidationError>
        ensures ok { IfOk result
            (λ tag. GoesTo (value_of registry.now.redundants_preferred (print self.now))
            (Rewrites registry.now self.now) (Some tag)) }
        ensures err { IfErr result (λ fault. fault ≢ ValidationError.NoMemory
            → (fault ≡ ValidationError.MultipleExtendedLanguageSubtags)
            × GoesTo (value_of registry.now.redundants_preferred (print self.now))
            (Rewrites registry.now self.now) None) }
    {
        match registry.get(RegistryTable::RedundantsPreferred, self.as_str()) {
            Some(text) => tag_of(alloc, text),
            None => self.rewritten(alloc, registry),
        }
    }

    /// The tag with its parts in canonical form.
    pub(crate) fn canonical_parts(
        &self,
        alloc: Global,
        registry: &Registry,
    ) -> Result<LanguageTag, AllocError>
        requires shapes { IsShaped self.now }
        requires few { length (extlangs_of self.now) ≤ 1 }
        ensures { IfOk result
            (λ tag. (q : Parts) × AreCanonical registry.now self.now q × (tag ≡ Plain q)) }
    {
        let language = self.new_language(registry);
        let extlang = self.new_extlang(registry);
        let script = self.new_script(registry, language);
        let region = self.new_region(registry);
        let mut text = String::with_capacity(alloc, self.as_str().len())?;
        text.push_str(language)?;
        let language_end = text.as_str().len();
        push_part(&mut text, extlang)?;
        let extlang_end = text.as_str().len();
        push_part(&mut text, script)?;
        let script_end = text.as_str().len();
        push_part(&mut text, region)?;
        let region_end = text.as_str().len();
        self.push_variants(&mut text, registry)?;
        let variant_end = text.as_str().len();
        self.push_extensions(alloc, &mut text)?;
        let extension_end = text.as_str().len();
        push_part(&mut text, self.private_use())?;
        Ok(LanguageTag::of_parts(
            text,
            Ends {
                language: language_end,
                extlang: extlang_end,
                script: script_end,
                region: region_end,
                variant: variant_end,
                extension: extension_end,
            },
        ))
    }

    /// The preferred value of the extlang, or else the language or what it is replaced by.
    fn new_language<'a>(&'a self, registry: &'a Registry) -> &'a str
        requires shapes { IsShaped self.now }
        requires few { length (extlangs_of self.now) ≤ 1 }
        ensures value { result.now ≡ unwrap_or (extlang_value registry.now (extlangs_of self.now))
            (replaced registry.now.languages_preferred (language_of self.now)) }
        ensures shape { IsTrue (is_language result.now) }
        ensures short { length (language_of self.now) ≤ 3 → length result.now ≤ 3 }
    {
        match self.extlang_value(registry) {
            Some(language) => language,
            None => replaced(
                registry,
                RegistryTable::LanguagesPreferred,
                self.primary_language(),
            ),
        }
    }

    /// The extlang, where it has no preferred value.
    fn new_extlang<'a>(&'a self, registry: &'a Registry) -> Option<&'a str>
        requires { length (extlangs_of self.now) ≤ 1 }
        ensures { at_most_one (option_copied result)
            ≡ (if is_some (extlang_value registry.now (extlangs_of self.now))
            then [] else extlangs_of self.now) }
    {
        if self.extlang_value(registry).is_some() {
            None
        } else {
            self.extended_language()
        }
    }

    /// The preferred value of the extlang.
    fn extlang_value<'a>(&'a self, registry: &'a Registry) -> Option<&'a str>
        requires { length (extlangs_of self.now) ≤ 1 }
        ensures value { option_copied result ≡ extlang_value registry.now (extlangs_of self.now) }
        ensures shape { IfSome result
            (λ value. MeetsAny (kind_of RegistryTable.ExtlangsPreferred).value value.now) }
    {
        match self.extended_language() {
            Some(extlang) => registry.get(RegistryTable::ExtlangsPreferred, extlang),
            None => None,
        }
    }

    /// The script or what it is replaced by, but where the language suppresses it.
    fn new_script<'a>(&'a self, registry: &'a Registry, language: &str) -> Option<&'a str>
        requires { IsShaped self.now }
        ensures value { option_copied result
            ≡ unless_suppressed (value_of registry.now.languages_suppress_script language.now)
            (option_map (replaced registry.now.scripts_preferred) (script_of self.now)) }
        ensures shape { IfSome (option_copied result) (λ s. IsTrue (is_script s)) }
    {
        match self.script() {
            Some(script) => unless_suppressed(
                registry.get(RegistryTable::LanguagesSuppressScript, language),
                replaced(registry, RegistryTable::ScriptsPreferred, script),
            ),
            None => None,
        }
    }

    /// The region or what it is replaced by.
    fn new_region<'a>(&'a self, registry: &'a Registry) -> Option<&'a str>
        requires { IsShaped self.now }
        ensures value { option_copied result
            ≡ option_map (replaced registry.now.regions_preferred) (region_of self.now) }
        ensures shape { IfSome (option_copied result) (λ r. IsTrue (is_region r)) }
    {
        match self.region() {
            Some(region) => Some(replaced(registry, RegistryTable::RegionsPreferred, region)),
            None => None,
        }
    }

    /// Appends each variant or what it is replaced by, but where such a piece stands there already.
    fn push_variants(&self, text: &mut String, registry: &Registry) -> Result<(), AllocError>
        requires { IsShaped self.now }
        ensures text { OnOk result (string_bytes text.new ≡ string_bytes text.old
            ++ dashed (not_written (pieces (string_bytes text.old))
            (map (replaced registry.now.variants_preferred) (variants_of self.now)))) }
        ensures shape { OnOk result (IsTrue (list_all is_variant
            (not_written (pieces (string_bytes text.old))
            (map (replaced registry.now.variants_preferred) (variants_of self.now))))) }
    {
        for subtag in self.variant_subtags() {
            let variant = replaced(registry, RegistryTable::VariantsPreferred, subtag);
            push_variant(text, variant)?;
        }
        Ok(())
    }

    /// Appends the extensions in their order.
    fn push_extensions(&self, alloc: Global, text: &mut String) -> Result<(), AllocError>
        requires { IsShaped self.now }
        ensures { OnOk result
            ((es : List Extension) × IsPermutation (extensions_of self.now) es
            × IsSortedBy is_before es × AllByRecursion IsExtension es
            × (string_bytes text.new
            ≡ string_bytes text.old ++ dashed (flat_map extension_pieces es))) }
    {
        let extensions = self.sorted_extensions(alloc)?;
        push_extensions(text, extensions.as_slice())
    }

    /// The extensions in their order, each its singleton and its content.
    fn sorted_extensions<'a>(&'a self, alloc: Global) -> Result<Vec<(char, &'a str)>, AllocError>
        ensures permutation { IfOk result
            (λ v. IsPermutation (map item_of (extensions_of self.now)) (map pair_of v.items)) }
        ensures order { IfOk result (λ v. IsSortedBy is_item_before (map pair_of v.items)) }
    {
        let mut extensions = self.listed_extensions(alloc)?;
        extensions.sort_unstable();
        Ok(extensions)
    }

    /// The extensions, each its singleton and its content.
    fn listed_extensions<'a>(&'a self, alloc: Global) -> Result<Vec<(char, &'a str)>, AllocError>
        ensures { IfOk result (λ v. map pair_of v.items ≡ map item_of (extensions_of self.now)) }
    {
        let mut extensions = Vec::new(alloc);
        for (singleton, content) in self.extension_subtags() {
            extensions.push((singleton, content))?;
        }
        Ok(extensions)
    }

    /// An equal tag.
    pub(crate) fn same(&self, alloc: Global) -> Result<LanguageTag, ValidationError>
        ensures ok { IfOk result (λ tag. tag ≡ self.now) }
        ensures err { IfErr result (λ fault. fault ≡ ValidationError.NoMemory) }
    {
        match self.try_clone(alloc) {
            Ok(tag) => Ok(tag),
            Err(_) => Err(ValidationError::NoMemory),
        }
    }
}

/// The tag of a text that has one, as the tables' values have.
fn tag_of(alloc: Global, text: &str) -> Result<LanguageTag, ValidationError>
    ensures ok { IfOk result (IsTagOf text.now) }
    ensures err { IfErr result (λ fault. fault ≡ ValidationError.NoMemory) }
{
    match LanguageTag::parse(alloc, text) {
        Ok(tag) => Ok(tag),
        Err(_) => Err(ValidationError::NoMemory),
    }
}

/// A subtag, or what it is replaced by.
fn replaced<'a>(registry: &'a Registry, table: RegistryTable, subtag: &'a str) -> &'a str
    ensures value { result.now ≡ replaced (table_of table registry.now) subtag.now }
    ensures shape { (result.now ≡ subtag.now) ⊎ MeetsAny (kind_of table).value result.now }
{
    match registry.get(table, subtag) {
        Some(value) => value,
        None => subtag,
    }
}

/// The script, but where it is the suppressed one.
fn unless_suppressed<'a>(suppressed: Option<&str>, script: &'a str) -> Option<&'a str>
    ensures value { option_copied result
        ≡ unless_suppressed (option_copied suppressed.entry) (Some script.now) }
    ensures same { IfSome result (λ s. s.now ≡ script.now) }
{
    match suppressed {
        Some(suppressed) => {
            if script == suppressed {
                None
            } else {
                Some(script)
            }
        }
        None => Some(script),
    }
}

/// Appends a part with a dash before it.
fn push_part(text: &mut String, part: Option<&str>) -> Result<(), AllocError>
    ensures { OnOk result
        (string_bytes text.new ≡ string_bytes text.old ++ dash_text (option_copied part.entry)) }
{
    match part {
        Some(part) => {
            text.push_str("-")?;
            text.push_str(part)
        }
        None => Ok(()),
    }
}

/// Appends a variant, but where such a piece stands there already.
fn push_variant(text: &mut String, variant: &str) -> Result<(), AllocError>
    requires { IsTrue (is_variant variant.now) }
    ensures text { OnOk result (string_bytes text.new ≡ string_bytes text.old
        ++ dashed (not_written (pieces (string_bytes text.old)) (variant.now ∷ []))) }
    ensures pieces { OnOk result (pieces (string_bytes text.new) ≡ pieces (string_bytes text.old)
        ++ not_written (pieces (string_bytes text.old)) (variant.now ∷ [])) }
{
    if contains(SubtagsIter::new(Some(text.as_str())), variant) {
        return Ok(());
    }
    push_part(text, Some(variant))
}

/// Appends extensions, each with a dash before its singleton and before its content.
fn push_extensions(text: &mut String, extensions: &[(char, &str)]) -> Result<(), AllocError>
    requires { list_all (λ i. is_small i.0) extensions.now ≡ true }
    ensures { OnOk result
        (string_bytes text.new
        ≡ string_bytes text.old ++ dashed_items (map pair_of extensions.now)) }
{
    for (singleton, content) in extensions {
        push_extension(text, *singleton, *content)?;
    }
    Ok(())
}

/// Appends an extension, with a dash before its singleton and before its content.
fn push_extension(text: &mut String, singleton: char, content: &str) -> Result<(), AllocError>
    requires { is_small singleton ≡ true }
    ensures { OnOk result
        (string_bytes text.new
        ≡ string_bytes text.old ++ dashed_items ((singleton, content.now) ∷ [])) }
{
    text.push_str("-")?;
    text.push(singleton)?;
    push_part(text, Some(content))
}
