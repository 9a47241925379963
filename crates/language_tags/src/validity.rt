//! Whether a tag is valid over a registry.
ghost use Rattle.std.specs.Prelude.{◌≡◌, ◌≢◌, ◌↔◌, ℕ, List, Some, None, IsTrue, MatchResult};
ghost use Rattle.std.specs.Prelude.{nat_lt, nat_eq, map, length};
ghost use Rattle.std.specs.List.{flat_map, list_any, slice_split};
ghost use Rattle.std.specs.Str.{bytes_eq};
ghost use Rattle.writeable_core.specs.FirstFailure.{first_failure};
ghost use Rattle.language_tags_grammar.specs.Pieces.{pieces};
ghost use Rattle.language_tags_grammar.specs.Tag.{at_most_one, extensions_of, extlangs_of, print};
ghost use Rattle.language_tags_grammar.specs.Tag.{region_of, script_of, variants_of};
ghost use Rattle.language_tags.specs.Valid.{are_different, begins, extlang_rules};
ghost use Rattle.language_tags.specs.Valid.{follows_any_prefix, is_known_language, is_known_region};
ghost use Rattle.language_tags.specs.Valid.{is_known_script, is_space, lies_in, region_rules};
ghost use Rattle.language_tags.specs.Valid.{rules, script_rules, valid, variant_rules};

use crate::{ExtensionsIterator, LanguageTag, SubtagsIter, ValidationError};
use language_tags_grammar::is_grandfathered;
use language_tags_registry::{Registry, RegistryTable};

impl LanguageTag {
    /// The first rule of RFC 5646, section 2.2.9, that the tag breaks. No memory is taken.
    pub fn validate(&self, registry: &Registry) -> Result<(), ValidationError>
        ensures fault { MatchResult result (λ _. valid registry.now self.now ≡ None)
            (λ fault. valid registry.now self.now ≡ Some fault) }
        ensures memory { result ≢ Err ValidationError.NoMemory }
    {
        let text = self.as_str();
        if begins(text, "x-") || is_grandfathered(text) {
            return Ok(());
        }
        match self.first_fault(registry) {
            None => Ok(()),
            Some(fault) => Err(fault),
        }
    }

    /// Whether the tag breaks no rule.
    pub fn is_valid(&self, registry: &Registry) -> bool
        ensures { IsTrue result ↔ (valid registry.now self.now ≡ None) }
    {
        self.validate(registry).is_ok()
    }

    fn first_fault(&self, registry: &Registry) -> Option<ValidationError>
        ensures { result ≡ first_failure (rules registry.now self.now) }
    {
        if !self.has_few_extlangs() {
            return Some(ValidationError::MultipleExtendedLanguageSubtags);
        }
        if !is_known_language(registry, self.primary_language()) {
            return Some(ValidationError::PrimaryLanguageNotInRegistry);
        }
        if let Some(fault) = self.extlang_fault(registry) {
            return Some(fault);
        }
        if let Some(fault) = self.script_fault(registry) {
            return Some(fault);
        }
        if let Some(fault) = self.region_fault(registry) {
            return Some(fault);
        }
        if let Some(fault) = self.variant_fault(registry) {
            return Some(fault);
        }
        if !self.has_different_variants() {
            return Some(ValidationError::DuplicateVariant);
        }
        if !has_different_singletons(self.extension_subtags()) {
            return Some(ValidationError::DuplicateExtension);
        }
        None
    }

    /// Whether there is at most one extlang.
    pub(crate) fn has_few_extlangs(&self) -> bool
        ensures { result ≡ nat_lt (length (extlangs_of self.now)) 2 }
    {
        let mut extlangs = self.extended_language_subtags();
        extlangs.next().is_none() || extlangs.next().is_none()
    }

    fn extlang_fault(&self, registry: &Registry) -> Option<ValidationError>
        ensures { result
            ≡ first_failure
            (flat_map (extlang_rules registry.now (print self.now)) (extlangs_of self.now)) }
    {
        let text = self.as_str();
        for extlang in self.extended_language_subtags() {
            if let Some(fault) = fault_of_extlang(registry, text, extlang) {
                return Some(fault);
            }
        }
        None
    }

    fn script_fault(&self, registry: &Registry) -> Option<ValidationError>
        ensures { result
            ≡ first_failure
            (flat_map (script_rules registry.now) (at_most_one (script_of self.now))) }
    {
        match self.script() {
            Some(script) => {
                if is_known_script(registry, script) {
                    None
                } else {
                    Some(ValidationError::ScriptNotInRegistry)
                }
            }
            None => None,
        }
    }

    fn region_fault(&self, registry: &Registry) -> Option<ValidationError>
        ensures { result
            ≡ first_failure
            (flat_map (region_rules registry.now) (at_most_one (region_of self.now))) }
    {
        match self.region() {
            Some(region) => {
                if is_known_region(registry, region) {
                    None
                } else {
                    Some(ValidationError::RegionNotInRegistry)
                }
            }
            None => None,
        }
    }

    fn variant_fault(&self, registry: &Registry) -> Option<ValidationError>
        ensures { result
            ≡ first_failure
            (flat_map (variant_rules registry.now (print self.now)) (variants_of self.now)) }
    {
        let text = self.as_str();
        for variant in self.variant_subtags() {
            if let Some(fault) = fault_of_variant(registry, text, variant) {
                return Some(fault);
            }
        }
        None
    }
}

fn is_known_language(registry: &Registry, language: &str) -> bool
    ensures { result ≡ is_known_language registry.now language.now }
{
    registry.get(RegistryTable::Languages, language).is_some() || lies_in("qaa", "qtz", language)
}

fn is_known_script(registry: &Registry, script: &str) -> bool
    ensures { result ≡ is_known_script registry.now script.now }
{
    registry.get(RegistryTable::Scripts, script).is_some() || lies_in("Qaaa", "Qabx", script)
}

fn is_known_region(registry: &Registry, region: &str) -> bool
    ensures { result ≡ is_known_region registry.now region.now }
{
    registry.get(RegistryTable::Regions, region).is_some()
        || lies_in("QM", "QZ", region)
        || lies_in("XA", "XZ", region)
}

/// Whether a subtag lies between two others in text order, or is one of them.
fn lies_in(first: &str, last: &str, subtag: &str) -> bool
    ensures { result ≡ lies_in first.now last.now subtag.now }
{
    first <= subtag && subtag <= last
}

fn fault_of_extlang(registry: &Registry, text: &str, extlang: &str) -> Option<ValidationError>
    ensures { result ≡ first_failure (extlang_rules registry.now text.now extlang.now) }
{
    match registry.get(RegistryTable::Extlangs, extlang) {
        None => Some(ValidationError::ExtendedLanguageNotInRegistry),
        Some(prefix) => {
            if begins(text, prefix) {
                None
            } else {
                Some(ValidationError::WrongExtendedLanguagePrefix)
            }
        }
    }
}

fn fault_of_variant(registry: &Registry, text: &str, variant: &str) -> Option<ValidationError>
    ensures { result ≡ first_failure (variant_rules registry.now text.now variant.now) }
{
    match registry.get(RegistryTable::Variants, variant) {
        None => Some(ValidationError::VariantNotInRegistry),
        Some(prefixes) => {
            if begins_with_any(text, prefixes) {
                None
            } else {
                Some(ValidationError::WrongVariantPrefix)
            }
        }
    }
}

pub(crate) fn begins(text: &str, prefix: &str) -> bool
    ensures { result ≡ begins text.now prefix.now }
{
    text.starts_with(prefix)
}

/// Whether one of the prefixes begins the text. They stand with single spaces between them.
fn begins_with_any(text: &str, prefixes: &str) -> bool
    ensures { result ≡ list_any (begins text.now) (slice_split is_space prefixes.now) }
{
    let mut rest = prefixes;
    while let Some((prefix, others)) = rest.split_once(' ') {
        if begins(text, prefix) {
            return true;
        }
        rest = others;
    }
    begins(text, rest)
}

pub(crate) fn has_different_pieces(text: &str) -> bool
    ensures { result ≡ are_different bytes_eq (pieces text.now) }
{
    let mut rest = text;
    while let Some((first, others)) = rest.split_once('-') {
        if contains(SubtagsIter::new(Some(others)), first) {
            return false;
        }
        rest = others;
    }
    true
}

pub(crate) fn contains(pieces: SubtagsIter<'_>, piece: &str) -> bool
    ensures { result ≡ list_any (bytes_eq piece.now) pieces.entry }
{
    for other in pieces {
        if piece == other {
            return true;
        }
    }
    false
}

/// Whether no singleton stands twice. One of 36 extensions or more does, so that at most 36 are
/// looked for behind them.
fn has_different_singletons(extensions: ExtensionsIterator<'_>) -> bool
    ensures { result ≡ are_different nat_eq (map (λ e. e.singleton) extensions.entry) }
{
    let mut rest = extensions;
    while let Some((singleton, _)) = rest.next() {
        if has_singleton(rest.again(), singleton) {
            return false;
        }
    }
    true
}

fn has_singleton(extensions: ExtensionsIterator<'_>, singleton: char) -> bool
    ensures { result ≡ list_any (nat_eq singleton) (map (λ e. e.singleton) extensions.entry) }
{
    for (other, _) in extensions {
        if singleton == other {
            return true;
        }
    }
    false
}
