ghost use Rattle.std.specs.Prelude.{◌≡◌};
ghost use Rattle.icu_locale_core.specs.Locale.{unknown};
ghost use Rattle.icu_locale_fallback.specs.Steps.{at_rest, first_of, has_language};
ghost use Rattle.icu_locale_fallback.specs.Steps.{has_likely_script, own_rules, parent_rule};
ghost use Rattle.icu_locale_fallback.specs.Steps.{region_dropped, rule, step_by, to_first_script};
ghost use Rattle.icu_locale_fallback.specs.Steps.{without_language, without_likely_script};
ghost use Rattle.icu_locale_fallback.specs.Views.{Goes, GoesByNext, stepped, walk_of};
ghost use Rattle.icu_locale_fallback.specs.declared.config.LocaleFallbackPriority.TheVariants.{Language as ByLanguage};
ghost use Rattle.icu_locale_fallback.specs.declared.config.LocaleFallbackPriority.TheVariants.{Region as ByRegion};
ghost use Rattle.icu_locale_fallback.specs.declared.config.LocaleFallbackPriority.TheVariants.{Script as ByScript};

use crate::LocaleFallbackPriority;
use crate::fallbacker::LocaleFallbacker;
use crate::rule::Rule;
use crate::triple::Triple;
use icu_locale_core::{DataLocale, Language, Region, Script, Subtag, Variant};

/// A walk from a locale to the unknown one, which has no end where parents form a ring.
#[derive(Drop)]
pub struct LocaleFallbackIterator<'a> {
    fallbacker: &'a LocaleFallbacker,
    priority: LocaleFallbackPriority,
    first_script: Option<Script>,
    locale: DataLocale,
    kept_variant: Option<Variant>,
    kept_subdivision: Option<Subtag>,
    kept_region: Option<Region>,
}

impl<'a> LocaleFallbackIterator<'a> {
    /// A walk at a normalised locale, with nothing kept.
    pub(crate) fn new(
        fallbacker: &'a LocaleFallbacker,
        priority: LocaleFallbackPriority,
        locale: DataLocale,
        first_script: Option<Script>,
    ) -> LocaleFallbackIterator<'a>
        ensures { walk_of result ≡ record {
          tables = fallbacker.now;
          priority = priority;
          first = first_script;
          reached = at_rest locale;
        } }
    {
        LocaleFallbackIterator {
            fallbacker,
            priority,
            first_script,
            locale,
            kept_variant: None,
            kept_subdivision: None,
            kept_region: None,
        }
    }

    /// The locale reached.
    pub fn get(&self) -> &DataLocale
        ensures { result.now ≡ (walk_of self.now).reached.locale }
    {
        &self.locale
    }

    /// The locale reached.
    pub fn take(self) -> DataLocale
        ensures { result ≡ (walk_of self.entry).reached.locale }
    {
        self.locale
    }

    /// Goes one step on, by the rules of the priority. At the unknown locale the walk stays.
    pub fn step(&mut self) -> &mut Self
        ensures same_reference { result.ghost_name ≡ self.entry.ghost_name }
        ensures value { walk_of result.now ≡ stepped (walk_of self.old) }
        ensures next { GoesByNext (walk_of self.old) (walk_of result.now) }
        ensures fixed { (walk_of self.old).reached.locale ≡ unknown
            → walk_of result.now ≡ walk_of self.old }
    {
        self.go_on();
        self
    }

    /// The first rule that applies.
    fn rule(&self) -> Rule
        ensures { result ≡ rule (walk_of self.now).priority (walk_of self.now).tables
            (walk_of self.now).reached.locale }
    {
        if self.locale.is_unknown() {
            return Rule::Stay;
        }
        if self.locale.subdivision.is_some() {
            return Rule::DropSubdivision;
        }
        if self.locale.variant.is_some() {
            return Rule::DropVariant;
        }
        match self.priority {
            LocaleFallbackPriority::Language => self.rule_for_language(),
            LocaleFallbackPriority::Script => self.rule_for_script(),
            LocaleFallbackPriority::Region => self.rule_for_region(),
        }
    }

    /// The first of the language priority's own rules that applies.
    fn rule_for_language(&self) -> Rule
        ensures { result ≡ first_of
            (own_rules ByLanguage (walk_of self.now).tables (walk_of self.now).reached.locale) }
    {
        if let Some(rule) = self.rule_to_parent() {
            return rule;
        }
        if self.locale.region.is_some() {
            return Rule::DropRegion;
        }
        Rule::DropLanguage
    }

    /// The first of the script priority's own rules that applies.
    fn rule_for_script(&self) -> Rule
        ensures { result ≡ first_of
            (own_rules ByScript (walk_of self.now).tables (walk_of self.now).reached.locale) }
    {
        if let Some(rule) = self.rule_to_parent() {
            return rule;
        }
        if self.locale.region.is_some() {
            return Rule::KeepRegion;
        }
        if self.has_likely_script() {
            return Rule::DropLikelyScript;
        }
        if self.has_language() {
            return Rule::GoToFirstScript;
        }
        Rule::DropScript
    }

    /// The first of the region priority's own rules that applies.
    fn rule_for_region(&self) -> Rule
        ensures { result ≡ first_of
            (own_rules ByRegion (walk_of self.now).tables (walk_of self.now).reached.locale) }
    {
        if self.has_language() || self.locale.script.is_some() {
            return Rule::DropLanguage;
        }
        Rule::DropLastRegion
    }

    /// The rule that goes to the parent, where there is one.
    fn rule_to_parent(&self) -> Option<Rule>
        ensures { result
            ≡ parent_rule (walk_of self.now).tables (walk_of self.now).reached.locale }
    {
        let child = Triple::of(&self.locale);
        let parent = self.fallbacker.parents().get(child)?;
        Some(Rule::GoToParent(parent))
    }

    /// Whether the language is known.
    fn has_language(&self) -> bool
        ensures { result ≡ has_language (walk_of self.now).reached.locale }
    {
        !self.locale.language.is_unknown()
    }

    /// Whether there are a language and the script that it most likely has.
    fn has_likely_script(&self) -> bool
        ensures { result
            ≡ has_likely_script (walk_of self.now).tables (walk_of self.now).reached.locale }
    {
        let likely = self
            .fallbacker
            .likely_subtags()
            .script(self.locale.language);
        self.has_language() && self.locale.script.is_some() && self.locale.script == likely
    }

    /// Goes on by the first rule that applies.
    fn go_on(&mut self)
        ensures { walk_of self.new ≡ stepped (walk_of self.old) }
    {
        match self.rule() {
            Rule::Stay => {}
            Rule::DropSubdivision => self.kept_subdivision = self.locale.subdivision.take(),
            Rule::DropVariant => self.kept_variant = self.locale.variant.take(),
            Rule::GoToParent(parent) => {
                self.locale.language = parent.language;
                self.locale.script = parent.script;
                self.locale.region = parent.region;
                self.locale.variant = self.kept_variant.take();
            }
            Rule::DropRegion => self.drop_region(),
            Rule::KeepRegion => {
                let region = self.locale.region;
                self.drop_region();
                self.kept_region = region;
            }
            Rule::DropLanguage => self.drop_language(),
            Rule::DropLastRegion => self.locale.region = None,
            Rule::DropLikelyScript => self.drop_likely_script(),
            Rule::GoToFirstScript => self.go_to_first_script(),
            Rule::DropScript => self.locale.script = None,
        }
    }

    /// Drops the region, for the script that the locale then has.
    fn drop_region(&mut self)
        ensures { Goes (λ w. region_dropped w.tables w.first w.reached)
            (walk_of self.old) (walk_of self.new) }
    {
        let likely = self
            .fallbacker
            .likely_subtags()
            .script(self.locale.language);
        self.locale.script = if likely == self.first_script {
            None
        } else {
            self.first_script
        };
        self.locale.region = None;
        self.locale.variant = self.kept_variant.take();
    }

    /// Drops language and script; where there is a region, variant and subdivision come back.
    fn drop_language(&mut self)
        ensures { Goes (λ w. without_language w.reached) (walk_of self.old) (walk_of self.new) }
    {
        self.locale.language = Language::unknown();
        self.locale.script = None;
        if self.locale.region.is_some() {
            self.locale.variant = self.kept_variant.take();
            self.locale.subdivision = self.kept_subdivision.take();
        }
    }

    /// Drops the script; where a region is kept, it comes back with all that is kept.
    fn drop_likely_script(&mut self)
        ensures { Goes (λ w. without_likely_script w.reached)
            (walk_of self.old) (walk_of self.new) }
    {
        self.locale.script = None;
        if self.kept_region.is_some() {
            self.locale.region = self.kept_region.take();
            self.locale.variant = self.kept_variant.take();
            self.locale.subdivision = self.kept_subdivision.take();
        }
    }

    /// Drops the language for the first script; where there is one, the variant comes back.
    fn go_to_first_script(&mut self)
        ensures { Goes (λ w. to_first_script w.first w.reached)
            (walk_of self.old) (walk_of self.new) }
    {
        self.locale.language = Language::unknown();
        self.locale.script = self.first_script;
        if self.first_script.is_some() {
            self.locale.variant = self.kept_variant.take();
        }
    }
}
