ghost use Rattle.std.specs.Prelude.{◌≡◌, IfErr, IfOk};
ghost use Rattle.icu_locale_core.specs.Locale.{unknown};
ghost use Rattle.icu_locale_fallback.specs.Faults.{AreTablesOf, IsFirstFault};
ghost use Rattle.icu_locale_fallback.specs.Steps.{region_at};
ghost use Rattle.icu_locale_fallback.specs.Tables.{no_tables};
ghost use Rattle.icu_locale_fallback.specs.Views.{begun, config_of, tables_of, viewed, walk_of};
ghost use Rattle.icu_locale_fallback.specs.Walk.{EndsOrRepeats, RevisitsOnly};

use crate::normal::normalized;
use crate::provider::{LikelySubtagsForLanguage, Parents};
use crate::{FallbackRows, LocaleFallbackConfig, LocaleFallbackIterator, TableError};
use icu_locale_core::DataLocale;
use std::alloc::Global;
use std::marker::Model;

/// The tables that walks go by. Contracts see them as finite maps.
#[derive(Drop)]
pub struct LocaleFallbacker {
    likely_subtags: LikelySubtagsForLanguage,
    parents: Parents,
}

impl Model for LocaleFallbacker {
    ghost use Rattle.icu_locale_fallback.specs.Tables.{Tables, tables_code};

    ghost Value = { Tables };

    ghost coded = { tables_code };

    ghost view = { λ a. record { likely = a.likely_subtags; parents = a.parents } };
}

impl LocaleFallbacker {
    /// A fallbacker with empty tables.
    pub fn new_without_data(alloc: Global) -> LocaleFallbacker
        ensures { result ≡ no_tables }
    {
        LocaleFallbacker {
            likely_subtags: LikelySubtagsForLanguage::new(alloc),
            parents: Parents::new(alloc),
        }
    }

    /// The fallbacker of these rows. The error names the first faulty row in the order of the
    /// tables.
    pub fn try_new(alloc: Global, rows: &FallbackRows) -> Result<LocaleFallbacker, TableError>
        ensures ok { IfOk result (AreTablesOf rows.now) }
        ensures err { IfErr result (IsFirstFault rows.now) }
    {
        let likely_subtags = LikelySubtagsForLanguage::try_new(alloc, rows)?;
        let parents = Parents::try_new(alloc, rows)?;
        Ok(LocaleFallbacker {
            likely_subtags,
            parents,
        })
    }

    /// A view of the tables.
    pub fn as_borrowed(&self) -> LocaleFallbackerBorrowed<'_>
        ensures { viewed result ≡ self.now }
    {
        LocaleFallbackerBorrowed { fallbacker: self }
    }

    /// A view of the tables with a configuration.
    pub fn for_config(&self, config: LocaleFallbackConfig) -> LocaleFallbackerWithConfig<'_>
        ensures tables { tables_of result ≡ self.now }
        ensures config { config_of result ≡ config }
    {
        LocaleFallbackerWithConfig {
            fallbacker: self,
            config,
        }
    }

    /// The likely subtags.
    pub fn likely_subtags(&self) -> &LikelySubtagsForLanguage
        ensures { result.now ≡ self.now.likely }
    {
        &self.likely_subtags
    }

    /// The parents.
    pub fn parents(&self) -> &Parents
        ensures { result.now ≡ self.now.parents }
    {
        &self.parents
    }
}

/// A view of the tables of a fallbacker.
#[derive(Clone, Copy)]
pub struct LocaleFallbackerBorrowed<'a> {
    fallbacker: &'a LocaleFallbacker,
}

impl<'a> LocaleFallbackerBorrowed<'a> {
    /// A view of the tables with a configuration.
    pub fn for_config(self, config: LocaleFallbackConfig) -> LocaleFallbackerWithConfig<'a>
        ensures tables { tables_of result ≡ viewed self.entry }
        ensures config { config_of result ≡ config }
    {
        LocaleFallbackerWithConfig {
            fallbacker: self.fallbacker,
            config,
        }
    }
}

/// A view of the tables of a fallbacker, with a configuration.
#[derive(Clone, Copy)]
pub struct LocaleFallbackerWithConfig<'a> {
    fallbacker: &'a LocaleFallbacker,
    config: LocaleFallbackConfig,
}

impl<'a> LocaleFallbackerWithConfig<'a> {
    /// The configuration.
    pub fn config(&self) -> LocaleFallbackConfig
        ensures { result ≡ config_of self.now }
    {
        self.config
    }

    /// The walk from a locale, which begins at its normal form.
    ///
    /// In the language priority it ends or comes round after at most 4 p + 5 steps, where p is
    /// the number of parent entries, and in the region priority it ends after six.
    pub fn fallback_for(&self, locale: DataLocale) -> LocaleFallbackIterator<'a>
        ensures value { walk_of result
            ≡ begun (tables_of self.now) (config_of self.now).priority locale }
        ensures ends { EndsOrRepeats (tables_of self.now) locale }
        ensures revisits { RevisitsOnly (tables_of self.now) locale }
        ensures region_ends { region_at (tables_of self.now) locale 6 ≡ unknown }
    {
        let likely = self.fallbacker.likely_subtags();
        let priority = self.config.priority;
        let (normal, first_script) = normalized(likely, priority, &locale);
        LocaleFallbackIterator::new(self.fallbacker, priority, normal, first_script)
    }
}
