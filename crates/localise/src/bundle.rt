ghost use Rattle.std.specs.Prelude.{◌≡◌, ◌≢◌, List, IfOk, IfErr};
ghost use Rattle.localise.specs.Bundles.{IsFaultBehind};
ghost use Rattle.localise.specs.Chosen.{form_for, numbered};
ghost use Rattle.localise.specs.Kept.{IsRead};
ghost use Rattle.localise.specs.Meaning.{Meaning};
ghost use Rattle.localise.specs.Read.{meaning_of};
ghost use Rattle.wanted_locale.specs.Normalised.{IsLocaleOf};
ghost use Rattle.wanted_locale.specs.Wanted.{IsTagCause};

use crate::RenderError;
use crate::error::{in_catalog, in_list, in_tag};
use crate::lists::patterns_of;
use gettext::{Catalog, Form, one_meaning};
use icu_list::provider::ListFormatterPatterns;
use icu_locale_core::DataLocale;
use icu_locale_fallback::{LocaleFallbackConfig, LocaleFallbackPriority};
use localise_texts::{BundleText, Request};
use std::alloc::Global;
use std::marker::Model;
use wanted_locale::{Tables, TagCause, wanted};

/// A bundle that is read.
#[derive(Drop)]
pub(crate) struct Bundle {
    pub locale: DataLocale,
    pub catalog: Catalog,
    pub patterns: ListFormatterPatterns,
}

/// A form that a bundle gives a request. Contracts see it as the translation that it is.
#[derive(Drop)]
pub(crate) struct Translated<'a> {
    pub bundle: usize,
    pub form: Form<'a>,
    pub patterns: &'a ListFormatterPatterns,
}

impl<'a> Model for Translated<'a> {
    ghost use Rattle.std.specs.Str.{chars};
    ghost use Rattle.localise.specs.Chosen.{Translation};

    ghost Value = { Translation };

    ghost view = { λ t. record {
      bundle = t.bundle;
      number = t.form.number;
      text = chars t.form.text.now;
      patterns = t.patterns.now;
    } };
}

impl Bundle {
    /// Reads the bundle with this number: its tag, its catalog, its list, in this order.
    pub fn read(
        alloc: Global,
        tables: &Tables,
        number: usize,
        text: &BundleText,
    ) -> Result<Bundle, RenderError>
        ensures ok { IfOk result (λ b. IsRead tables.now text.now (meaning_of b)) }
        ensures err { IfErr result (λ e. e ≢ RenderError.NoMemory →
            (earlier : List Meaning) → IsFaultBehind tables.now earlier number text.now e) }
    {
        one_meaning();
        let locale = match locale_of(alloc, tables, text.tag.as_str()) {
            Ok(locale) => locale,
            Err(cause) => return Err(in_tag(number, cause)),
        };
        let catalog = match Catalog::parse_bytes(alloc, text.mo.as_slice()) {
            Ok(catalog) => catalog,
            Err(error) => return Err(in_catalog(number, error)),
        };
        let patterns = match patterns_of(alloc, &text.list) {
            Ok(patterns) => patterns,
            Err(error) => return Err(in_list(number, error)),
        };
        Ok(Bundle {
            locale,
            catalog,
            patterns,
        })
    }

    /// The form that the bundle, which has this number, gives a request.
    pub fn translation<'a>(&'a self, number: usize, request: &Request) -> Option<Translated<'a>>
        ensures { result ≡ numbered number (meaning_of self.now)
            (form_for (meaning_of self.now) request.now) }
    {
        let context = request.context_text();
        let singular = request.singular.as_str();
        let form = self.catalog.find(context, singular, request.count)?;
        Some(Translated {
            bundle: number,
            form,
            patterns: &self.patterns,
        })
    }
}

/// The locale of a bundle with this tag: the one that the tag asks for, normalised.
fn locale_of(alloc: Global, tables: &Tables, tag: &str) -> Result<DataLocale, TagCause>
    ensures ok { IfOk result (IsLocaleOf tables.now tag.now) }
    ensures err { IfErr result (λ cause. cause ≢ TagCause.NoMemory
        → IsTagCause tables.now.registry tag.now cause) }
{
    let wanted = wanted(alloc, tables, tag)?;
    let config = LocaleFallbackConfig {
        priority: LocaleFallbackPriority::Language,
    };
    Ok(
        tables
            .fallbacker
            .for_config(config)
            .fallback_for(wanted)
            .take(),
    )
}
