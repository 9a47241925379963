ghost use Rattle.std.specs.Prelude.{◌≡◌, ◌≢◌, ◌≤◌, ◌<◌, ◌+◌, ◌*◌, ◌^◌, length};
ghost use Rattle.std.specs.Prelude.{IfOk, IfErr, IsSomeAnd, slice_get};
ghost use Rattle.std.specs.FinMap as map;
ghost use Rattle.gettext.specs.Table.{messages_of};
ghost use Rattle.localise.specs.Bundles.{IsBundleFault, IsRefusal};
ghost use Rattle.localise.specs.Given.{IsFound, IsNotFound};
ghost use Rattle.localise.specs.Kept.{AreKept, Localises};
ghost use Rattle.localise.specs.Read.{meanings_of};
ghost use Rattle.localise.specs.Views.{meanings, root_of, tables_of};
ghost use Rattle.wanted_locale.specs.Wanted.{IsTagCause, IsWantedOf};

use crate::bundle::Bundle;
use crate::bundles::Bundles;
use crate::error::in_root;
use crate::lists::patterns_of;
use crate::walk::walk_to_stop;
use crate::{ChainLoops, Found, RenderError};
use gettext::Catalog;
use icu_list::provider::ListFormatterPatterns;
use icu_locale_core::DataLocale;
use localise_texts::{BundleText, PatternTexts, Request};
use std::alloc::Global;
use wanted_locale::{Tables, TagCause, wanted};

/// Bundles that are read, ready for requests.
#[derive(Drop)]
pub struct Localiser<'a> {
    tables: &'a Tables,
    bundles: Bundles,
    root: ListFormatterPatterns,
}

impl<'a> Localiser<'a> {
    /// The locale that a tag asks for, not yet normalised.
    pub fn wanted(alloc: Global, tables: &Tables, tag: &str) -> Result<DataLocale, TagCause>
        ensures ok { IfOk result (IsWantedOf tables.now.registry tag.now) }
        ensures err { IfErr result (λ cause. cause ≢ TagCause.NoMemory
            → IsTagCause tables.now.registry tag.now cause) }
    {
        wanted(alloc, tables, tag)
    }

    /// Reads the bundles in their order, and the patterns that requests' own words are for.
    pub fn try_new(
        alloc: Global,
        tables: &'a Tables,
        bundles: &[BundleText],
        root: &PatternTexts,
    ) -> Result<Localiser<'a>, RenderError>
        ensures ok { IfOk result (λ localiser.
            Localises tables.now bundles.now root.now (meanings localiser) (root_of localiser)) }
        ensures tables { IfOk result (λ localiser. tables_of localiser ≡ tables.now) }
        ensures kept { IfOk result (λ localiser.
            AreKept tables.now bundles.now (meanings localiser)) }
        ensures count { IfOk result (λ localiser.
            length (meanings localiser) ≡ length bundles.now) }
        ensures err { IfErr result (λ e. e ≢ RenderError.NoMemory
            → IsRefusal tables.now bundles.now root.now e) }
    {
        let bundles = read_all(alloc, tables, bundles)?;
        match patterns_of(alloc, root) {
            Ok(root) => Ok(Localiser {
                tables,
                bundles,
                root,
            }),
            Err(error) => Err(in_root(error)),
        }
    }

    /// What the request gets for a wanted locale. It takes no memory.
    pub fn find<'b>(
        &'b self,
        wanted: DataLocale,
        request: &'b Request,
    ) -> Result<Found<'b>, ChainLoops>
        ensures ok { IfOk result (IsFound (tables_of self.now).fallbacker (meanings self.now)
            (root_of self.now) wanted request.now) }
        ensures err { IfErr result (λ _. IsNotFound (tables_of self.now).fallbacker
            (meanings self.now) wanted request.now) }
        ensures bound { IfOk result (λ found. found.answer.visited
            ≤ 4 * map.len (tables_of self.now).fallbacker.parents + 6) }
        ensures small { IfOk result (λ found. found.answer.visited ≤ 2 ^ 67) }
    {
        match walk_to_stop(&self.tables.fallbacker, &self.bundles, wanted, request) {
            Some(stop) => Ok(Found::of_stop(stop, &self.root, request)),
            None => Err(ChainLoops),
        }
    }

    /// How many bundles there are.
    pub fn bundle_count(&self) -> usize
        ensures { result ≡ length (meanings self.now) }
    {
        self.bundles.len()
    }

    /// The catalog of the bundle with this number, counted from 0.
    pub fn catalog(&self, bundle: usize) -> &Catalog
        requires { bundle < length (meanings self.now) }
        ensures { IsSomeAnd (slice_get (meanings self.now) bundle)
            (λ b. b.messages ≡ messages_of result.now.entries) }
    {
        &self.bundles.get(bundle).catalog
    }
}

/// Reads bundles in their order, up to the first that is faulty.
fn read_all(alloc: Global, tables: &Tables, texts: &[BundleText]) -> Result<Bundles, RenderError>
    ensures ok { IfOk result (λ read.
        AreKept tables.now texts.now (meanings_of read.list.items)) }
    ensures err { IfErr result (λ e. e ≢ RenderError.NoMemory
        → IsBundleFault tables.now texts.now e) }
{
    let mut read = Bundles::new(alloc);
    for text in texts {
        let bundle = Bundle::read(alloc, tables, read.len(), text)?;
        read = read.with(bundle)?;
    }
    Ok(read)
}
