//! The locale of each request's tag.

ghost use Rattle.std.specs.Prelude.{◌≡◌, ◌≢◌, ◌<◌, List, Some, IfErr, IfOk, IfSome, length};
ghost use Rattle.std.specs.Prelude.{slice_get, vec_len};
ghost use Rattle.localise_texts.specs.declared.request.Request.{Request};
ghost use Rattle.wanted_locale.specs.Wanted.{IsWantedOf};
ghost use Rattle.wanted_locale.specs.declared.tables.Tables.{Tables};
ghost use Rattle.localise_run.specs.Known.{AreKnownTags, IsKnown};
ghost use Rattle.localise_run.specs.declared.tags.TheConstants.{PLACES};
ghost use Rattle.localise_run.specs.Wanting.{HasTagCause, Wants};

use crate::RequestCause;
use icu_locale_core::DataLocale;
use localise::Request;
use std::alloc::{AllocError, Global};
use wanted_locale::{Tables, TagCause, wanted};

/// How many places there are for tags.
const PLACES: usize = 256;

/// The number of a request whose tag was read, and the locale that it asks for.
#[derive(Clone, Copy)]
pub(crate) struct Known {
    request: usize,
    locale: DataLocale,
}

/// Tags that were read, which aren't read again. Each has a place by its bytes, which it loses to
/// the next tag that has the same; so the last tag is always known.
#[derive(Drop)]
pub(crate) struct KnownTags {
    places: Vec<Option<Known>>,
    ghost full: { vec_len places ≡ PLACES },
}

impl KnownTags {
    /// No tag is known.
    pub(crate) fn new(alloc: Global) -> Result<KnownTags, AllocError>
        ensures { IfOk result (λ tags. (T : Tables) (requests : List Request)
            → AreKnownTags T requests tags.places.items) }
    {
        Ok(KnownTags {
            places: vec![in alloc; None; PLACES]?,
        })
    }

    /// The locale that the tag of the request with this number asks for.
    pub(crate) fn locale_of(
        &mut self,
        alloc: Global,
        tables: &Tables,
        requests: &[Request],
        number: usize,
    ) -> Result<DataLocale, TagCause>
        requires within { number < length requests.now }
        requires known { AreKnownTags tables.now requests.now self.old.places.items }
        ensures ok { (q : Request) → slice_get requests.now number ≡ Some q
            → IfOk result (Wants tables.now q) }
        ensures err { (q : Request) → slice_get requests.now number ≡ Some q
            → IfErr result (λ cause. cause ≢ TagCause.NoMemory
            → HasTagCause tables.now q (RequestCause.Tag cause)) }
        ensures kept { AreKnownTags tables.now requests.now self.new.places.items }
    {
        let request = &requests[number];
        let tag = request.tag.as_str();
        let place = place_of(tag);
        if let Some(locale) = self.known_at(tables, requests, place, tag) {
            return Ok(locale);
        }
        match wanted(alloc, tables, tag) {
            Ok(locale) => {
                let known = Known {
                    request: number,
                    locale,
                };
                self.places[place] = Some(known);
                Ok(locale)
            }
            Err(cause) => Err(cause),
        }
    }

    /// The locale of a tag, where it is the one that its place has.
    fn known_at(
        &self,
        tables: &Tables,
        requests: &[Request],
        place: usize,
        tag: &str,
    ) -> Option<DataLocale>
        requires within { place < PLACES }
        requires known { AreKnownTags tables.now requests.now self.now.places.items }
        ensures { IfSome result (IsWantedOf tables.now.registry tag.now) }
    {
        match self.places[place] {
            Some(known) => known.locale_for(tables, requests, tag),
            None => None,
        }
    }
}

impl Known {
    /// The locale, where it is this tag's.
    fn locale_for(self, tables: &Tables, requests: &[Request], tag: &str) -> Option<DataLocale>
        requires { IsKnown tables.now requests.now self }
        ensures { IfSome result (IsWantedOf tables.now.registry tag.now) }
    {
        let _tables = tables;
        let request = &requests[self.request];
        if request.tag.as_str() == tag {
            Some(self.locale)
        } else {
            None
        }
    }
}

/// The place of a tag.
fn place_of(tag: &str) -> usize
    ensures { result < PLACES }
{
    let mut sum: u8 = 0;
    for byte in tag.bytes() {
        sum = sum.wrapping_mul(33).wrapping_add(byte);
    }
    sum as usize
}
