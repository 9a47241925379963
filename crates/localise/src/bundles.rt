ghost use Rattle.std.specs.Prelude.{◌≡◌, ◌≢◌, ◌<◌, [], ◌∷◌, ◌++◌, length};
ghost use Rattle.std.specs.Prelude.{All, Any, Some, IfOk, IfErr, slice_get};
ghost use Rattle.localise.specs.Chosen.{translation};
ghost use Rattle.localise.specs.Places.{ArePlaces};
ghost use Rattle.localise.specs.Read.{meaning_of, meanings_of};

use crate::RenderError;
use crate::bundle::{Bundle, Translated};
use crate::key::Key;
use icu_locale_core::DataLocale;
use localise_texts::Request;
use std::alloc::Global;
use std::collections::BTreeMap;

/// Bundles in their order, of which no two are for one locale.
#[derive(Drop)]
pub(crate) struct Bundles {
    list: Vec<Bundle>,
    places: BTreeMap<Key, usize>,
    ghost placed: { ArePlaces (meanings_of list.items) places },
}

impl Bundles {
    /// No bundle.
    pub fn new(alloc: Global) -> Bundles
        ensures { result.list.items ≡ [] }
    {
        Bundles {
            list: Vec::new(alloc),
            places: BTreeMap::new(alloc),
        }
    }

    /// How many there are.
    pub fn len(&self) -> usize
        ensures { result ≡ length self.now.list.items }
    {
        self.list.len()
    }

    /// The bundle with this number.
    pub fn get(&self, number: usize) -> &Bundle
        requires { number < length self.now.list.items }
        ensures { slice_get (meanings_of self.now.list.items) number
            ≡ Some (meaning_of result.now) }
    {
        &self.list[number]
    }

    /// These bundles and behind them one more, unless it is for a locale of these.
    pub fn with(self, bundle: Bundle) -> Result<Bundles, RenderError>
        ensures ok { IfOk result (λ b. meanings_of b.list.items
            ≡ meanings_of self.list.items ++ meaning_of bundle ∷ []) }
        ensures apart { IfOk result (λ _.
            All (λ other. other.locale ≢ bundle.locale) (meanings_of self.list.items)) }
        ensures err { IfErr result (λ e. e ≢ RenderError.NoMemory →
            (e ≡ RenderError.DuplicateLocale (length self.list.items))
            × Any (λ other. other.locale ≡ bundle.locale) (meanings_of self.list.items)) }
    {
        let number = self.len();
        let Bundles {
            mut list,
            mut places,
        } = self;
        match places.insert(Key::of(&bundle.locale), number) {
            Ok(None) => {}
            Ok(Some(_)) => return Err(RenderError::DuplicateLocale(number)),
            Err(_) => return Err(RenderError::NoMemory),
        }
        match list.push(bundle) {
            Ok(()) => Ok(Bundles { list, places }),
            Err(_) => Err(RenderError::NoMemory),
        }
    }

    /// The translation of a request in a locale.
    pub fn translation<'a>(
        &'a self,
        request: &Request,
        locale: &DataLocale,
    ) -> Option<Translated<'a>>
        ensures { result
            ≡ translation (meanings_of self.now.list.items) request.now locale.now }
    {
        let number = *self.places.get(&Key::of(locale))?;
        self.get(number).translation(number, request)
    }
}
