ghost use Rattle.std.specs.Prelude.{◌≡◌, ◌≢◌, ◌⊎◌, IfOk, IfErr, IsErrOf, OnErr, OnOk, true};
ghost use Rattle.localise.specs.Chosen.{Answer};
ghost use Rattle.localise.specs.Given.{text_given};
ghost use Rattle.localise.specs.Render.{HasAnswer, IsRefused, IsRendered, TookNoMore, told_of};
ghost use Rattle.writeable_core.specs.Sink.{Rose, TookPrefix};

use crate::error::in_request;
use crate::laws::{bundles_have_one_meaning, walk_has_one_outcome};
use crate::{Found, Localiser, RenderError};
use icu_locale_core::DataLocale;
use localise_texts::{BundleText, PatternTexts, Request};
use std::alloc::Global;
use wanted_locale::Tables;
use wanted_locale::laws::texts_and_locales;
use writeable_core::{LengthHint, Sink, SinkError, Writeable};

/// What is told of a text beside it.
#[derive(Clone, Copy, Debug, PartialEq, Eq)]
pub struct Rendered {
    /// The bundle that translates, counted from 0; none where the words are the request's own.
    pub bundle: Option<usize>,
    /// The locale that translates, or the unknown locale.
    pub locale: DataLocale,
    /// The place of that locale in the walk, counted from 1.
    pub visited: u128,
    /// What is known of the text's length before it is written.
    pub hint: LengthHint,
}

/// Writes the text of one request to a sink, without a line feed.
pub fn render<S: Sink>(
    alloc: Global,
    tables: &Tables,
    bundles: &[BundleText],
    root: &PatternTexts,
    request: &Request,
    sink: &mut S,
) -> Result<Rendered, RenderError>
    ensures ok { IfOk result
        (IsRendered tables.now bundles.now root.now request.now S.took sink.old sink.new) }
    ensures err { IfErr result (λ e. e ≢ RenderError.Sink → e ≢ RenderError.NoMemory
        → IsRefused tables.now bundles.now root.now request.now e) }
    ensures unchanged { IfErr result (λ e. e ≢ RenderError.Sink → e ≢ RenderError.NoMemory
        → sink.new ≡ sink.old) }
    ensures cause { IsErrOf result RenderError.Sink
        → Rose (S.faults sink.old) (S.faults sink.new) }
    ensures no_memory { IsErrOf result RenderError.NoMemory
        → (sink.new ≡ sink.old) ⊎ (S.takes_memory sink.old ≡ true) }
    ensures appended { OnErr result
        (TookNoMore tables.now bundles.now root.now request.now S.took sink.old sink.new) }

    // Where bundles and root are accepted and the request has an answer.
    ensures complete { (answer : Answer)
        → HasAnswer tables.now bundles.now root.now request.now answer
        → (Rose (S.faults sink.old) (S.faults sink.new) → ⊥)
        → IfErr result (λ e. e ≡ RenderError.NoMemory) }
{
    walk_has_one_outcome();
    bundles_have_one_meaning();
    texts_and_locales();
    let localiser = match Localiser::try_new(alloc, tables, bundles, root) {
        Ok(localiser) => localiser,
        Err(error) => return Err(error),
    };
    let wanted = match Localiser::wanted(alloc, tables, request.tag.as_str()) {
        Ok(wanted) => wanted,
        Err(cause) => return Err(in_request(cause)),
    };
    match localiser.find(wanted, request) {
        Ok(found) => write_found(&found, sink),
        Err(_) => Err(RenderError::ChainLoops),
    }
}

/// Writes what was found, and tells of it.
fn write_found<S: Sink>(found: &Found<'_>, sink: &mut S) -> Result<Rendered, RenderError>
    ensures told { IfOk result (λ rendered. rendered ≡ told_of found.now) }
    ensures ok { OnOk result (S.took sink.old (text_given found.now) sink.new) }
    ensures front { OnErr result (TookPrefix S.took sink.old (text_given found.now) sink.new) }
    ensures err { IfErr result (λ e. (e ≡ RenderError.Sink) ⊎ (e ≡ RenderError.NoMemory)) }
    ensures cause { IsErrOf result RenderError.Sink
        → Rose (S.faults sink.old) (S.faults sink.new) }
    ensures no_memory { IsErrOf result RenderError.NoMemory → S.takes_memory sink.old ≡ true }
{
    match found.write_to(sink) {
        Ok(()) => Ok(Rendered {
            bundle: found.bundle(),
            locale: found.locale(),
            visited: found.visited(),
            hint: found.writeable_length_hint(),
        }),
        Err(SinkError::Fault) => Err(RenderError::Sink),
        Err(SinkError::NoMemory) => Err(RenderError::NoMemory),
    }
}
