ghost use Rattle.std.specs.Prelude.{◌∷◌, OnErr, OnOk};
ghost use Rattle.std.specs.Str.{byte};
ghost use Rattle.icu_locale_core.specs.Locale.{print};
ghost use Rattle.writeable_core.specs.Sink.{HasCause, TookPrefix};
ghost use Rattle.fallback_chain.specs.Chain.{chain_text};

use crate::walk::{advance, walk_from};
use icu_locale_core::DataLocale;
use icu_locale_fallback::LocaleFallbacker;
use writeable_core::{Sink, SinkError, Writeable};

/// Writes the locales of the first steps of a walk, with a space between two.
///
/// The first one is the locale's normal form, so one locale more is written than there are steps.
pub fn write_chain<S: Sink>(
    fallbacker: &LocaleFallbacker,
    locale: DataLocale,
    steps: u128,
    sink: &mut S,
) -> Result<(), SinkError>
    ensures ok { OnOk result
        (S.took sink.old (chain_text fallbacker.now locale steps) sink.new) }
    ensures err { OnErr result
        (TookPrefix S.took sink.old (chain_text fallbacker.now locale steps) sink.new) }
    ensures cause { HasCause (S.faults sink.old) (S.faults sink.new)
        (S.takes_memory sink.old) result }
{
    let mut walk = walk_from(fallbacker, locale);
    walk.get().write_to(sink)?;
    for _step in 0..steps {
        advance(&mut walk);
        write_behind_space(walk.get(), sink)?;
    }
    Ok(())
}

/// Writes a space, and behind it a locale.
fn write_behind_space<S: Sink>(locale: &DataLocale, sink: &mut S) -> Result<(), SinkError>
    ensures ok { OnOk result (S.took sink.old (byte " " ∷ print locale.now) sink.new) }
    ensures err { OnErr result (TookPrefix S.took sink.old (byte " " ∷ print locale.now) sink.new) }
    ensures cause { HasCause (S.faults sink.old) (S.faults sink.new)
        (S.takes_memory sink.old) result }
{
    sink.push_char(' ')?;
    locale.write_to(sink)?;
    Ok(())
}
