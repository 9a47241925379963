//! Laws of data locales, for contracts that cite them. Each function does nothing: its contract
//! is the law.
ghost use Rattle.std.specs.Prelude.{◌≡◌, ◌↔◌, IsTrue};
ghost use Rattle.icu_locale_core.specs.Locale.{Locale, PrintDetermines};

use crate::DataLocale;

/// Locales that print the same text are the same locale.
pub fn print_determines()
    ensures { PrintDetermines }
{}

/// The test `==` on two locales holds exactly where they are the same locale.
pub fn equality_decides()
    ensures { (one other : Locale) →
        IsTrue (⟦<DataLocale as PartialEq>⟧.eq one other) ↔ (one ≡ other) }
{}
