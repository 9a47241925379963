ghost use Rattle.std.specs.Prelude.{◌≡◌, ℕ, ◌↔◌, ◌++◌, List, Some, IsOk, IsTrue, IfOk, map};
ghost use Rattle.std.specs.Cmp.Lexicographic.{slice_cmp};
ghost use Rattle.std.specs.List.{concat};
ghost use Rattle.std.specs.Option.{option_copied};
ghost use Rattle.std.specs.Ordering.{nat_cmp};
ghost use Rattle.icu_locale_core.specs.Locale.{marked};

use crate::{Language, LocaleError, Region, Script, Subtag, Variant, parser};
use std::cmp::Ordering;
use std::fmt;
use std::marker::Model;
use writeable_core::{LengthHint, PartsWrite, Sink, SinkError, Writeable};

/// A locale that data is looked up by. Contracts see it as the record `Locale` of its subtags'
/// texts.
///
/// It prints as its language, then `-` and each of script, region and variant that is there,
/// then `-u-sd-` and the subdivision, as `sr-Latn-ME` and `en-US-u-sd-usca` do (UTS 35, Unicode
/// locale identifiers).
#[derive(Clone, Copy, Debug, PartialEq, Eq)]
pub struct DataLocale {
    pub language: Language,
    pub script: Option<Script>,
    pub region: Option<Region>,
    pub variant: Option<Variant>,
    pub subdivision: Option<Subtag>,
}

impl Model for DataLocale {
    ghost use Rattle.icu_locale_core.specs.Locale.{Locale};

    ghost Value = { Locale };

    ghost view = { λ l. record {
      language = l.language;
      script = l.script;
      region = l.region;
      variant = l.variant;
      subdivision = l.subdivision;
    } };

    ghost inverse = { λ l. record {
      language = l.language;
      script = l.script;
      region = l.region;
      variant = l.variant;
      subdivision = l.subdivision;
    } };
}

impl DataLocale {
    ghost use Rattle.icu_locale_core.specs.Locale.{IsLocale, IsPrinted, print, unknown};

    /// Reads the printed text of a locale, and no other text.
    pub fn try_from_str(text: &str) -> Result<DataLocale, LocaleError>
        ensures ok { IfOk result (λ locale. print locale ≡ text.now) }
        ensures shape { IfOk result IsLocale }
        ensures variant { IsOk result ↔ IsPrinted text.now }
    {
        let (language, rest) = parser::split_first(text);
        let language = Language::try_from_str(language)?;
        let (script, rest) = parser::script(rest);
        let (region, rest) = parser::region(rest);
        let (variant, rest) = parser::variant(rest);
        let subdivision = parser::subdivision(rest)?;
        Ok(DataLocale {
            language,
            script,
            region,
            variant,
            subdivision,
        })
    }

    /// Whether it is `und` and nothing else.
    pub fn is_unknown(&self) -> bool
        ensures { IsTrue result ↔ (self.now ≡ unknown) }
    {
        self.language.is_unknown()
            && self.script.is_none()
            && self.region.is_none()
            && self.variant.is_none()
            && self.subdivision.is_none()
    }

    /// Compares the printed text with `other`, byte by byte.
    pub fn strict_cmp(&self, other: &[u8]) -> Ordering
        ensures order { result ≡ slice_cmp nat_cmp (print self.now) other.now }
        ensures shape { IsLocale self.now }
    {
        let mut rest = other;
        for piece in self.pieces() {
            let (front, behind) = rest.split_at(piece.len().min(rest.len()));
            match piece.as_bytes().cmp(front) {
                Ordering::Equal => rest = behind,
                order => return order,
            }
        }
        if rest.is_empty() {
            Ordering::Equal
        } else {
            Ordering::Less
        }
    }

    /// The printed text in pieces, some of them empty.
    fn pieces(&self) -> [&str; 9]
        ensures whole { concat (map (λ piece. piece.now) result) ≡ print self.now }
        ensures shape { IsLocale self.now }
    {
        let script = self.script.as_ref().map(|script| script.as_str());
        let region = self.region.as_ref().map(|region| region.as_str());
        let variant = self.variant.as_ref().map(|variant| variant.as_str());
        let subdivision = self
            .subdivision
            .as_ref()
            .map(|subdivision| subdivision.as_str());
        let (script_mark, script) = behind_mark("-", script);
        let (region_mark, region) = behind_mark("-", region);
        let (variant_mark, variant) = behind_mark("-", variant);
        let (subdivision_mark, subdivision) = behind_mark("-u-sd-", subdivision);
        [
            self.language.as_str(),
            script_mark,
            script,
            region_mark,
            region,
            variant_mark,
            variant,
            subdivision_mark,
            subdivision,
        ]
    }
}

impl Default for DataLocale {
    ghost use Rattle.icu_locale_core.specs.Locale.{unknown};

    ghost is_default = { λ l. l ≡ unknown };

    fn default() -> Self {
        DataLocale {
            language: Language::unknown(),
            script: None,
            region: None,
            variant: None,
            subdivision: None,
        }
    }
}

impl fmt::Display for DataLocale {
    ghost use Rattle.icu_locale_core.specs.Locale.{print};

    ghost output = { λ l. Some (print l) };

    fn fmt<W: fmt::Write>(&self, f: &mut fmt::Formatter<W>) -> fmt::Result {
        for piece in self.pieces() {
            f.write_str(piece)?;
        }
        Ok(())
    }
}

impl Writeable for DataLocale {
    ghost use Rattle.std.specs.Prelude.{false};
    ghost use Rattle.icu_locale_core.specs.Locale.{print};
    ghost use Rattle.writeable_core.specs.Hint.{undefined, byte_length};
    ghost use Rattle.writeable_core.specs.HintLaws.{Hinted-undefined};
    ghost use Rattle.writeable_core.specs.Marks.{plain};
    ghost use Rattle.writeable_core.specs.MarksLaws.{characters-plain, Nests-plain};

    ghost text = { print };

    ghost marked = { λ l. plain (print l) };

    ghost hint = { λ _. undefined };

    ghost lends = { λ _. false };

    fn write_to<S: Sink>(&self, sink: &mut S) -> Result<(), SinkError> {
        for piece in self.pieces() {
            sink.push_str(piece)?;
        }
        Ok(())
    }

    fn write_to_parts<P: PartsWrite>(&self, sink: &mut P) -> Result<(), SinkError> {
        self.write_to(sink)
    }

    fn writeable_length_hint(&self) -> LengthHint {
        LengthHint::undefined()
    }

    fn writeable_borrow(&self) -> Option<&str> {
        None
    }

    ghost marked_text = { λ l. characters-plain (print l) };

    ghost marked_nests = { λ l. Nests-plain (print l) };

    ghost text_hinted = { λ l. Hinted-undefined (byte_length (print l)) };
}

/// The mark and the subtag behind it, or nothing where there is no subtag.
fn behind_mark<'a>(mark: &'a str, subtag: Option<&'a str>) -> (&'a str, &'a str)
    ensures { result.0.now ++ result.1.now ≡ marked mark.now (option_copied subtag.entry) }
{
    match subtag {
        Some(subtag) => (mark, subtag),
        None => ("", ""),
    }
}
