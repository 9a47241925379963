ghost use Rattle.std.specs.Prelude.{◌≡◌, ◌<◌, ◌^◌, false, OnOk, OnErr, IsOk};
ghost use Rattle.std.specs.Str.{chars};
ghost use Rattle.gettext.specs.Messages.{own_words};
ghost use Rattle.localise.specs.Given.{given, hint_given, text_given};
ghost use Rattle.localise.specs.GivenLaws.{hint_given_holds};
ghost use Rattle.localise.specs.Stops.{answer_at};
ghost use Rattle.writeable_core.specs.Marks.{plain};
ghost use Rattle.writeable_core.specs.MarksLaws.{characters-plain, Nests-plain};
ghost use Rattle.writeable_core.specs.Sink.{HasCause, Rose, TookPrefix};

use crate::walk::Stop;
use icu_list::ListFormatter;
use icu_list::provider::ListFormatterPatterns;
use icu_locale_core::DataLocale;
use localise_texts::Request;
use std::marker::Model;
use writeable_core::{LengthHint, OwnedText, PartsWrite, Sink, SinkError, Text, Writeable};
use writeable_replace::Replace;

/// What was found for a request. It borrows its words from a catalog or from the request, and
/// writes them with each placeholder replaced by the joined items.
#[derive(Drop)]
pub struct Found<'a> {
    words: &'a str,
    patterns: &'a ListFormatterPatterns,
    bundle: Option<usize>,
    form_number: Option<usize>,
    locale: DataLocale,
    visited: u128,
    placeholder: &'a str,
    items: &'a [OwnedText],
}

impl<'a> Model for Found<'a> {
    ghost use Rattle.std.specs.Str.{chars};
    ghost use Rattle.localise.specs.Given.{Given};

    ghost Value = { Given };

    ghost view = { λ f. record {
      answer = record {
        words = chars f.words.now;
        patterns = f.patterns.now;
        bundle = f.bundle;
        form_number = f.form_number;
        locale = f.locale;
        visited = f.visited;
      };
      placeholder = chars f.placeholder.now;
      items = f.items.now;
    } };
}

impl Found<'_> {
    /// The bundle that translates, counted from 0; none where the words are the request's own.
    pub fn bundle(&self) -> Option<usize>
        ensures { result ≡ self.now.answer.bundle }
    {
        self.bundle
    }

    /// The number of the form, counted from 0; none where the words are the request's own.
    pub fn form_number(&self) -> Option<usize>
        ensures { result ≡ self.now.answer.form_number }
    {
        self.form_number
    }

    /// The locale that translates, or the unknown locale.
    pub fn locale(&self) -> DataLocale
        ensures { result ≡ self.now.answer.locale }
    {
        self.locale
    }

    /// The place of that locale in the walk, counted from 1.
    pub fn visited(&self) -> u128
        ensures { result ≡ self.now.answer.visited }
    {
        self.visited
    }
}

impl<'a> Found<'a> {
    /// What is found where a walk stops: its translation, or the request's own words, which the
    /// root's patterns are for.
    pub(crate) fn of_stop(
        stop: Stop<'a>,
        root: &'a ListFormatterPatterns,
        request: &'a Request,
    ) -> Found<'a>
        requires { stop.steps < 2 ^ 67 }
        ensures { result
            ≡ given request.now (answer_at root.now request.now
            stop.entry.locale stop.entry.steps stop.entry.translation) }
    {
        let Stop {
            steps,
            locale,
            translation,
        } = stop;
        match translation {
            Some(translated) => Found {
                words: translated.form.text,
                patterns: translated.patterns,
                bundle: Some(translated.bundle),
                form_number: Some(translated.form.number),
                locale,
                visited: steps + 1,
                placeholder: request.placeholder.as_str(),
                items: request.items.as_slice(),
            },
            None => Found {
                words: own_words(request),
                patterns: root,
                bundle: None,
                form_number: None,
                locale,
                visited: steps + 1,
                placeholder: request.placeholder.as_str(),
                items: request.items.as_slice(),
            },
        }
    }
}

/// The request's own words: the singular for 1, else the plural.
fn own_words(request: &Request) -> &str
    ensures { chars result.now
        ≡ own_words request.now.count request.now.singular request.now.plural }
{
    if request.count == 1 {
        request.singular.as_str()
    } else {
        request.plural.as_str()
    }
}

impl Writeable for Found<'_> {
    ghost text = { text_given };

    ghost marked = { λ found. plain (text_given found) };

    ghost hint = { hint_given };

    ghost lends = { λ _. false };

    /// Writes the text as it comes. It takes no memory.
    fn write_to<S: Sink>(&self, sink: &mut S) -> Result<(), SinkError>
        ensures ok { OnOk result (S.took sink.old (text_given self.now) sink.new) }
        ensures err { OnErr result (TookPrefix S.took sink.old (text_given self.now) sink.new) }
        ensures cause { HasCause (S.faults sink.old) (S.faults sink.new)
            (S.takes_memory sink.old) result }
        ensures never_fails { S.takes_memory sink.old ≡ false
            → (Rose (S.faults sink.old) (S.faults sink.new) → ⊥) → IsOk result }
    {
        let formatter = ListFormatter::from_patterns(self.patterns);
        let text = Replace {
            source: Text(self.words),
            needle: self.placeholder,
            replacement: formatter.format(self.items),
        };
        text.write_to(sink)
    }

    fn write_to_parts<P: PartsWrite>(&self, sink: &mut P) -> Result<(), SinkError> {
        self.write_to(sink)
    }

    fn writeable_length_hint(&self) -> LengthHint {
        let formatter = ListFormatter::from_patterns(self.patterns);
        let text = Replace {
            source: Text(self.words),
            needle: self.placeholder,
            replacement: formatter.format(self.items),
        };
        text.writeable_length_hint()
    }

    fn writeable_borrow(&self) -> Option<&str> {
        None
    }

    ghost marked_text = { λ found. characters-plain (text_given found) };

    ghost marked_nests = { λ found. Nests-plain (text_given found) };

    ghost text_hinted = { hint_given_holds };
}
