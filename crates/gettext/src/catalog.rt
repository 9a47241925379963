//! Catalogs of messages, and the look-up of a message's form.
//!
//! - `table`: how a catalog keeps its messages.

mod table;

ghost use Rattle.std.specs.Prelude.{◌≡◌, ℕ, ◌==◌, ◌↔◌, List, [], Option, Some, None, Result};
ghost use Rattle.std.specs.Prelude.{if◌then◌else◌};
ghost use Rattle.std.specs.Option.{option_map};
ghost use Rattle.std.specs.Str.{chars};
ghost use Rattle.gettext.specs.declared.error.Error.{Error};
ghost use Rattle.gettext.specs.Messages.{Message, Messages, StandsFor, Default, key_of, key_asked};
ghost use Rattle.gettext.specs.Messages.{numbered, form, count_of_forms, own_words, text_or};
ghost use Rattle.gettext.specs.declared.encoding.Encoding.{Encoding};
ghost use Rattle.gettext.specs.Layout.{head_of, original_of};
ghost use Rattle.gettext.specs.Mo.{IsRow, entries};
ghost use Rattle.gettext.specs.MoLaws.{IsKeyOf};
ghost use Rattle.gettext.specs.Faults.{IsMoFault, mo_fault};
ghost use Rattle.gettext.specs.Options.{Options, plain_options};
ghost use Rattle.gettext.specs.Parse.{ParsesBytes, ParsesSource, held_in};
ghost use Rattle.gettext.specs.Table.{IsRangeOf, messages_of};

use crate::error::Error;
use crate::parser::ParseOptions;
use crate::plurals::{FileRule, FormRule};
use std::alloc::Global;
pub use table::Table;
use writeable_core::Source;

/// The messages of one language, as an MO file holds them.
///
/// The plural rule is the file's, or, where `P` is `PluralFunction`, a function that is forced.
#[derive(Drop)]
pub struct Catalog<P = FileRule> {
    pub(crate) entries: Table,
    pub(crate) plural: P,
}

/// One form of a message.
#[derive(Drop)]
pub struct Form<'a> {
    /// Which of the message's forms it is, counted from 0.
    pub number: usize,
    pub text: &'a str,
}

impl Catalog {
    /// No messages. It takes no memory.
    pub fn empty(alloc: Global) -> Catalog
        ensures messages { messages_of result.entries ≡ record { rule = Default; pairs = [] } }
        ensures buffer { result.entries.buffer ≡ [] }
    {
        Catalog {
            entries: Table::empty(alloc),
            plural: FileRule,
        }
    }

    /// The messages of an MO file that a source gives. The source is read to its end, and
    /// 67,108,864 bytes at most.
    pub fn parse<S: Source>(alloc: Global, source: &mut S) -> Result<Catalog, Error>
        ensures { ParsesSource S.left S.ended S.faults source.old source.new
            (held_in (λ catalog. catalog.entries) result) plain_options }
    {
        ParseOptions::new().parse(alloc, source)
    }

    /// The messages of an MO file (GNU gettext manual, section 10.3). Of equal keys the last row
    /// counts.
    pub fn parse_bytes(alloc: Global, bytes: &[u8]) -> Result<Catalog, Error>
        ensures { ParsesBytes (held_in (λ catalog. catalog.entries) result) bytes.now
            plain_options }
    {
        ParseOptions::new().parse_bytes(alloc, bytes)
    }
}

impl<P: FormRule> Catalog<P> {
    /// The form for `n` of the message with that context and id. Nothing is joined and nothing
    /// copied.
    pub fn find(&self, context: Option<&str>, id: &str, n: u64) -> Option<Form<'_>>
        ensures found { (c : Messages) → StandsFor (messages_of self.now.entries) c
            → (given : Option ℕ) × P.answers self.now.plural n given
            × (option_map (λ f. (f.number, chars f.text.now)) result
            ≡ form c given (key_asked context.entry id.now) n) }
    {
        let number = self.entries.number(n, self.plural.forced_number(n))?;
        let text = self.entries.form_within(context, id, number)?;
        Some(Form { number, text })
    }

    /// The form for `n` of the message with that id, or the id for 1, and the plural id otherwise.
    pub fn ngettext<'a>(&'a self, msg_id: &'a str, msg_id_plural: &'a str, n: u64) -> &'a str
        ensures text { (c : Messages) → StandsFor (messages_of self.now.entries) c
            → (given : Option ℕ) × P.answers self.now.plural n given
            × (chars result.now ≡ text_or (form c given (chars msg_id.now) n)
            (own_words n (chars msg_id.now) (chars msg_id_plural.now))) }
    {
        match self.find(None, msg_id, n) {
            Some(form) => form.text,
            None => own_words(msg_id, msg_id_plural, n),
        }
    }

    /// The form for `n` of the message with that context and id, or the id for 1, and the plural id
    /// otherwise.
    pub fn npgettext<'a>(
        &'a self,
        msg_context: &'a str,
        msg_id: &'a str,
        msg_id_plural: &'a str,
        n: u64,
    ) -> &'a str
        ensures text { (c : Messages) → StandsFor (messages_of self.now.entries) c
            → (given : Option ℕ) × P.answers self.now.plural n given
            × (chars result.now
            ≡ text_or (form c given (key_of (Some (chars msg_context.now)) (chars msg_id.now)) n)
            (own_words n (chars msg_id.now) (chars msg_id_plural.now))) }
    {
        match self.find(Some(msg_context), msg_id, n) {
            Some(form) => form.text,
            None => own_words(msg_id, msg_id_plural, n),
        }
    }
}

impl<P: Drop> Catalog<P> {
    /// How many forms the message with that context and id has.
    pub fn form_count(&self, context: Option<&str>, id: &str) -> Option<usize>
        ensures count { (c : Messages) → StandsFor (messages_of self.now.entries) c
            → result ≡ count_of_forms c (key_asked context.entry id.now) }
    {
        self.entries.form_count(context, id)
    }

    /// The form with that number, counted from 0, of the message with that context and id.
    pub fn form_text(&self, context: Option<&str>, id: &str, number: usize) -> Option<&str>
        ensures text { (c : Messages) → StandsFor (messages_of self.now.entries) c
            → option_map (λ text. (number, chars text.now)) result
            ≡ numbered c (key_asked context.entry id.now) number }
    {
        self.entries.form(context, id, number)
    }

    /// Where that form stands in the buffer: its first byte, and the byte behind its last.
    pub fn form_range(
        &self,
        context: Option<&str>,
        id: &str,
        number: usize,
    ) -> Option<(usize, usize)>
        ensures range { (c : Messages) → StandsFor (messages_of self.now.entries) c
            → IsRangeOf self.now.entries.buffer result
            (numbered c (key_asked context.entry id.now) number) }
    {
        self.entries.form_range(context, id, number)
    }

    /// The bytes that the texts of the messages stand in.
    pub fn buffer(&self) -> &[u8]
        ensures { result.now ≡ self.now.entries.buffer }
    {
        self.entries.buffer()
    }

    /// The first form of the message with that id, or the id.
    pub fn gettext<'a>(&'a self, msg_id: &'a str) -> &'a str
        ensures text { (c : Messages) → StandsFor (messages_of self.now.entries) c
            → chars result.now ≡ text_or (numbered c (chars msg_id.now) 0) (chars msg_id.now) }
    {
        self.form_text(None, msg_id, 0).unwrap_or(msg_id)
    }

    /// The first form of the message with that context and id, or the id.
    pub fn pgettext<'a>(&'a self, msg_context: &'a str, msg_id: &'a str) -> &'a str
        ensures text { (c : Messages) → StandsFor (messages_of self.now.entries) c
            → chars result.now
            ≡ text_or (numbered c (key_of (Some (chars msg_context.now)) (chars msg_id.now)) 0)
            (chars msg_id.now) }
    {
        self.form_text(Some(msg_context), msg_id, 0)
            .unwrap_or(msg_id)
    }
}

/// What stands for a message that isn't there.
fn own_words<'a>(msg_id: &'a str, msg_id_plural: &'a str, n: u64) -> &'a str
    ensures { chars result.now ≡ own_words n (chars msg_id.now) (chars msg_id_plural.now) }
{
    if n == 1 { msg_id } else { msg_id_plural }
}

/// A file has one fault, or none: none exactly where it means something, and then it means one
/// thing, and what stands for that gives each form alike.
pub fn one_meaning()
    ensures faultless { (b : List ℕ) (o : Options)
        → mo_fault b o None ↔ ((c : Messages) × entries b o c) }
    ensures unique { (b : List ℕ) (o : Options) (c d : Messages) → entries b o c → entries b o d
        → c ≡ d }
    ensures alike { (b : List ℕ) (o : Options) (c kept : Messages) → entries b o c
        → StandsFor kept c
        → (given : Option ℕ) (key : List ℕ) (n : ℕ) → form kept given key n ≡ form c given key n }
    ensures parts { (b : List ℕ) (e : Encoding) (i : ℕ) (m : Message) → IsRow b e i m
        → IsKeyOf e (head_of (original_of b i)) m.key }
    ensures fault { (b : List ℕ) (o : Options) → (f : Option Error) × mo_fault b o f }
    ensures one_fault { (b : List ℕ) (o : Options) (e f : Option Error) → mo_fault b o e
        → mo_fault b o f → e ≡ f }
    ensures faults { (b : List ℕ) (o : Options) (e : Error) → mo_fault b o (Some e) → IsMoFault e }
{}
