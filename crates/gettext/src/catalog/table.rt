//! How a catalog keeps its messages: one buffer of bytes, and a table of ranges in it in the order
//! of the keys' bytes.

ghost use Rattle.std.specs.Prelude.{◌≡◌, ◌∷◌, [], encode_utf8_all, IfSome};
ghost use Rattle.std.specs.Option.{option_map};
ghost use Rattle.std.specs.List.{slice_get};
ghost use Rattle.std.specs.Ordering.{nat_cmp};
ghost use Rattle.std.specs.Cmp.Lexicographic.{slice_cmp};
ghost use Rattle.std.specs.Str.{chars, IsUtf8};
ghost use Rattle.gettext.specs.Messages.{Messages, key_asked, key_bytes_asked, is_within, numbered};
ghost use Rattle.gettext.specs.Messages.{count_of_forms};

use crate::plurals::PluralRule;
use crate::spans::{Row, bytes_of, nth_piece, nth_span, piece_count};
use std::alloc::Global;
use std::cmp::Ordering;
use std::marker::Model;
use std::str;

/// Messages over one buffer, whose keys differ and ascend, and their plural rule.
#[derive(Drop)]
pub struct Table {
    buffer: Vec<u8>,
    rows: Vec<Row>,
    rule: PluralRule,
    /// What the numbers of forms are below.
    plurals: Option<usize>,
}

impl Model for Table {
    ghost use Rattle.gettext.specs.contracts.plurals.expression.Ast as ast;
    ghost use Rattle.gettext.specs.Table.{Held, held, Keeps};
    ghost use Rattle.std.specs.Coded.{codes};

    ghost Value = { Held };

    ghost coded = { Prim.hlevel (codes, ast.the_row.coded) };

    ghost view = { λ a. held a.buffer.items a.rows.items a.rule };

    ghost invariant = { λ a. Keeps a.buffer.items a.rows.items a.rule a.plurals };
}

impl Table {
    ghost use Rattle.gettext.specs.declared.plurals.rule.PluralRule.TheVariants.{Default};
    ghost use Rattle.gettext.specs.Messages.{StandsFor, numbered_within, number_for};
    ghost use Rattle.gettext.specs.Rule.{rule_shown};
    ghost use Rattle.gettext.specs.Table.{held, messages_of, Keeps, IsRangeOf};

    pub fn empty(alloc: Global) -> Table
        ensures { result ≡ held [] [] Default }
    {
        Table {
            buffer: Vec::new(alloc),
            rows: Vec::new(alloc),
            rule: PluralRule::Default,
            plurals: None,
        }
    }

    pub fn new(buffer: Vec<u8>, rows: Vec<Row>, rule: PluralRule, plurals: Option<usize>) -> Table
        requires { Keeps buffer.items rows.items rule plurals }
        ensures { result ≡ held buffer.items rows.items rule }
    {
        Table {
            buffer,
            rows,
            rule,
            plurals,
        }
    }

    /// The number of the form for `n`, given what a forced function answered.
    pub fn number(&self, n: u64, given: Option<usize>) -> Option<usize>
        ensures { result ≡ number_for (rule_shown self.now.rule) given n }
    {
        self.rule.number(n, given)
    }

    /// The form with that number, where nothing bounds the numbers below it.
    pub fn form_within(&self, context: Option<&str>, id: &str, number: usize) -> Option<&str>
        ensures { (c : Messages) → StandsFor (messages_of self.now) c
            → option_map (λ text. (number, chars text.now)) result
            ≡ numbered_within c (key_asked context.entry id.now) number }
    {
        if is_within(self.plurals, number) {
            self.form(context, id, number)
        } else {
            None
        }
    }

    /// The form with that number of the message with that context and id.
    pub fn form(&self, context: Option<&str>, id: &str, number: usize) -> Option<&str>
        ensures { option_map (λ text. (number, chars text.now)) result
            ≡ numbered (messages_of self.now) (key_asked context.entry id.now) number }
    {
        let row = row_with(&self.buffer, &self.rows, context, id)?;
        nth_form(&self.buffer, row, number)
    }

    /// How many forms the message with that context and id has.
    pub fn form_count(&self, context: Option<&str>, id: &str) -> Option<usize>
        ensures { result ≡ count_of_forms (messages_of self.now) (key_asked context.entry id.now) }
    {
        let row = row_with(&self.buffer, &self.rows, context, id)?;
        Some(piece_count(bytes_of(&self.buffer, row.forms)))
    }

    /// Where the form with that number stands in the buffer.
    pub fn form_range(
        &self,
        context: Option<&str>,
        id: &str,
        number: usize,
    ) -> Option<(usize, usize)>
        ensures { IsRangeOf self.now.buffer result
            (numbered (messages_of self.now) (key_asked context.entry id.now) number) }
    {
        let row = row_with(&self.buffer, &self.rows, context, id)?;
        let (start, end) = nth_span(bytes_of(&self.buffer, row.forms), number)?;
        Some((row.forms.start + start, row.forms.start + end))
    }

    pub fn buffer(&self) -> &[u8]
        ensures { result.now ≡ self.now.buffer }
    {
        &self.buffer
    }
}

ghost use Rattle.gettext.specs.Table.{IsTable, IsRowOf, row_for, form_bytes};

fn is_within(plurals: Option<usize>, number: usize) -> bool
    ensures { result ≡ is_within plurals number }
{
    match plurals {
        Some(plurals) => number < plurals,
        None => true,
    }
}

fn bytes_in(text: Option<&str>) -> Option<&[u8]>
    ensures value { option_map (λ bytes. bytes.now) result ≡ option_map (λ s. s.now) text.entry }
    ensures utf8 { IfSome text.entry (λ s. IsUtf8 s.now) }
{
    text.map(|text| text.as_bytes())
}

/// Compares a key with the context, U+0004 and the id as one text, or with the id alone.
fn compare_key(key: &[u8], context: Option<&[u8]>, id: &[u8]) -> Ordering
    ensures { result ≡ slice_cmp nat_cmp key.now (key_bytes_asked context.entry id.now) }
{
    let Some(context) = context else {
        return key.cmp(id);
    };
    let (front, rest) = key.split_at(context.len().min(key.len()));
    match front.cmp(context) {
        Ordering::Equal => compare_rest(rest, id),
        unequal => unequal,
    }
}

/// Compares what stands behind a context with U+0004 and the id.
fn compare_rest(rest: &[u8], id: &[u8]) -> Ordering
    ensures { result ≡ slice_cmp nat_cmp rest.now (4 ∷ id.now) }
{
    match rest {
        [] => Ordering::Less,
        [first, rest @ ..] => first.cmp(&4).then(rest.cmp(id)),
    }
}

fn row_with(buffer: &[u8], rows: &[Row], context: Option<&str>, id: &str) -> Option<Row>
    requires { IsTable buffer.now rows.now }
    ensures found { result
        ≡ row_for buffer.now rows.now (encode_utf8_all (key_asked context.entry id.now)) }
    ensures fits { IfSome result (IsRowOf buffer.now) }
{
    find_row(buffer, rows, bytes_in(context), id.as_bytes())
}

fn find_row(buffer: &[u8], rows: &[Row], context: Option<&[u8]>, id: &[u8]) -> Option<Row>
    requires { IsTable buffer.now rows.now }
    ensures { result ≡ row_for buffer.now rows.now (key_bytes_asked context.entry id.now) }
{
    let mut low = 0;
    let mut high = rows.len();
    while low < high {
        let middle = low + (high - low) / 2;
        let row = rows[middle];
        match compare_key(bytes_of(buffer, row.key), context, id) {
            Ordering::Less => low = middle + 1,
            Ordering::Equal => return Some(row),
            Ordering::Greater => high = middle,
        }
    }
    None
}

fn nth_form(buffer: &[u8], row: Row, number: usize) -> Option<&str>
    requires { IsRowOf buffer.now row }
    ensures { option_map (λ text. text.now) result ≡ slice_get (form_bytes buffer.now row) number }
{
    let form = nth_piece(bytes_of(buffer, row.forms), number)?;
    // The type keeps that each form is UTF-8.
    Some(unsafe { str::from_utf8_unchecked(form) })
}
