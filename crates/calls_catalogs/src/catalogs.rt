//! Calls of catalogs.
//!
//! A catalog is the bytes of its MO file; null, which is the empty catalog; or an object of `mo`
//! (bytes, or a source that gives them: see `calls::scripts`), and of what is forced: `encoding`,
//! which is `Utf8`, `Latin1` or `Windows1252`, and `plural`, which is one of the expressions `0`,
//! `1`, `n` and `n<2?0:1`. A form is an object of its number and its text. A catalog is answered by
//! its buffer.

use crate::metadata;
use calls::answers;
use calls::answers::{Answer, Object};
use calls::arguments::{Wrong, field, number, optional_text, size, text};
use calls::scripts::{Script, script_of};
use gettext::{Catalog, Encoding, Error, Form, ParseOptions, PluralFunction};
use serde_json::Value;
use std::alloc::{AllocError, Global};

/// A call of a catalog or of reading one, by its path.
pub fn answer<'a>(alloc: Global, call: &str, arguments: &'a [Value]) -> Answer<'a> {
    match arguments {
        [] if call == "Catalog::empty" => {
            Ok(answers::bytes(alloc, Catalog::empty(alloc).buffer())?)
        }
        [Value::Null, others @ ..] => by_file(alloc, call, &Catalog::empty(alloc), others),
        [given, others @ ..] => {
            let reading = reading_of(alloc, given)?;
            match reading.rule {
                Some(rule) => read_with_rule(alloc, call, given, &reading, rule, others),
                None => read(alloc, call, given, &reading, others),
            }
        }
        _ => Err(Wrong::Call),
    }
}

/// How a catalog is read.
#[derive(Drop)]
struct Reading {
    script: Script,
    /// Whether the bytes are given whole, and not by a source.
    whole: bool,
    encoding: Option<Encoding>,
    rule: Option<Rule>,
}

/// A function that is forced, by the expression that it stands for.
#[derive(Clone, Copy)]
enum Rule {
    Zero,
    One,
    Count,
    TwoForms,
}

/// How the catalog that an argument is is read.
fn reading_of<'a>(alloc: Global, given: &'a Value) -> Result<Reading, Wrong<'a>> {
    if given.is_string() {
        return Ok(Reading {
            script: script_of(alloc, given)?,
            whole: true,
            encoding: None,
            rule: None,
        });
    }
    let mo = field(given, "mo")?;
    Ok(Reading {
        script: script_of(alloc, mo)?,
        whole: mo.is_string(),
        encoding: encoding_in(given)?,
        rule: rule_in(given)?,
    })
}

fn encoding_in(given: &Value) -> Result<Option<Encoding>, Wrong<'_>> {
    match given.get("encoding") {
        Some(name) => Ok(Some(metadata::encoding_of(name)?)),
        None => Ok(None),
    }
}

fn rule_in(given: &Value) -> Result<Option<Rule>, Wrong<'_>> {
    let Some(rule) = given.get("plural") else {
        return Ok(None);
    };
    match text(rule)? {
        "0" => Ok(Some(Rule::Zero)),
        "1" => Ok(Some(Rule::One)),
        "n" => Ok(Some(Rule::Count)),
        "n<2?0:1" => Ok(Some(Rule::TwoForms)),
        _ => Err(Wrong::Argument(rule, "the plural rule 0, 1, n or n<2?0:1")),
    }
}

impl Reading {
    fn options(&self) -> ParseOptions {
        match self.encoding {
            Some(encoding) => ParseOptions::new().force_encoding(encoding),
            None => ParseOptions::new(),
        }
    }
}

/// The answer of the catalog with its file's plural rule.
fn read<'a>(
    alloc: Global,
    call: &str,
    given: &'a Value,
    reading: &Reading,
    others: &'a [Value],
) -> Answer<'a> {
    let catalog = if reading.whole {
        reading.options().parse_bytes(alloc, reading.script.bytes())
    } else {
        reading.options().parse(alloc, &mut reading.script.source())
    };
    match catalog {
        Ok(catalog) => by_file(alloc, call, &catalog, others),
        Err(error) => unread(alloc, call, given, error),
    }
}

/// The answer of the catalog with a function in the place of its file's rule.
fn read_with_rule<'a>(
    alloc: Global,
    call: &str,
    given: &'a Value,
    reading: &Reading,
    rule: Rule,
    others: &'a [Value],
) -> Answer<'a> {
    let options = match rule {
        Rule::Zero => reading.options().force_plural(first),
        Rule::One => reading.options().force_plural(second),
        Rule::Count => reading.options().force_plural(the_count),
        Rule::TwoForms => reading.options().force_plural(two_forms),
    };
    let catalog = if reading.whole {
        options.parse_bytes(alloc, reading.script.bytes())
    } else {
        options.parse(alloc, &mut reading.script.source())
    };
    match catalog {
        Ok(catalog) => by_function(alloc, call, &catalog, others),
        Err(error) => unread(alloc, call, given, error),
    }
}

/// A refusal to read is the answer where reading is the call.
fn unread<'a>(alloc: Global, call: &str, given: &'a Value, error: Error) -> Answer<'a> {
    if is_reading(call) {
        metadata::refused(alloc, error)
    } else {
        Err(metadata::unread(given, error))
    }
}

fn is_reading(call: &str) -> bool {
    matches!(
        call,
        "Catalog::parse"
            | "Catalog::parse_bytes"
            | "ParseOptions::parse"
            | "ParseOptions::parse_bytes"
    )
}

fn first(_: u64) -> usize {
    0
}

fn second(_: u64) -> usize {
    1
}

fn the_count(n: u64) -> usize {
    n as usize
}

/// Two forms, of which 0 and 1 have the first.
pub fn two_forms(n: u64) -> usize {
    if n < 2 { 0 } else { 1 }
}

/// A look-up whose answer is a form for a count.
fn by_file<'a>(alloc: Global, call: &str, catalog: &Catalog, others: &'a [Value]) -> Answer<'a> {
    let answer = match (call, others) {
        ("Catalog::find", [context, id, n]) => {
            let found = catalog.find(optional_text(context)?, text(id)?, number(n)?);
            form(alloc, found)
        }
        ("Catalog::ngettext", [id, plural, n]) => {
            answers::text(
                alloc,
                catalog.ngettext(text(id)?, text(plural)?, number(n)?),
            )
        }
        ("Catalog::npgettext", [context, id, plural, n]) => {
            let (context, id, plural) = (text(context)?, text(id)?, text(plural)?);
            answers::text(alloc, catalog.npgettext(context, id, plural, number(n)?))
        }
        _ => return of_any(alloc, call, catalog, others),
    };
    Ok(answer?)
}

/// The same of a catalog with a function in place of its file's rule.
fn by_function<'a>(
    alloc: Global,
    call: &str,
    catalog: &Catalog<PluralFunction>,
    others: &'a [Value],
) -> Answer<'a> {
    let answer = match (call, others) {
        ("Catalog::find", [context, id, n]) => {
            let found = catalog.find(optional_text(context)?, text(id)?, number(n)?);
            form(alloc, found)
        }
        ("Catalog::ngettext", [id, plural, n]) => {
            answers::text(
                alloc,
                catalog.ngettext(text(id)?, text(plural)?, number(n)?),
            )
        }
        ("Catalog::npgettext", [context, id, plural, n]) => {
            let (context, id, plural) = (text(context)?, text(id)?, text(plural)?);
            answers::text(alloc, catalog.npgettext(context, id, plural, number(n)?))
        }
        _ => return of_any(alloc, call, catalog, others),
    };
    Ok(answer?)
}

fn form(alloc: Global, form: Option<Form<'_>>) -> Result<Value, AllocError> {
    match form {
        Some(form) => {
            let text = answers::text(alloc, form.text)?;
            Ok(
                Object::new(alloc)
                    .with("number", answers::size(form.number))?
                    .with("text", text)?
                    .value(),
            )
        }
        None => Ok(Value::Null),
    }
}

/// A look-up that no count decides.
fn of_any<'a, P: Drop>(
    alloc: Global,
    call: &str,
    catalog: &Catalog<P>,
    others: &'a [Value],
) -> Answer<'a> {
    let answer = match (call, others) {
        (_, []) if call == "Catalog::buffer" || is_reading(call) => {
            answers::bytes(alloc, catalog.buffer())
        }
        ("Catalog::gettext", [id]) => answers::text(alloc, catalog.gettext(text(id)?)),
        ("Catalog::pgettext", [context, id]) => {
            answers::text(alloc, catalog.pgettext(text(context)?, text(id)?))
        }
        ("Catalog::form_count", [context, id]) => {
            let count = catalog.form_count(optional_text(context)?, text(id)?);
            Ok(answers::optional_size(count))
        }
        ("Catalog::form_text", [context, id, number]) => {
            let (context, id) = (optional_text(context)?, text(id)?);
            answers::optional_text(alloc, catalog.form_text(context, id, size(number)?))
        }
        ("Catalog::form_range", [context, id, number]) => {
            let (context, id) = (optional_text(context)?, text(id)?);
            range(alloc, catalog.form_range(context, id, size(number)?))
        }
        _ => return Err(Wrong::Call),
    };
    Ok(answer?)
}

/// The place of a text: its first byte, and the first one behind it.
fn range(alloc: Global, range: Option<(usize, usize)>) -> Result<Value, AllocError> {
    match range {
        Some((start, end)) => answers::list(alloc, [answers::size(start), answers::size(end)]),
        None => Ok(Value::Null),
    }
}
