//! Calls of data locales and of their subtags. Each is its printed text.

use calls::answers;
use calls::answers::{Answer, printed};
use calls::arguments::{Wrong, bytes, text};
use icu_locale_core::{DataLocale, Language, LocaleError, Region, Script, Subtag, Variant};
use serde_json::Value;
use std::alloc::{AllocError, Global};
use std::fmt::Display;

/// A call of `icu_locale_core`, by its path.
pub fn answer<'a>(alloc: Global, call: &str, arguments: &'a [Value]) -> Answer<'a> {
    match call.split_once("::") {
        Some(("DataLocale", call)) => data_locale(alloc, call, arguments),
        Some(("Language", call)) => language(alloc, call, arguments),
        Some(("Script", call)) => subtag::<Script>(alloc, call, arguments),
        Some(("Region", call)) => subtag::<Region>(alloc, call, arguments),
        Some(("Variant", call)) => subtag::<Variant>(alloc, call, arguments),
        Some(("Subtag", call)) => subtag::<Subtag>(alloc, call, arguments),
        Some(("LocaleError", "text")) => Ok(answers::text(alloc, LocaleError::Malformed.text())?),
        _ => Err(Wrong::Call),
    }
}

fn data_locale<'a>(alloc: Global, call: &str, arguments: &'a [Value]) -> Answer<'a> {
    match (call, arguments) {
        ("default", []) => Ok(printed(alloc, &DataLocale::default())?),
        ("try_from_str", [given]) => Ok(parsed(alloc, text(given)?)?),
        (_, [given, others @ ..]) => match DataLocale::try_from_str(text(given)?) {
            Ok(locale) => of_locale(alloc, call, &locale, others),
            Err(error) => Err(Wrong::Refused(given, name(error))),
        },
        _ => Err(Wrong::Call),
    }
}

fn parsed(alloc: Global, text: &str) -> Result<Value, AllocError> {
    match DataLocale::try_from_str(text) {
        Ok(locale) => printed(alloc, &locale),
        Err(error) => answers::refused(alloc, name(error)),
    }
}

fn of_locale<'a>(
    alloc: Global,
    call: &str,
    locale: &DataLocale,
    others: &'a [Value],
) -> Answer<'a> {
    match (call, others) {
        ("is_unknown", []) => Ok(Value::Bool(locale.is_unknown())),
        ("to_string", []) => Ok(printed(alloc, locale)?),
        ("write_to", []) => Ok(answers::written(alloc, locale)?),
        ("strict_cmp", [other]) => {
            let order = locale.strict_cmp(&bytes(alloc, other)?);
            Ok(answers::ordering(alloc, order)?)
        }
        ("eq", [other]) => match DataLocale::try_from_str(text(other)?) {
            Ok(other) => Ok(Value::Bool(*locale == other)),
            Err(error) => Err(Wrong::Refused(other, name(error))),
        },
        _ => Err(Wrong::Call),
    }
}

pub fn name(error: LocaleError) -> &'static str {
    match error {
        LocaleError::Malformed => "Malformed",
    }
}

/// A subtag, made of its text.
trait Subtags: Ord + Display + Drop {
    fn read(text: &str) -> Result<Self, LocaleError>;

    fn name(&self) -> &str;
}

impl Subtags for Language {
    fn read(text: &str) -> Result<Self, LocaleError> {
        Language::try_from_str(text)
    }

    fn name(&self) -> &str {
        self.as_str()
    }
}

impl Subtags for Script {
    fn read(text: &str) -> Result<Self, LocaleError> {
        Script::try_from_str(text)
    }

    fn name(&self) -> &str {
        self.as_str()
    }
}

impl Subtags for Region {
    fn read(text: &str) -> Result<Self, LocaleError> {
        Region::try_from_str(text)
    }

    fn name(&self) -> &str {
        self.as_str()
    }
}

impl Subtags for Variant {
    fn read(text: &str) -> Result<Self, LocaleError> {
        Variant::try_from_str(text)
    }

    fn name(&self) -> &str {
        self.as_str()
    }
}

impl Subtags for Subtag {
    fn read(text: &str) -> Result<Self, LocaleError> {
        Subtag::try_from_str(text)
    }

    fn name(&self) -> &str {
        self.as_str()
    }
}

fn language<'a>(alloc: Global, call: &str, arguments: &'a [Value]) -> Answer<'a> {
    match (call, arguments) {
        ("unknown", []) => Ok(answers::text(alloc, Language::unknown().as_str())?),
        ("is_unknown", [given]) => match Language::try_from_str(text(given)?) {
            Ok(language) => Ok(Value::Bool(language.is_unknown())),
            Err(error) => Err(Wrong::Refused(given, name(error))),
        },
        _ => subtag::<Language>(alloc, call, arguments),
    }
}

fn subtag<'a, T: Subtags>(alloc: Global, call: &str, arguments: &'a [Value]) -> Answer<'a> {
    let answer = match (call, arguments) {
        ("try_from_str", [given]) => match T::read(text(given)?) {
            Ok(subtag) => answers::text(alloc, subtag.name()),
            Err(error) => answers::refused(alloc, name(error)),
        },
        ("as_str", [given]) => answers::text(alloc, made::<T>(given)?.name()),
        ("to_string", [given]) => printed(alloc, &made::<T>(given)?),
        ("cmp", [left, right]) => {
            answers::ordering(alloc, made::<T>(left)?.cmp(&made::<T>(right)?))
        }
        ("eq", [left, right]) => Ok(Value::Bool(made::<T>(left)? == made::<T>(right)?)),
        _ => return Err(Wrong::Call),
    };
    Ok(answer?)
}

fn made<T: Subtags>(given: &Value) -> Result<T, Wrong<'_>> {
    T::read(text(given)?).map_err(|error| Wrong::Refused(given, name(error)))
}
