//! What the metadata of a file say of its texts and its plural rule.

ghost use Rattle.std.specs.Prelude.{false, [], codes};
ghost use Rattle.std.specs.Option.{option_map, option_and_then, unwrap_or};
ghost use Rattle.writeable_core.specs.FirstFailure.{first_failure};
ghost use Rattle.gettext.specs.declared.error.Error.TheVariants.{PluralParsing, UnknownEncoding};
ghost use Rattle.gettext.specs.Metadata.{fields_of, charset_in, gives};
ghost use Rattle.gettext.specs.Mo.{first_encoding, encoding_by, fields_in_file};
ghost use Rattle.gettext.specs.Checks.{metadata_checks, rule_by};
ghost use Rattle.gettext.specs.Reader.{GivesInMemory, IsReadRow};
ghost use Rattle.gettext.specs.Rule.{rule_shown};
ghost use Rattle.gettext.specs.Settings.{IsSettings, Answers};

use super::options::Options;
use super::rows::has_id;
use crate::encoding::Encoding;
use crate::error::Error;
use crate::metadata::{MetadataMap, parse_metadata};
use crate::plurals::{Ast, PluralRule};
use crate::spans::{Row, bytes_of, place_of};
use std::alloc::Global;
use std::str;

/// What holds of the rows behind the metadata, and of the plural forms.
#[derive(Drop)]
pub struct Settings {
    pub encoding: Encoding,
    pub rule: PluralRule,
    /// What the numbers of forms are below.
    pub plurals: Option<usize>,
}

impl Settings {
    /// What holds of a file without metadata.
    pub fn plain(options: Options) -> Settings
        ensures { IsSettings options [] result }
    {
        let rule = if options.forced {
            PluralRule::Function
        } else {
            PluralRule::Default
        };
        Settings {
            encoding: options.first_encoding(),
            rule,
            plurals: None,
        }
    }

    /// What the metadata say, which stand in row 0 if its id is empty.
    pub fn of_row(
        alloc: Global,
        bytes: &[u8],
        row: Row,
        options: Options,
    ) -> Result<Settings, Error>
        requires { IsReadRow bytes.now (first_encoding options) 0 row }
        ensures { GivesInMemory
            (IsSettings options (unwrap_or (fields_in_file bytes.now options) [])) result
            (first_failure (metadata_checks options (fields_in_file bytes.now options))) }
    {
        if has_id(bytes_of(bytes, row.key)) {
            return Ok(Settings::plain(options));
        }
        let forms = bytes_of(bytes, row.forms);
        let form = &forms[..place_of(0, forms)];
        match options.first_encoding() {
            Encoding::Utf8 => Settings::of_text(
                alloc,
                unsafe { str::from_utf8_unchecked(form) },
                options,
            ),
            encoding => {
                let mut text = Vec::new(alloc);
                encoding.push_decoded(form, &mut text)?;
                Settings::of_text(alloc, unsafe { str::from_utf8_unchecked(&text) }, options)
            }
        }
    }

    /// What the text of the metadata says.
    #[tactic(auto, unfolding(crate::specs::Faults::metadata_conditions))]
    fn of_text(alloc: Global, text: &str, options: Options) -> Result<Settings, Error>
        ensures { GivesInMemory (IsSettings options (unwrap_or (fields_of text.now) [])) result
            (first_failure (metadata_checks options (fields_of text.now))) }
    {
        let metadata = parse_metadata(alloc, text)?;
        let encoding = named_encoding(options, &metadata)?;
        let (plurals, expression) = metadata.plural_forms();
        if options.forced {
            return Ok(Settings {
                encoding,
                rule: PluralRule::Function,
                plurals: None,
            });
        }
        let rule = rule_of(alloc, expression)?;
        Ok(Settings {
            encoding,
            rule,
            plurals,
        })
    }
}

/// The encoding that is forced, else the one that the charset names, else UTF-8.
fn named_encoding(options: Options, metadata: &MetadataMap<'_>) -> Result<Encoding, Error>
    ensures { Answers (λ e. e) result (encoding_by options.encoding
        (option_and_then charset_in (gives metadata.now (codes "Content-Type")))) UnknownEncoding }
{
    if let Some(forced) = options.encoding {
        return Ok(forced);
    }
    match metadata.charset() {
        Some(label) => Encoding::from_label(label).ok_or(Error::UnknownEncoding),
        None => Ok(Encoding::Utf8),
    }
}

/// The expression, if there is one, else the default rule.
fn rule_of(alloc: Global, expression: Option<&str>) -> Result<PluralRule, Error>
    ensures { Answers rule_shown result
        (rule_by false (option_map (λ s. s.now) expression.entry)) PluralParsing }
{
    match expression {
        Some(expression) => Ok(PluralRule::Expr(Ast::parse(alloc, expression)?)),
        None => Ok(PluralRule::Default),
    }
}
