//! The metadata of a catalog: the translation of the empty id.

ghost use Rattle.std.specs.Prelude.{◌≡◌, ℕ, ◌<◌, ◌⊎◌, List, Option, Some, None, MatchResult, IfOk};
ghost use Rattle.std.specs.Prelude.{IfErr, codes, ◌==◌};
ghost use Rattle.std.specs.Option.{option_map, option_and_then};
ghost use Rattle.gettext.specs.declared.error.Error.TheVariants.{NoMemory, MalformedMetadata};
ghost use Rattle.gettext.specs.Metadata.{Field, field_of, fields_of, value_of, last_value};
ghost use Rattle.gettext.specs.Metadata.{charset_in, plural_fields, plural_in, names_count};
ghost use Rattle.gettext.specs.Metadata.{number_in, count_in, gives, shown};

use crate::error::Error;
use std::alloc::Global;
use std::collections::BTreeMap;
use std::marker::Model;

/// The fields of a catalog's metadata. Names and values are parts of the text that was read.
/// Contracts see what each name gives.
#[derive(Drop)]
pub struct MetadataMap<'a> {
    fields: BTreeMap<&'a str, &'a str>,
}

impl<'a> Model for MetadataMap<'a> {
    ghost use Rattle.gettext.specs.Metadata.{FieldMap, field_map_code, field_map};

    ghost Value = { FieldMap };

    ghost coded = { field_map_code };

    ghost view = { λ a. field_map a.fields };
}

/// The name before the first `sign` and the value behind it, each without the white space around
/// it.
fn field_at(text: &str, sign: char) -> Option<(&str, &str)>
    requires { sign < 128 }
    ensures { option_map shown result ≡ field_of (λ c. c == sign) text.now }
{
    let (name, value) = text.split_once(sign)?;
    Some((name.trim(), value.trim()))
}

/// Reads the fields of a text, the translation of the empty id: a name, a colon and a value in
/// each line that isn't empty. Of equal names the last counts.
pub fn parse_metadata(alloc: Global, blob: &str) -> Result<MetadataMap<'_>, Error>
    // A text whose lines all have a colon is read, unless memory runs out.
    ensures ok { (fields : List Field) → fields_of blob.now ≡ Some fields
        → MatchResult result (λ map. (name : List ℕ) → gives map name ≡ value_of fields name)
        (λ e. e ≡ NoMemory) }
    ensures err { IfErr result (λ e. (e ≡ NoMemory)
        ⊎ ((e ≡ MalformedMetadata) × (fields_of blob.now ≡ None))) }

    // What is read is the fields of the text.
    ensures sound { IfOk result (λ map. (fields : List Field) × (fields_of blob.now ≡ Some fields)
        × ((name : List ℕ) → gives map name ≡ value_of fields name)) }
{
    let mut fields = BTreeMap::new(alloc);
    for line in blob.split('\n') {
        if line.is_empty() {
            continue;
        }
        let (name, value) = field_at(line, ':').ok_or(Error::MalformedMetadata)?;
        fields.insert(name, value)?;
    }
    Ok(MetadataMap { fields })
}

impl MetadataMap<'_> {
    /// The value of the field with that name.
    pub fn get(&self, name: &str) -> Option<&str>
        ensures { option_map (λ s. s.now) result ≡ gives self.now name.now }
    {
        self.fields.get(name).copied()
    }

    /// The name of the encoding, where the metadata says which.
    pub fn charset(&self) -> Option<&str>
        ensures { option_map (λ s. s.now) result
            ≡ option_and_then charset_in (gives self.now (codes "Content-Type")) }
    {
        charset_of(self.get("Content-Type")?)
    }

    /// How many plural forms there are, and the expression that chooses one.
    #[tactic(auto, unfolding(crate::specs::Metadata::count_in))]
    pub fn plural_forms(&self) -> (Option<usize>, Option<&str>)
        ensures count { result.0
            ≡ option_and_then count_in (gives self.now (codes "Plural-Forms")) }
        ensures expression { option_map (λ s. s.now) result.1
            ≡ option_and_then plural_in (gives self.now (codes "Plural-Forms")) }
    {
        let Some(forms) = self.get("Plural-Forms") else {
            return (None, None);
        };
        let (count, expression) = plural_fields_of(forms);
        (count.and_then(number_of), expression)
    }
}

/// What follows the first `charset=`, up to a further one.
fn charset_of(content_type: &str) -> Option<&str>
    ensures { option_map (λ s. s.now) result ≡ charset_in content_type.now }
{
    let (_, rest) = content_type.split_once("charset=")?;
    match rest.split_once("charset=") {
        Some((name, _)) => Some(name),
        None => Some(rest),
    }
}

/// The last number of plurals, as text, and the last expression in the value of Plural-Forms.
fn plural_fields_of(forms: &str) -> (Option<&str>, Option<&str>)
    ensures count { option_map (λ s. s.now) result.0
        ≡ last_value names_count (plural_fields forms.now) }
    ensures expression { option_map (λ s. s.now) result.1 ≡ plural_in forms.now }
{
    let mut count = None;
    let mut expression = None;
    for piece in forms.split(';') {
        let Some((name, value)) = field_at(piece, '=') else {
            continue;
        };
        if name == "plural" {
            expression = Some(value);
        } else if is_count_name(name) {
            count = Some(value);
        }
    }
    (count, expression)
}

fn is_count_name(name: &str) -> bool
    ensures { result ≡ names_count name.now }
{
    name == "nplurals" || name == "n_plurals"
}

fn number_of(text: &str) -> Option<usize>
    ensures { result ≡ number_in text.now }
{
    text.parse().ok()
}
