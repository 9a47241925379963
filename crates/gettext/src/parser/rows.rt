//! The rows of an MO file: where the texts of each message stand.

ghost use Rattle.std.specs.Prelude.{◌≡◌, ◌-◌, ◌≤◌, ◌<◌, length, IfOk};
ghost use Rattle.std.specs.List.{list_all};
ghost use Rattle.writeable_core.specs.FirstFailure.{first_failure};
ghost use Rattle.gettext.specs.Encoding.{is_valid};
ghost use Rattle.gettext.specs.Messages.{has_id};
ghost use Rattle.gettext.specs.Layout.{head_of, pieces_of, translations_of};
ghost use Rattle.gettext.specs.Faults.{original_conditions, translation_conditions, row_conditions};
ghost use Rattle.gettext.specs.Faults.{rows_conditions, head_conditions};
ghost use Rattle.gettext.specs.Reader.{Gives, GivesInMemory, IsHeader, IsTextSpan, head_span};
ghost use Rattle.gettext.specs.Reader.{IsReadRow, Pushed};

use super::layout::{Header, text_at};
use crate::encoding::Encoding;
use crate::error::Error;
use crate::spans::{Row, Span, place_of};

/// How long the key of an original is: what stands before its first NUL.
#[tactic(auto, using(crate::proofs::Conditions::by_parts))]
fn key_len(original: &[u8], encoding: Encoding, index: u32) -> Result<usize, Error>
    ensures fault { Gives (λ len. len ≡ length (head_of original.now))
        result (first_failure (head_conditions encoding index original.now)) }
    ensures inside { IfOk result (λ len. len < length original.now) }
{
    let len = place_of(0, original);
    if len == original.len() {
        return Err(Error::Eof);
    }
    let key = &original[..len];
    if !encoding.is_valid(key) {
        return Err(Error::DecodingError);
    }
    if index != 0 && !has_id(key) {
        return Err(Error::MisplacedMetadata);
    }
    Ok(len)
}

/// Whether a key has more than a context.
pub fn has_id(key: &[u8]) -> bool
    ensures { result ≡ has_id key.now }
{
    !key.is_empty() && place_of(4, key) + 1 != key.len()
}

/// Where the key of a row stands: the context, byte 4 and the id, or the id alone.
#[tactic(auto, using(crate::proofs::Conditions::by_parts), unfolding(crate::specs::Faults::original_conditions, crate::specs::Reader::head_span))]
fn key_at(bytes: &[u8], header: Header, encoding: Encoding, index: u32) -> Result<Span, Error>
    requires { IsHeader bytes.now header }
    ensures { Gives (λ span. span ≡ head_span bytes.now index)
        result (first_failure (original_conditions bytes.now encoding index)) }
{
    let text = text_at(bytes, header.big_endian, header.originals, index)?;
    let len = key_len(&bytes[text.start..text.end + 1], encoding, index)?;
    Ok(Span {
        start: text.start,
        end: text.start + len,
    })
}

/// Where the forms of a row stand, with a NUL between each two of them.
#[tactic(auto, using(crate::proofs::Conditions::by_parts), unfolding(crate::specs::Faults::translation_conditions, crate::specs::Faults::forms_conditions))]
fn forms_at(bytes: &[u8], header: Header, encoding: Encoding, index: u32) -> Result<Span, Error>
    requires { IsHeader bytes.now header }
    ensures { Gives (IsTextSpan bytes.now (translations_of bytes.now) index)
        result (first_failure (translation_conditions bytes.now encoding index)) }
{
    let text = text_at(bytes, header.big_endian, header.translations, index)?;
    if !are_valid(encoding, &bytes[text.start..text.end]) {
        return Err(Error::DecodingError);
    }
    Ok(text)
}

/// Whether each of the forms is a text.
fn are_valid(encoding: Encoding, forms: &[u8]) -> bool
    ensures { result ≡ list_all (is_valid encoding) (pieces_of forms.now) }
{
    forms
        .split(|byte| *byte == 0)
        .all(|form| encoding.is_valid(form))
}

/// Where the texts of a row stand.
#[tactic(auto, using(crate::proofs::Conditions::by_parts), unfolding(crate::specs::Faults::row_conditions, crate::specs::Reader::row_of))]
pub fn row_at(bytes: &[u8], header: Header, encoding: Encoding, index: u32) -> Result<Row, Error>
    requires { IsHeader bytes.now header }
    ensures { Gives (IsReadRow bytes.now encoding index)
        result (first_failure (row_conditions bytes.now encoding index)) }
{
    let key = key_at(bytes, header, encoding, index)?;
    let forms = forms_at(bytes, header, encoding, index)?;
    Ok(Row { key, forms })
}

/// Reads the rows of texts in one encoding from a row on.
pub fn push_rows(
    rows: &mut Vec<Row>,
    bytes: &[u8],
    header: Header,
    encoding: Encoding,
    first: u32,
) -> Result<(), Error>
    requires header { IsHeader bytes.now header }
    requires first { first ≤ header.count }
    ensures { GivesInMemory (λ _. Pushed rows.old.items rows.new.items bytes.now encoding first
        (header.count - first)) result
        (first_failure (rows_conditions bytes.now encoding first (header.count - first))) }
{
    for index in first..header.count {
        rows.push(row_at(bytes, header, encoding, index)?)?;
    }
    Ok(())
}
