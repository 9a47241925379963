//! Texts in other encodings than UTF-8, decoded into a buffer of their own.

ghost use Rattle.std.specs.Prelude.{IfOk};
ghost use Rattle.gettext.specs.Decoding.{AreRowsIn, Decodes, DecodesRow};
ghost use Rattle.gettext.specs.Reader.{IsRowIn};

use crate::encoding::Encoding;
use crate::spans::{Row, Span, bytes_of};
use std::alloc::{AllocError, Global};

/// Texts in UTF-8, one behind the other, and where each row's stand in them.
#[derive(Drop)]
pub struct Decoded {
    pub texts: Vec<u8>,
    pub rows: Vec<Row>,
}

/// Decodes the texts of rows: those of the first in one encoding, and those of the others in
/// another.
pub fn decode(
    alloc: Global,
    bytes: &[u8],
    rows: &[Row],
    first: Encoding,
    later: Encoding,
) -> Result<Decoded, AllocError>
    requires { AreRowsIn bytes.now first later rows.now }
    ensures { IfOk result (λ d. Decodes bytes.now first later rows.now d.texts.items d.rows.items) }
{
    let mut texts = Vec::new(alloc);
    let mut decoded = Vec::with_capacity(alloc, rows.len())?;
    let mut encoding = first;
    for row in rows {
        let row = push_row(bytes, *row, encoding, &mut texts)?;
        decoded.push(row)?;
        encoding = later;
    }
    Ok(Decoded {
        texts,
        rows: decoded,
    })
}

/// Appends the texts of a row, and says where they stand.
fn push_row(
    bytes: &[u8],
    row: Row,
    encoding: Encoding,
    texts: &mut Vec<u8>,
) -> Result<Row, AllocError>
    requires { IsRowIn bytes.now encoding row }
    ensures { IfOk result (DecodesRow bytes.now encoding row texts.old.items texts.new.items) }
{
    let start = texts.len();
    encoding.push_decoded(bytes_of(bytes, row.key), texts)?;
    let middle = texts.len();
    encoding.push_decoded(bytes_of(bytes, row.forms), texts)?;
    Ok(Row {
        key: Span { start, end: middle },
        forms: Span {
            start: middle,
            end: texts.len(),
        },
    })
}
