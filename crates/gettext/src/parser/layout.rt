//! What stands where in an MO file: its header, its numbers, and the texts of its two tables.

ghost use Rattle.std.specs.Prelude.{◌≡◌, ◌+◌, ◌≤◌, length};
ghost use Rattle.writeable_core.specs.FirstFailure.{first_failure};
ghost use Rattle.gettext.specs.Layout.{is_big_endian, number};
ghost use Rattle.gettext.specs.Faults.{header_conditions, text_conditions};
ghost use Rattle.gettext.specs.Reader.{Gives, IsHeader, IsTextSpan};

use crate::error::Error;
use crate::spans::Span;

/// The magic number of a file whose numbers have the least significant byte first.
const LITTLE_ENDIAN: &[u8] = &[0xde, 0x12, 0x04, 0x95];

/// The magic number of a file whose numbers have the most significant byte first.
const BIG_ENDIAN: &[u8] = &[0x95, 0x04, 0x12, 0xde];

/// How many strings a file has, where its two tables start, and how its numbers are written.
#[derive(Clone, Copy)]
pub struct Header {
    pub count: u32,
    pub originals: u32,
    pub translations: u32,
    pub big_endian: bool,
}

/// The number that stands at a place.
#[tactic(auto, using(crate::proofs::Conditions::numbers_read))]
fn number_at(bytes: &[u8], big_endian: bool, at: usize) -> u32
    requires inside { at + 4 ≤ length bytes.now }
    requires order { big_endian ≡ is_big_endian bytes.now }
    ensures { result ≡ number bytes.now at }
{
    let number = [bytes[at], bytes[at + 1], bytes[at + 2], bytes[at + 3]];
    if big_endian {
        u32::from_be_bytes(number)
    } else {
        u32::from_le_bytes(number)
    }
}

/// Reads the header, and sees that the tables begin inside the file.
#[tactic(auto, unfolding(crate::specs::Faults::header_conditions))]
pub fn header_of(bytes: &[u8]) -> Result<Header, Error>
    ensures { Gives (IsHeader bytes.now) result (first_failure (header_conditions bytes.now)) }
{
    if bytes.len() < 28 {
        return Err(Error::Eof);
    }
    let magic = &bytes[..4];
    let big_endian = magic == BIG_ENDIAN;
    if magic != LITTLE_ENDIAN && !big_endian {
        return Err(Error::BadMagic);
    }
    let header = Header {
        count: number_at(bytes, big_endian, 8),
        originals: number_at(bytes, big_endian, 12),
        translations: number_at(bytes, big_endian, 16),
        big_endian,
    };
    if bytes.len() < header.originals as usize {
        return Err(Error::Eof);
    }
    if bytes.len() < header.translations as usize {
        return Err(Error::Eof);
    }
    Ok(header)
}

/// Where the text of a table's row stands. One closing byte stands behind it.
#[tactic(auto, unfolding(crate::specs::Faults::text_conditions, crate::specs::Reader::text_span))]
pub fn text_at(bytes: &[u8], big_endian: bool, table: u32, index: u32) -> Result<Span, Error>
    requires { big_endian ≡ is_big_endian bytes.now }
    ensures { Gives (IsTextSpan bytes.now table index)
        result (first_failure (text_conditions bytes.now table index)) }
{
    let row = table as usize + 8 * index as usize;
    if bytes.len() < row + 8 {
        return Err(Error::Eof);
    }
    let length = number_at(bytes, big_endian, row) as usize;
    let start = number_at(bytes, big_endian, row + 4) as usize;
    let end = start + length;
    if bytes.len() < end + 1 {
        return Err(Error::Eof);
    }
    Ok(Span { start, end })
}
