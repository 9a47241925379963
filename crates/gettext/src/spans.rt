//! Ranges of a buffer, and the pieces of a text between its NULs.

ghost use Rattle.std.specs.Prelude.{◌≡◌, ◌≤◌, length};
ghost use Rattle.std.specs.Option.{option_map};
ghost use Rattle.std.specs.List.{slice_get, position_or_len};
ghost use Rattle.memchr.specs.Find.{is_byte};
ghost use Rattle.gettext.specs.Layout.{pieces_of};
ghost use Rattle.gettext.specs.Table.{IsPieceSpan, LiesIn, bytes_at};

use memchr::memchr;

/// A range of bytes in a buffer.
#[derive(Clone, Copy)]
pub struct Span {
    pub start: usize,
    pub end: usize,
}

/// Where a message's key stands, and where its forms stand, with a NUL between each two of them.
#[derive(Clone, Copy)]
pub struct Row {
    pub key: Span,
    pub forms: Span,
}

/// The bytes of a range.
pub fn bytes_of(buffer: &[u8], span: Span) -> &[u8]
    requires { LiesIn buffer.now span }
    ensures { result.now ≡ bytes_at buffer.now span }
{
    &buffer[span.start..span.end]
}

/// What stands between two NULs, or between one and an end of the text, by its number from 0 on.
pub fn nth_piece(text: &[u8], number: usize) -> Option<&[u8]>
    ensures { option_map (λ piece. piece.now) result ≡ slice_get (pieces_of text.now) number }
{
    let (start, end) = nth_span(text, number)?;
    Some(&text[start..end])
}

/// How many pieces there are.
pub fn piece_count(text: &[u8]) -> usize
    ensures { result ≡ length (pieces_of text.now) }
{
    text.split(|byte| *byte == 0).count()
}

/// Where the piece with that number stands.
pub fn nth_span(text: &[u8], number: usize) -> Option<(usize, usize)>
    ensures { IsPieceSpan text.now result (slice_get (pieces_of text.now) number) }
{
    let mut start = 0;
    for _ in 0..number {
        let len = place_of(0, &text[start..]);
        if start + len == text.len() {
            return None;
        }
        start += len + 1;
    }
    Some((start, start + place_of(0, &text[start..])))
}

/// The place of the first such byte, or the length of the text where there is none.
pub fn place_of(byte: u8, text: &[u8]) -> usize
    ensures value { result ≡ position_or_len (is_byte byte) text.now }
    ensures inside { result ≤ length text.now }
{
    memchr(byte, text).unwrap_or(text.len())
}
