//! The encodings of the texts of an MO file.

ghost use Rattle.std.specs.Prelude.{◌≡◌, ◌++◌, OnOk, encode_utf8};
ghost use Rattle.std.specs.List.{list_any};
ghost use Rattle.std.specs.Str.{str_eq_ignore_ascii_case};
ghost use Rattle.gettext.specs.Encoding.{windows_1252, is_valid, utf8_in, encoding_of};

use std::alloc::AllocError;
use std::str;

/// How bytes stand for characters.
#[derive(Clone, Copy, Debug, PartialEq, Eq)]
pub enum Encoding {
    Utf8,
    /// ISO 8859-1: each byte is the character of its number.
    Latin1,
    Windows1252,
}

const UTF_8_LABELS: [&str; 3] = ["utf-8", "utf8", "unicode-1-1-utf-8"];

const WINDOWS_1252_LABELS: [&str; 17] = [
    "ascii",
    "us-ascii",
    "ansi_x3.4-1968",
    "cp819",
    "ibm819",
    "iso-8859-1",
    "iso8859-1",
    "iso88591",
    "iso_8859-1",
    "iso_8859-1:1987",
    "iso-ir-100",
    "csisolatin1",
    "l1",
    "latin1",
    "windows-1252",
    "cp1252",
    "x-cp1252",
];

/// The characters of the bytes 0x80 to 0x9F in windows-1252.
const HIGH_CHARACTERS: [char; 32] = [
    '\u{20AC}', '\u{81}', '\u{201A}', '\u{192}', '\u{201E}', '\u{2026}', '\u{2020}', '\u{2021}',
    '\u{2C6}', '\u{2030}', '\u{160}', '\u{2039}', '\u{152}', '\u{8D}', '\u{17D}', '\u{8F}',
    '\u{90}', '\u{2018}', '\u{2019}', '\u{201C}', '\u{201D}', '\u{2022}', '\u{2013}', '\u{2014}',
    '\u{2DC}', '\u{2122}', '\u{161}', '\u{203A}', '\u{153}', '\u{9D}', '\u{17E}', '\u{178}',
];

impl Encoding {
    /// The encoding that a label names, without case and with ASCII white space around it
    /// (WHATWG Encoding, 'Names and labels'). The labels of ISO 8859-1 name windows-1252 there,
    /// so no label names `Latin1`.
    pub fn from_label(label: &str) -> Option<Encoding>
        ensures { result ≡ encoding_of label.now }
    {
        let name = label.trim_ascii();
        if is_among(&UTF_8_LABELS, name) {
            Some(Encoding::Utf8)
        } else if is_among(&WINDOWS_1252_LABELS, name) {
            Some(Encoding::Windows1252)
        } else {
            None
        }
    }

    /// Whether the bytes are a text.
    pub(crate) fn is_valid(self, bytes: &[u8]) -> bool
        ensures { result ≡ is_valid self bytes.now }
    {
        match self {
            Encoding::Utf8 => str::from_utf8(bytes).is_ok(),
            Encoding::Latin1 | Encoding::Windows1252 => true,
        }
    }

    /// Appends the text of the bytes in UTF-8.
    pub(crate) fn push_decoded(self, bytes: &[u8], texts: &mut Vec<u8>) -> Result<(), AllocError>
        ensures { OnOk result (texts.new.items ≡ texts.old.items ++ utf8_in self bytes.now) }
    {
        match self {
            Encoding::Utf8 => texts.extend_from_slice(bytes)?,
            Encoding::Latin1 => {
                for byte in bytes {
                    push_char(char::from(*byte), texts)?;
                }
            }
            Encoding::Windows1252 => {
                for byte in bytes {
                    push_char(windows_1252_char(*byte), texts)?;
                }
            }
        }
        Ok(())
    }
}

fn is_among(labels: &[&str], name: &str) -> bool
    ensures { result ≡ list_any (λ label. str_eq_ignore_ascii_case name.now label.now) labels.now }
{
    labels.iter().any(|label| name.eq_ignore_ascii_case(label))
}

fn windows_1252_char(byte: u8) -> char
    ensures { result ≡ windows_1252 byte }
{
    match byte {
        0x80..=0x9F => HIGH_CHARACTERS[usize::from(byte - 0x80)],
        _ => char::from(byte),
    }
}

fn push_char(c: char, texts: &mut Vec<u8>) -> Result<(), AllocError>
    ensures { OnOk result (texts.new.items ≡ texts.old.items ++ encode_utf8 c) }
{
    let mut buffer = [0; 4];
    texts.extend_from_slice(c.encode_utf8(&mut buffer).as_bytes())
}
