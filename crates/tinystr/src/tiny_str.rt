ghost use Rattle.std.specs.Prelude.{◌≡◌, ℕ, ◌<◌, ◌≤◌, ◌↔◌, List, Some, IsOk, IsTrue, IfOk};
ghost use Rattle.std.specs.Prelude.{Contains, length, map, nat_eq, refl};
ghost use Rattle.std.specs.Char.{is_ascii_alphabetic, is_ascii_alphanumeric, is_ascii_digit};
ghost use Rattle.std.specs.Char.{to_ascii_lowercase, to_ascii_uppercase};
ghost use Rattle.std.specs.Cmp.{on_equiv, on_total, on_po, on_per, partial_equiv_from_equiv};
ghost use Rattle.std.specs.Cmp.Lexicographic.{pointwise, slice_cmp, nat_list_eq_equiv};
ghost use Rattle.std.specs.Cmp.Lexicographic.{nat_list_cmp_total, texts_po, texts_ties};
ghost use Rattle.std.specs.Cmp.Rules.{hashing};
ghost use Rattle.std.specs.Hash as fed;
ghost use Rattle.std.specs.List.{All, list_all};
ghost use Rattle.std.specs.Ordering.{nat_cmp};
ghost use Rattle.std.specs.Str.{IsAscii, IsNotAscii, chars};
ghost use Rattle.std.proofs.Common.{rules};
ghost use Rattle.tinystr.specs.Text.{IsTextByte, IsTinyText, titlecase};

use crate::TinyError;
use std::cmp::Ordering;
use std::hash::{Hash, Hasher};
use std::marker::Model;
use std::{fmt, str};

/// An ASCII text without NUL, of at most `N` bytes. Contracts see the text.
///
/// It is meant for N from 1 to 8. The bytes that the text leaves are NUL, so the value is no
/// larger than its text may be.
#[derive(Clone, Copy)]
pub struct TinyStr<const N: usize> {
    bytes: [u8; N],
}

impl<const N: usize> Model for TinyStr<N> {
    ghost use Rattle.std.specs.Prelude.{ℕ, List};
    ghost use Rattle.std.proofs.Common.{sym};
    ghost use Rattle.tinystr.specs.Text.{HoldsText, padded, unpadded};

    ghost Value = { List ℕ };

    ghost view = { λ s. unpadded s.bytes };

    ghost invariant = { λ s. HoldsText N s.bytes };

    ghost inverse = { λ text. record { bytes = padded N text } };

    ghost inverse_ok = { λ s h i. record { bytes = sym h.filled i } };
}

impl<const N: usize> TinyStr<N> {
    /// The text of these bytes. Where several causes hold, the answer is the first in the order
    /// of `TinyError`.
    pub fn try_from_bytes(bytes: &[u8]) -> Result<Self, TinyError>
        ensures ok { IfOk result (λ text. text ≡ bytes.now) }
        ensures variant { IsOk result ↔ IsTinyText N bytes.now }
        ensures too_large { (result ≡ Err TinyError.TooLarge) ↔ (N < length bytes.now) }
        ensures non_ascii { (result ≡ Err TinyError.NonAscii)
            ↔ ((length bytes.now ≤ N) × IsNotAscii bytes.now) }
        ensures contains_null { (result ≡ Err TinyError.ContainsNull)
            ↔ ((length bytes.now ≤ N) × IsAscii bytes.now × Contains bytes.now 0) }
    {
        if bytes.len() > N {
            return Err(TinyError::TooLarge);
        }
        if !bytes.is_ascii() {
            return Err(TinyError::NonAscii);
        }
        if bytes.contains(&0) {
            return Err(TinyError::ContainsNull);
        }
        let mut padded = [0; N];
        padded[..bytes.len()].copy_from_slice(bytes);
        Ok(TinyStr { bytes: padded })
    }

    /// The text.
    pub fn as_str(&self) -> &str
        ensures value { result.now ≡ self.now }
        ensures characters { chars result.now ≡ self.now }
        ensures text { IsTinyText N result.now }
    {
        unsafe { str::from_utf8_unchecked(&self.bytes[..self.len()]) }
    }

    /// The number of bytes, which is that of the characters.
    pub fn len(&self) -> usize
        ensures value { result ≡ length self.now }
        ensures fits { result ≤ N }
    {
        self.bytes.iter().position(|byte| *byte == 0).unwrap_or(N)
    }

    /// Whether every character is an ASCII letter.
    pub fn is_ascii_alphabetic(&self) -> bool
        ensures { result ≡ list_all is_ascii_alphabetic self.now }
    {
        self.as_str().as_bytes().iter().all(u8::is_ascii_alphabetic)
    }

    /// Whether every character is an ASCII digit.
    pub fn is_ascii_numeric(&self) -> bool
        ensures { result ≡ list_all is_ascii_digit self.now }
    {
        self.as_str().as_bytes().iter().all(u8::is_ascii_digit)
    }

    /// Whether every character is an ASCII letter or digit.
    pub fn is_ascii_alphanumeric(&self) -> bool
        ensures { result ≡ list_all is_ascii_alphanumeric self.now }
    {
        self.as_str()
            .as_bytes()
            .iter()
            .all(u8::is_ascii_alphanumeric)
    }

    /// The text in lower case.
    pub fn to_ascii_lowercase(mut self) -> Self
        ensures { result ≡ map to_ascii_lowercase self.entry }
    {
        self.bytes.make_ascii_lowercase();
        self
    }

    /// The text in upper case.
    pub fn to_ascii_uppercase(mut self) -> Self
        ensures { result ≡ map to_ascii_uppercase self.entry }
    {
        self.bytes.make_ascii_uppercase();
        self
    }

    /// The text with its first character in upper case and the others in lower case.
    pub fn to_ascii_titlecase(self) -> Self
        ensures { result ≡ titlecase self.entry }
    {
        let mut title = self.to_ascii_lowercase();
        if let Some(first) = title.bytes.first_mut() {
            *first = first.to_ascii_uppercase();
        }
        title
    }
}

impl<const N: usize> PartialEq for TinyStr<N> {
    ghost eq = { λ s t. pointwise nat_eq s t };

    ghost laws = { on_per (λ s. s) (partial_equiv_from_equiv nat_list_eq_equiv) };

    fn eq(&self, other: &Self) -> bool {
        self.as_str() == other.as_str()
    }
}

impl<const N: usize> Eq for TinyStr<N> {
    ghost laws = { on_equiv (λ s. s) nat_list_eq_equiv };
}

impl<const N: usize> PartialOrd for TinyStr<N> {
    ghost partial_cmp = { λ s t. Some (slice_cmp nat_cmp s t) };

    ghost laws = { on_po (λ s. s) texts_po };

    fn partial_cmp(&self, other: &Self) -> Option<Ordering> {
        Some(self.cmp(other))
    }
}

impl<const N: usize> Ord for TinyStr<N> {
    ghost cmp = { λ s t. slice_cmp nat_cmp s t };

    ghost total = { on_total (λ s. s) nat_list_cmp_total };

    ghost matches_partial_cmp = { λ s t. refl };

    ghost matches_eq = { λ s t. texts_ties s t };

    fn cmp(&self, other: &Self) -> Ordering {
        self.as_str().cmp(other.as_str())
    }
}

impl<const N: usize> Hash for TinyStr<N> {
    ghost hash_input = { λ s. fed.str s };

    ghost respects_eq = { Prim.search (hashing, rules) };

    fn hash<H: Hasher>(&self, state: &mut H) {
        self.as_str().hash(state);
    }
}

impl<const N: usize> fmt::Debug for TinyStr<N> {
    fn fmt<W: fmt::Write>(&self, f: &mut fmt::Formatter<W>) -> fmt::Result {
        fmt::Debug::fmt(self.as_str(), f)
    }
}

impl<const N: usize> fmt::Display for TinyStr<N> {
    ghost output = { λ s. Some s };

    fn fmt<W: fmt::Write>(&self, f: &mut fmt::Formatter<W>) -> fmt::Result {
        f.pad(self.as_str())
    }
}
