//! How far a needle is matched, from one character of the text to the next.

ghost use Rattle.std.specs.Prelude.{◌≡◌, ℕ, ◌<◌, ◌≤◌, zero, List, [], ◌∷◌, length, chars, IfOk};
ghost use Rattle.std.specs.Prelude.{IfErr, MatchOption, OnOk, OnErr, take, IsCharBoundary, IsUtf8};
ghost use Rattle.std.specs.Prelude.{slice_index, ◌≢◌};
ghost use Rattle.writeable_core.specs.Sink.{TookPrefix, HasCause};
ghost use Rattle.writeable_replace.specs.Passed.{Passed, Refused};
ghost use Rattle.writeable_replace.specs.Position.{position, IsPosition, IsTried, GoesOn, Border};
ghost use Rattle.writeable_replace.specs.Position.{Resumed, IsFree};

use writeable_core::{Sink, SinkError, Writeable};

/// How many bytes the longest front of the text has that ends it and isn't all of it.
fn overlap_of(text: &str) -> usize
    requires { 1 ≤ length text.now }
    ensures shorter { result < length text.now }
    ensures border { Border text.now result }
{
    let bytes = text.as_bytes();
    for shift in 1..bytes.len() {
        if bytes.starts_with(&bytes[shift..]) {
            return bytes.len() - shift;
        }
    }
    0
}

/// How many bytes of the needle stay matched where a character follows `matched` of them, if the
/// needle goes on with it behind any.
fn resume(needle: &str, matched: usize, c: char) -> Option<usize>
    requires { IsPosition needle.now matched }
    ensures { MatchOption result ((IsTried (chars needle.now) (position needle.now matched) c 0)
        × (GoesOn (chars needle.now) 0 c → ⊥)) (λ kept. Resumed needle.now matched c kept) }
{
    let mut buffer = [0; 4];
    let next = c.encode_utf8(&mut buffer).as_bytes();
    let mut kept = matched;
    loop {
        if needle.as_bytes()[kept..].starts_with(next) {
            return Some(kept);
        }
        if kept == 0 {
            return None;
        }
        kept = overlap_of(&needle[..kept]);
    }
}

/// Passes on the first `count` bytes of a text.
pub(crate) fn pass_front<S: Sink>(text: &str, count: usize, sink: &mut S) -> Result<(), SinkError>
    requires { IsCharBoundary text.now count }
    ensures ok { OnOk result (S.took sink.old (chars (take count text.now)) sink.new) }
    ensures err { OnErr result (TookPrefix S.took sink.old (chars (take count text.now)) sink.new) }
    ensures cause { HasCause (S.faults sink.old) (S.faults sink.new)
        (S.takes_memory sink.old) result }
{
    if count == 0 {
        return Ok(());
    }
    sink.push_str(&text[..count])
}

/// Takes a character behind `matched` bytes of the needle: passes on what can't belong to an
/// occurrence any more, or the replacement, and says how much is matched then.
pub(crate) fn take_char<C: Writeable, S: Sink>(
    needle: &str,
    replacement: &C,
    matched: usize,
    c: char,
    sink: &mut S,
) -> Result<usize, SinkError>
    requires { IsPosition needle.now matched }
    ensures matched { IfOk result (λ m. IsPosition needle.now m) }
    ensures ok { IfOk result
        (λ m. Passed S.took (chars needle.now) (C.text replacement.now)
        (position needle.now matched) sink.old (c ∷ []) (position needle.now m) sink.new) }
    ensures err { IfErr result
        (λ e. Refused S.took S.faults S.takes_memory (chars needle.now) (C.text replacement.now)
        (position needle.now matched) sink.old (c ∷ []) e sink.new) }
{
    match resume(needle, matched, c) {
        None => {
            pass_front(needle, matched, sink)?;
            sink.push_char(c)?;
            Ok(0)
        }
        Some(kept) => {
            let end = kept + c.len_utf8();
            if end == needle.len() {
                replacement.write_to(sink)?;
                return Ok(0);
            }
            pass_front(needle, matched - kept, sink)?;
            Ok(end)
        }
    }
}

/// The first character of a text, and what is behind it.
fn split_first(text: &str) -> Option<(char, &str)>
    ensures { MatchOption result (chars text.now ≡ [])
        (λ x. (chars text.now ≡ x.0 ∷ chars x.1.now) × (length x.1.now < length text.now)
        × IsUtf8 x.1.now) }
{
    let mut all = text.chars();
    let c = all.next()?;
    Some((c, all.as_str()))
}

/// Where the byte stands first, or the length where it doesn't.
fn place_of(bytes: &[u8], byte: u8) -> usize
    ensures within { result ≤ length bytes.now }
    ensures before { (k : ℕ) → k < result → slice_index bytes.now k ≢ byte }
    ensures found { result < length bytes.now → slice_index bytes.now result ≡ byte }
{
    for (i, b) in bytes.iter().enumerate() {
        if *b == byte {
            return i;
        }
    }
    bytes.len()
}

/// How many bytes of a text pass as they are: where nothing is matched, those up to the needle's
/// first byte.
fn free_len(needle: &str, matched: usize, text: &str) -> usize
    requires { IsPosition needle.now matched }
    ensures { IsFree needle.now matched text.now result }
{
    if matched > 0 {
        return 0;
    }
    if needle.is_empty() {
        return text.len();
    }
    place_of(text.as_bytes(), needle.as_bytes()[0])
}

/// Takes a text behind `matched` bytes of the needle: passes on what can't belong to an occurrence
/// any more, with the replacements, and says how much is matched then.
pub(crate) fn take<C: Writeable, S: Sink>(
    needle: &str,
    replacement: &C,
    mut matched: usize,
    text: &str,
    sink: &mut S,
) -> Result<usize, SinkError>
    requires { IsPosition needle.now matched }
    ensures matched { IfOk result (λ m. IsPosition needle.now m) }
    ensures ok { IfOk result
        (λ m. Passed S.took (chars needle.now) (C.text replacement.now)
        (position needle.now matched) sink.old (chars text.now)
        (position needle.now m) sink.new) }
    ensures err { IfErr result
        (λ e. Refused S.took S.faults S.takes_memory (chars needle.now) (C.text replacement.now)
        (position needle.now matched) sink.old (chars text.now) e sink.new) }
{
    let mut rest = text;
    loop {
        let free = free_len(needle, matched, rest);
        pass_front(rest, free, sink)?;
        match split_first(&rest[free..]) {
            None => return Ok(matched),
            Some((c, behind)) => {
                matched = take_char(needle, replacement, matched, c, sink)?;
                rest = behind;
            }
        }
    }
}
