ghost use Rattle.std.specs.Prelude.{◌≡◌, List, ℕ, map};
ghost use Rattle.std.specs.List.{find};
ghost use Rattle.std.specs.Option.{option_copied};
ghost use Rattle.std.specs.Str.{bytes_eq};
ghost use Rattle.language_tags_grammar.specs.Grandfathered.{grandfathered, is_grandfathered};
ghost use Rattle.language_tags_grammar.specs.Grandfathered.{may_be_grandfathered};
ghost use Rattle.language_tags_grammar.specs.Pieces.{lowercase};

/// The grandfathered tags of RFC 5646.
pub const GRANDFATHEREDS: [&str; 26] = [
    "art-lojban",
    "cel-gaulish",
    "en-GB-oed",
    "i-ami",
    "i-bnn",
    "i-default",
    "i-enochian",
    "i-hak",
    "i-klingon",
    "i-lux",
    "i-mingo",
    "i-navajo",
    "i-pwn",
    "i-tao",
    "i-tay",
    "i-tsu",
    "no-bok",
    "no-nyn",
    "sgn-BE-FR",
    "sgn-BE-NL",
    "sgn-CH-DE",
    "zh-guoyu",
    "zh-hakka",
    "zh-min",
    "zh-min-nan",
    "zh-xiang",
];

/// The grandfathered tag that a text is without its case.
pub fn grandfathered(text: &str) -> Option<&'static str>
    ensures { option_copied result ≡ grandfathered text.now }
{
    if may_be_grandfathered(text.as_bytes()) {
        find_without_case(&GRANDFATHEREDS, text)
    } else {
        None
    }
}

/// Whether the text has the length and the first letter of some grandfathered tag. Few others have.
fn may_be_grandfathered(text: &[u8]) -> bool
    ensures { result ≡ may_be_grandfathered (lowercase text.now) }
{
    if text.len() < 5 || text.len() > 11 {
        return false;
    }
    matches!(
        text[0].to_ascii_lowercase(),
        b'a' | b'c' | b'e' | b'i' | b'n' | b's' | b'z'
    )
}

fn find_without_case<'a>(tags: &[&'a str], text: &str) -> Option<&'a str>
    ensures { option_copied result
        ≡ find (λ tag. bytes_eq (lowercase tag) (lowercase text.now))
        (map (λ tag. tag.now) tags.now) }
{
    for tag in tags {
        if tag.eq_ignore_ascii_case(text) {
            return Some(*tag);
        }
    }
    None
}

/// Whether a text is a grandfathered tag in its own spelling.
pub fn is_grandfathered(text: &str) -> bool
    ensures { result ≡ is_grandfathered text.now }
{
    match grandfathered(text) {
        Some(tag) => tag == text,
        None => false,
    }
}
