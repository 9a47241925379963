//! Tests of the shapes that subtags have in canonical case (UTS 35, Unicode locale identifiers).
ghost use Rattle.std.specs.Prelude.{◌≡◌};
ghost use Rattle.std.specs.Char.{is_ascii_digit, is_ascii_lowercase, is_ascii_uppercase};
ghost use Rattle.std.specs.List.{list_all};
ghost use Rattle.tinystr.specs.Shapes.{is_region, is_script, is_small, is_variant};

/// Letters in lower case.
pub fn are_lowercase(text: &[u8]) -> bool
    ensures { result ≡ list_all is_ascii_lowercase text.now }
{
    text.iter().all(u8::is_ascii_lowercase)
}

/// Letters in lower case and digits.
pub fn are_small(text: &[u8]) -> bool
    ensures { result ≡ list_all is_small text.now }
{
    text.iter()
        .all(|byte| byte.is_ascii_lowercase() || byte.is_ascii_digit())
}

/// A script: four letters, of which the first is a capital.
pub fn is_script(text: &[u8]) -> bool
    ensures { result ≡ is_script text.now }
{
    text.len() == 4 && text[0].is_ascii_uppercase() && are_lowercase(&text[1..])
}

/// A region: two capitals or three digits.
pub fn is_region(text: &[u8]) -> bool
    ensures { result ≡ is_region text.now }
{
    match text.len() {
        2 => are_uppercase(text),
        3 => are_digits(text),
        _ => false,
    }
}

/// A variant: five to eight letters or digits, or four of which the first is a digit.
pub fn is_variant(text: &[u8]) -> bool
    ensures { result ≡ is_variant text.now }
{
    match text.len() {
        4 => text[0].is_ascii_digit() && are_small(text),
        5..=8 => are_small(text),
        _ => false,
    }
}

fn are_uppercase(text: &[u8]) -> bool
    ensures { result ≡ list_all is_ascii_uppercase text.now }
{
    text.iter().all(u8::is_ascii_uppercase)
}

fn are_digits(text: &[u8]) -> bool
    ensures { result ≡ list_all is_ascii_digit text.now }
{
    text.iter().all(u8::is_ascii_digit)
}
