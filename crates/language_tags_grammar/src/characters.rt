//! Of which characters a text is.
ghost use Rattle.std.specs.Prelude.{◌≡◌, not};
ghost use Rattle.std.specs.Char.{is_ascii_alphabetic, is_ascii_alphanumeric, is_ascii_digit};
ghost use Rattle.std.specs.Char.{is_ascii_lowercase, is_ascii_uppercase};
ghost use Rattle.std.specs.List.{list_all};

pub fn are_alphabetic(text: &[u8]) -> bool
    ensures { result ≡ list_all is_ascii_alphabetic text.now }
{
    text.iter().all(u8::is_ascii_alphabetic)
}

pub fn are_numeric(text: &[u8]) -> bool
    ensures { result ≡ list_all is_ascii_digit text.now }
{
    text.iter().all(u8::is_ascii_digit)
}

pub fn are_alphanumeric(text: &[u8]) -> bool
    ensures { result ≡ list_all is_ascii_alphanumeric text.now }
{
    text.iter().all(u8::is_ascii_alphanumeric)
}

pub(crate) fn has_no_capitals(text: &[u8]) -> bool
    ensures { result ≡ list_all (λ c. not (is_ascii_uppercase c)) text.now }
{
    text.iter().all(|byte| !byte.is_ascii_uppercase())
}

pub(crate) fn has_no_smalls(text: &[u8]) -> bool
    ensures { result ≡ list_all (λ c. not (is_ascii_lowercase c)) text.now }
{
    text.iter().all(|byte| !byte.is_ascii_lowercase())
}
