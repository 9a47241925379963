//! The tokens of a plural expression.

ghost use Rattle.std.specs.Prelude.{◌≡◌, ◌⊎◌, ◌<◌, ◌≤◌, ◌^◌, length, IfOk, IfErr, IfSome};
ghost use Rattle.std.specs.Option.{option_map, SomeIff};
ghost use Rattle.std.specs.List.{prefix_len, take_while};
ghost use Rattle.std.specs.Char.{is_ascii_digit};
ghost use Rattle.std.specs.Str.Parse.{digits_value, AllDigits};
ghost use Rattle.gettext.specs.declared.error.Error.TheVariants.{NoMemory, PluralParsing};
ghost use Rattle.gettext.specs.Tokens.{measured, word_at, token_at, is_space, Reads, IsUnreadable};

use super::expression::Operator;
use crate::error::Error;
use std::alloc::Global;

/// A token. White space stands between tokens alone.
#[derive(Clone, Copy)]
pub enum Token {
    Name,
    Numeral(u64),
    Open,
    Close,
    Question,
    Colon,
    Bang,
    Operator(Operator),
}

/// The words of the language. One that begins another stands behind it.
const WORDS: [(&[u8], Token); 19] = [
    (b"==", Token::Operator(Operator::Equal)),
    (b"!=", Token::Operator(Operator::NotEqual)),
    (b">=", Token::Operator(Operator::GreaterOrEqual)),
    (b"<=", Token::Operator(Operator::SmallerOrEqual)),
    (b"&&", Token::Operator(Operator::And)),
    (b"||", Token::Operator(Operator::Or)),
    (b">", Token::Operator(Operator::Greater)),
    (b"<", Token::Operator(Operator::Smaller)),
    (b"%", Token::Operator(Operator::Modulo)),
    (b"+", Token::Operator(Operator::Add)),
    (b"-", Token::Operator(Operator::Subtract)),
    (b"*", Token::Operator(Operator::Multiply)),
    (b"/", Token::Operator(Operator::Divide)),
    (b"!", Token::Bang),
    (b"n", Token::Name),
    (b"(", Token::Open),
    (b")", Token::Close),
    (b"?", Token::Question),
    (b":", Token::Colon),
];

/// The tokens of a text, in order.
pub fn tokens_of(alloc: Global, text: &[u8]) -> Result<Vec<Token>, Error>
    ensures ok { IfOk result (λ tokens. Reads text.now tokens.items) }
    ensures err { IfErr result
        (λ e. (e ≡ NoMemory) ⊎ ((e ≡ PluralParsing) × IsUnreadable text.now)) }
{
    let mut tokens = Vec::new(alloc);
    let mut rest = text;
    while let Some((first, others)) = rest.split_first() {
        if is_space(*first) {
            rest = others;
            continue;
        }
        let Some((token, len)) = token_at(rest) else {
            return Err(Error::PluralParsing);
        };
        tokens.push(token)?;
        rest = &rest[len..];
    }
    Ok(tokens)
}

/// Space and U+0009 to U+000D.
fn is_space(byte: u8) -> bool
    ensures { result ≡ is_space byte }
{
    matches!(byte, b' ' | b'\t'..=b'\r')
}

/// The token that a text begins with, and its length.
fn token_at(text: &[u8]) -> Option<(Token, usize)>
    ensures value { result ≡ token_at text.now }
    ensures inside { IfSome result (λ r. (0 < r.1) × (r.1 ≤ length text.now)) }
{
    let digits = digits_of(text);
    if digits.is_empty() {
        return word_at(text);
    }
    Some((Token::Numeral(number_of(digits)?), digits.len()))
}

/// The digits that a text begins with.
fn digits_of(text: &[u8]) -> &[u8]
    ensures value { result.now ≡ take_while is_ascii_digit text.now }
    ensures digits { AllDigits 10 result.now }
    ensures inside { length result.now ≤ length text.now }
{
    &text[..digits_len(text)]
}

fn digits_len(text: &[u8]) -> usize
    ensures value { result ≡ prefix_len is_ascii_digit text.now }
    ensures inside { result ≤ length text.now }
{
    text.iter().take_while(|byte| byte.is_ascii_digit()).count()
}

/// The number that digits spell, unless it passes 64 bits.
fn number_of(digits: &[u8]) -> Option<u64>
    requires { AllDigits 10 digits.now }
    ensures { SomeIff result (digits_value 10 digits.now < 2 ^ 64) (digits_value 10 digits.now) }
{
    let mut number: u64 = 0;
    for digit in digits {
        number = number
            .checked_mul(10)?
            .checked_add(u64::from(*digit - b'0'))?;
    }
    Some(number)
}

/// The word that a text begins with, as its token and its length.
fn word_at(text: &[u8]) -> Option<(Token, usize)>
    ensures value { result ≡ option_map measured (word_at text.now) }
    ensures inside { IfSome result (λ r. (0 < r.1) × (r.1 ≤ length text.now)) }
{
    let (word, token) = WORDS.iter().find(|(word, _)| text.starts_with(word))?;
    Some((*token, word.len()))
}
