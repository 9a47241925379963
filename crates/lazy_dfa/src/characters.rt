//! What single characters of a condition mean.

ghost use Rattle.std.specs.Prelude.{◌≡◌, ◌∷◌, []};
ghost use Rattle.std.specs.Option.{option_map};
ghost use Rattle.lazy_dfa.specs.Syntax.{is_literal, is_plain, is_punctuation};
ghost use Rattle.lazy_dfa.specs.Parsing.{behind, class_character_at, item_at};
ghost use Rattle.lazy_dfa.specs.Parsing.{punctuation_at, single_at};
ghost use Rattle.lazy_dfa.specs.Expression.{set_of};

/// What stands behind a character, where the text begins with it.
pub fn behind(text: &[char], c: char) -> Option<&[char]>
    ensures { option_map (λ rest. rest.now) result ≡ behind c text.now }
{
    match text.split_first()? {
        (first, rest) if *first == c => Some(rest),
        _ => None,
    }
}

fn is_punctuation(c: char) -> bool
    ensures { result ≡ is_punctuation c }
{
    c.is_ascii_punctuation()
}

/// Whether a character stands for itself outside classes.
fn is_literal(c: char) -> bool
    ensures { result ≡ is_literal c }
{
    !matches!(
        c,
        '\\' | '.' | '[' | ']' | '(' | ')' | '|' | '*' | '+' | '?' | '$' | '^' | '{' | '}'
    )
}

/// Whether a character stands for itself in a class.
fn is_plain(c: char) -> bool
    ensures { result ≡ is_plain c }
{
    !matches!(c, '[' | ']' | '\\' | '^' | '-' | '&' | '~')
}

/// The punctuation that the text begins with.
fn punctuation(text: &[char]) -> Option<(char, &[char])>
    ensures { option_map (λ x. (x.0, x.1.now)) result ≡ punctuation_at text.now }
{
    let (first, rest) = text.split_first()?;
    if is_punctuation(*first) {
        Some((*first, rest))
    } else {
        None
    }
}

/// The character of a class that the text begins with.
fn class_character(text: &[char]) -> Option<(char, &[char])>
    ensures { option_map (λ x. (x.0, x.1.now)) result ≡ class_character_at text.now }
{
    if let Some(rest) = behind(text, '\\') {
        return punctuation(rest);
    }
    let (first, rest) = text.split_first()?;
    if is_plain(*first) {
        Some((*first, rest))
    } else {
        None
    }
}

/// The item of a class that the text begins with: its first and last character.
pub fn item(text: &[char]) -> Option<(char, char, &[char])>
    ensures { option_map (λ x. ((x.0, x.1), x.2.now)) result ≡ item_at text.now }
{
    if let Some(rest) = behind(text, '\\').and_then(|rest| behind(rest, 'd')) {
        return Some(('0', '9', rest));
    }
    let (first, rest) = class_character(text)?;
    let Some(rest) = behind(rest, '-') else {
        return Some((first, first, rest));
    };
    let (last, rest) = class_character(rest)?;
    if first <= last {
        Some((first, last, rest))
    } else {
        None
    }
}

/// The set of the one character that the text begins with, where that is an atom: whether it is
/// negated, and its range.
pub fn single(text: &[char]) -> Option<(bool, char, char, &[char])>
    ensures { option_map (λ x. (set_of x.0 ((x.1, x.2) ∷ []), x.3.now)) result
        ≡ single_at text.now }
{
    if let Some(rest) = behind(text, '.') {
        return Some((true, '\n', '\n', rest));
    }
    if let Some(escaped) = behind(text, '\\') {
        if let Some(rest) = behind(escaped, 'd') {
            return Some((false, '0', '9', rest));
        }
        let (c, rest) = punctuation(escaped)?;
        return Some((false, c, c, rest));
    }
    let (c, rest) = text.split_first()?;
    if is_literal(*c) {
        Some((false, *c, *c, rest))
    } else {
        None
    }
}
