//! The shapes of languages. Those of the other subtags are of `tinystr`.
ghost use Rattle.std.specs.Prelude.{◌≡◌};
ghost use Rattle.language_tags_grammar.specs.Shapes.{is_extlang};
ghost use Rattle.language_tags_registry.specs.Subtags.{is_language};

use tinystr::shapes::are_lowercase;

/// Two or three small letters.
pub(crate) fn is_language(text: &[u8]) -> bool
    ensures { result ≡ is_language text.now }
{
    match text.len() {
        2 | 3 => are_lowercase(text),
        _ => false,
    }
}

/// Three small letters.
pub(crate) fn is_extlang(text: &[u8]) -> bool
    ensures { result ≡ is_extlang text.now }
{
    text.len() == 3 && are_lowercase(text)
}
