ghost use Rattle.std.specs.Prelude.{◌≡◌, ℕ, List, [], ◌∷◌, ◌++◌, Some, IfOk, OnOk, OnErr};
ghost use Rattle.std.specs.Prelude.{string_bytes, vec_len, encode_utf8_all};
ghost use Rattle.std.specs.Str.{chars};

use std::alloc::{AllocError, Global};
use std::fmt;
use std::marker::Model;

/// A text that a struct owns. Contracts see it as its list of characters.
#[derive(Debug, Drop)]
pub struct OwnedText {
    text: String,
}

impl Model for OwnedText {
    ghost use Rattle.std.specs.Prelude.{ℕ, List, string_bytes};
    ghost use Rattle.std.specs.Str.{chars};

    ghost Value = { List ℕ };

    ghost view = { λ s. chars (string_bytes s.text) };
}

impl OwnedText {
    /// The text without characters. It takes no memory.
    pub fn empty(alloc: Global) -> OwnedText
        ensures { result ≡ [] }
    {
        OwnedText {
            text: String::new(alloc),
        }
    }

    /// A copy of the text.
    pub fn new(alloc: Global, text: &str) -> Result<OwnedText, AllocError>
        ensures ok { IfOk result (λ copy. copy ≡ chars text.now) }
    {
        Ok(OwnedText {
            text: String::from_str(alloc, text)?,
        })
    }

    /// The text of a `String`, without a copy.
    pub fn from_string(text: String) -> OwnedText
        ensures { result ≡ chars (string_bytes text) }
    {
        OwnedText { text }
    }

    /// The text.
    pub fn as_str(&self) -> &str
        ensures { chars result.now ≡ self.now }
    {
        self.text.as_str()
    }
}

impl fmt::Display for OwnedText {
    ghost output = { λ text. Some (encode_utf8_all text) };

    fn fmt<W: fmt::Write>(&self, f: &mut fmt::Formatter<W>) -> fmt::Result {
        f.write_str(self.text.as_str())
    }
}

/// A row of a table that is handed in. A table with fewer cells doesn't look at the last ones.
#[derive(Debug, Drop)]
pub struct TextRow {
    pub first: OwnedText,
    pub second: OwnedText,
    pub third: OwnedText,
}

/// A list of texts. Contracts see it as the list of their lists of characters.
#[derive(Debug, Drop)]
pub struct TextList {
    texts: Vec<OwnedText>,
}

impl Model for TextList {
    ghost use Rattle.std.specs.Prelude.{ℕ, List};

    ghost Value = { List (List ℕ) };

    ghost view = { λ list. list.texts.items };
}

impl TextList {
    /// The list without texts.
    pub fn new(alloc: Global) -> TextList
        ensures { result ≡ [] }
    {
        TextList {
            texts: Vec::new(alloc),
        }
    }

    /// Puts a text at the end. Where memory runs out the text is dropped and the list stays.
    pub fn push(&mut self, text: OwnedText) -> Result<(), AllocError>
        ensures ok { OnOk result (self.new ≡ self.old ++ text ∷ []) }
        ensures err { OnErr result (self.new ≡ self.old) }
    {
        self.texts.push(text)?;
        Ok(())
    }

    /// The texts in order.
    pub fn as_slice(&self) -> &[OwnedText]
        ensures { result.now ≡ self.now }
    {
        self.texts.as_slice()
    }

    /// The list of these texts, without a copy.
    pub fn from_vec(texts: Vec<OwnedText>) -> TextList
        ensures { result ≡ texts.items }
    {
        TextList { texts }
    }

    /// The texts, without a copy.
    pub fn into_vec(self) -> Vec<OwnedText>
        ensures { result.items ≡ self }
    {
        self.texts
    }
}
