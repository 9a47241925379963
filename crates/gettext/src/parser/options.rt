//! How a file is asked to be read.

ghost use Rattle.std.specs.Prelude.{◌≡◌};
ghost use Rattle.gettext.specs.Mo.{first_encoding};

use crate::encoding::Encoding;

/// What is forced on a file.
#[derive(Clone, Copy)]
pub struct Options {
    /// The encoding of every text.
    pub encoding: Option<Encoding>,
    /// Whether a function is the plural rule.
    pub forced: bool,
}

impl Options {
    /// The encoding of row 0.
    pub fn first_encoding(self) -> Encoding
        ensures { result ≡ first_encoding self }
    {
        self.encoding.unwrap_or(Encoding::Utf8)
    }
}
