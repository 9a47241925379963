ghost use Rattle.std.specs.Prelude.{◌≡◌};

use crate::PatternTexts;
use std::marker::Model;
use writeable_core::OwnedText;

/// The bytes of an MO file. Contracts see them as a list.
#[derive(Debug, Drop)]
pub struct MoBytes {
    bytes: Vec<u8>,
}

impl Model for MoBytes {
    ghost use Rattle.std.specs.Prelude.{ℕ, List};

    ghost Value = { List ℕ };

    ghost view = { λ mo. mo.bytes.items };
}

impl MoBytes {
    /// The bytes, without a copy.
    pub fn from_vec(bytes: Vec<u8>) -> MoBytes
        ensures { result ≡ bytes.items }
    {
        MoBytes { bytes }
    }

    /// The bytes, without a copy.
    pub fn into_vec(self) -> Vec<u8>
        ensures { result.items ≡ self }
    {
        self.bytes
    }

    /// The bytes in order.
    pub fn as_slice(&self) -> &[u8]
        ensures { result.now ≡ self.now }
    {
        self.bytes.as_slice()
    }
}

/// A bundle as it is handed in: the tag of its language, its catalog, not yet read, and how its
/// locale joins lists.
#[derive(Debug, Drop)]
pub struct BundleText {
    pub tag: OwnedText,
    pub mo: MoBytes,
    pub list: PatternTexts,
}
