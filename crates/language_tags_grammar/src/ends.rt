ghost use Rattle.std.specs.Prelude.{◌≡◌};
ghost use Rattle.language_tags_grammar.specs.Scan.{ends_at};

use crate::stage::Stage;

/// Where each part of a langtag ends in its text: where the part before it ends, if it is missing.
#[derive(Clone, Copy, Debug, PartialEq, Eq)]
pub struct Ends {
    pub language: usize,
    pub extlang: usize,
    pub script: usize,
    pub region: usize,
    pub variant: usize,
    pub extension: usize,
}
