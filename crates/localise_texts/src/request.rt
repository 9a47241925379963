ghost use Rattle.std.specs.Prelude.{◌≡◌};
ghost use Rattle.std.specs.Option.{option_map};
ghost use Rattle.std.specs.Str.{chars};

use writeable_core::{OwnedText, TextList};

/// What is asked for: a message, in a language, for a count.
#[derive(Debug, Drop)]
pub struct Request {
    /// The language tag of the reader.
    pub tag: OwnedText,
    /// What tells messages of one singular apart.
    pub context: Option<OwnedText>,
    /// The message's words for one, by which it is looked up.
    pub singular: OwnedText,
    /// The message's words for any other count.
    pub plural: OwnedText,
    /// How many things the message speaks of.
    pub count: u64,
    /// What the joined items stand in the place of.
    pub placeholder: OwnedText,
    /// The items to be joined.
    pub items: TextList,
}

impl Request {
    /// The context, where there is one.
    pub fn context_text(&self) -> Option<&str>
        ensures { option_map (λ text. chars text.now) result ≡ self.now.context }
    {
        self.context.as_ref().map(|context| context.as_str())
    }
}
