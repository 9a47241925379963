//! How a list is written.

ghost use Rattle.std.specs.Prelude.{◌≡◌, Some};

/// The length of the words between the items.
#[derive(Clone, Copy, Debug, PartialEq, Eq)]
pub enum ListLength {
    /// Whole words, as `A, B, and C`.
    Wide,
    /// Short ones, as `A, B, & C`.
    Short,
    /// The shortest, as `A, B, C`.
    Narrow,
}

impl Default for ListLength {
    ghost use Rattle.std.specs.Prelude.{◌≡◌};
    ghost use Rattle.icu_list.specs.declared.options.ListLength.TheVariants.{Wide};

    ghost is_default = { λ length. length ≡ Wide };

    fn default() -> Self {
        ListLength::Wide
    }
}

/// How a list is written: by default in the default length.
#[derive(Clone, Copy, Debug, PartialEq, Eq)]
pub struct ListFormatterOptions {
    /// The length, where one is set.
    pub length: Option<ListLength>,
}

impl Default for ListFormatterOptions {
    ghost use Rattle.std.specs.Prelude.{◌≡◌, None};

    ghost is_default = { λ options. options.length ≡ None };

    fn default() -> Self {
        ListFormatterOptions { length: None }
    }
}

impl ListFormatterOptions {
    /// The options with this length.
    pub fn with_length(self, length: ListLength) -> Self
        ensures { result.length ≡ Some length }
    {
        ListFormatterOptions {
            length: Some(length),
        }
    }
}
