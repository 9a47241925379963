//! The parts of a list's marked text.

use writeable_core::Part;

/// An item of the list.
pub const ELEMENT: Part = Part {
    category: "list",
    value: "element",
};

/// A text of the patterns: what stands before, between and behind items.
pub const LITERAL: Part = Part {
    category: "list",
    value: "literal",
};
