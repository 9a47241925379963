ghost use Rattle.std.specs.Prelude.{◌≡◌, ◌≢◌, ℕ, ◌≤◌, [], ◌∷◌, ◌++◌, List, Bool, Option, Some};
ghost use Rattle.std.specs.Prelude.{OnOk, OnErr, codes, chars};
ghost use Rattle.writeable_core.specs.Sink.{HasCause, TookPrefix};
ghost use Rattle.writeable_core.specs.SinkLaws.{front_of_longer, front_after};
ghost use Rattle.writeable_core.specs.Marks.{Mark, Open, Close, PartName, part_name, plain};
ghost use Rattle.writeable_core.specs.Marks.{characters, Opens, Nests, inside};
ghost use Rattle.writeable_core.specs.MarksLaws.{front_of_marks};
ghost use Rattle.writeable_core.specs.MarksLaws.{taken_inside, front_inside, front_unclosed};
ghost use Rattle.writeable_core.specs.MarksLaws.{still_open};

use crate::{Sink, SinkError};

/// What a piece of a text is: its category, and its value among those of the category.
#[derive(Clone, Copy, Debug, PartialEq, Eq)]
pub struct Part {
    pub category: &'static str,
    pub value: &'static str,
}

impl Part {
    /// The part of a text that stands for an error.
    pub const ERROR: Part = Part {
        category: "writeable",
        value: "error",
    };
}

/// A sink that takes marked texts too: texts in which parts open and close.
pub trait PartsWrite: Sink {
    /// The sink before, the marked text that it took, and the sink after.
    ghost took_marks: { Self → List Mark → Self → Type 0 };

    /// How many parts are open, where the sink tells it.
    ghost open_parts: { Self → Option ℕ };

    /// Opens a part, which ends at the `close_part` that belongs to it.
    fn open_part(&mut self, part: Part) -> Result<(), SinkError>
        ensures ok { OnOk result (took_marks self.old (Open (part_name part) ∷ []) self.new) }
        ensures err { OnErr result (took_marks self.old [] self.new) }
        ensures cause { HasCause (Self.faults self.old) (Self.faults self.new)
            (Self.takes_memory self.old) result };

    /// Closes the part that was opened last.
    fn close_part(&mut self) -> Result<(), SinkError>
        requires { open_parts self.old ≢ Some 0 }
        ensures ok { OnOk result (took_marks self.old (Close ∷ []) self.new) }
        ensures err { OnErr result (took_marks self.old [] self.new) }
        ensures cause { HasCause (Self.faults self.old) (Self.faults self.new)
            (Self.takes_memory self.old) result };

    ghost marks_both: { (a b c : Self) (s t : List Mark) → took_marks a s b → took_marks b t c
        → took_marks a (s ++ t) c };

    ghost marks_of_text: { (a b : Self) (t : List ℕ) → Self.took a t b → took_marks a (plain t) b };

    ghost text_of_marks: { (a b : Self) (t : List ℕ) → took_marks a (plain t) b → Self.took a t b };

    ghost marks_held: { (a b : Self) (m : List Mark) (h : List ℕ) → took_marks a m b
        → Self.held a ≡ Some h → Self.held b ≡ Some (h ++ characters m) };

    ghost marks_faults: { (a b : Self) (m : List Mark) → took_marks a m b
        → Self.faults a ≤ Self.faults b };

    ghost marks_memory: { (a b : Self) (m : List Mark) → took_marks a m b
        → Self.takes_memory b ≡ Self.takes_memory a };

    ghost marks_open: { (a b : Self) (m : List Mark) → took_marks a m b
        → Opens (open_parts a) m (open_parts b) };

    /// A front of a text is a front of the marked text of its characters.
    ghost marks_of_front: { (a b : Self) (t : List ℕ) → TookPrefix Self.took a t b
        → TookPrefix took_marks a (plain t) b } = { λ a b t p.
            front_of_marks Self.took took_marks a b t marks_of_text p };

    ghost marks_front_longer: { (a b : Self) (s t : List Mark) → TookPrefix took_marks a s b
        → TookPrefix took_marks a (s ++ t) b } = { λ a b s t p. front_of_longer s t p };

    ghost marks_front_behind: { (a b c : Self) (s t : List Mark) → took_marks a s b
        → TookPrefix took_marks b t c
        → TookPrefix took_marks a (s ++ t) c } = { λ a b c s t p q.
            front_after s t marks_both p q };

    /// A marked text inside one part, and its fronts.
    ghost marks_inside: { (a b c d : Self) (part : PartName) (m : List Mark)
        → took_marks a (Open part ∷ []) b → took_marks b m c → took_marks c (Close ∷ []) d
        → took_marks a (inside part m) d } = { taken_inside took_marks marks_both };

    ghost marks_front_inside: { (a b c : Self) (part : PartName) (m : List Mark)
        → took_marks a (Open part ∷ []) b → TookPrefix took_marks b m c
        → TookPrefix took_marks a (inside part m) c } = { front_inside took_marks marks_both };

    ghost marks_front_unclosed: { (a b c d : Self) (part : PartName) (m : List Mark)
        → took_marks a (Open part ∷ []) b → took_marks b m c → took_marks c [] d
        → TookPrefix took_marks a (inside part m) d } = { front_unclosed took_marks marks_both };

    /// Behind an opening mark and marks that nest a part is open, where that is told.
    ghost marks_still_open: { (a b c : Self) (part : PartName) (m : List Mark)
        → took_marks a (Open part ∷ []) b → Nests m → took_marks b m c
        → open_parts c ≢ Some 0 } = { λ a b c part m p nests q.
            still_open (open_parts a) (open_parts b) (open_parts c) part m
            (marks_open a b (Open part ∷ []) p) nests (marks_open b c m q) };
}
