//! Laws of tags and their texts. Each function does nothing: its contract is the law.
ghost use Rattle.std.specs.Prelude.{◌≡◌, ◌⊎◌, ℕ, List};
ghost use Rattle.language_tags_grammar.specs.Tag.{Tag, print};
ghost use Rattle.language_tags_grammar.specs.TagFault.{IsFaultOf};
ghost use Rattle.language_tags_grammar.specs.TagOf.{IsTagOf};
ghost use Rattle.language_tags_grammar.specs.declared.error.ParseError.{ParseError as Fault};

/// A text has one tag at most, and one fault at most; it has a tag or a fault, never both and never
/// neither; and the text of a tag that was parsed has that tag.
pub fn texts_and_tags()
    ensures one { (text : List ℕ) (g h : Tag) → IsTagOf text g → IsTagOf text h → g ≡ h }
    ensures one_fault { (text : List ℕ) (a b : Fault) → IsFaultOf text a → IsFaultOf text b
        → a ≡ b }
    ensures never_neither { (text : List ℕ)
        → ((g : Tag) × IsTagOf text g) ⊎ ((fault : Fault) × IsFaultOf text fault) }
    ensures never_both { (text : List ℕ) (g : Tag) (fault : Fault) → IsTagOf text g
        → ¬ IsFaultOf text fault }
    ensures again { (text : List ℕ) (g : Tag) → IsTagOf text g → IsTagOf (print g) g }
{}
