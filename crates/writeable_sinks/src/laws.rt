//! Laws, for contracts that cite them. Each function does nothing: its contract is the law.

ghost use Rattle.std.specs.Prelude.{◌≡◌, List, []};
ghost use Rattle.writeable_core.specs.Marks.{Mark, Nests, characters};
ghost use Rattle.writeable_sinks.specs.PartsSink.{Parts, TookMarks, no_parts};
ghost use Rattle.writeable_sinks.specs.Spans.{Spans};

/// What a [`PartsSink`](crate::PartsSink) holds that had taken nothing and then took a marked text:
/// its characters, and the spans of its parts. Where the marks nest, no part is open.
pub fn spans_are_those_of_the_marks()
    ensures text { (marks : List Mark) (sink : Parts) → TookMarks no_parts marks sink
        → sink.text ≡ characters marks }
    ensures spans { (marks : List Mark) (sink : Parts) → TookMarks no_parts marks sink
        → Spans marks sink.spans }
    ensures closed { (marks : List Mark) (sink : Parts) → Nests marks
        → TookMarks no_parts marks sink → sink.begun ≡ [] }
{}
