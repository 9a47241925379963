//! Lists that write themselves.

ghost use Rattle.std.specs.Prelude.{◌≡◌, ◌++◌, OnOk, OnErr, false, map};
ghost use Rattle.std.specs.Str.{chars};
ghost use Rattle.writeable_core.specs.Marks.{inside, part_name};
ghost use Rattle.writeable_core.specs.Sink.{TookPrefix, HasCause};
ghost use Rattle.icu_list.specs.Frames.{whole, frame_of};
ghost use Rattle.icu_list.specs.Joined.{as_it_is, element, joined, literal, marked_joined};
ghost use Rattle.icu_list.specs.JoinedLaws.{joined_characters, joined_nests, joined_hinted};
ghost use Rattle.icu_list.specs.ListHint.{list_hint};

use crate::parts::{ELEMENT, LITERAL};
use crate::provider::{Joints, ListFormatterPatterns};
use writeable_core::{LengthHint, Part, PartsWrite, Sink, SinkError, Text, Writeable};

/// The items of a list with the patterns that join them. Its text is made only when it is written.
#[derive(Drop)]
pub struct FormattedList<'a, W> {
    pub(crate) patterns: &'a ListFormatterPatterns,
    pub(crate) values: &'a [W],
}

impl<W: Writeable> Writeable for FormattedList<'_, W> {
    ghost text = { λ l. joined l.patterns.now (map W.text l.values.now) };

    ghost marked = { λ l.
        marked_joined l.patterns.now (map W.text l.values.now) (map W.marked l.values.now) };

    ghost hint = { λ l. list_hint l.patterns.now (map W.hint l.values.now) };

    ghost lends = { λ _. false };

    fn write_to<S: Sink>(&self, sink: &mut S) -> Result<(), SinkError> {
        let Some((first, others)) = self.values.split_first() else {
            return Ok(());
        };
        let Some((last, inner)) = others.split_last() else {
            return first.write_to(sink);
        };
        let joints = self.patterns.joints(inner.is_empty(), last);
        write_joined(&joints, first, inner, last, sink)
    }

    fn write_to_parts<P: PartsWrite>(&self, sink: &mut P) -> Result<(), SinkError> {
        let Some((first, others)) = self.values.split_first() else {
            return Ok(());
        };
        let Some((last, inner)) = others.split_last() else {
            return write_inside(ELEMENT, first, sink);
        };
        let joints = self.patterns.joints(inner.is_empty(), last);
        write_parts_joined(&joints, first, inner, last, sink)
    }

    fn writeable_length_hint(&self) -> LengthHint {
        let mut items = LengthHint::exact(0);
        for value in self.values {
            items += value.writeable_length_hint();
        }
        items + self.patterns.length_hint(self.values.len())
    }

    fn writeable_borrow(&self) -> Option<&str> {
        None
    }

    ghost marked_text = { λ l.
        joined_characters l.patterns.now l.values.now W.text W.marked W.marked_text };

    ghost marked_nests = { λ l.
        joined_nests l.patterns.now l.values.now W.text W.marked W.marked_nests };

    ghost text_hinted = { λ l.
        joined_hinted l.patterns.now l.values.now W.text W.hint W.text_hinted };
}

/// Writes two items or more, with the texts before, between and behind them.
fn write_joined<W: Writeable, S: Sink>(
    joints: &Joints<'_>,
    first: &W,
    inner: &[W],
    last: &W,
    sink: &mut S,
) -> Result<(), SinkError>
    ensures ok { OnOk result (S.took sink.old
        (whole as_it_is (frame_of joints.now) (W.text first.now) (map W.text inner.now)
        (W.text last.now)) sink.new) }
    ensures err { OnErr result (TookPrefix S.took sink.old
        (whole as_it_is (frame_of joints.now) (W.text first.now) (map W.text inner.now)
        (W.text last.now)) sink.new) }
    ensures cause { HasCause (S.faults sink.old) (S.faults sink.new)
        (S.takes_memory sink.old) result }
{
    write_behind(joints.before, first, sink)?;
    let mut between = joints.first;
    for value in inner {
        write_behind(between, value, sink)?;
        between = joints.middle;
    }
    write_behind(joints.last, last, sink)?;
    sink.push_str(joints.behind)
}

/// Writes the marked texts of two items or more.
fn write_parts_joined<W: Writeable, P: PartsWrite>(
    joints: &Joints<'_>,
    first: &W,
    inner: &[W],
    last: &W,
    sink: &mut P,
) -> Result<(), SinkError>
    ensures ok { OnOk result (P.took_marks sink.old
        (whole literal (frame_of joints.now) (element (W.marked first.now))
        (map element (map W.marked inner.now)) (element (W.marked last.now))) sink.new) }
    ensures err { OnErr result (TookPrefix P.took_marks sink.old
        (whole literal (frame_of joints.now) (element (W.marked first.now))
        (map element (map W.marked inner.now)) (element (W.marked last.now))) sink.new) }
    ensures cause { HasCause (P.faults sink.old) (P.faults sink.new)
        (P.takes_memory sink.old) result }
{
    write_parts_behind(joints.before, first, sink)?;
    let mut between = joints.first;
    for value in inner {
        write_parts_behind(between, value, sink)?;
        between = joints.middle;
    }
    write_parts_behind(joints.last, last, sink)?;
    write_inside(LITERAL, &Text(joints.behind), sink)
}

/// Writes a pattern's text, and behind it an item.
fn write_behind<W: Writeable, S: Sink>(text: &str, value: &W, sink: &mut S) -> Result<(), SinkError>
    ensures ok { OnOk result (S.took sink.old (chars text.now ++ W.text value.now) sink.new) }
    ensures err { OnErr result
        (TookPrefix S.took sink.old (chars text.now ++ W.text value.now) sink.new) }
    ensures cause { HasCause (S.faults sink.old) (S.faults sink.new)
        (S.takes_memory sink.old) result }
{
    sink.push_str(text)?;
    value.write_to(sink)?;
    Ok(())
}

/// Writes the marked texts of a pattern's text and of an item behind it.
fn write_parts_behind<W: Writeable, P: PartsWrite>(
    text: &str,
    value: &W,
    sink: &mut P,
) -> Result<(), SinkError>
    ensures ok { OnOk result
        (P.took_marks sink.old
        (literal (chars text.now) ++ element (W.marked value.now)) sink.new) }
    ensures err { OnErr result
        (TookPrefix P.took_marks sink.old
        (literal (chars text.now) ++ element (W.marked value.now)) sink.new) }
    ensures cause { HasCause (P.faults sink.old) (P.faults sink.new)
        (P.takes_memory sink.old) result }
{
    write_inside(LITERAL, &Text(text), sink)?;
    write_inside(ELEMENT, value, sink)?;
    Ok(())
}

/// Writes a value's marked text inside one part.
fn write_inside<W: Writeable, P: PartsWrite>(
    part: Part,
    value: &W,
    sink: &mut P,
) -> Result<(), SinkError>
    ensures ok { OnOk result
        (P.took_marks sink.old (inside (part_name part) (W.marked value.now)) sink.new) }
    ensures err { OnErr result
        (TookPrefix P.took_marks sink.old (inside (part_name part) (W.marked value.now)) sink.new) }
    ensures cause { HasCause (P.faults sink.old) (P.faults sink.new)
        (P.takes_memory sink.old) result }
{
    sink.open_part(part)?;
    value.write_to_parts(sink)?;
    sink.close_part()?;
    Ok(())
}
