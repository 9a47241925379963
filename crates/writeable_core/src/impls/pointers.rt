use crate::{LengthHint, PartsWrite, Sink, SinkError, Writeable};
use std::rc::Rc;

impl<T: Writeable> Writeable for &T {
    ghost text = { λ s. T.text s.now };

    ghost marked = { λ s. T.marked s.now };

    ghost hint = { λ s. T.hint s.now };

    ghost lends = { λ s. T.lends s.now };

    fn write_to<S: Sink>(&self, sink: &mut S) -> Result<(), SinkError> {
        (**self).write_to(sink)
    }

    fn write_to_parts<P: PartsWrite>(&self, sink: &mut P) -> Result<(), SinkError> {
        (**self).write_to_parts(sink)
    }

    fn writeable_length_hint(&self) -> LengthHint {
        (**self).writeable_length_hint()
    }

    fn writeable_borrow(&self) -> Option<&str> {
        (**self).writeable_borrow()
    }

    ghost marked_text = { λ s. T.marked_text s.now };

    ghost marked_nests = { λ s. T.marked_nests s.now };

    ghost text_hinted = { λ s. T.text_hinted s.now };
}

impl<T: Writeable> Writeable for Box<T> {
    ghost text = { λ s. T.text s.value };

    ghost marked = { λ s. T.marked s.value };

    ghost hint = { λ s. T.hint s.value };

    ghost lends = { λ s. T.lends s.value };

    fn write_to<S: Sink>(&self, sink: &mut S) -> Result<(), SinkError> {
        (**self).write_to(sink)
    }

    fn write_to_parts<P: PartsWrite>(&self, sink: &mut P) -> Result<(), SinkError> {
        (**self).write_to_parts(sink)
    }

    fn writeable_length_hint(&self) -> LengthHint {
        (**self).writeable_length_hint()
    }

    fn writeable_borrow(&self) -> Option<&str> {
        (**self).writeable_borrow()
    }

    ghost marked_text = { λ s. T.marked_text s.value };

    ghost marked_nests = { λ s. T.marked_nests s.value };

    ghost text_hinted = { λ s. T.text_hinted s.value };
}

impl<T: Writeable> Writeable for Rc<T> {
    ghost text = { λ s. T.text s.value };

    ghost marked = { λ s. T.marked s.value };

    ghost hint = { λ s. T.hint s.value };

    ghost lends = { λ s. T.lends s.value };

    fn write_to<S: Sink>(&self, sink: &mut S) -> Result<(), SinkError> {
        (**self).write_to(sink)
    }

    fn write_to_parts<P: PartsWrite>(&self, sink: &mut P) -> Result<(), SinkError> {
        (**self).write_to_parts(sink)
    }

    fn writeable_length_hint(&self) -> LengthHint {
        (**self).writeable_length_hint()
    }

    fn writeable_borrow(&self) -> Option<&str> {
        (**self).writeable_borrow()
    }

    ghost marked_text = { λ s. T.marked_text s.value };

    ghost marked_nests = { λ s. T.marked_nests s.value };

    ghost text_hinted = { λ s. T.text_hinted s.value };
}
