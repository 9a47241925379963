use crate::TryWriteable;
use writeable_core::{LengthHint, PartsWrite, Sink, SinkError, Writeable};

/// A value that may be wrong, written all the same: its error is dropped.
#[derive(Drop)]
pub struct LossyWrap<T>(pub T);

impl<T: TryWriteable> Writeable for LossyWrap<T> {
    ghost text = { λ s. T.text s.0 };

    ghost marked = { λ s. T.marked s.0 };

    ghost hint = { λ s. T.hint s.0 };

    ghost lends = { λ s. T.lends s.0 };

    fn write_to<S: Sink>(&self, sink: &mut S) -> Result<(), SinkError> {
        let _ = self.0.try_write_to(sink)?;
        Ok(())
    }

    fn write_to_parts<P: PartsWrite>(&self, sink: &mut P) -> Result<(), SinkError> {
        let _ = self.0.try_write_to_parts(sink)?;
        Ok(())
    }

    fn writeable_length_hint(&self) -> LengthHint {
        self.0.writeable_length_hint()
    }

    fn writeable_borrow(&self) -> Option<&str> {
        match self.0.try_writeable_borrow()? {
            Ok(text) => Some(text),
            Err((_, text)) => Some(text),
        }
    }

    ghost marked_text = { λ s. T.marked_text s.0 };

    ghost marked_nests = { λ s. T.marked_nests s.0 };

    ghost text_hinted = { λ s. T.text_hinted s.0 };
}
