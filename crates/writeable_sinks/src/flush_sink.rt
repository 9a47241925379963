ghost use Rattle.std.specs.Prelude.{ℕ, List, [], OnOk};
ghost use Rattle.writeable_core.specs.Sink.{HasCause};

use writeable_core::{Sink, SinkError};

/// A sink that may hold back what it takes, until it is flushed. Only a flush that answers `Ok` is
/// known to have handed on all of it.
pub trait FlushSink: Sink {
    /// The sink before a flush that handed on all that was held back, and behind it.
    ghost flushes: { Self → Self → Type 0 };

    /// Hands on what is held back.
    fn flush(&mut self) -> Result<(), SinkError>
        ensures taken { Self.took self.old [] self.new }
        ensures cause { HasCause (Self.faults self.old) (Self.faults self.new)
            (Self.takes_memory self.old) result }
        ensures flushed { OnOk result (flushes self.old self.new) };
}
