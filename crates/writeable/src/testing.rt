//! What a value writes, with its parts. It serves tests.

ghost use Rattle.std.specs.Prelude.{◌≡◌, [], IfOk};
ghost use Rattle.writeable_sinks.specs.Spans.{Spans};

use std::alloc::{AllocError, Global};
use writeable_adapters::TryWriteable;
use writeable_core::Writeable;
use writeable_sinks::PartsSink;

/// What the value writes: its text, and where its parts lie. It serves tests.
pub fn writeable_to_parts_for_test<W: Writeable>(
    alloc: Global,
    writeable: &W,
) -> Result<PartsSink, AllocError>
    ensures text { IfOk result (λ sink. sink.text ≡ W.text writeable.now) }
    ensures spans { IfOk result (λ sink. Spans (W.marked writeable.now) sink.spans) }
    ensures closed { IfOk result (λ sink. sink.begun ≡ []) }
{
    let mut sink = PartsSink::new(alloc);
    writeable.write_to_parts(&mut sink).map_err(|_| AllocError)?;
    Ok(sink)
}

/// What the value writes, and its error if there is one. It serves tests.
pub fn try_writeable_to_parts_for_test<T: TryWriteable>(
    alloc: Global,
    writeable: &T,
) -> Result<(PartsSink, Option<T::Error>), AllocError>
    ensures text { IfOk result (λ r. r.0.text ≡ T.text writeable.now) }
    ensures spans { IfOk result (λ r. Spans (T.marked writeable.now) r.0.spans) }
    ensures closed { IfOk result (λ r. r.0.begun ≡ []) }
    ensures error { IfOk result (λ r. r.1 ≡ T.error writeable.now) }
{
    let mut sink = PartsSink::new(alloc);
    let inner = writeable
        .try_write_to_parts(&mut sink)
        .map_err(|_| AllocError)?;
    Ok((sink, inner.err()))
}
