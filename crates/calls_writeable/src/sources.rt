//! Calls of sources. Bytes are read into buffers of the listed sizes; each read is answered by the
//! bytes that it gave, in hexadecimal, or by its refusal. A source is said as `calls::scripts` has
//! it.

use calls::answers;
use calls::answers::Answer;
use calls::arguments::{Wrong, bytes, list, size};
use calls::scripts::script_of;
use serde_json::Value;
use std::alloc::{AllocError, Global};
use writeable::{SliceSource, Source, SourceFault};

/// A call of a source, by its path.
pub fn answer<'a>(alloc: Global, call: &str, arguments: &'a [Value]) -> Answer<'a> {
    match (call, arguments) {
        ("SourceFault::text", []) => Ok(answers::text(alloc, SourceFault::Fault.text())?),
        ("SliceSource::read", [given, sizes]) => {
            reads(alloc, &mut SliceSource::new(&bytes(alloc, given)?), sizes)
        }
        ("ScriptSource::read", [given, sizes]) => {
            let script = script_of(alloc, given)?;
            reads(alloc, &mut script.source(), sizes)
        }
        _ => Err(Wrong::Call),
    }
}

/// The largest buffer that a line reads into.
const LARGEST: usize = 65_536;

fn reads<'a, S: Source>(alloc: Global, source: &mut S, sizes: &'a Value) -> Answer<'a> {
    let mut answers = Vec::new(alloc);
    for given in list(sizes)? {
        let size = size(given)?;
        if size > LARGEST {
            return Err(Wrong::Argument(given, "a size up to 65536"));
        }
        answers.push(read(alloc, source, size)?)?;
    }
    Ok(Value::Array(answers))
}

fn read<S: Source>(alloc: Global, source: &mut S, size: usize) -> Result<Value, AllocError> {
    let mut buffer = vec![in alloc; 0u8; size]?;
    match source.read(&mut buffer) {
        Ok(count) => answers::bytes(alloc, &buffer[..count]),
        Err(SourceFault::Fault) => answers::refused(alloc, "Fault"),
    }
}
