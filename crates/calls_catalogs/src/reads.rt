//! The call of `reading`, whose argument is a source (see `calls::scripts`).

use calls::answers;
use calls::answers::Answer;
use calls::arguments::Wrong;
use calls::scripts::script_of;
use reading::{ReadError, read_all};
use serde_json::Value;
use std::alloc::{AllocError, Global};

/// The call of `reading`.
pub fn answer<'a>(alloc: Global, call: &str, arguments: &'a [Value]) -> Answer<'a> {
    let ("read_all", [given]) = (call, arguments) else {
        return Err(Wrong::Call);
    };
    let answer = match read_all(alloc, &mut script_of(alloc, given)?.source()) {
        Ok(bytes) => answers::bytes(alloc, &bytes),
        Err(ReadError::Fault) => answers::refused(alloc, "Fault"),
        Err(ReadError::TooLong) => answers::refused(alloc, "TooLong"),
        Err(ReadError::NoMemory) => Err(AllocError),
    };
    Ok(answer?)
}
