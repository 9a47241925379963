//! Sources, as an argument says them.
//!
//! A source is its bytes, or an object of `bytes`, `most` (the most bytes that a read gives) and
//! `failing` (the number of the read that fails, counted from one, or 0), which makes it a
//! `ScriptSource`.

use crate::arguments::{Wrong, bytes, field, number, size};
use serde_json::Value;
use std::alloc::{AllocError, Global};
use writeable::ScriptSource;

/// What a scripted source is made of.
#[derive(Drop)]
pub struct Script {
    bytes: Vec<u8>,
    most: usize,
    failing: u64,
}

impl Script {
    /// A source that gives the text's bytes whole.
    pub fn of_text(alloc: Global, text: &str) -> Result<Script, AllocError> {
        Ok(Script {
            bytes: Vec::from_slice(alloc, text.as_bytes())?,
            most: usize::MAX,
            failing: 0,
        })
    }

    pub fn bytes(&self) -> &[u8] {
        &self.bytes
    }

    pub fn source(&self) -> ScriptSource<'_> {
        ScriptSource::new(&self.bytes, self.most.max(1), self.failing)
    }
}

/// The script that an argument is: an object, or bytes that are given whole.
pub fn script_of<'a>(alloc: Global, given: &'a Value) -> Result<Script, Wrong<'a>> {
    if given.is_string() {
        return Ok(Script {
            bytes: bytes(alloc, given)?,
            most: usize::MAX,
            failing: 0,
        });
    }
    Ok(Script {
        bytes: bytes(alloc, field(given, "bytes")?)?,
        most: size(field(given, "most")?)?,
        failing: number(field(given, "failing")?)?,
    })
}
