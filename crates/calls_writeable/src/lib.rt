//! Calls of `writeable`.
//!
//! - `texts`: values that write a text, and what is asked of them.
//! - `tries`: values that may have an error.
//! - `hints`: length hints.
//! - `replaced`: texts in which a needle is replaced.
//! - `sinks`: sinks, and lists of texts.
//! - `parts`: parts, and a sink of parts.
//! - `sources`: sources.
#![tactic(auto)]

mod hints;
mod parts;
mod replaced;
mod sinks;
mod sources;
mod texts;
mod tries;

use calls::answers::Answer;
use serde_json::Value;
use std::alloc::Global;

/// A call of `writeable`: by a type with calls of its own, or by the value that it is asked of.
pub fn answer<'a>(alloc: Global, call: &str, arguments: &'a [Value]) -> Answer<'a> {
    match call.split_once("::") {
        Some(("LengthHint", call)) => hints::answer(alloc, call, arguments),
        Some(("TryWriteable", call)) => tries::answer(alloc, call, arguments),
        Some(("SliceSource" | "ScriptSource" | "SourceFault", _)) => {
            sources::answer(alloc, call, arguments)
        }
        Some((_, "push" | "text")) => sinks::answer(alloc, call, arguments),
        None if call == "write_replaced" => replaced::answer(alloc, arguments),
        None if is_of_hints(call) => hints::answer_free(alloc, call, arguments),
        _ => texts::answer(alloc, call, arguments),
    }
}

fn is_of_hints(call: &str) -> bool {
    matches!(call, "sum_hints" | "sum_lengths" | "replaced_hint")
}
