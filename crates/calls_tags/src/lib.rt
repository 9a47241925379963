//! Calls of `language_tags`. A tag is its text, and a registry an object of its tables' rows; a
//! table that is left out is empty.
//!
//! - `tags`: those of a tag, its parts, and what it matches.
//! - `registries`: those of a registry and of subtags, and those of a tag with a registry.
//! - `errors`: errors by their names.
#![tactic(auto)]

mod errors;
mod registries;
mod tags;

use calls::answers::Answer;
use serde_json::Value;
use std::alloc::Global;

/// A call of `language_tags`, by its path.
pub fn answer<'a>(alloc: Global, call: &str, arguments: &'a [Value]) -> Answer<'a> {
    match call {
        "LanguageTag::validate" | "LanguageTag::is_valid" | "LanguageTag::canonicalize" => {
            registries::of_tag(alloc, call, arguments)
        }
        _ => match call.split_once("::") {
            Some((_, "text")) => errors::answer(alloc, call, arguments),
            Some(("LanguageTag", call)) => tags::answer(alloc, call, arguments),
            _ => registries::answer(alloc, call, arguments),
        },
    }
}
