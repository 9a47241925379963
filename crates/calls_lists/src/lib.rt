//! Calls of `icu_list`.
//!
//! - `patterns`: patterns and conditions, which are their texts or objects of their texts.
//! - `formatters`: lists by patterns, or by a row of a table.
//! - `errors`: refusals by their names.
#![tactic(auto)]

mod errors;
mod formatters;
mod patterns;

use calls::answers::Answer;
use serde_json::Value;
use std::alloc::Global;

/// A call of `icu_list`, by its path.
pub fn answer<'a>(alloc: Global, call: &str, arguments: &'a [Value]) -> Answer<'a> {
    match call.split_once("::") {
        Some(("provider", call)) => patterns::answer(alloc, call, arguments),
        Some(("ListFormatterPatterns", call)) => patterns::of_patterns(alloc, call, arguments),
        Some(("ListFormatter", call)) => formatters::answer(alloc, call, arguments),
        _ => errors::answer(alloc, call, arguments),
    }
}
