//! Calls of `gettext` and `reading`.
//!
//! - `catalogs`: catalogs, and how they are read.
//! - `metadata`: metadata, encodings and errors.
//! - `expressions`: plural expressions.
//! - `reads`: the call of `reading`.
#![tactic(auto)]

mod catalogs;
mod expressions;
pub mod metadata;
pub mod reads;

use calls::answers::Answer;
use serde_json::Value;
use std::alloc::Global;

/// A call of `gettext`, by its path.
pub fn answer<'a>(alloc: Global, call: &str, arguments: &'a [Value]) -> Answer<'a> {
    match call.split_once("::") {
        Some(("Catalog" | "ParseOptions", _)) => catalogs::answer(alloc, call, arguments),
        Some(("Ast" | "Resolver", _)) => expressions::answer(alloc, call, arguments),
        _ if call == "default_resolver" => expressions::answer(alloc, call, arguments),
        _ => metadata::answer(alloc, call, arguments),
    }
}
