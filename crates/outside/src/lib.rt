//! Tests of what no line of `vectors` says: types of a test's own behind the traits of the outside.
//!
//! - `writers`: std's writers behind `StdSink`, and texts that are displayed.
//! - `flushes`: runs over a writer that holds back what it takes.
//! - `readers`: std's readers behind `StdSource`.
//! - `greeting`: a value that writes all of its text, also where its name is wrong.
//! - `sources`: a source without end, and a sink without memory.
#![tactic(auto)]

#[cfg(test)]
mod flushes;
#[cfg(test)]
mod greeting;
#[cfg(test)]
mod readers;
#[cfg(test)]
mod sources;
#[cfg(test)]
mod writers;
