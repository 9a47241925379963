//! Calls of the libraries, one a line.
//!
//! A line of standard input is a JSON array: the path of a public call and its arguments. One line
//! of JSON on standard output answers it.
//!
//! ```text
//! ["icu_locale_core::DataLocale::try_from_str", "sr-Latn-ME"]
//! "sr-Latn-ME"
//! ["tinystr::TinyStr<2>::try_from_bytes", "656e67"]
//! {"refused":"TooLarge"}
//! ```
//!
//! - `lines`: what a line is, and which crate knows a library's calls. These crates have the
//!   library's name behind `calls_`; reading arguments and making answers is their crate `calls`.
#![tactic(auto)]

mod lines;

use std::io;
use std::io::{BufRead, BufReader, BufWriter, Write};

/// Answers the lines of standard input, to its end.
fn main(rt: HostRuntime) -> io::Result<()> {
    let alloc = rt.alloc();
    let mut input = BufReader::new(alloc, rt.reader())?;
    let mut output = BufWriter::new(alloc, io::writer(&rt))?;
    let mut line = Vec::new(alloc);
    for _ in 0..u64::MAX {
        line.clear();
        if input.read_until(b'\n', &mut line)? == 0 {
            break;
        }
        let answer = lines::answer_line(alloc, line.trim_ascii_end())?;
        writeln!(output, "{answer}")?;
    }
    output.flush()
}
