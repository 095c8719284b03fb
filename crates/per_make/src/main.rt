//! Reads messages in JSON (X.697) and prints them in hexadecimal (X.691), by schema files (`docs/SCHEMA-FILE.md`).
//!
//! `per_make --schema FILE (aper|uper) TYPE` reads the first line of its standard input. With `lines` after the type
//! it replies to every line: by the canonical octets, or by `! ` and why there are none. `per_make --help` names the
//! other words.
#![tactic(auto)]

use message_lines::program::run_words;
use message_lines::request::Program;
use std::env;
use std::process::ExitCode;

fn main(rt: HostRuntime) -> anyhow::Result<ExitCode> {
    let words: Vec<String> = env::args(&rt)?.collect(rt.alloc())?;
    Ok(ExitCode::from(run_words(&rt, Program::Make, words.as_slice())))
}
