//! Reads values by a table of types, and prints their canonical encodings (X.691) or their JSON (X.697).
//!
//! `per_table FILE [recode|show|make]` reads a schema file (`docs/SCHEMA-FILE.md`), and then replies to each line of
//! its standard input: a variant, `aper` or `uper`, the name of a type of the file, `MODULE.TYPE`, and a text, with one
//! blank between two of them. The text is the octets of a value in hexadecimal, or for `make` its JSON. The reply is
//! the canonical encoding of that value in hexadecimal, or for `show` its JSON, or `! ` and why there is none. Where
//! the file is refused, `load` is said with the line and why, and nothing is replied.
#![tactic(auto)]

mod refusal;
mod reply;
mod request;
mod task;

use line_replies::output::write_line;
use reply::{Table, run};
use schema_file::load::load;
use std::env::Env;
use std::io::Input;
use std::process::ExitCode;
use std::rt::Files;
use std::{env, fs};
use task::Task;

const USAGE: &str = "usage: per_table FILE [recode|show|make]";

fn main(rt: HostRuntime) -> ExitCode {
    let mut faults = rt.stderr();
    let status = match asked(&rt) {
        Ok((octets, task)) => match load(rt.alloc(), octets.as_slice()) {
            Ok(types) => match run(
                rt.alloc(),
                &Table { types, task },
                &mut rt.reader(),
                &mut rt.stdout(),
            ) {
                Ok(()) => 0,
                Err(fault) => fault.report(&mut faults).0,
            },
            Err(error) => {
                match format!(in rt.alloc(); "load {error}") {
                    Ok(text) => drop(write_line(text.as_str(), &mut faults)),
                    Err(_) => drop(write_line("load", &mut faults)),
                }
                1
            }
        },
        Err(text) => {
            drop(write_line(text, &mut faults));
            2
        }
    };
    ExitCode::from(status)
}

/// The octets of the file that the first word behind the program's name is, and the task of the next, or what is wrong.
fn asked(rt: &(impl Env + Files + AllocGlobal)) -> Result<(Vec<u8>, Task), &'static str> {
    let Ok(all) = env::args(rt) else {
        return Err(USAGE);
    };
    let mut words = all.skip(1);
    let Some(name) = words.next() else {
        return Err(USAGE);
    };
    let task = match words.next() {
        Some(word) => Task::of_word(word.as_str()),
        None => Some(Task::Recode),
    };
    match (task, words.next()) {
        (Some(task), None) => match fs::read(rt, name.as_str()) {
            Ok(octets) => Ok((octets, task)),
            Err(_) => Err("cannot read the file"),
        },
        _ => Err(USAGE),
    }
}
