//! Reads a value of a type in hexadecimal and prints it as JSON (X.697).
//!
//! `per_show --schema FILE (aper|uper) TYPE` takes the type from a schema file (`docs/SCHEMA-FILE.md`), and without a
//! file from those that are built in. It reads the first line of its standard input. With `lines` after the type it
//! replies to every line: by the JSON, or by `! `, why there is none, and where. With `--pretty` at the end the JSON is
//! indented.
//! `per_show --help` names the types that are built in, and `per_show -h` the words with a schema file.
#![tactic(auto)]

use line_replies::fault;
use message_lines::program::run_words;
use message_lines::request::Program;
use per_lines::show_fault::Fault;
use per_lines::show_run::run;
use std::alloc::AllocError;
use std::env;
use std::env::Env;
use std::io::Input;
use std::process::ExitCode;

fn main(rt: HostRuntime) -> ExitCode {
    let mut faults = rt.stderr();
    let status = match words(&rt) {
        Ok(words) if has_schema(words.as_slice()) => {
            run_words(&rt, Program::Show, words.as_slice())
        }
        Ok(words) => run(
            rt.alloc(),
            after_name(words.as_slice()),
            &mut rt.reader(),
            &mut rt.stdout(),
            &mut faults,
        ),
        Err(fault) => fault.report(rt.alloc(), &mut faults),
    };
    ExitCode::from(status)
}

/// Whether a schema file is named, or words ask for what is said where one is.
fn has_schema(words: &[String]) -> bool {
    words.iter().any(|word| {
        let word = word.as_str();
        matches!(word, "--schema" | "-h" | "--version") || word.starts_with("--schema=")
    })
}

/// The words after the program's name.
fn after_name(words: &[String]) -> &[String] {
    match words {
        [_, behind @ ..] => behind,
        [] => words,
    }
}

/// The program's name and the words after it. Words that are no text are wrong arguments.
fn words(rt: &(impl Env + AllocGlobal)) -> Result<Vec<String>, Fault> {
    let all = env::args(rt).map_err(|error| fault::Fault::of_io(
        &error,
        fault::Fault::WrongArguments,
    ))?;
    // Not `collect`, which goes on where the room that it asks for at first is refused.
    let mut words = Vec::new(rt.alloc());
    for word in all {
        words.push(word).map_err(AllocError::from)?;
    }
    Ok(words)
}
