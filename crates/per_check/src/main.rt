//! Reads a value of a type in hexadecimal and prints its canonical encoding (X.691), in hexadecimal too.
//!
//! `per_check (aper|uper) TYPE` reads the first line of its standard input. With `lines` after the type it replies to
//! every line: by the canonical encoding, or by `! ` and why there is none. With `zero` it refuses padding and spare
//! bits that are not zero. With `as TYPE` the canonical encoding is read by this other type, and the canonical encoding
//! of that is printed. `docs/TYPES.md` has the types.
#![tactic(auto)]

ghost use Rattle.std.specs.Prelude.{◌≡◌, ◌⊎◌, IfErr};
ghost use Rattle.line_replies.specs.declared.fault.Fault.TheVariants.{OutOfMemory, WrongArguments};

use line_replies::fault::Fault;
use per_lines::run::run;
use std::alloc::AllocError;
use std::env;
use std::env::Env;
use std::io::Input;
use std::process::ExitCode;

fn main(rt: HostRuntime) -> ExitCode {
    let mut faults = rt.stderr();
    let status = match words(&rt) {
        Ok(words) => run(
            rt.alloc(),
            words.as_slice(),
            &mut rt.reader(),
            &mut rt.stdout(),
            &mut faults,
        ),
        Err(fault) => fault.report(&mut faults).0,
    };
    ExitCode::from(status)
}

/// The words after the program's name. Words that are no text are wrong arguments.
fn words(rt: &(impl Env + AllocGlobal)) -> Result<Vec<String>, Fault>
    ensures { IfErr result (λ f. (f ≡ OutOfMemory) ⊎ (f ≡ WrongArguments)) }
{
    let all = env::args(rt).map_err(|error| Fault::of_io(&error, Fault::WrongArguments))?;
    // Not `collect`, which goes on where the room that it asks for at first is refused.
    let mut words = Vec::new(rt.alloc());
    for word in all.skip(1) {
        words.push(word).map_err(AllocError::from)?;
    }
    Ok(words)
}
