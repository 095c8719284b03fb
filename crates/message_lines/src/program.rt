//! What the programs do by schema files.

ghost use Rattle.std.specs.Prelude.{◌≡◌, ◌≢◌, [], false, not, IfOk, IsOk, Ok};
ghost use Rattle.line_replies.specs.Printing.{PrintsReplies};
ghost use Rattle.message_lines.specs.Requests.{HasAnswered, layout_of, task_of};
ghost use Rattle.message_lines.specs.Replies.{IsReplyWhere};

use crate::names::{list, nearest, place_of_word};
use crate::print::{Stop, print_first, print_octets};
use crate::replies::{Messages, Refusal, Task};
use crate::request::{Form, Program, Request, request_of};
use crate::strict::reply_strictly;
use line_replies::fault::Fault;
use line_replies::layout::Layout;
use line_replies::output::{write, write_line};
use line_replies::replies::reply_to_lines;
use rasn_dynamic::types::Types;
use schema_file::load::load;
use std::alloc::{AllocError, Global};
use std::fs;
use std::io::{BufRead, Input, Write};
use std::rt::Files;

/// Does what words ask for, of which the first is the program's name, and answers the status that the program ends
/// with.
pub fn run_words(rt: &HostRuntime, program: Program, words: &[String]) -> u8 {
    let request = match request_of(rt.alloc(), program, words) {
        Ok(request) => request,
        Err(error) => {
            drop(error.print(rt));
            return error.exit_code() as u8;
        }
    };
    let mut faults = rt.stderr();
    match load_all(rt, request.schemas.as_slice(), &mut faults) {
        Some(tables) => run(
            rt.alloc(),
            program,
            &request,
            tables.as_slice(),
            &mut rt.reader(),
            &mut rt.stdout(),
            &mut faults,
        ),
        None => 2,
    }
}

/// The tables of types of schema files, in the order of their names. What is wrong is said on `faults`.
pub fn load_all<F: Write>(
    rt: &(impl Files + AllocGlobal),
    names: &[&str],
    faults: &mut F,
) -> Option<Vec<Types>> {
    let mut tables = Vec::new(rt.alloc());
    for name in names {
        let Ok(octets) = fs::read(rt, name) else {
            say(rt.alloc(), "cannot read ", name, faults);
            return None;
        };
        match load(rt.alloc(), octets.as_slice()) {
            Ok(types) => tables.push(types).ok()?,
            Err(error) => {
                if let Ok(text) = format!(in rt.alloc(); "{name}: {error}") {
                    drop(write_line(text.as_str(), faults));
                }
                return None;
            }
        }
    }
    Some(tables)
}

/// Says two texts on a line.
fn say<F: Write>(alloc: Global, front: &str, behind: &str, faults: &mut F) {
    match format!(in alloc; "{front}{behind}") {
        Ok(text) => drop(write_line(text.as_str(), faults)),
        Err(_) => drop(write_line(front, faults)),
    }
}

/// Does what a request asks for, by tables of types. Answers the status that the program ends with: 0; or 1 where a
/// message has no answer, or memory ran out; or 2 where the words are wrong, a line is no hexadecimal, or reading or
/// writing fails. What is wrong is said on `faults`.
pub fn run<R: BufRead, W: Write, F: Write>(
    alloc: Global,
    program: Program,
    request: &Request<'_>,
    tables: &[Types],
    input: &mut R,
    output: &mut W,
    faults: &mut F,
) -> u8 {
    let Some((codec, word)) = request.of else {
        return print_names(alloc, tables, output, faults);
    };
    for types in tables {
        if let Some(place) = place_of_word(types, word) {
            let messages = Messages {
                codec,
                types,
                place,
                task: task_of(program, request),
                has_column: request.has_column,
            };
            return answer(alloc, request, &messages, input, output, faults);
        }
    }
    say_unknown(alloc, tables, word, faults);
    2
}

/// What is done with each message.
fn task_of(program: Program, request: &Request<'_>) -> Task
    ensures { result ≡ task_of program request.now.is_pretty request.now.is_checked }
{
    match program {
        Program::Show if request.is_checked => Task::Check(layout_of(request)),
        Program::Show => Task::Show(layout_of(request)),
        Program::Make => Task::Make,
    }
}

/// How JSON is laid out.
fn layout_of(request: &Request<'_>) -> Layout
    ensures { result ≡ layout_of request.now.is_pretty }
{
    if request.is_pretty {
        Layout::Pretty
    } else {
        Layout::Compact
    }
}

/// Answers the messages of an input. Answers the status that the program ends with: where it isn't 0, what is wrong was
/// said on `faults`, or a line was refused, where that matters.
fn answer<R: BufRead, W: Write, F: Write>(
    alloc: Global,
    request: &Request<'_>,
    messages: &Messages<'_>,
    input: &mut R,
    output: &mut W,
    faults: &mut F,
) -> u8
    ensures { result ≡ 0 → HasAnswered request.now messages.now
        (R.remaining input.old) (W.contents output.old) (W.contents output.new) }
{
    match request.form {
        Form::FirstLine => {
            let done = print_first(alloc, messages, input, output);
            status_of(alloc, done, faults)
        }
        Form::Octets => {
            let layout = layout_of(request);
            let done = print_octets(alloc, messages, layout, request.is_checked, input, output);
            status_of(alloc, done, faults)
        }
        Form::AllLines => {
            let done = answer_lines(alloc, request.is_strict, messages, input, output);
            status_of_lines(done, faults)
        }
    }
}

/// Prints the reply to each line of an input. Answers whether one was refused, where that matters.
fn answer_lines<R: BufRead, W: Write>(
    alloc: Global,
    is_strict: bool,
    messages: &Messages<'_>,
    input: &mut R,
    output: &mut W,
) -> Result<bool, Fault>
    ensures { IfOk result (λ refused. refused ≡ false → PrintsReplies (IsReplyWhere (not is_strict) messages.now)
        (R.remaining input.old) [] (W.contents output.old) (W.contents output.new)) }
{
    if is_strict {
        return reply_strictly(alloc, messages, input, output);
    }
    match reply_to_lines(alloc, messages, input, output) {
        Ok(()) => Ok(false),
        Err(fault) => Err(fault),
    }
}

/// The status that the program ends with where a line may have been refused, or where replies fail, which is said.
fn status_of_lines<F: Write>(done: Result<bool, Fault>, faults: &mut F) -> u8
    ensures { result ≡ 0 → done ≡ Ok false }
{
    match done {
        Ok(false) => 0,
        Ok(true) => 1,
        Err(fault) => fault.report(faults).0,
    }
}

/// The status that the program ends with where an answer was printed, or why it wasn't, which is said.
fn status_of<F: Write>(alloc: Global, done: Result<(), Stop>, faults: &mut F) -> u8
    ensures { result ≡ 0 → IsOk done }
{
    match done {
        Ok(()) => 0,
        Err(stop) => report(alloc, stop, faults),
    }
}

/// Says why no answer is printed, and answers the status that the program ends with.
fn report<F: Write>(alloc: Global, stop: Stop, faults: &mut F) -> u8
    ensures { result ≢ 0 }
{
    match stop {
        Stop::Failed(fault) => fault.report(faults).0,
        Stop::Refused(refusal) => {
            match refusal.text(alloc) {
                Ok(text) => drop(write_line(text.as_str(), faults)),
                Err(_) => drop(write_line("OutOfMemory", faults)),
            }
            match refusal {
                Refusal::Blank | Refusal::BadHexadecimal(_) => 2,
                Refusal::Message(..) | Refusal::Json(_) | Refusal::OutOfMemory => 1,
            }
        }
    }
}

/// Prints the names of the types in tables.
fn print_names<W: Write, F: Write>(
    alloc: Global,
    tables: &[Types],
    output: &mut W,
    faults: &mut F,
) -> u8 {
    for types in tables {
        let printed = match list(alloc, types) {
            Ok(text) => write(text.as_slice(), output).map_err(|_| Fault::CannotWrite),
            Err(_) => Err(Fault::OutOfMemory),
        };
        if let Err(fault) = printed {
            return fault.report(faults).0;
        }
    }
    0
}

/// Says that no table has a type that a word names, and the nearest name in the first that has one.
fn say_unknown<F: Write>(alloc: Global, tables: &[Types], word: &str, faults: &mut F) {
    match nearest_in(alloc, tables, word) {
        Ok(Some(name)) => say(alloc, "unknown type; the nearest is ", name, faults),
        _ => drop(write_line("unknown type", faults)),
    }
}

/// The name that is nearest to a word in the first table that has names.
fn nearest_in<'types>(
    alloc: Global,
    tables: &'types [Types],
    word: &str,
) -> Result<Option<&'types str>, AllocError> {
    for types in tables {
        if let Some(name) = nearest(alloc, types, word)? {
            return Ok(Some(name));
        }
    }
    Ok(None)
}
