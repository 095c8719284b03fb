//! The work of the program, over any reader and writers.

ghost use Rattle.std.specs.Prelude.{◌≡◌, ◌≢◌, ◌≤◌, IfErr, OnOk};
ghost use Rattle.std.specs.Io.KnownBytes.{Appends, Keeps};
ghost use Rattle.line_replies.specs.Printing.{PrintsAnswer};
ghost use Rattle.per_lines.specs.Words.{words};
ghost use Rattle.per_lines.specs.Ends.{Ends, EndsAnswer, IsOfOutput};
ghost use Rattle.per_lines.specs.Printing.{Prints};
ghost use Rattle.per_lines.specs.ShownLines.{IsAnswer};
ghost use Rattle.per_lines.specs.FaultTexts.{Tells, status_of};
ghost use Rattle.per_lines.specs.declared.show_fault.Fault.{Fault as the_fault};

use crate::show::show;
use crate::show_arguments::{Extent, Request, Showing};
use crate::show_fault::Fault;
use crate::types::NamedType;
use line_replies::fault;
use line_replies::line::read_line;
use line_replies::output::write;
use line_replies::replies::reply_to_lines;
use std::alloc::{AllocError, Global};
use std::io::{BufRead, Write};

/// Reads a line of hexadecimal from `input`, and writes the JSON of the value that its octets spell to `output`, with
/// a line feed. `arguments` are the words after the program's name. In the form `lines` it does so for every line, and
/// where there is no such JSON, it writes `! ` and why.
///
/// Answers the status that the program ends with: 0, or 1 where the octets are refused, the value has no JSON, or
/// memory ran out, or 2 where the arguments are wrong, the line is no hexadecimal, or reading or writing fails. A
/// fault is told on `faults`.
pub fn run<R: BufRead, W: Write, F: Write>(
    alloc: Global,
    arguments: &[String],
    input: &mut R,
    output: &mut W,
    faults: &mut F,
) -> u8
    ensures status { result ≤ 2 }

    // Status 0: what was asked for is printed, and nothing is told on `faults`.
    ensures printed { result ≡ 0 →
        Prints (words arguments.now) (R.remaining input.old) (W.contents output.old) (W.contents output.new) }
    ensures silent { result ≡ 0 → Keeps (F.contents faults.old) (F.contents faults.new) }

    // Another status is that of a fault that stands, whose line is all that `faults` gets.
    ensures faulty { result ≢ 0 → (fault : the_fault) × (result ≡ status_of fault)
        × Ends (words arguments.now) (R.remaining input.old) (W.contents output.old) (W.contents output.new) fault
        × Tells fault (F.contents faults.old) (F.contents faults.new) }
{
    match print_asked(alloc, arguments, input, output) {
        Ok(()) => 0,
        Err(fault) => fault.report(alloc, faults),
    }
}

/// Prints what the arguments and the input ask for, and nothing else.
fn print_asked<R: BufRead, W: Write>(
    alloc: Global,
    arguments: &[String],
    input: &mut R,
    output: &mut W,
) -> Result<(), Fault>
    ensures ok { OnOk result (
        Prints (words arguments.now) (R.remaining input.old) (W.contents output.old) (W.contents output.new)) }
    ensures err { IfErr result (
        Ends (words arguments.now) (R.remaining input.old) (W.contents output.old) (W.contents output.new)) }
{
    match Request::of_words(alloc, arguments)? {
        Request::Help => {
            let text = help(alloc)?;
            print(text.as_slice(), output)
        }
        Request::Show(showing) => match showing.extent {
            Extent::FirstLine => print_answer(alloc, showing, input, output),
            Extent::AllLines => Ok(reply_to_lines(alloc, &showing, input, output)?),
        },
    }
}

/// The program's words and the types that it knows.
fn help(alloc: Global) -> Result<Vec<u8>, AllocError> {
    let mut text = Vec::from_slice(
        alloc,
        b"per_show (aper|uper) TYPE [lines] [--pretty]\nReads a value in hexadecimal and prints it as JSON. TYPE:\n",
    )?;
    for name in NamedType::all() {
        text.extend_from_slice(name.word().as_bytes())?;
        text.push(b'\n')?;
    }
    Ok(text)
}

/// Prints the JSON of the input's first line.
fn print_answer<R: BufRead, W: Write>(
    alloc: Global,
    showing: Showing,
    input: &mut R,
    output: &mut W,
) -> Result<(), Fault>
    ensures ok { OnOk result (PrintsAnswer (IsAnswer showing)
        (R.remaining input.old) (W.contents output.old) (W.contents output.new)) }
    ensures err { IfErr result (EndsAnswer showing
        (R.remaining input.old) (W.contents output.old) (W.contents output.new)) }
{
    let line = read_line(alloc, input).map_err(|error| fault::Fault::of_io(
        &error,
        fault::Fault::CannotRead,
    ))?;
    let text = show(alloc, showing, line.as_slice())?;
    print(text.as_slice(), output)
}

/// Prints octets, through to where the output goes.
fn print<W: Write>(octets: &[u8], output: &mut W) -> Result<(), Fault>
    ensures ok { OnOk result (Appends (W.contents output.old) (W.contents output.new) octets.now) }
    ensures err { IfErr result IsOfOutput }
{
    write(octets, output).map_err(|error| fault::Fault::of_io(&error, fault::Fault::CannotWrite))?;
    Ok(())
}
