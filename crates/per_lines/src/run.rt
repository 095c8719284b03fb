//! The work of the program, over any reader and writers.

ghost use Rattle.std.specs.Prelude.{◌≡◌, ◌≢◌, ◌≤◌, ◌++◌, ◌∷◌, [], IfErr, OnOk};
ghost use Rattle.std.specs.Io.KnownBytes.{Keeps};
ghost use Rattle.per_lines.specs.Answers.{Prints, IsAnswer, Ends, EndsAnswer, AreUnknown};
ghost use Rattle.line_replies.specs.Printing.{PrintsAnswer};
ghost use Rattle.line_replies.specs.Faults.{status_of, text_of, AppendsFront, IsWritten};
ghost use Rattle.per_lines.specs.Words.{words};
ghost use Rattle.line_replies.specs.declared.fault.Fault.{Fault as the_fault};
ghost use Rattle.line_replies.specs.declared.fault.Fault.TheVariants.{WrongArguments};

use crate::answer::answer;
use crate::arguments::{Arguments, Form};
use line_replies::fault::Fault;
use line_replies::line::read_line;
use line_replies::output::write;
use line_replies::replies::reply_to_lines;
use std::alloc::Global;
use std::io;
use std::io::{BufRead, Write};

/// Reads a line of hexadecimal from `input`, and writes the canonical encoding of the value that its octets spell to
/// `output`, in lower case and with a line feed. `arguments` are the words after the program's name.
///
/// In the form `lines` it does so for every line, and where there is no such encoding, it writes `! ` and why. In the
/// form `zero` all padding and spare bits must be zero. In the form `as` the encoding is read by another type, and
/// encoded again.
///
/// Answers the status that the program ends with: 0, or 1 where the octets are refused or memory ran out, or 2 where
/// the arguments are wrong, the line is no hexadecimal, or reading or writing fails. A fault is told on a line of
/// `faults`, which gets nothing else; that this line can't be written, or a front of it alone, changes nothing.
pub fn run<R: BufRead, W: Write, F: Write>(
    alloc: Global,
    arguments: &[String],
    input: &mut R,
    output: &mut W,
    faults: &mut F,
) -> u8
    ensures status { result ≤ 2 }

    // Status 0: what was asked for is printed, and nothing is told on `faults`.
    ensures printed { result ≡ 0 →
        Prints (words arguments.now) (R.remaining input.old) (W.contents output.old) (W.contents output.new) }
    ensures silent { result ≡ 0 → Keeps (F.contents faults.old) (F.contents faults.new) }

    // Another status is that of a fault that stands, and its line is all that `faults` gets: where that can't be
    // written, a front of it.
    ensures faulty { result ≢ 0 → (fault : the_fault) × (result ≡ status_of fault)
        × Ends (words arguments.now) (R.remaining input.old) (W.contents output.old) (W.contents output.new) fault
        × AppendsFront (F.contents faults.old) (F.contents faults.new) (text_of fault ++ 10 ∷ []) }

    // Wrong arguments are found before anything is read.
    ensures usage { AreUnknown (words arguments.now) →
        (result ≡ 2) × Keeps (R.remaining input.old) (R.remaining input.new) }
{
    let (status, _) = work(alloc, arguments, input, output, faults);
    status
}

/// The work of `run`: the status, and whether the line of a fault was written. Where there is no fault, that is Ok.
pub fn work<R: BufRead, W: Write, F: Write>(
    alloc: Global,
    arguments: &[String],
    input: &mut R,
    output: &mut W,
    faults: &mut F,
) -> (u8, io::Result<()>)
    ensures status { result.0 ≤ 2 }

    // Status 0: what was asked for is printed, and nothing is told on `faults`.
    ensures printed { result.0 ≡ 0 →
        Prints (words arguments.now) (R.remaining input.old) (W.contents output.old) (W.contents output.new) }
    ensures silent { result.0 ≡ 0 → Keeps (F.contents faults.old) (F.contents faults.new) }

    // Another status is that of a fault that stands. Its line is all that `faults` gets: the whole line where writing
    // it answered Ok.
    ensures faulty { result.0 ≢ 0 → (fault : the_fault) × (result.0 ≡ status_of fault)
        × Ends (words arguments.now) (R.remaining input.old) (W.contents output.old) (W.contents output.new) fault
        × IsWritten result.1 (F.contents faults.old) (F.contents faults.new) (text_of fault ++ 10 ∷ []) }

    // Wrong arguments are found before anything is read.
    ensures usage { AreUnknown (words arguments.now) →
        (result.0 ≡ 2) × Keeps (R.remaining input.old) (R.remaining input.new) }
{
    match print(alloc, arguments, input, output) {
        Ok(()) => (0, Ok(())),
        Err(fault) => fault.report(faults),
    }
}

/// Prints what the arguments and the input ask for, and nothing else.
fn print<R: BufRead, W: Write>(
    alloc: Global,
    arguments: &[String],
    input: &mut R,
    output: &mut W,
) -> Result<(), Fault>
    ensures ok { OnOk result (
        Prints (words arguments.now) (R.remaining input.old) (W.contents output.old) (W.contents output.new)) }
    ensures err { IfErr result (
        Ends (words arguments.now) (R.remaining input.old) (W.contents output.old) (W.contents output.new)) }
    ensures usage { AreUnknown (words arguments.now) →
        IfErr result (λ f. f ≡ WrongArguments) × Keeps (R.remaining input.old) (R.remaining input.new) }
{
    let Some(arguments) = Arguments::of_words(arguments) else {
        return Err(Fault::WrongArguments);
    };
    match arguments.form {
        Form::OneLine => print_answer(alloc, arguments, input, output),
        Form::Lines => reply_to_lines(alloc, &arguments, input, output),
        Form::Zero => print_answer(alloc, arguments, input, output),
        Form::As(_) => print_answer(alloc, arguments, input, output),
    }
}

/// Prints the answer to the line of the input.
fn print_answer<R: BufRead, W: Write>(
    alloc: Global,
    arguments: Arguments,
    input: &mut R,
    output: &mut W,
) -> Result<(), Fault>
    ensures ok { OnOk result
        (PrintsAnswer (IsAnswer arguments) (R.remaining input.old) (W.contents output.old) (W.contents output.new)) }
    ensures err { IfErr result
        (EndsAnswer arguments (R.remaining input.old) (W.contents output.old) (W.contents output.new)) }
{
    let line = read_line(alloc, input).map_err(|error| Fault::of_io(&error, Fault::CannotRead))?;
    let text = answer(alloc, arguments, line)?;
    match write(text.as_bytes(), output) {
        Ok(()) => Ok(()),
        Err(error) => Err(Fault::of_io(&error, Fault::CannotWrite)),
    }
}
