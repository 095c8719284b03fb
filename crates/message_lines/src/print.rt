//! The answer to one message, printed.

ghost use Rattle.std.specs.Prelude.{IfOk, OnOk};
ghost use Rattle.std.specs.Io.KnownBytes.{Appends};
ghost use Rattle.line_replies.specs.Printing.{PrintsAnswer};
ghost use Rattle.message_lines.specs.Replies.{IsAnswer, IsChecked, IsPrinted, IsShown, PrintsShown};

use crate::remarks::with_remarks;
use crate::replies::{Messages, Refusal};
use line_replies::fault::Fault;
use line_replies::layout::{Layout, laid_out};
use line_replies::line::read_line;
use line_replies::output::write;
use per_messages::calls::{show, show_checked};
use std::alloc::Global;
use std::io::{BufRead, Write};

/// Why no answer is printed.
#[derive(Debug, Drop)]
pub enum Stop {
    /// The message has no answer.
    Refused(Refusal),
    /// Reading or writing fails, or memory ran out.
    Failed(Fault),
}

/// Prints the answer to the first line of an input, with a line feed.
pub fn print_first<R: BufRead, W: Write>(
    alloc: Global,
    messages: &Messages<'_>,
    input: &mut R,
    output: &mut W,
) -> Result<(), Stop>
    ensures { OnOk result (PrintsAnswer (IsAnswer messages.now)
        (R.remaining input.old) (W.contents output.old) (W.contents output.new)) }
{
    let line = match read_line(alloc, input) {
        Ok(line) => line,
        Err(error) => return Err(Stop::Failed(Fault::of_io(&error, Fault::CannotRead))),
    };
    let answer = match messages.answer(alloc, line.as_slice()) {
        Ok(answer) => answer,
        Err(refusal) => return Err(Stop::Refused(refusal)),
    };
    print(answer.as_slice(), output)
}

/// Prints the JSON of the message whose octets an input has, with a line feed, and where that is asked for a line for
/// each remark on it.
pub fn print_octets<R: BufRead, W: Write>(
    alloc: Global,
    messages: &Messages<'_>,
    layout: Layout,
    is_checked: bool,
    input: &mut R,
    output: &mut W,
) -> Result<(), Stop>
    ensures { OnOk result (PrintsShown messages.now layout is_checked
        (R.remaining input.old) (W.contents output.old) (W.contents output.new)) }
{
    let mut octets = Vec::new(alloc);
    if let Err(error) = input.read_to_end(&mut octets) {
        return Err(Stop::Failed(Fault::of_io(&error, Fault::CannotRead)));
    }
    let answered = answer_by(alloc, messages, layout, is_checked, octets.as_slice());
    let answer = match answered {
        Ok(answer) => answer,
        Err(refusal) => return Err(Stop::Refused(refusal)),
    };
    print(answer.as_slice(), output)
}

/// The JSON of the message that octets spell, with a line feed, and where that is asked for a line for each remark.
fn answer_by(
    alloc: Global,
    messages: &Messages<'_>,
    layout: Layout,
    is_checked: bool,
    octets: &[u8],
) -> Result<Vec<u8>, Refusal>
    ensures { IfOk result (λ answer. IsPrinted is_checked messages.now layout octets.now answer.items) }
{
    if is_checked {
        checked_answer(alloc, messages, layout, octets)
    } else {
        answer_to_octets(alloc, messages, layout, octets)
    }
}

/// The JSON of the message that octets spell, and after it a line for each remark, with a line feed.
fn checked_answer(
    alloc: Global,
    messages: &Messages<'_>,
    layout: Layout,
    octets: &[u8],
) -> Result<Vec<u8>, Refusal>
    ensures { IfOk result (λ answer. IsChecked messages.now layout octets.now answer.items) }
{
    let checked = match show_checked(
        alloc,
        messages.codec,
        messages.types,
        messages.place,
        octets,
    ) {
        Ok(checked) => checked,
        Err(error) => return Err(messages.refused(alloc, error, octets)?),
    };
    let mut answer = with_remarks(alloc, layout, checked)?;
    answer.extend_from_slice(b"\n")?;
    Ok(answer)
}

/// The JSON of the message that octets spell, with a line feed.
fn answer_to_octets(
    alloc: Global,
    messages: &Messages<'_>,
    layout: Layout,
    octets: &[u8],
) -> Result<Vec<u8>, Refusal>
    ensures { IfOk result (λ answer. IsShown messages.now layout octets.now answer.items) }
{
    let json = match show(
        alloc,
        messages.codec,
        messages.types,
        messages.place,
        octets,
    ) {
        Ok(json) => json,
        Err(error) => return Err(messages.refused(alloc, error, octets)?),
    };
    let mut answer = laid_out(alloc, layout, json)?;
    answer.extend_from_slice(b"\n")?;
    Ok(answer)
}

/// Prints octets, through to where the output goes.
fn print<W: Write>(octets: &[u8], output: &mut W) -> Result<(), Stop>
    ensures { OnOk result (Appends (W.contents output.old) (W.contents output.new) octets.now) }
{
    match write(octets, output) {
        Ok(()) => Ok(()),
        Err(error) => Err(Stop::Failed(Fault::of_io(&error, Fault::CannotWrite))),
    }
}
