//! Replies to lines, and whether one of them was refused.

ghost use Rattle.std.specs.Prelude.{◌≡◌, ◌||◌, [], IfOk, MatchOption};
ghost use Rattle.std.specs.Io.Buffered.{reader_remaining};
ghost use Rattle.std.specs.Io.KnownBytes.{IsAtEnd, Keeps};
ghost use Rattle.line_replies.specs.Printing.{PrintsNext, PrintsReplies};
ghost use Rattle.message_lines.specs.Replies.{IsReplyWhere, Replied};

use crate::replies::Messages;
use line_replies::fault::Fault;
use line_replies::line::next_line;
use line_replies::output::write;
use std::alloc::Global;
use std::io::{BufRead, BufReader, Read, Write};

/// Prints the reply to each line of `input`, which is read through a buffer, each through to where the output goes.
/// Answers whether a line was refused.
pub fn reply_strictly<R: BufRead, W: Write>(
    alloc: Global,
    messages: &Messages<'_>,
    input: &mut R,
    output: &mut W,
) -> Result<bool, Fault>
    ensures { IfOk result (λ refused. PrintsReplies (IsReplyWhere refused messages.now)
        (R.remaining input.old) [] (W.contents output.old) (W.contents output.new)) }
{
    match BufReader::new(alloc, input) {
        Ok(mut reader) => reply_to_each(alloc, messages, &mut reader, output),
        Err(error) => Err(Fault::of_io(&error, Fault::CannotRead)),
    }
}

/// Prints the reply to each line. Answers whether one was refused.
fn reply_to_each<R: Read, W: Write>(
    alloc: Global,
    messages: &Messages<'_>,
    input: &mut BufReader<R>,
    output: &mut W,
) -> Result<bool, Fault>
    ensures { IfOk result (λ refused. PrintsReplies (IsReplyWhere refused messages.now)
        (reader_remaining R.remaining input.old) [] (W.contents output.old) (W.contents output.new)) }
{
    let mut some_refused = false;
    for _ in 0..u64::MAX {
        let next = reply_to_next(alloc, messages, input, output)?;
        match next {
            Some(is_refused) => some_refused = either(some_refused, is_refused),
            None => return Ok(some_refused),
        }
    }
    Err(Fault::CannotRead)
}

/// Whether one of two is true.
fn either(one: bool, other: bool) -> bool
    ensures { result ≡ (one || other) }
{
    one || other
}

/// Takes the next line and prints its reply. Answers whether the line was refused, where there was one.
fn reply_to_next<R: BufRead, W: Write>(
    alloc: Global,
    messages: &Messages<'_>,
    input: &mut R,
    output: &mut W,
) -> Result<Option<bool>, Fault>
    ensures { IfOk result (λ next. MatchOption next
        (IsAtEnd (R.remaining input.old) × Keeps (W.contents output.old) (W.contents output.new))
        (λ is_refused. PrintsNext (Replied messages.now is_refused) (R.remaining input.old) (R.remaining input.new)
        (W.contents output.old) (W.contents output.new))) }
{
    let next = next_line(alloc, input).map_err(|error| Fault::of_io(&error, Fault::CannotRead))?;
    let Some(line) = next else {
        return Ok(None);
    };
    let reply = messages.reply_to(alloc, line.as_slice())?;
    match write(reply.text.as_slice(), output) {
        Ok(()) => Ok(Some(reply.is_refused)),
        Err(error) => Err(Fault::of_io(&error, Fault::CannotWrite)),
    }
}
