//! The form `lines`: a reply to each line, as a Unix filter gives it.

ghost use Rattle.std.specs.Prelude.{◌≡◌, ℕ, List, [], Some, IfOk, IfErr, OnOk};
ghost use Rattle.std.specs.Io.Buffered.{reader_remaining};
ghost use Rattle.line_replies.specs.Printing.{PrintsReplies, EndsReplies, TakesTurn, TakesTurns, EndsTurn};
ghost use Rattle.line_replies.specs.declared.fault.Fault.TheVariants.{OutOfMemory};

use crate::fault::Fault;
use crate::line::next_line;
use crate::output::write;
use std::alloc::Global;
use std::io::{BufRead, BufReader, Read, Write};

/// What replies to lines.
pub trait Replies {
    // Which texts are replies to a line.
    ghost replies: { Self → List ℕ → List ℕ → Type 0 };

    /// The reply to a line, with a line feed.
    fn reply(&self, alloc: Global, line: Vec<u8>) -> Result<Vec<u8>, Fault>
        ensures ok { IfOk result (λ text. replies self.now line.items text.items) }
        ensures err { IfErr result (λ f. f ≡ OutOfMemory) };
}

/// Prints the reply to each line of `input`, which is read through a buffer.
pub fn reply_to_lines<T: Replies, R: BufRead, W: Write>(
    alloc: Global,
    replier: &T,
    input: &mut R,
    output: &mut W,
) -> Result<(), Fault>
    ensures ok { OnOk result (PrintsReplies (T.replies replier.now)
        (R.remaining input.old) [] (W.contents output.old) (W.contents output.new)) }
    ensures err { IfErr result
        (EndsReplies (T.replies replier.now) (R.remaining input.old) (W.contents output.old) (W.contents output.new)) }
{
    match BufReader::new(alloc, input) {
        Ok(mut reader) => reply_to_each(alloc, replier, &mut reader, output),
        Err(error) => Err(Fault::of_io(&error, Fault::CannotRead)),
    }
}

/// Prints the reply to each line.
fn reply_to_each<T: Replies, R: Read, W: Write>(
    alloc: Global,
    replier: &T,
    input: &mut BufReader<R>,
    output: &mut W,
) -> Result<(), Fault>
    ensures ok { OnOk result (PrintsReplies (T.replies replier.now)
        (reader_remaining R.remaining input.old) [] (W.contents output.old) (W.contents output.new)) }
    ensures err { IfErr result (EndsReplies (T.replies replier.now)
        (reader_remaining R.remaining input.old) (W.contents output.old) (W.contents output.new)) }
{
    for _ in 0..u64::MAX {
        if !reply_to_next(alloc, replier, input, output)? {
            return Ok(());
        }
    }
    Err(Fault::CannotRead)
}

/// Takes the next lines and prints their replies, through to where the output goes. Answers whether there may be more.
///
/// Lines after the next one are taken where they are in the buffer already, so no reply is kept back while more of
/// the input is waited for.
pub fn reply_to_next<T: Replies, R: Read, W: Write>(
    alloc: Global,
    replier: &T,
    input: &mut BufReader<R>,
    output: &mut W,
) -> Result<bool, Fault>
    ensures ok { IfOk result (λ more. TakesTurns (T.replies replier.now) more (reader_remaining R.remaining input.old)
        (reader_remaining R.remaining input.new) (W.contents output.old) (W.contents output.new)) }
    ensures err { IfErr result (EndsReplies (T.replies replier.now)
        (reader_remaining R.remaining input.old) (W.contents output.old) (W.contents output.new)) }
{
    let mut replies = Vec::new(alloc);
    let taken = take_lines(alloc, replier, input, &mut replies);
    match write(replies.as_slice(), output) {
        Ok(()) => taken,
        Err(error) => Err(Fault::of_io(&error, Fault::CannotWrite)),
    }
}

/// Takes the next line, and those after it that are whole in the buffer, and puts their replies behind `replies`.
/// Answers whether there may be more.
fn take_lines<T: Replies, R: Read>(
    alloc: Global,
    replier: &T,
    input: &mut BufReader<R>,
    replies: &mut Vec<u8>,
) -> Result<bool, Fault>
    ensures ok { IfOk result (λ more. TakesTurns (T.replies replier.now) more (reader_remaining R.remaining input.old)
        (reader_remaining R.remaining input.new) (Some replies.old.items) (Some replies.new.items)) }
    ensures err { IfErr result (EndsReplies (T.replies replier.now) (reader_remaining R.remaining input.old)
        (Some replies.old.items) (Some replies.new.items)) }
{
    if !take_line(alloc, replier, input, replies)? {
        return Ok(false);
    }
    for _ in 1..u64::MAX {
        if !input.buffer().contains(&b'\n') {
            break;
        }
        if !take_line(alloc, replier, input, replies)? {
            return Ok(false);
        }
    }
    Ok(true)
}

/// Takes the next line, and puts its reply behind `replies`. Answers whether there was a line.
fn take_line<T: Replies, R: BufRead>(
    alloc: Global,
    replier: &T,
    input: &mut R,
    replies: &mut Vec<u8>,
) -> Result<bool, Fault>
    ensures ok { IfOk result (λ some. TakesTurn (T.replies replier.now) some
        (R.remaining input.old) (R.remaining input.new) (Some replies.old.items) (Some replies.new.items)) }
    ensures err { IfErr result (EndsTurn (Some replies.old.items) (Some replies.new.items)) }
{
    let next = next_line(alloc, input).map_err(|error| Fault::of_io(&error, Fault::CannotRead))?;
    let Some(line) = next else {
        return Ok(false);
    };
    let text = replier.reply(alloc, line)?;
    replies.extend_from_slice(text.as_slice())?;
    Ok(true)
}
