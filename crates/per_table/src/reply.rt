//! The reply to a request.

ghost use Rattle.std.specs.Prelude.{◌≡◌, ◌⊎◌, [], IfOk, IfErr, OnOk, string_bytes};
ghost use Rattle.line_replies.specs.Printing.{PrintsReplies, EndsReplies};
ghost use Rattle.per_table.specs.Answers.{IsAnswer, IsAnswerTo, IsRefusedText, IsReply, IsUnanswered};
ghost use Rattle.per_table.specs.Refusals.{refusal_of};
ghost use Rattle.per_table.specs.declared.refusal.Refusal.TheVariants.{OutOfMemory};
ghost use Rattle.per_table.specs.declared.task.Task.TheVariants.{Make, Recode, Show};

use crate::refusal::Refusal;
use crate::request::Request;
use crate::task::Task;
use line_replies::fault::Fault;
use line_replies::replies::{Replies, reply_to_lines};
use per_messages::calls::{make, recode, show};
use rasn_dynamic::types::Types;
use rasn_types::types::Codec;
use std::alloc::{AllocError, Global};
use std::io::{BufRead, Write};

/// What replies to requests: a table of types, and what is done by it.
#[derive(Drop)]
pub struct Table {
    /// The table.
    pub types: Types,
    /// What is done.
    pub task: Task,
}

/// Prints the reply to each line of `input`, by a table of types.
///
/// A line is a variant, `aper` or `uper`, the name of a type of the table, and a text, with one blank between two of
/// them: hexadecimal digits, or JSON for `Make`. The reply is the canonical encoding of the value that the text spells,
/// in lower-case hexadecimal, or its JSON for `Show`, or `! ` and why there is none.
pub fn run<R: BufRead, W: Write>(
    alloc: Global,
    table: &Table,
    input: &mut R,
    output: &mut W,
) -> Result<(), Fault>
    ensures ok { OnOk result (PrintsReplies (IsReply table.now.task table.now.types)
        (R.remaining input.old) [] (W.contents output.old) (W.contents output.new)) }
    ensures err { IfErr result (EndsReplies (IsReply table.now.task table.now.types)
        (R.remaining input.old) (W.contents output.old) (W.contents output.new)) }
{
    reply_to_lines(alloc, table, input, output)
}

impl Replies for Table {
    ghost replies = { λ table line text. IsReply table.task table.types line text };

    /// The reply to a line: its answer, or `! ` and why it has none, and a line feed.
    fn reply(&self, alloc: Global, line: Vec<u8>) -> Result<Vec<u8>, Fault> {
        match answer(alloc, self.task, &self.types, line.as_slice()) {
            Ok(text) => Ok(text),
            Err(Refusal::OutOfMemory) => Err(Fault::OutOfMemory),
            Err(refusal) => Ok(refused(alloc, refusal)?.into_bytes()),
        }
    }
}

/// Why a line has no answer, behind `! ` and with a line feed.
fn refused(alloc: Global, refusal: Refusal) -> Result<String, AllocError>
    ensures { IfOk result (λ text. string_bytes text ≡ refusal_of refusal) }
{
    format!(in alloc; "! {}\n", refusal.text())
}

/// The answer to a line, with a line feed.
fn answer(alloc: Global, task: Task, types: &Types, line: &[u8]) -> Result<Vec<u8>, Refusal>
    ensures ok { IfOk result (λ reply. IsAnswer task types.now line.now reply.items) }
    ensures err { IfErr result (λ r. IsUnanswered task types.now line.now r ⊎ (r ≡ OutOfMemory)) }
{
    let Some(request) = Request::read(line) else {
        return Err(Refusal::WrongRequest);
    };
    let Some(place) = types.place(request.name) else {
        return Err(Refusal::UnknownType);
    };
    let mut reply = answer_to(alloc, task, types, place, &request)?;
    reply.extend_from_slice(b"\n")?;
    Ok(reply)
}

/// The answer to the text of a request, by the type at a place.
fn answer_to(
    alloc: Global,
    task: Task,
    types: &Types,
    place: usize,
    request: &Request<'_>,
) -> Result<Vec<u8>, Refusal>
    ensures ok { IfOk result (λ answer.
        IsAnswerTo task types.now request.now.codec place request.now.text.now answer.items) }
    ensures err { IfErr result (λ r.
        IsRefusedText task types.now request.now.codec place request.now.text.now r ⊎ (r ≡ OutOfMemory)) }
{
    match task {
        Task::Recode => recoded(alloc, request.codec, types, place, request.text),
        Task::Show => shown(alloc, request.codec, types, place, request.text),
        Task::Make => made(alloc, request.codec, types, place, request.text),
    }
}

/// The canonical octets of the value that digits spell, in hexadecimal.
fn recoded(
    alloc: Global,
    codec: Codec,
    types: &Types,
    place: usize,
    digits: &str,
) -> Result<Vec<u8>, Refusal>
    ensures ok { IfOk result (λ answer. IsAnswerTo Recode types.now codec place digits.now answer.items) }
    ensures err { IfErr result (λ r. IsRefusedText Recode types.now codec place digits.now r ⊎ (r ≡ OutOfMemory)) }
{
    let octets = hex::decode(alloc, digits.as_bytes())?;
    let canonical = recode(alloc, codec, types, place, octets.as_slice())?;
    let text = hex::encode(alloc, canonical.as_slice())?;
    Ok(text.into_bytes())
}

/// The JSON of the value that digits spell.
fn shown(
    alloc: Global,
    codec: Codec,
    types: &Types,
    place: usize,
    digits: &str,
) -> Result<Vec<u8>, Refusal>
    ensures ok { IfOk result (λ answer. IsAnswerTo Show types.now codec place digits.now answer.items) }
    ensures err { IfErr result (λ r. IsRefusedText Show types.now codec place digits.now r ⊎ (r ≡ OutOfMemory)) }
{
    let octets = hex::decode(alloc, digits.as_bytes())?;
    let text = show(alloc, codec, types, place, octets.as_slice())?;
    Ok(text)
}

/// The canonical octets of the value that JSON tells, in hexadecimal.
fn made(
    alloc: Global,
    codec: Codec,
    types: &Types,
    place: usize,
    text: &str,
) -> Result<Vec<u8>, Refusal>
    ensures ok { IfOk result (λ answer. IsAnswerTo Make types.now codec place text.now answer.items) }
    ensures err { IfErr result (λ r. IsRefusedText Make types.now codec place text.now r ⊎ (r ≡ OutOfMemory)) }
{
    let canonical = make(alloc, codec, types, place, text.as_bytes())?;
    let digits = hex::encode(alloc, canonical.as_slice())?;
    Ok(digits.into_bytes())
}
