//! The answer to a line, and the reply to it.

ghost use Rattle.std.specs.Prelude.{◌≡◌, ◌⊎◌, IfOk, IfErr, string_bytes};
ghost use Rattle.per_lines.specs.Answers.{IsAnswer, IsUnanswered, IsReply, refusal_of};
ghost use Rattle.line_replies.specs.declared.fault.Fault.TheVariants.{OutOfMemory};

use crate::arguments::Arguments;
use crate::recode::converted;
use line_replies::fault::Fault;
use line_replies::replies::Replies;
use std::alloc::{AllocError, Global};

/// The canonical encoding that a line of hexadecimal is converted to, in lower case and with a line feed.
pub fn answer(alloc: Global, arguments: Arguments, line: Vec<u8>) -> Result<String, Fault>
    ensures ok { IfOk result (λ text. IsAnswer arguments line.items (string_bytes text)) }
    ensures err { IfErr result (λ f. IsUnanswered arguments line.items f ⊎ (f ≡ OutOfMemory)) }
{
    let octets = hex::decode(alloc, line.as_slice())?;
    drop(line);
    let canonical = converted(alloc, arguments, octets.as_slice())?;
    drop(octets);
    let mut text = hex::encode(alloc, canonical.as_slice())?;
    text.push('\n')?;
    Ok(text)
}

impl Replies for Arguments {
    ghost replies = { IsReply };

    /// The reply to a line: its answer, or `! ` and why it has none, and a line feed.
    fn reply(&self, alloc: Global, line: Vec<u8>) -> Result<Vec<u8>, Fault> {
        match answer(alloc, *self, line) {
            Ok(text) => Ok(text.into_bytes()),
            Err(Fault::OutOfMemory) => Err(Fault::OutOfMemory),
            Err(fault) => Ok(refusal(alloc, fault)?.into_bytes()),
        }
    }
}

/// Why a line has no answer, behind `! ` and with a line feed.
fn refusal(alloc: Global, fault: Fault) -> Result<String, AllocError>
    ensures { IfOk result (λ text. string_bytes text ≡ refusal_of fault) }
{
    format!(in alloc; "! {}\n", fault.text())
}
