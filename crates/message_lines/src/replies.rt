//! The replies to lines of messages.

ghost use Rattle.std.specs.Prelude.{◌≡◌, ◌≤◌, ◌<◌, ◌⊎◌, ◌++◌, IfErr, IfOk, IfSome, length, position, string_bytes};
ghost use Rattle.std.specs.List.{list_all};
ghost use Rattle.std.specs.Char.{is_ascii_whitespace};
ghost use Rattle.message_lines.specs.Columns.{column_end, is_blank};
ghost use Rattle.message_lines.specs.Remarks.{at_path};
ghost use Rattle.message_lines.specs.Replies.{fault_refusal, fault_text, IsRefusalOfText};
ghost use Rattle.message_lines.specs.Replies.{IsAnswer, IsAnswerTo, IsRefusedBy, IsRefusedText, IsReply, IsRefusalOf};
ghost use Rattle.message_lines.specs.Replies.{IsTextReply};
ghost use Rattle.message_lines.specs.Replies.{Replied, message_refusal, place_text, refusal_line, refusal_text};
ghost use Rattle.message_lines.specs.declared.replies.Task.TheVariants.{Check, Make, Show};
ghost use Rattle.message_lines.specs.declared.replies.Refusal.TheVariants.{OutOfMemory};
ghost use Rattle.line_replies.specs.declared.fault.Fault.TheVariants.{OutOfMemory as no_memory};

use crate::digits::{column_of_fault, octets_in};
use crate::remarks::with_remarks;
use hex::FromHexError;
use line_replies::fault::Fault;
use line_replies::layout::{Layout, laid_out};
use line_replies::replies::Replies;
use per_dynamic::located::{RefusedAt, refused_at};
use per_messages::calls::{make, show, show_checked};
use per_messages::error::{MessageError, from_json_name};
use per_messages::located::{Fault as JsonFault, from_json_located};
use rasn_dynamic::types::Types;
use rasn_dynamic_jer::from_json_error::FromJsonError;
use rasn_types::types::Codec;
use std::alloc::{AllocError, Global};

/// What is done with each line.
#[derive(Clone, Copy, Debug, PartialEq, Eq)]
pub enum Task {
    /// Hexadecimal is shown as JSON, in a layout.
    Show(Layout),
    /// It is shown likewise, and after it a line for each remark: where the message departs from its object sets.
    Check(Layout),
    /// JSON is made canonical octets, in lower-case hexadecimal.
    Make,
}

/// What replies to lines of messages of a type.
#[derive(Drop)]
pub struct Messages<'types> {
    /// The variant in which the messages are encoded (X.691 7).
    pub codec: Codec,
    /// The table of types.
    pub types: &'types Types,
    /// The place of the messages' type.
    pub place: usize,
    /// What is done with each line.
    pub task: Task,
    /// Whether each line has a first column, up to a blank or a tab, which is copied to the reply.
    pub has_column: bool,
}

/// Why a line has no answer.
#[derive(Debug, Drop)]
pub enum Refusal {
    /// The line has no message.
    Blank,
    /// The line isn't hexadecimal, from a column on.
    BadHexadecimal(usize),
    /// The message has no answer; and where its octets are refused, if they are.
    Message(MessageError, Option<RefusedAt>),
    /// The text tells no value of the type; and where.
    Json(JsonFault),
    /// Memory ran out.
    OutOfMemory,
}

/// The reply to a line.
#[derive(Drop)]
pub struct Reply {
    /// The line's first column, where one is asked for, and its answer, or `! ` and why it has none, with a line feed.
    pub text: Vec<u8>,
    /// Whether the line has no answer.
    pub is_refused: bool,
}

impl<'types> Replies for Messages<'types> {
    ghost replies = { IsReply };

    /// The text of the reply to a line.
    fn reply(&self, alloc: Global, line: Vec<u8>) -> Result<Vec<u8>, Fault> {
        let reply = self.reply_to(alloc, line.as_slice())?;
        Ok(reply.text)
    }
}

impl<'types> Messages<'types> {
    /// The reply to a line. The only error is want of memory.
    pub fn reply_to(&self, alloc: Global, line: &[u8]) -> Result<Reply, Fault>
        ensures ok { IfOk result (λ r. Replied self.now r.is_refused line.now r.text.items) }
        ensures err { IfErr result (λ f. f ≡ no_memory) }
    {
        if !self.has_column {
            return self.reply_to_text(alloc, line);
        }
        let (column, text) = line.split_at(self.column_end(line));
        let told = self.reply_to_text(alloc, text)?;
        let mut reply = Vec::from_slice(alloc, column)?;
        reply.extend_from_slice(told.text.as_slice())?;
        Ok(Reply {
            text: reply,
            is_refused: told.is_refused,
        })
    }

    /// The reply to the text of a line.
    fn reply_to_text(&self, alloc: Global, text: &[u8]) -> Result<Reply, Fault>
        ensures ok { IfOk result (λ r. IsTextReply self.now r.is_refused text.now r.text.items) }
        ensures err { IfErr result (λ f. f ≡ no_memory) }
    {
        match self.answer(alloc, text) {
            Ok(text) => Ok(Reply {
                text,
                is_refused: false,
            }),
            Err(Refusal::OutOfMemory) => Err(Fault::OutOfMemory),
            Err(refusal) => {
                let told = told(alloc, &refusal)?;
                Ok(Reply {
                    text: told.into_bytes(),
                    is_refused: true,
                })
            }
        }
    }

    /// Where a line's first column ends, with the blank or tab after it.
    fn column_end(&self, line: &[u8]) -> usize
        ensures within { result ≤ length line.now }
        ensures end { result ≡ column_end self.now.has_column line.now }
    {
        if !self.has_column {
            return 0;
        }
        match first_blank(line) {
            Some(index) => index + 1,
            None => line.len(),
        }
    }

    /// The answer to the text of a line, with a line feed.
    pub fn answer(&self, alloc: Global, text: &[u8]) -> Result<Vec<u8>, Refusal>
        ensures ok { IfOk result (λ answer. IsAnswer self.now text.now answer.items) }
        ensures err { IfErr result (λ r. IsRefusedText self.now text.now r ⊎ (r ≡ OutOfMemory)) }
    {
        if is_all_blank(text) {
            return Err(Refusal::Blank);
        }
        let mut answer = self.answer_to(alloc, text)?;
        answer.extend_from_slice(b"\n")?;
        Ok(answer)
    }

    /// The answer to the text of a line.
    fn answer_to(&self, alloc: Global, text: &[u8]) -> Result<Vec<u8>, Refusal>
        ensures ok { IfOk result (λ answer. IsAnswerTo self.now.task self.now text.now answer.items) }
        ensures err { IfErr result (λ r. IsRefusedBy self.now.task self.now text.now r ⊎ (r ≡ OutOfMemory)) }
    {
        match self.task {
            Task::Show(layout) => self.shown(alloc, layout, text),
            Task::Check(layout) => self.checked(alloc, layout, text),
            Task::Make => self.made(alloc, text),
        }
    }

    /// The JSON of the message whose octets a text of hexadecimal spells.
    fn shown(&self, alloc: Global, layout: Layout, text: &[u8]) -> Result<Vec<u8>, Refusal>
        ensures ok { IfOk result (λ answer. IsAnswerTo (Show layout) self.now text.now answer.items) }
        ensures err { IfErr result (λ r. IsRefusedBy (Show layout) self.now text.now r ⊎ (r ≡ OutOfMemory)) }
    {
        let octets = match octets_in(alloc, text) {
            Ok(octets) => octets,
            Err(FromHexError::OutOfMemory) => return Err(Refusal::OutOfMemory),
            Err(_) => return Err(Refusal::BadHexadecimal(column_of_fault(text))),
        };
        match show(alloc, self.codec, self.types, self.place, octets.as_slice()) {
            Ok(json) => Ok(laid_out(alloc, layout, json)?),
            Err(error) => Err(self.refused(alloc, error, octets.as_slice())?),
        }
    }

    /// The same, and after it a line for each remark on the message.
    fn checked(&self, alloc: Global, layout: Layout, text: &[u8]) -> Result<Vec<u8>, Refusal>
        ensures ok { IfOk result (λ answer. IsAnswerTo (Check layout) self.now text.now answer.items) }
        ensures err { IfErr result (λ r. IsRefusedBy (Check layout) self.now text.now r ⊎ (r ≡ OutOfMemory)) }
    {
        let octets = match octets_in(alloc, text) {
            Ok(octets) => octets,
            Err(FromHexError::OutOfMemory) => return Err(Refusal::OutOfMemory),
            Err(_) => return Err(Refusal::BadHexadecimal(column_of_fault(text))),
        };
        match show_checked(alloc, self.codec, self.types, self.place, octets.as_slice()) {
            Ok(checked) => Ok(with_remarks(alloc, layout, checked)?),
            Err(error) => Err(self.refused(alloc, error, octets.as_slice())?),
        }
    }

    /// The refusal of octets that aren't shown.
    pub fn refused(
        &self,
        alloc: Global,
        error: MessageError,
        octets: &[u8],
    ) -> Result<Refusal, AllocError>
        ensures { IfOk result (IsRefusalOf octets.now error) }
    {
        match error {
            MessageError::Decode(_) => {
                let at = refused_at(alloc, self.codec, self.types, self.place, octets)?;
                Ok(Refusal::Message(error, Some(at)))
            }
            _ => Ok(Refusal::from(error)),
        }
    }

    /// The canonical octets, in hexadecimal, of the message that JSON tells.
    fn made(&self, alloc: Global, text: &[u8]) -> Result<Vec<u8>, Refusal>
        ensures ok { IfOk result (λ answer. IsAnswerTo Make self.now text.now answer.items) }
        ensures err { IfErr result (λ r. IsRefusedBy Make self.now text.now r ⊎ (r ≡ OutOfMemory)) }
    {
        match make(alloc, self.codec, self.types, self.place, text) {
            Ok(octets) => {
                let digits = hex::encode(alloc, octets.as_slice())?;
                Ok(digits.into_bytes())
            }
            Err(error) => Err(self.refused_text(alloc, error, text)),
        }
    }

    /// The refusal of a text of JSON of which no octets are made.
    fn refused_text(&self, alloc: Global, error: MessageError, text: &[u8]) -> Refusal
        ensures { IsRefusalOfText self.now text.now error result }
    {
        match error {
            MessageError::FromJson(_) => {
                match from_json_located(alloc, self.types, self.place, text) {
                    Ok(_) => Refusal::Message(error, None),
                    Err(fault) => Refusal::from(fault),
                }
            }
            _ => Refusal::from(error),
        }
    }
}

/// The index of a line's first blank or tab.
fn first_blank(line: &[u8]) -> Option<usize>
    ensures first { result ≡ position is_blank line.now }
    ensures within { IfSome result (λ index. index < length line.now) }
{
    line.iter().position(|octet| is_blank(*octet))
}

/// Whether an octet is a blank or a tab.
fn is_blank(octet: u8) -> bool
    ensures { result ≡ is_blank octet }
{
    matches!(octet, b' ' | b'\t')
}

/// Whether a text is all white space.
fn is_all_blank(text: &[u8]) -> bool
    ensures { result ≡ list_all is_ascii_whitespace text.now }
{
    text.iter().all(|octet| octet.is_ascii_whitespace())
}

impl Refusal {
    /// What is said of it, such as `Incomplete at inner.inner, bit 7 of 8`. The only error is want of memory.
    pub fn text(&self, alloc: Global) -> Result<String, AllocError>
        ensures { IfOk result (λ text. string_bytes text ≡ refusal_text self.now) }
    {
        match self {
            Refusal::Blank => String::from_str(alloc, "blank line"),
            Refusal::BadHexadecimal(column) => format!(in alloc;
                "bad hexadecimal at column {column}"
            ),
            Refusal::Message(error, None) => String::from_str(alloc, error.name()),
            Refusal::Message(error, Some(at)) => {
                let name = error.name();
                let place = place_text(alloc, at)?;
                format!(in alloc; "{name} at {place}")
            }
            Refusal::Json(fault) => fault_text(alloc, fault),
            Refusal::OutOfMemory => String::from_str(alloc, "OutOfMemory"),
        }
    }
}

/// Why a text tells no value, and where, such as `UnknownMember at protocolIEs.3.id`.
fn fault_text(alloc: Global, fault: &JsonFault) -> Result<String, AllocError>
    ensures { IfOk result (λ text. string_bytes text ≡ fault_text fault.now) }
{
    let name = from_json_name(fault.error);
    match fault.octet {
        Some(octet) => format!(in alloc; "{name} at octet {octet}"),
        None => name_at(alloc, name, fault.path.as_str()),
    }
}

/// A name, and a path where it isn't that of the whole message.
fn name_at(alloc: Global, name: &str, path: &str) -> Result<String, AllocError>
    ensures { IfOk result (λ text. string_bytes text ≡ name.now ++ at_path path.now) }
{
    if path.is_empty() {
        String::from_str(alloc, name)
    } else {
        format!(in alloc; "{name} at {path}")
    }
}

/// The path of a place, where it isn't that of the whole message, and its bit.
fn place_text(alloc: Global, at: &RefusedAt) -> Result<String, AllocError>
    ensures { IfOk result (λ text. string_bytes text ≡ place_text at.now) }
{
    let (path, bit, bits) = (at.path.as_str(), at.bit, at.bits);
    if path.is_empty() {
        format!(in alloc; "bit {bit} of {bits}")
    } else {
        format!(in alloc; "{path}, bit {bit} of {bits}")
    }
}

/// Why a line has no answer, behind `! ` and with a line feed.
fn told(alloc: Global, refusal: &Refusal) -> Result<String, AllocError>
    ensures { IfOk result (λ text. string_bytes text ≡ refusal_line refusal.now) }
{
    let text = refusal.text(alloc)?;
    format!(in alloc; "! {text}\n")
}

impl From<MessageError> for Refusal {
    ghost from_gives = { λ e r. r ≡ message_refusal e };

    fn from(error: MessageError) -> Refusal {
        match error {
            MessageError::OutOfMemory => Refusal::OutOfMemory,
            _ => Refusal::Message(error, None),
        }
    }
}

impl From<JsonFault> for Refusal {
    ghost from_gives = { λ f r. r ≡ fault_refusal f.error f };

    fn from(fault: JsonFault) -> Refusal {
        match fault.error {
            FromJsonError::OutOfMemory => Refusal::OutOfMemory,
            _ => Refusal::Json(fault),
        }
    }
}

impl From<AllocError> for Refusal {
    ghost from_gives = { λ e r. r ≡ OutOfMemory };

    fn from(_error: AllocError) -> Refusal {
        Refusal::OutOfMemory
    }
}
