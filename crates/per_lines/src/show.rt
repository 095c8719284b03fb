//! From the octets of a value to its JSON.

ghost use Rattle.std.specs.Prelude.{◌≡◌, ◌⊎◌, IfOk, IfErr};
ghost use Rattle.per_lines.specs.Showing.{AreShown};
ghost use Rattle.per_core.specs.Rows.{variant_of};
ghost use Rattle.rasn_per.specs.Calls.{basically, Decoded};
ghost use Rattle.line_replies.specs.declared.fault.Fault.TheVariants.{OutOfMemory};
ghost use Rattle.per_located.specs.LocatedRefusals.{IsPlaced, unplaced};
ghost use Rattle.per_lines.specs.ShownLines.{AreTold, IsAnswer, IsRefusal, IsReply, IsUnanswered};
ghost use Rattle.per_lines.specs.declared.show_fault.Fault.TheVariants.{OfLines as lines_fault};

use crate::named::Work;
use crate::show_arguments::Showing;
use crate::show_fault::Fault;
use crate::types::done;
use line_replies::fault;
use line_replies::layout::laid_out;
use line_replies::replies::Replies;
use per_located::{Refusal, aper, uper};
use rasn_below::codec::{Decode, Encode};
use rasn_below::types::Codec;
use rasn_jer::encode;
use std::alloc::{AllocError, Global};

/// The JSON of the value that a line of hexadecimal spells, with a line feed.
pub fn show(alloc: Global, showing: Showing, line: &[u8]) -> Result<Vec<u8>, Fault>
    ensures ok { IfOk result (λ answer. IsAnswer showing line.now answer.items) }
    ensures err { IfErr result (λ f. IsUnanswered showing line.now f ⊎ (f ≡ lines_fault OutOfMemory)) }
{
    let octets = hex::decode(alloc, line)?;
    let octets = Octets {
        codec: showing.codec,
        octets: octets.as_slice(),
    };
    let text = done(alloc, showing.type_name, &octets)?;
    let mut answer = laid_out(alloc, showing.layout, text)?;
    answer.extend_from_slice(b"\n")?;
    Ok(answer)
}

impl Replies for Showing {
    ghost replies = { IsReply };

    /// The reply to a line: its JSON, or `! ` and why it has none, and a line feed.
    fn reply(&self, alloc: Global, line: Vec<u8>) -> Result<Vec<u8>, fault::Fault> {
        match show(alloc, *self, line.as_slice()) {
            Ok(text) => Ok(text),
            Err(Fault::OfLines(fault::Fault::OutOfMemory)) => Err(fault::Fault::OutOfMemory),
            Err(fault) => Ok(refusal(alloc, &fault)?),
        }
    }
}

/// Why a line has no JSON, behind `! ` and with a line feed.
fn refusal(alloc: Global, fault: &Fault) -> Result<Vec<u8>, AllocError>
    ensures { IfOk result (λ text. AreTold fault.now text.items) }
{
    let told = fault.told(alloc)?;
    let mut line = Vec::from_slice(alloc, b"! ")?;
    line.extend_from_slice(told.as_bytes())?;
    line.extend_from_slice(b"\n")?;
    Ok(line)
}

/// Octets to be shown, in the variant of a codec.
#[derive(Drop)]
struct Octets<'a> {
    codec: Codec,
    octets: &'a [u8],
}

impl<'a> Work for Octets<'a> {
    type Fault = Fault;

    ghost answers = { λ o schema text. AreShown (basically (variant_of o.codec)) schema o.octets.now text };

    ghost refuses = { λ o schema fault. IsRefusal o.codec schema o.octets.now fault };

    fn done_as<T: Encode + Decode>(&self, alloc: Global) -> Result<Vec<u8>, Fault> {
        let value: T = read(alloc, self.codec, self.octets)?;
        let text = encode(alloc, &value)?;
        Ok(text)
    }
}

/// The value that all octets spell in the variant of a codec, or why they are refused, and where.
fn read<T: Decode>(alloc: Global, codec: Codec, octets: &[u8]) -> Result<T, Refusal>
    ensures decoded { Decoded codec (T.schema T.CONSTRAINTS) T.value octets.now (unplaced result) }
    ensures place { IfErr result (IsPlaced octets.now) }
{
    match codec {
        Codec::Aper => aper::decode(alloc, octets),
        Codec::Uper => uper::decode(alloc, octets),
    }
}
