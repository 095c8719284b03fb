//! From the octets of a value to its JSON.

ghost use Rattle.std.specs.Prelude.{IfOk, IfErr};
ghost use Rattle.per_lines.specs.Types.{schema_of};
ghost use Rattle.per_lines.specs.Recoding.{reader_of};
ghost use Rattle.per_lines.specs.Showing.{AreShown};
ghost use Rattle.per_c.specs.Shown.{IsUnshown};

use crate::refusal::Refusal;
use per_lines::arguments::Padding;
use per_lines::named::Work;
use per_lines::recode::decode;
use per_lines::types::{NamedType, done};
use rasn_below::codec::{Decode, Encode};
use rasn_below::types::Codec;
use rasn_jer::encode;
use std::alloc::Global;

/// The JSON text of the value that octets spell, of a type and in the variant of a codec.
pub fn shown(
    alloc: Global,
    codec: Codec,
    padding: Padding,
    type_name: NamedType,
    octets: &[u8],
) -> Result<Vec<u8>, Refusal>
    ensures ok { IfOk result (λ text.
        AreShown (reader_of codec padding) (schema_of type_name) octets.now text.items) }
    ensures err { IfErr result (IsUnshown (reader_of codec padding) (schema_of type_name) octets.now) }
{
    let showing = Showing {
        codec,
        padding,
        octets,
    };
    done(alloc, type_name, &showing)
}

/// Octets to be shown: in which variant, and with which padding.
#[derive(Drop)]
struct Showing<'a> {
    codec: Codec,
    padding: Padding,
    octets: &'a [u8],
}

impl<'a> Work for Showing<'a> {
    type Fault = Refusal;

    ghost answers = { λ s schema text. AreShown (reader_of s.codec s.padding) schema s.octets.now text };

    ghost refuses = { λ s schema refusal. IsUnshown (reader_of s.codec s.padding) schema s.octets.now refusal };

    fn done_as<T: Encode + Decode>(&self, alloc: Global) -> Result<Vec<u8>, Refusal> {
        let value: T = decode(alloc, self.codec, self.padding, self.octets)?;
        let text = encode(alloc, &value)?;
        Ok(text)
    }
}
