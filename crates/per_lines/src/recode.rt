//! From the octets of a value to the canonical octets of the same value.

ghost use Rattle.std.specs.Prelude.{◌≡◌, IfOk, IfErr};
ghost use Rattle.per_core.specs.Rows.{variant_of};
ghost use Rattle.rasn_per.specs.Calls.{Encoded, DecodedBy};
ghost use Rattle.per_lines.specs.Recoding.{Recodes, IsRefusal, Converts, IsUnconverted};
ghost use Rattle.per_lines.specs.Recoding.{schema_of, is_strict, reader_of};

use crate::arguments::{Arguments, Form, Padding, TypeName};
use crate::named::{Work, done};
use line_replies::fault::Fault;
use rasn_below::codec::{Decode, Encode};
use rasn_below::types::Codec;
use rasn_per::uper::{DecodeError, EncodeError};
use rasn_per::{aper, uper};
use std::alloc::Global;

/// The canonical octets that octets are converted to, as the arguments say.
pub fn converted(alloc: Global, arguments: Arguments, octets: &[u8]) -> Result<Vec<u8>, Fault>
    ensures ok { IfOk result (λ canonical. Converts
        (variant_of arguments.codec) arguments.type_name arguments.form octets.now canonical.items) }
    ensures err { IfErr result (λ f. IsUnconverted
        (variant_of arguments.codec) arguments.type_name arguments.form octets.now f) }
{
    let (codec, form) = (arguments.codec, arguments.form);
    let written = recoded(alloc, codec, form.padding(), arguments.type_name, octets)?;
    match form {
        Form::OneLine | Form::Lines | Form::Zero => Ok(written),
        Form::As(other) => recoded(alloc, codec, Padding::Any, other, written.as_slice()),
    }
}

/// The canonical octets of the value that octets spell, of a type and in the variant of a codec.
pub fn recoded(
    alloc: Global,
    codec: Codec,
    padding: Padding,
    type_name: TypeName,
    octets: &[u8],
) -> Result<Vec<u8>, Fault>
    ensures ok { IfOk result (λ canonical.
        Recodes (reader_of codec padding) (schema_of type_name) octets.now canonical.items) }
    ensures err { IfErr result (λ f. IsRefusal (reader_of codec padding) (schema_of type_name) octets.now f) }
{
    let recoding = Recoding {
        codec,
        padding,
        octets,
    };
    done(alloc, type_name, &recoding)
}

/// Octets to be recoded.
#[derive(Drop)]
pub struct Recoding<'a> {
    /// The variant in which they are read and written.
    pub codec: Codec,
    /// Which padding is read.
    pub padding: Padding,
    /// The octets.
    pub octets: &'a [u8],
}

impl<'a> Work for Recoding<'a> {
    type Fault = Fault;

    ghost answers = { λ r schema canonical. Recodes (reader_of r.codec r.padding) schema r.octets.now canonical };

    ghost refuses = { λ r schema fault. IsRefusal (reader_of r.codec r.padding) schema r.octets.now fault };

    fn done_as<T: Encode + Decode>(&self, alloc: Global) -> Result<Vec<u8>, Fault> {
        let value: T = decode(alloc, self.codec, self.padding, self.octets)?;
        let canonical = encode(alloc, self.codec, &value)?;
        Ok(canonical)
    }
}

/// The value that all octets spell in the variant of a codec, with such padding.
pub fn decode<T: Decode>(
    alloc: Global,
    codec: Codec,
    padding: Padding,
    octets: &[u8],
) -> Result<T, DecodeError>
    ensures { DecodedBy (is_strict padding) codec (T.schema T.CONSTRAINTS) T.value octets.now result }
{
    match (codec, padding) {
        (Codec::Aper, Padding::Any) => aper::decode(alloc, octets),
        (Codec::Aper, Padding::Zero) => aper::decode_zero_padded(alloc, octets),
        (Codec::Uper, Padding::Any) => uper::decode(alloc, octets),
        (Codec::Uper, Padding::Zero) => uper::decode_zero_padded(alloc, octets),
    }
}

/// The canonical octets of a value in the variant of a codec.
fn encode<T: Encode>(alloc: Global, codec: Codec, value: &T) -> Result<Vec<u8>, EncodeError>
    ensures { Encoded codec (T.schema T.CONSTRAINTS) (T.levels value.now) (T.value value.now) result }
{
    match codec {
        Codec::Aper => aper::encode(alloc, value),
        Codec::Uper => uper::encode(alloc, value),
    }
}
