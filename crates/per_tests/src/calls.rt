//! Values under constraints, by an encoder and a decoder of their own.
//!
//! The calls are made over any encoder and any decoder: to prove them of one alone costs several times as much.

use per_bits::BitReader;
use per_de::{Decoder, DecoderOptions};
use per_enc::{EncodeError, Encoder, EncoderOptions};
use per_read::error::DecodeError;
use rasn_below::codec::{Decode, Decoder as AnyDecoder, Encode, Encoder as AnyEncoder};
use rasn_below::{Constraint, Constraints};
use std::alloc::Global;

/// A decoder of octets in the UNALIGNED variant.
pub(crate) fn unaligned(alloc: Global, octets: &[u8]) -> Decoder<'_> {
    let bits = BitReader::from_octets(octets);
    Decoder::from_reader(alloc, bits, DecoderOptions::unaligned())
}

/// A decoder of octets in the ALIGNED variant.
pub(crate) fn aligned(alloc: Global, octets: &[u8]) -> Decoder<'_> {
    let bits = BitReader::from_octets(octets);
    Decoder::from_reader(alloc, bits, DecoderOptions::aligned())
}

/// What an encoder is made to write, and answers.
///
/// To prove that this crate's encoder is one of any costs more than most else here: so one function hands it on, for
/// all parts.
pub(crate) trait Part {
    /// Writes it.
    fn put<E: AnyEncoder>(&self, encoder: &mut E) -> Result<(), E::Error>;
}

/// The complete encoding of what was written by an encoder: its one exit before the end is here, since each costs the
/// proof of all that an encoder holds.
pub(crate) fn completed(
    encoder: Encoder<Global>,
    written: Result<(), EncodeError>,
) -> Result<Vec<u8>, EncodeError> {
    written?;
    encoder.output_into_vec()
}

/// The complete encoding of a part.
pub(crate) fn encoding_of<P: Part>(
    alloc: Global,
    options: EncoderOptions,
    part: &P,
) -> Result<Vec<u8>, EncodeError> {
    let mut encoder = Encoder::new(alloc, options);
    let written = part.put(&mut encoder);
    completed(encoder, written)
}

/// A value under constraints.
#[derive(Drop)]
struct Limited<'a, T> {
    value: &'a T,
    constraints: &'static [Constraint<'static>],
}

impl<'a, T: Encode> Part for Limited<'a, T> {
    fn put<E: AnyEncoder>(&self, encoder: &mut E) -> Result<(), E::Error> {
        let constraints = Constraints::new(self.constraints);
        self.value.encode_with_constraints(encoder, &constraints)
    }
}

/// The complete encoding of a value under constraints, in the UNALIGNED variant.
pub(crate) fn written_of<T: Encode>(
    alloc: Global,
    value: &T,
    constraints: &'static [Constraint<'static>],
) -> Result<Vec<u8>, EncodeError> {
    encoding_of(
        alloc,
        EncoderOptions::unaligned(),
        &Limited { value, constraints },
    )
}

fn take<T: Decode, D: AnyDecoder>(
    decoder: &mut D,
    constraints: &'static [Constraint<'static>],
) -> Result<T, D::Error> {
    T::decode_with_constraints(decoder, &Constraints::new(constraints))
}

/// The first value in octets of the UNALIGNED variant, under constraints.
pub(crate) fn read_of<T: Decode>(
    alloc: Global,
    octets: &[u8],
    constraints: &'static [Constraint<'static>],
) -> Result<T, DecodeError> {
    take(&mut unaligned(alloc, octets), constraints)
}
