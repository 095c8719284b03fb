//! From a value of one type, through its octets, to a value of another version.

ghost use Rattle.std.specs.Prelude.{◌≡◌, IfErr, IfOk};
ghost use Rattle.rasn_schema.specs.Lawful.{IsLawfulType};
ghost use Rattle.per_core.specs.Versions.{NewerType};
ghost use Rattle.per_versions.specs.NumbersKept.{KeepsToI128};
ghost use Rattle.rasn_per.specs.Calls.{Decoded, Encoded};
ghost use Rattle.per_versions.specs.Exchanges.{Exchanges, IsKept, IsPassedOn};
ghost use Rattle.per_versions.specs.Readings.{IsReadByNewer, IsReadByOlder};
ghost use Rattle.per_versions.specs.declared.exchange.ExchangeError.TheVariants as Faults;

use crate::constrained::{
    newer_reader_answers_the_widening_under_constraints,
    older_reader_answers_the_projection_under_constraints,
};
use crate::round_trips::{what_was_decoded_is_encoded, what_was_decoded_is_encoded_canonically};
use crate::versions::{newer_reader_answers_the_widening, older_reader_answers_the_projection};
use rasn_codec::codec::{Decode, Encode};
use rasn_per::uper::{DecodeError, EncodeError};
use rasn_per::{aper, uper};
use rasn_schema::schema::Constraints;
use rasn_types::types::Codec;
use std::alloc::Global;

/// Why a value that one type writes isn't read by another.
#[derive(Clone, Copy, Debug, PartialEq)]
pub enum ExchangeError {
    /// The value isn't encoded.
    Encode(EncodeError),
    /// The octets aren't decoded.
    Decode(DecodeError),
}

impl From<EncodeError> for ExchangeError {
    ghost from_gives = { λ e f. f ≡ Faults.Encode e };

    fn from(error: EncodeError) -> ExchangeError {
        ExchangeError::Encode(error)
    }
}

impl From<DecodeError> for ExchangeError {
    ghost from_gives = { λ e f. f ≡ Faults.Decode e };

    fn from(error: DecodeError) -> ExchangeError {
        ExchangeError::Decode(error)
    }
}

/// What an older type's reader answers to a value that a newer type's writer writes, in the variant of a codec: the
/// projection of its normal form (X.680, 52).
pub fn read_by_older<New: Encode, Old: Decode>(
    alloc: Global,
    codec: Codec,
    value: &New,
) -> Result<Old, ExchangeError>
    ensures { let newer = New.schema New.CONSTRAINTS in let older = Old.schema Old.CONSTRAINTS in
        let v = New.value value.now in NewerType newer older →
        Exchanges codec newer (New.levels value.now) v Old.value (IsReadByOlder newer older v) result }
{
    older_reader_answers_the_projection::<New, Old>();
    let octets = encode(alloc, codec, value)?;
    let answer: Old = decode(alloc, codec, &octets)?;
    Ok(answer)
}

/// What a newer type's reader answers to a value that an older type's writer writes, in the variant of a codec: the
/// widening of its normal form (X.680, 52).
pub fn read_by_newer<New: Decode, Old: Encode>(
    alloc: Global,
    codec: Codec,
    value: &Old,
) -> Result<New, ExchangeError>
    ensures { let newer = New.schema New.CONSTRAINTS in let older = Old.schema Old.CONSTRAINTS in
        let v = Old.value value.now in NewerType newer older →
        Exchanges codec older (Old.levels value.now) v New.value (IsReadByNewer newer older v) result }
{
    newer_reader_answers_the_widening::<New, Old>();
    let octets = encode(alloc, codec, value)?;
    let answer: New = decode(alloc, codec, &octets)?;
    Ok(answer)
}

/// What an older type's reader answers under constraints to a value that a newer type's writer writes under others, in
/// the variant of a codec: the projection of its normal form (X.680, 52).
pub fn read_by_older_under_constraints<New: Encode, Old: Decode>(
    alloc: Global,
    codec: Codec,
    written: &Constraints,
    read: &Constraints,
    value: &New,
) -> Result<Old, ExchangeError>
    ensures { let newer = New.schema written.now in let older = Old.schema read.now in
        let v = New.value value.now in NewerType newer older →
        Exchanges codec newer (New.levels value.now) v Old.value (IsReadByOlder newer older v) result }
{
    older_reader_answers_the_projection_under_constraints::<New, Old>();
    let octets = encode_under(alloc, codec, written, value)?;
    let answer: Old = decode_under(alloc, codec, read, &octets)?;
    Ok(answer)
}

/// What a newer type's reader answers under constraints to a value that an older type's writer writes under others, in
/// the variant of a codec: the widening of its normal form (X.680, 52).
pub fn read_by_newer_under_constraints<New: Decode, Old: Encode>(
    alloc: Global,
    codec: Codec,
    written: &Constraints,
    read: &Constraints,
    value: &Old,
) -> Result<New, ExchangeError>
    ensures { let newer = New.schema read.now in let older = Old.schema written.now in
        let v = Old.value value.now in NewerType newer older →
        Exchanges codec older (Old.levels value.now) v New.value (IsReadByNewer newer older v) result }
{
    newer_reader_answers_the_widening_under_constraints::<New, Old>();
    let octets = encode_under(alloc, codec, written, value)?;
    let answer: New = decode_under(alloc, codec, read, &octets)?;
    Ok(answer)
}

/// What a relay makes of octets in the variant of one codec, in that of another or the same: the canonical octets of
/// the value that they spell, whatever the type (X.691, 11.1, 19.9). Of a lawful type that keeps to the numbers of an
/// `i128` it refuses, memory aside, only octets that spell no value.
pub fn pass_on<T: Encode + Decode>(
    alloc: Global,
    from: Codec,
    to: Codec,
    octets: &[u8],
) -> Result<Vec<u8>, ExchangeError>
    ensures passed { IfOk result (λ others. IsPassedOn from to (T.schema T.CONSTRAINTS) octets.now others.items) }
    ensures kept { let type = T.schema T.CONSTRAINTS in IsLawfulType type → KeepsToI128 type →
        IfErr result (IsKept from type octets.now) }
{
    what_was_decoded_is_encoded::<T>();
    what_was_decoded_is_encoded_canonically::<T>();
    let value: T = decode(alloc, from, octets)?;
    let others = encode(alloc, to, &value)?;
    Ok(others)
}

/// The canonical octets of a value, in the variant of a codec.
fn encode<T: Encode>(alloc: Global, codec: Codec, value: &T) -> Result<Vec<u8>, EncodeError>
    ensures { Encoded codec (T.schema T.CONSTRAINTS) (T.levels value.now) (T.value value.now) result }
{
    match codec {
        Codec::Aper => aper::encode(alloc, value),
        Codec::Uper => uper::encode(alloc, value),
    }
}

/// The value that all octets spell, in the variant of a codec.
fn decode<T: Decode>(alloc: Global, codec: Codec, octets: &[u8]) -> Result<T, DecodeError>
    ensures { Decoded codec (T.schema T.CONSTRAINTS) T.value octets.now result }
{
    match codec {
        Codec::Aper => aper::decode(alloc, octets),
        Codec::Uper => uper::decode(alloc, octets),
    }
}

/// The canonical octets of a value under constraints, in the variant of a codec.
fn encode_under<T: Encode>(
    alloc: Global,
    codec: Codec,
    constraints: &Constraints,
    value: &T,
) -> Result<Vec<u8>, EncodeError>
    ensures { Encoded codec (T.schema constraints.now) (T.levels value.now) (T.value value.now) result }
{
    match codec {
        Codec::Aper => aper::encode_with_constraints(alloc, constraints, value),
        Codec::Uper => uper::encode_with_constraints(alloc, constraints, value),
    }
}

/// The value that all octets spell under constraints, in the variant of a codec.
fn decode_under<T: Decode>(
    alloc: Global,
    codec: Codec,
    constraints: &Constraints,
    octets: &[u8],
) -> Result<T, DecodeError>
    ensures { Decoded codec (T.schema constraints.now) T.value octets.now result }
{
    match codec {
        Codec::Aper => aper::decode_with_constraints(alloc, constraints, octets),
        Codec::Uper => uper::decode_with_constraints(alloc, constraints, octets),
    }
}
