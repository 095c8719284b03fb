//! SETs written by a closure in the order of `FIELDS`: their components come to be in ascending order of their tags
//! (X.691 21.1), and a SET of a component fewer or more is refused.

use crate::calls::{Part, encoding_of};
use crate::expected::{expect_octets, expect_unwritten};
use per_enc::{EncodeError, EncodeErrorKind, EncoderOptions};
use per_samples_sets::set::Set;
use per_samples_sets::set_optional::SetOptional;
use rasn_below::codec::{Encode, Encoder as AnyEncoder, EncoderExt as _};
use rasn_below::types::{Identifier, Tag};
use rasn_sets::components::AsSet;
use std::alloc::Global;

const NONE: Identifier = Identifier::EMPTY;

/// The component b and then the component a, with so many more after them, or fewer.
fn put_set<E: AnyEncoder>(encoder: &mut E, count: usize) -> Result<(), E::Error> {
    encoder.encode_set::<AsSet<Set>, _, _>(
        Tag::SET,
        |e: &mut E| -> Result<(), E::Error> {
            5_u8.encode(e)?;
            if count > 1 {
                true.encode(e)?;
            }
            if count > 2 {
                true.encode(e)?;
            }
            Ok(())
        },
        NONE,
    )
}

/// The components p, q and r, each where it is there.
fn put_optional<E: AnyEncoder>(encoder: &mut E, parts: SetOptional) -> Result<(), E::Error> {
    encoder.encode_set::<AsSet<SetOptional>, _, _>(
        Tag::SET,
        |e: &mut E| -> Result<(), E::Error> {
            put_part(e, parts.p)?;
            put_part(e, parts.q)?;
            put_part(e, parts.r)
        },
        NONE,
    )
}

fn put_part<E: AnyEncoder>(encoder: &mut E, part: Option<bool>) -> Result<(), E::Error> {
    encoder.set_presence(part.is_some())?;
    match part {
        Some(value) => value.encode(encoder),
        None => Ok(()),
    }
}

/// A SET of so many components.
#[derive(Clone, Copy)]
struct Components(usize);

impl Part for Components {
    fn put<E: AnyEncoder>(&self, encoder: &mut E) -> Result<(), E::Error> {
        put_set(encoder, self.0)
    }
}

/// A SET of components that may be absent.
#[derive(Clone, Copy)]
struct Optional(SetOptional);

impl Part for Optional {
    fn put<E: AnyEncoder>(&self, encoder: &mut E) -> Result<(), E::Error> {
        put_optional(encoder, self.0)
    }
}

fn set_of(alloc: Global, options: EncoderOptions, count: usize) -> Result<Vec<u8>, EncodeError> {
    encoding_of(alloc, options, &Components(count))
}

fn optional_of(alloc: Global, parts: SetOptional) -> Result<Vec<u8>, EncodeError> {
    encoding_of(alloc, EncoderOptions::unaligned(), &Optional(parts))
}

#[test]
fn components_stand_in_the_order_of_tags(rt: HostRuntime) -> Result<(), EncodeError> {
    let aligned = set_of(rt.alloc(), EncoderOptions::aligned(), 2)?;
    expect_octets(&rt, &aligned, &[0x80, 0x05]);
    let unaligned = set_of(rt.alloc(), EncoderOptions::unaligned(), 2)?;
    expect_octets(&rt, &unaligned, &[0x82, 0x80]);
    Ok(())
}

#[test]
fn presence_bits_stand_in_the_order_of_tags(rt: HostRuntime) -> Result<(), EncodeError> {
    let alone = SetOptional {
        p: Some(true),
        q: None,
        r: None,
    };
    expect_octets(&rt, &optional_of(rt.alloc(), alone)?, &[0x30]);
    let two = SetOptional {
        p: Some(true),
        q: Some(false),
        r: None,
    };
    expect_octets(&rt, &optional_of(rt.alloc(), two)?, &[0xa8]);
    Ok(())
}

#[test]
fn a_component_fewer_is_out_of_turn(rt: HostRuntime) {
    let fewer = set_of(rt.alloc(), EncoderOptions::unaligned(), 1).err();
    expect_unwritten(&rt, fewer, EncodeErrorKind::OutOfTurn);
}

#[test]
fn a_component_more_is_out_of_turn(rt: HostRuntime) {
    let more = set_of(rt.alloc(), EncoderOptions::unaligned(), 3).err();
    expect_unwritten(&rt, more, EncodeErrorKind::OutOfTurn);
}
