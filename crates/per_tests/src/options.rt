//! An `Option` where a value is asked for, as an element of a list.
//!
//! The calls are made over any encoder: to prove them of one alone costs several times as much.

use crate::calls::{Part, encoding_of};
use crate::expected::{expect_equal, expect_octets, expect_unwritten};
use per_enc::{EncodeError, EncodeErrorKind, EncoderOptions};
use rasn_below::Constraints;
use rasn_below::codec::{Encode, Encoder as AnyEncoder, EncoderExt as _};
use rasn_below::types::{Identifier, Tag};
use std::alloc::Global;

/// A SEQUENCE OF BOOLEAN.
#[derive(Clone, Copy)]
struct Elements<'a>(&'a [Option<bool>]);

impl<'a> Part for Elements<'a> {
    fn put<E: AnyEncoder>(&self, encoder: &mut E) -> Result<(), E::Error> {
        let name = Identifier::EMPTY;
        encoder.encode_sequence_of(Tag::SEQUENCE, self.0, &Constraints::NONE, name)
    }
}

/// The octets of a SEQUENCE OF BOOLEAN.
fn list_of(alloc: Global, values: &[Option<bool>]) -> Result<Vec<u8>, EncodeError> {
    encoding_of(alloc, EncoderOptions::unaligned(), &Elements(values))
}

#[test]
fn what_an_option_holds_is_written(rt: HostRuntime) -> Result<(), EncodeError> {
    let written = list_of(rt.alloc(), &[Some(true), Some(false)])?;
    expect_octets(&rt, &written, &[0x02, 0x80]);
    Ok(())
}

#[test]
fn an_element_that_is_absent_is_out_of_turn(rt: HostRuntime) {
    let refused = list_of(rt.alloc(), &[Some(true), None]).err();
    expect_unwritten(&rt, refused, EncodeErrorKind::OutOfTurn);
}

#[test]
fn an_option_is_present_where_it_holds_a_value(rt: HostRuntime) {
    let (held, none): (Option<bool>, Option<bool>) = (Some(true), None);
    expect_equal(&rt, &held.is_present(), &true);
    expect_equal(&rt, &none.is_present(), &false);
}
