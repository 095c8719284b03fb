//! The second of two SEQUENCEs that hold one another.

ghost use Rattle.std.specs.Prelude.{refl};
ghost use Rattle.rasn_below.specs.Page.{fields_of};
ghost use Rattle.per_samples_c.specs.Mutuals.{pong, pong_contents, pong_depth};

use crate::ping::Ping;
use rasn_below::codec::{Decode, Encode};
use rasn_below::page::*;
use rasn_below::types::Identifier;
use rasn_constructed::read::{Holds, Same, decode};
use rasn_constructed::{decode_record, encode_record};

/// Pong ::= SEQUENCE { ping Ping OPTIONAL }
#[cycle(hold)]
#[derive(Debug, Drop, PartialEq)]
pub struct Pong {
    pub ping: Option<Box<Ping>>,
}

macro_rules! components { ($to:ident $($with:ident)*) => { $to! { [$($with)*]
    optional 0 "ping" ping: Option<Box<Ping>> [RECURSIVE];
} }; }

const FIELDS: FieldLists = components!(fields);

const BOUNDS: Bounds = components!(bounds);

impl Components for Pong {
    const COMPONENTS: FieldLists = FIELDS;

    ghost COMPONENTS = { fields_of pong };

    ghost components = { (pong, refl) };

    ghost contents = { pong_contents };

    ghost depth = { pong_depth };
}

impl Encode for Pong {
    #[cycle(write)]
    fn encode_with_tag_and_constraints<E: Encoder>(
        &self,
        encoder: &mut E,
        tag: Tag,
        _: &Constraints,
        identifier: Identifier,
    ) -> Result<(), E::Error> {
        components!(encode_record self encoder tag identifier)
    }
}

impl Holds<Ping> for Pong {
    fn decode_holding<H: Same<Ping>, D: Decoder, F: Fn(&mut D, Tag) -> Result<H, D::Error>>(
        decoder: &mut D,
        tag: Tag,
        held: &F,
    ) -> Result<Pong, D::Error> {
        components!(decode_record decoder tag held Ping)
    }
}

impl Decode for Pong {
    fn decode_with_tag_and_constraints<D: Decoder>(
        decoder: &mut D,
        tag: Tag,
        _: &Constraints,
    ) -> Result<Pong, D::Error> {
        decode::<Pong, Ping, D>(decoder, tag)
    }
}
