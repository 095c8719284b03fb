//! The first of two SEQUENCEs that hold one another.

ghost use Rattle.std.specs.Prelude.{refl};
ghost use Rattle.rasn_below.specs.Page.{fields_of};
ghost use Rattle.per_samples_c.specs.Mutuals.{ping, ping_contents, ping_depth};

use crate::pong::Pong;
use rasn_below::codec::{Decode, Encode};
use rasn_below::page::*;
use rasn_below::types::Identifier;
use rasn_constructed::read::{Holds, Same, decode};
use rasn_constructed::{decode_record, encode_record};

/// Ping ::= SEQUENCE { pong Pong OPTIONAL }
#[cycle(hold)]
#[derive(Debug, Drop, PartialEq)]
pub struct Ping {
    pub pong: Option<Box<Pong>>,
}

macro_rules! components { ($to:ident $($with:ident)*) => { $to! { [$($with)*]
    optional 0 "pong" pong: Option<Box<Pong>> [RECURSIVE];
} }; }

const FIELDS: FieldLists = components!(fields);

const BOUNDS: Bounds = components!(bounds);

impl Components for Ping {
    const COMPONENTS: FieldLists = FIELDS;

    ghost COMPONENTS = { fields_of ping };

    ghost components = { (ping, refl) };

    ghost contents = { ping_contents };

    ghost depth = { ping_depth };
}

impl Encode for Ping {
    #[cycle(write)]
    fn encode_with_tag_and_constraints<E: Encoder>(
        &self,
        encoder: &mut E,
        tag: Tag,
        _: &Constraints,
        identifier: Identifier,
    ) -> Result<(), E::Error> {
        components!(encode_record self encoder tag identifier)
    }
}

impl Holds<Pong> for Ping {
    fn decode_holding<H: Same<Pong>, D: Decoder, F: Fn(&mut D, Tag) -> Result<H, D::Error>>(
        decoder: &mut D,
        tag: Tag,
        held: &F,
    ) -> Result<Ping, D::Error> {
        components!(decode_record decoder tag held Pong)
    }
}

impl Decode for Ping {
    fn decode_with_tag_and_constraints<D: Decoder>(
        decoder: &mut D,
        tag: Tag,
        _: &Constraints,
    ) -> Result<Ping, D::Error> {
        decode::<Ping, Pong, D>(decoder, tag)
    }
}
