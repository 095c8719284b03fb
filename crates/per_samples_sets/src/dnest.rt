//! A SEQUENCE that holds itself and a DATE.

ghost use Rattle.std.specs.Prelude.{refl};
ghost use Rattle.rasn_below.specs.Page.{fields_of};
ghost use Rattle.per_samples_sets.specs.Dnests.{dnest, dnest_contents, dnest_depth};

use rasn_below::codec::{Decode, Encode};
use rasn_below::page::*;
use rasn_below::types::{Date, Identifier};
use rasn_constructed::read::{Holds, Same, decode};
use rasn_constructed::{decode_record, encode_record};

/// Dnest ::= SEQUENCE { inner Dnest OPTIONAL, d DATE OPTIONAL }
#[derive(Debug, Drop, PartialEq)]
pub struct Dnest {
    pub inner: Option<Box<Dnest>>,
    pub d: Option<Date>,
}

macro_rules! components { ($to:ident $($with:ident)*) => { $to! { [$($with)*]
    optional 0 "inner" inner: Option<Box<Dnest>> [RECURSIVE];
    optional 1 "d" d: Option<Date> [];
} }; }

const FIELDS: FieldLists = components!(fields);

const BOUNDS: Bounds = components!(bounds);

impl Components for Dnest {
    const COMPONENTS: FieldLists = FIELDS;

    ghost COMPONENTS = { fields_of dnest };

    ghost components = { (dnest, refl) };

    ghost contents = { dnest_contents };

    ghost depth = { dnest_depth };
}

impl Encode for Dnest {
    #[cycle(write)]
    fn encode_with_tag_and_constraints<E: Encoder>(
        &self,
        encoder: &mut E,
        tag: Tag,
        _: &Constraints,
        identifier: Identifier,
    ) -> Result<(), E::Error> {
        components!(encode_record self encoder tag identifier)
    }
}

impl Holds<Dnest> for Dnest {
    fn decode_holding<H: Same<Dnest>, D: Decoder, F: Fn(&mut D, Tag) -> Result<H, D::Error>>(
        decoder: &mut D,
        tag: Tag,
        held: &F,
    ) -> Result<Dnest, D::Error> {
        components!(decode_record decoder tag held Dnest)
    }
}

impl Decode for Dnest {
    fn decode_with_tag_and_constraints<D: Decoder>(
        decoder: &mut D,
        tag: Tag,
        _: &Constraints,
    ) -> Result<Dnest, D::Error> {
        decode::<Dnest, Dnest, D>(decoder, tag)
    }
}
