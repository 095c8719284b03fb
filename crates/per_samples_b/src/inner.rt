//! A SEQUENCE of a truth value and three octets.

ghost use Rattle.std.specs.Prelude.{[], ◌∷◌, Some, refl};
ghost use Rattle.rasn_below.specs.Page.{octets, truth, fields_of};
ghost use Rattle.per_samples_b.specs.Alternatives.{inner};

use rasn_below::page::*;

/// Inner ::= SEQUENCE { flag BOOLEAN, octets OCTET STRING (SIZE (3)) }
#[derive(Debug, Drop, PartialEq)]
pub struct Inner {
    pub flag: bool,
    pub octets: OctetString,
}

macro_rules! components { ($to:ident $($with:ident)*) => { $to! { [$($with)*]
    required 0 "flag" flag: bool [];
    required 1 "octets" octets: OctetString [SIZE 3..=3];
} }; }

const FIELDS: FieldLists = components!(fields);

const BOUNDS: Bounds = components!(bounds);

impl Components for Inner {
    const COMPONENTS: FieldLists = FIELDS;

    ghost COMPONENTS = { fields_of inner };

    ghost components = { (inner, refl) };

    ghost contents = { λ x. Some (truth x.flag) ∷ Some (octets x.octets) ∷ [] };
}

impl Record for Inner {
    fn encode_components<E: Encoder>(&self, encoder: &mut E) -> Result<(), E::Error> {
        components!(encode_components self encoder)
    }

    fn decode_components<D: Decoder>(decoder: &mut D) -> Result<Self, D::Error> {
        components!(decode_components decoder)
    }
}
