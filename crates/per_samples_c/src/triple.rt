//! A SEQUENCE of three octets.

ghost use Rattle.std.specs.Prelude.{refl, [], ◌∷◌, Some};
ghost use Rattle.rasn_below.specs.Page.{octets, fields_of};
ghost use Rattle.per_samples_c.specs.Elements.{triple};

use rasn_below::page::*;

/// SEQUENCE { octets OCTET STRING (SIZE (3)) }
#[derive(Debug, Drop, PartialEq)]
pub struct Triple {
    pub octets: OctetString,
}

macro_rules! components { ($to:ident $($with:ident)*) => { $to! { [$($with)*]
    required 0 "octets" octets: OctetString [SIZE 3..=3];
} }; }

const FIELDS: FieldLists = components!(fields);

const BOUNDS: Bounds = components!(bounds);

impl Components for Triple {
    const COMPONENTS: FieldLists = FIELDS;

    ghost COMPONENTS = { fields_of triple };

    ghost components = { (triple, refl) };

    ghost contents = { λ x. Some (octets x.octets) ∷ [] };
}

impl Record for Triple {
    fn encode_components<E: Encoder>(&self, encoder: &mut E) -> Result<(), E::Error> {
        components!(encode_components self encoder)
    }

    fn decode_components<D: Decoder>(decoder: &mut D) -> Result<Self, D::Error> {
        components!(decode_components decoder)
    }
}
