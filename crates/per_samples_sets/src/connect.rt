//! A SEQUENCE with a key that is an object identifier or octets.

ghost use Rattle.std.specs.Prelude.{[], ◌∷◌, Some, refl};
ghost use Rattle.rasn_below.specs.Page.{octets, fields_of};
ghost use Rattle.per_samples_sets.specs.Connects.{connect};

use crate::key::Key;
use rasn_below::page::*;

/// SEQUENCE { key CHOICE { object OBJECT IDENTIFIER, other OCTET STRING }, pdu OCTET STRING }
#[derive(Debug, Drop, PartialEq)]
pub struct Connect {
    pub key: Key,
    pub pdu: OctetString,
}

macro_rules! components { ($to:ident $($with:ident)*) => { $to! { [$($with)*]
    required 0 "key" key: Key [];
    required 1 "pdu" pdu: OctetString [];
} }; }

const FIELDS: FieldLists = components!(fields);

const BOUNDS: Bounds = components!(bounds);

impl Components for Connect {
    const COMPONENTS: FieldLists = FIELDS;

    ghost COMPONENTS = { fields_of connect };

    ghost components = { (connect, refl) };

    ghost contents = { λ x. Some (⟦<Key as AsnType>⟧.value x.key) ∷ Some (octets x.pdu) ∷ [] };

    ghost depth = { λ _. 1 };
}

impl Record for Connect {
    fn encode_components<E: Encoder>(&self, encoder: &mut E) -> Result<(), E::Error> {
        components!(encode_components self encoder)
    }

    fn decode_components<D: Decoder>(decoder: &mut D) -> Result<Self, D::Error> {
        components!(decode_components decoder)
    }
}
