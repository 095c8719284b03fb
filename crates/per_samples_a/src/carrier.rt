//! A SEQUENCE of which components contain values of another type.

ghost use Rattle.std.specs.Prelude.{[], ◌∷◌, Some, pos, refl};
ghost use Rattle.rasn_below.specs.Page.{fields_of, octets, whole};
ghost use Rattle.per_samples_a.specs.Carriers.{carrier};

use crate::pair::Pair;
use rasn_below::page::*;

/// Carrier ::= SEQUENCE {
///     id CARRIED.&id ({Pairs}), value CARRIED.&Type ({Pairs}{@id}),
///     payload OCTET STRING (CONTAINING Pair), short OCTET STRING (CONTAINING Pair) (SIZE (1..4))
/// }, where each object of Pairs has the type Pair
#[derive(Debug, Drop, PartialEq)]
pub struct Carrier {
    pub id: u8,
    pub value: OpenType<Pair>,
    pub payload: Contains<Pair>,
    pub short: EncodingOf<Pair, OctetString>,
}

macro_rules! components { ($to:ident $($with:ident)*) => { $to! { [$($with)*]
    required 0 "id" id: u8 [0..=255];
    required 1 "value" value: OpenType<Pair> [];
    required 2 "payload" payload: Contains<Pair> [];
    required 3 "short" short: EncodingOf<Pair, OctetString> [SIZE 1..=4];
} }; }

const FIELDS: FieldLists = components!(fields);

const BOUNDS: Bounds = components!(bounds);

impl Components for Carrier {
    const COMPONENTS: FieldLists = FIELDS;

    ghost COMPONENTS = { fields_of carrier };

    ghost components = { (carrier, refl) };

    ghost contents = { λ x. Some (whole (pos x.id)) ∷ Some (⟦<Pair as AsnType>⟧.value x.value.value) ∷
        Some (⟦<Pair as AsnType>⟧.value x.payload.value) ∷ Some (octets x.short.octets) ∷ [] };

    ghost depth = { λ _. 1 };
}

impl Record for Carrier {
    fn encode_components<E: Encoder>(&self, encoder: &mut E) -> Result<(), E::Error> {
        components!(encode_components self encoder)
    }

    fn decode_components<D: Decoder>(decoder: &mut D) -> Result<Self, D::Error> {
        components!(decode_components decoder)
    }
}
