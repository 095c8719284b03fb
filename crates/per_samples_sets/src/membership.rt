//! A SEQUENCE with an object identifier and a SET OF.

ghost use Rattle.std.specs.Prelude.{[], ◌∷◌, Some, refl};
ghost use Rattle.rasn_below.specs.Page.{identifier_value, fields_of};
ghost use Rattle.per_samples_sets.specs.Memberships.{membership};

use rasn_below::page::*;

/// SEQUENCE { group OBJECT IDENTIFIER, members SET (SIZE (1..4)) OF INTEGER }
#[derive(Drop, PartialEq)]
pub struct Membership {
    pub group: ObjectIdentifier,
    pub members: SetOf<Integer>,
}

macro_rules! components { ($to:ident $($with:ident)*) => { $to! { [$($with)*]
    required 0 "group" group: ObjectIdentifier [];
    required 1 "members" members: SetOf<Integer> [SIZE 1..=4];
} }; }

const FIELDS: FieldLists = components!(fields);

const BOUNDS: Bounds = components!(bounds);

impl Components for Membership {
    const COMPONENTS: FieldLists = FIELDS;

    ghost COMPONENTS = { fields_of membership };

    ghost components = { (membership, refl) };

    ghost contents = { λ x. Some (identifier_value x.group) ∷
        Some (⟦<SetOf<Integer> as AsnType>⟧.value x.members) ∷ [] };

    ghost depth = { λ x. ⟦<SetOf<Integer> as AsnType>⟧.levels x.members };
}

impl Record for Membership {
    fn encode_components<E: Encoder>(&self, encoder: &mut E) -> Result<(), E::Error> {
        components!(encode_components self encoder)
    }

    fn decode_components<D: Decoder>(decoder: &mut D) -> Result<Self, D::Error> {
        components!(decode_components decoder)
    }
}
