//! The key of a `Connect`.

ghost use Rattle.std.specs.Prelude.{refl};
ghost use Rattle.rasn_below.specs.Page.{identifier_value, octets, chosen, variants_listed};
ghost use Rattle.per_samples_sets.specs.Connects.{key};
ghost use Rattle.per_samples_sets.specs.declared.key.Key.TheVariants.{Object, Other};

use rasn_below::page::*;

/// CHOICE { object OBJECT IDENTIFIER, other OCTET STRING }
#[derive(Debug, Drop, PartialEq)]
pub enum Key {
    Object(ObjectIdentifier),
    Other(OctetString),
}

macro_rules! alternatives { ($to:ident $($with:ident)*) => { $to! { [$($with)*]
    0 "object" Object: ObjectIdentifier [];
    1 "other" Other: OctetString [];
} }; }

const VARIANTS: VariantLists = alternatives!(variants);

const BOUNDS: Bounds = alternatives!(alternative_bounds);

impl OfKind for Key {
    type Kind = ChoiceKind;
}

impl Alternatives for Key {
    const ALTERNATIVES: VariantLists = VARIANTS;

    ghost ALTERNATIVES = { variants_listed key };

    ghost alternatives = { (key, refl) };

    ghost chosen = { elim [
      | Object arcs ↦ chosen 0 (identifier_value arcs)
      | Other bytes ↦ chosen 1 (octets bytes)
    ] };

    ghost are_variants = { record { distinct = refl; few = refl } };
}

impl CodedAlternatives for Key {
    fn place(&self) -> Place {
        alternatives!(place_of_alternative self)
    }

    fn encode_alternative<E: Encoder>(&self, encoder: &mut E) -> Result<(), E::Error> {
        alternatives!(encode_alternative self encoder)
    }

    fn decode_alternative<D: Decoder>(decoder: &mut D, place: Place) -> Result<Self, D::Error> {
        alternatives!(decode_alternative decoder place)
    }
}

impl ByKind for Key {}
