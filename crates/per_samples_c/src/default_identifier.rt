//! A SEQUENCE whose default is an OBJECT IDENTIFIER.

ghost use Rattle.std.specs.Prelude.{[], ◌∷◌, Some, refl};
ghost use Rattle.rasn_below.specs.Page.{truth, fields_of, identifier_value};
ghost use Rattle.per_samples_c.specs.Defaults.{default_identifier};

use rasn_below::Arcs;
use rasn_below::page::*;

/// SEQUENCE { object OBJECT IDENTIFIER DEFAULT { 1 2 840 }, last BOOLEAN }
#[derive(Debug, Drop, PartialEq)]
pub struct DefaultIdentifier {
    pub object: ObjectIdentifier,
    pub last: bool,
}

macro_rules! components { ($to:ident $($with:ident)*) => { $to! { [$($with)*]
    default 0 "object" object: ObjectIdentifier [DEFAULT Arcs([1, 2, 840])];
    required 1 "last" last: bool [];
} }; }

const FIELDS: FieldLists = components!(fields);

const BOUNDS: Bounds = components!(bounds);

impl Components for DefaultIdentifier {
    const COMPONENTS: FieldLists = FIELDS;

    ghost COMPONENTS = { fields_of default_identifier };

    ghost components = { (default_identifier, refl) };

    ghost contents = { λ x. Some (identifier_value x.object) ∷ Some (truth x.last) ∷ [] };
}

impl Record for DefaultIdentifier {
    fn encode_components<E: Encoder>(&self, encoder: &mut E) -> Result<(), E::Error> {
        components!(encode_components self encoder)
    }

    fn decode_components<D: Decoder>(decoder: &mut D) -> Result<Self, D::Error> {
        components!(decode_components decoder)
    }
}
