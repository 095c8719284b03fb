//! A SEQUENCE of a list, which has the empty one as its default.

ghost use Rattle.std.specs.Prelude.{refl, [], ◌∷◌, Some};
ghost use Rattle.rasn_below.specs.Page.{truth, fields_of};
ghost use Rattle.per_samples_a.specs.Defaults.{default_list};

use rasn_below::page::*;

/// SEQUENCE { list SEQUENCE (SIZE (0..3)) OF BOOLEAN DEFAULT {}, last BOOLEAN }
#[derive(Debug, Drop, PartialEq)]
pub struct DefaultList {
    pub list: Vec<bool>,
    pub last: bool,
}

macro_rules! components { ($to:ident $($with:ident)*) => { $to! { [$($with)*]
    default 0 "list" list: Vec<bool> [SIZE 0..=3 DEFAULT EmptyList];
    required 1 "last" last: bool [];
} }; }

const FIELDS: FieldLists = components!(fields);

const BOUNDS: Bounds = components!(bounds);

impl Components for DefaultList {
    const COMPONENTS: FieldLists = FIELDS;

    ghost COMPONENTS = { fields_of default_list };

    ghost components = { (default_list, refl) };

    ghost contents = { λ x. Some (⟦<Vec<bool> as AsnType>⟧.value x.list) ∷ Some (truth x.last) ∷ [] };

    ghost depth = { λ x. ⟦<Vec<bool> as AsnType>⟧.levels x.list };
}

impl Record for DefaultList {
    fn encode_components<E: Encoder>(&self, encoder: &mut E) -> Result<(), E::Error> {
        components!(encode_components self encoder)
    }

    fn decode_components<D: Decoder>(decoder: &mut D) -> Result<Self, D::Error> {
        components!(decode_components decoder)
    }
}
