//! A SET of two components.
#![tactic(auto, unfolding(rasn_below::specs::Types::smallest))]

ghost use Rattle.std.specs.Prelude.{[], ◌∷◌, Some, pos, refl};
ghost use Rattle.rasn_below.specs.Page.{truth, whole, fields_of};
ghost use Rattle.per_samples_sets.specs.Sets.{set};

use rasn_below::page::*;

/// SET { b [1] INTEGER (0..255), a [0] BOOLEAN }
#[derive(Clone, Copy, Debug, PartialEq, Eq)]
pub struct Set {
    pub b: u8,
    pub a: bool,
}

macro_rules! components {
    ($to:ident $($with:ident)*) => {
        $to! { [$($with)*]
            required 0 "a" a: bool [];
            required 1 "b" b: u8 [0..=255];
        }
    };
}

const FIELDS: FieldLists = components!(fields);

const BOUNDS: Bounds = components!(bounds);

const COMPONENTS: FieldLists = fields! { []
    required 1 "b" b: u8 [0..=255];
    required 0 "a" a: bool [];
};

impl OfKind for Set {
    type Kind = SetKind;
}

impl SetComponents for Set {
    const COMPONENTS: FieldLists = COMPONENTS;

    ghost COMPONENTS = { fields_of set };

    ghost components = { (set, refl) };

    ghost contents = { λ x. Some (whole (pos x.b)) ∷ Some (truth x.a) ∷ [] };

    ghost counted = { λ _. refl };
}

impl SetRecord for Set {
    fn encode_components<E: Encoder>(&self, encoder: &mut E) -> Result<(), E::Error> {
        components!(encode_set_components self encoder)
    }

    fn decode_components<D: Decoder>(decoder: &mut D) -> Result<Self, D::Error> {
        components!(decode_set_components decoder)
    }
}

impl ByKind for Set {}
