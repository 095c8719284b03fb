//! A SET of components that may be absent, one of them with a private tag.
#![tactic(auto, unfolding(rasn_below::specs::Types::smallest))]

ghost use Rattle.std.specs.Prelude.{[], ◌∷◌, refl};
ghost use Rattle.rasn_below.specs.Page.{truth, slot_of, fields_of};
ghost use Rattle.per_samples_sets.specs.Sets.{set_optional};

use rasn_below::page::*;

/// SET { p [PRIVATE 0] BOOLEAN OPTIONAL, q [0] BOOLEAN OPTIONAL, r [1] BOOLEAN OPTIONAL }
#[derive(Clone, Copy, Debug, PartialEq, Eq)]
pub struct SetOptional {
    pub p: Option<bool>,
    pub q: Option<bool>,
    pub r: Option<bool>,
}

macro_rules! components {
    ($to:ident $($with:ident)*) => {
        $to! { [$($with)*]
            optional 0 "q" q: Option<bool> [];
            optional 1 "r" r: Option<bool> [];
            optional [PRIVATE 0] "p" p: Option<bool> [];
        }
    };
}

const FIELDS: FieldLists = components!(fields);

const BOUNDS: Bounds = components!(bounds);

const COMPONENTS: FieldLists = fields! { []
    optional [PRIVATE 0] "p" p: Option<bool> [];
    optional 0 "q" q: Option<bool> [];
    optional 1 "r" r: Option<bool> [];
};

impl OfKind for SetOptional {
    type Kind = SetKind;
}

impl SetComponents for SetOptional {
    const COMPONENTS: FieldLists = COMPONENTS;

    ghost COMPONENTS = { fields_of set_optional };

    ghost components = { (set_optional, refl) };

    ghost contents = { λ x. slot_of truth x.p ∷ slot_of truth x.q ∷ slot_of truth x.r ∷ [] };

    ghost counted = { λ _. refl };
}

impl SetRecord for SetOptional {
    fn encode_components<E: Encoder>(&self, encoder: &mut E) -> Result<(), E::Error> {
        components!(encode_set_components self encoder)
    }

    fn decode_components<D: Decoder>(decoder: &mut D) -> Result<Self, D::Error> {
        components!(decode_set_components decoder)
    }
}

impl ByKind for SetOptional {}
