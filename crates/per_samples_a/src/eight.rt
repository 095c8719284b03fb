//! A SEQUENCE of eight required components.

ghost use Rattle.std.specs.Prelude.{refl, [], ◌∷◌, Some};
ghost use Rattle.rasn_below.specs.Page.{truth, nothing, whole, fields_of};
ghost use Rattle.per_samples_a.specs.Eights.{eight};

use rasn_below::page::*;

/// SEQUENCE { a BOOLEAN, b INTEGER, c NULL, d BOOLEAN, e INTEGER, f BOOLEAN, g NULL, h INTEGER }
#[derive(Clone, Copy, Debug, PartialEq)]
pub struct Eight {
    pub a: bool,
    pub b: i128,
    pub c: (),
    pub d: bool,
    pub e: i128,
    pub f: bool,
    pub g: (),
    pub h: i128,
}

macro_rules! components { ($to:ident $($with:ident)*) => { $to! { [$($with)*]
    required 0 "a" a: bool [];
    required 1 "b" b: i128 [];
    required 2 "c" c: () [];
    required 3 "d" d: bool [];
    required 4 "e" e: i128 [];
    required 5 "f" f: bool [];
    required 6 "g" g: () [];
    required 7 "h" h: i128 [];
} }; }

const FIELDS: FieldLists = components!(fields);

const BOUNDS: Bounds = components!(bounds);

impl Components for Eight {
    const COMPONENTS: FieldLists = FIELDS;

    ghost COMPONENTS = { fields_of eight };

    ghost components = { (eight, refl) };

    ghost contents = { λ x.
        Some (truth x.a) ∷ Some (whole x.b) ∷ Some nothing ∷ Some (truth x.d) ∷
        Some (whole x.e) ∷ Some (truth x.f) ∷ Some nothing ∷ Some (whole x.h) ∷ [] };
}

impl Record for Eight {
    fn encode_components<E: Encoder>(&self, encoder: &mut E) -> Result<(), E::Error> {
        components!(encode_components self encoder)
    }

    fn decode_components<D: Decoder>(decoder: &mut D) -> Result<Self, D::Error> {
        components!(decode_components decoder)
    }
}
