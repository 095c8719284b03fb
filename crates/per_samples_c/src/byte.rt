//! A SEQUENCE of eight BOOLEAN.

ghost use Rattle.std.specs.Prelude.{refl, true, false, [], ◌∷◌, Some};
ghost use Rattle.rasn_below.specs.Page.{truth, fields_of};
ghost use Rattle.per_core.specs.Rows.{unaligned, IsWrittenAs};
ghost use Rattle.per_samples_c.specs.Bytes.{byte};

use rasn_below::page::*;

/// SEQUENCE {
///     b0 BOOLEAN, b1 BOOLEAN, b2 BOOLEAN, b3 BOOLEAN, b4 BOOLEAN, b5 BOOLEAN, b6 BOOLEAN, b7 BOOLEAN
/// }
#[derive(Clone, Copy, Debug, Drop, PartialEq, Eq)]
pub struct Byte {
    pub b0: bool,
    pub b1: bool,
    pub b2: bool,
    pub b3: bool,
    pub b4: bool,
    pub b5: bool,
    pub b6: bool,
    pub b7: bool,
}

macro_rules! components { ($to:ident $($with:ident)*) => { $to! { [$($with)*]
    required 0 "b0" b0: bool [];
    required 1 "b1" b1: bool [];
    required 2 "b2" b2: bool [];
    required 3 "b3" b3: bool [];
    required 4 "b4" b4: bool [];
    required 5 "b5" b5: bool [];
    required 6 "b6" b6: bool [];
    required 7 "b7" b7: bool [];
} }; }

const FIELDS: FieldLists = components!(fields);

const BOUNDS: Bounds = components!(bounds);

impl Components for Byte {
    const COMPONENTS: FieldLists = FIELDS;

    ghost COMPONENTS = { fields_of byte };

    ghost components = { (byte, refl) };

    ghost contents = { λ x.
        Some (truth x.b0) ∷ Some (truth x.b1) ∷ Some (truth x.b2) ∷ Some (truth x.b3) ∷
        Some (truth x.b4) ∷ Some (truth x.b5) ∷ Some (truth x.b6) ∷ Some (truth x.b7) ∷ [] };
}

impl Record for Byte {
    fn encode_components<E: Encoder>(&self, encoder: &mut E) -> Result<(), E::Error> {
        components!(encode_components self encoder)
    }

    fn decode_components<D: Decoder>(decoder: &mut D) -> Result<Self, D::Error> {
        components!(decode_components decoder)
    }
}

/// Eight bits are an octet, the first one highest (X.691 11.1).
#[tactic(auto, unfolding(per_core::specs::Rows::bytes, rasn_below::specs::Types::normal))]
pub fn eight_bits_are_an_octet()
    ensures uper { let own = ⟦<Byte as AsnType>⟧ in
        IsWrittenAs unaligned (own.schema own.CONSTRAINTS) own.levels own.value
        (record { b0 = true; b1 = false; b2 = true; b3 = false; b4 = false; b5 = false; b6 = false; b7 = true })
        (0xa1 ∷ []) }
{}
