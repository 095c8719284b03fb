//! A SEQUENCE with a SET among its components.

ghost use Rattle.std.specs.Prelude.{refl, true, [], ◌∷◌, Some, pos};
ghost use Rattle.rasn_below.specs.Page.{truth, slot_of, slot_levels, fields_of};
ghost use Rattle.per_core.specs.Rows.{aligned, unaligned, IsWrittenAs};
ghost use Rattle.per_samples_sets.specs.Holders.{holder};

use crate::set::Set;
use rasn_below::page::*;

/// SEQUENCE { set SET { b [1] INTEGER (0..255), a [0] BOOLEAN } OPTIONAL, last BOOLEAN }, with automatic tags
#[derive(Clone, Copy, Debug, PartialEq, Eq)]
pub struct Holder {
    pub set: Option<Set>,
    pub last: bool,
}

macro_rules! components { ($to:ident $($with:ident)*) => { $to! { [$($with)*]
    optional 0 "set" set: Option<Set> [];
    required 1 "last" last: bool [];
} }; }

const FIELDS: FieldLists = components!(fields);

const BOUNDS: Bounds = components!(bounds);

impl Components for Holder {
    const COMPONENTS: FieldLists = FIELDS;

    ghost COMPONENTS = { fields_of holder };

    ghost components = { (holder, refl) };

    ghost contents = { λ x. slot_of ⟦<Set as AsnType>⟧.value x.set ∷ Some (truth x.last) ∷ [] };

    ghost depth = { λ x. slot_levels ⟦<Set as AsnType>⟧.levels x.set };
}

impl Record for Holder {
    fn encode_components<E: Encoder>(&self, encoder: &mut E) -> Result<(), E::Error> {
        components!(encode_components self encoder)
    }

    fn decode_components<D: Decoder>(decoder: &mut D) -> Result<Self, D::Error> {
        components!(decode_components decoder)
    }
}

/// The SET among them is written in the order of its tags (X.691 21).
#[tactic(auto, unfolding(per_core::specs::Rows::bytes, rasn_below::specs::Types::normal))]
pub fn set_is_written_within()
    ensures written { let own = ⟦<Holder as AsnType>⟧ in
        IsWrittenAs unaligned (own.schema own.CONSTRAINTS) own.levels own.value
        (record { set = Some (record { b = 170; a = true }); last = true }) (0xea ∷ 0xa0 ∷ []) }
    ensures written_aligned { let own = ⟦<Holder as AsnType>⟧ in
        IsWrittenAs aligned (own.schema own.CONSTRAINTS) own.levels own.value
        (record { set = Some (record { b = 170; a = true }); last = true }) (0xc0 ∷ 0xaa ∷ 0x80 ∷ []) }
{}
