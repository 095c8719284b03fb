//! A SET with an extension marker, and additions after it.
#![tactic(auto, unfolding(rasn_below::specs::Types::smallest))]

ghost use Rattle.std.specs.Prelude.{[], ◌∷◌, None, Some, true, pos, refl};
ghost use Rattle.rasn_below.specs.Page.{truth, whole, slot_of, fields_of};
ghost use Rattle.per_core.specs.Rows.{aligned, unaligned, IsWrittenAs};
ghost use Rattle.per_samples_sets.specs.Sets.{extended_set};

use rasn_below::page::*;

/// SET { b [1] INTEGER (0..255), a [0] BOOLEAN, ..., d [3] BOOLEAN, c [2] INTEGER (0..7) OPTIONAL }
#[derive(Clone, Copy, Debug, PartialEq, Eq)]
pub struct ExtendedSet {
    pub b: u8,
    pub a: bool,
    pub d: bool,
    pub c: Option<u8>,
}

macro_rules! components {
    ($to:ident $($with:ident)*) => {
        $to! { [$($with)*]
            required 0 "a" a: bool [];
            required 1 "b" b: u8 [0..=255];
            ...;
            required 3 "d" d: bool [];
            optional 2 "c" c: Option<u8> [0..=7];
        }
    };
}

const FIELDS: FieldLists = components!(fields);

const BOUNDS: Bounds = components!(bounds);

const COMPONENTS: FieldLists = fields! { []
    required 1 "b" b: u8 [0..=255];
    required 0 "a" a: bool [];
    ...;
    required 3 "d" d: bool [];
    optional 2 "c" c: Option<u8> [0..=7];
};

impl OfKind for ExtendedSet {
    type Kind = SetKind;
}

impl SetComponents for ExtendedSet {
    const COMPONENTS: FieldLists = COMPONENTS;

    ghost COMPONENTS = { fields_of extended_set };

    ghost components = { (extended_set, refl) };

    ghost contents = { λ x. Some (whole (pos x.b)) ∷ Some (truth x.a) ∷ [] };

    ghost added = { λ x. Some (truth x.d) ∷ slot_of (λ n. whole (pos n)) x.c ∷ [] };

    ghost counted = { λ _. refl };
}

impl SetRecord for ExtendedSet {
    fn encode_components<E: Encoder>(&self, encoder: &mut E) -> Result<(), E::Error> {
        components!(encode_set_components self encoder)
    }

    fn decode_components<D: Decoder>(decoder: &mut D) -> Result<Self, D::Error> {
        components!(decode_set_components decoder)
    }
}

impl ByKind for ExtendedSet {}

/// The root is in the order of its tags, and the additions as they are listed (X.691 19.7, 21).
#[tactic(auto, unfolding(per_core::specs::Rows::bytes, rasn_below::specs::Types::normal))]
pub fn additions_follow_the_root()
    ensures written { let own = ⟦<ExtendedSet as AsnType>⟧ in
        IsWrittenAs unaligned (own.schema own.CONSTRAINTS) own.levels own.value
        (record { b = 170; a = true; d = true; c = Some 5 })
        (0xea ∷ 0x80 ∷ 0xe0 ∷ 0x30 ∷ 0x00 ∷ 0x34 ∷ 0x00 ∷ []) }
    ensures written_aligned { let own = ⟦<ExtendedSet as AsnType>⟧ in
        IsWrittenAs aligned (own.schema own.CONSTRAINTS) own.levels own.value
        (record { b = 170; a = true; d = true; c = Some 5 })
        (0xc0 ∷ 0xaa ∷ 0x03 ∷ 0x80 ∷ 0x01 ∷ 0x80 ∷ 0x01 ∷ 0xa0 ∷ []) }
    ensures none { let own = ⟦<ExtendedSet as AsnType>⟧ in
        IsWrittenAs unaligned (own.schema own.CONSTRAINTS) own.levels own.value
        (record { b = 170; a = true; d = true; c = None }) (0xea ∷ 0x80 ∷ 0xc0 ∷ 0x30 ∷ 0x00 ∷ []) }
{}
