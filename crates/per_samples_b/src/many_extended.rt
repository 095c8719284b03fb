//! A SEQUENCE of sixteen optional components, half of them of constructed types, with an addition.

ghost use Rattle.std.specs.Prelude.{[], ◌∷◌, max, pos, refl};
ghost use Rattle.rasn_below.specs.Page.{deeper_of, fields_of, nothing, octets, slot_levels, slot_of, truth, whole};
ghost use Rattle.per_samples_b.specs.ManyExtended.{many_extended};

use crate::alt2::Alt2;
use crate::flagged::Flagged;
use crate::outer1::Outer1;
use crate::outer2::Outer2;
use crate::outer3::Outer3;
use rasn_below::page::*;

/// SEQUENCE {
///     a BOOLEAN OPTIONAL, b outer1 OPTIONAL, c INTEGER (0..7) OPTIONAL, d outer2 OPTIONAL,
///     e OCTET STRING (SIZE (1)) OPTIONAL, f flagged OPTIONAL, g BOOLEAN OPTIONAL, h Alt2 OPTIONAL,
///     i INTEGER (0..255) OPTIONAL, j outer3 OPTIONAL, k NULL OPTIONAL, l outer1 OPTIONAL, m INTEGER OPTIONAL,
///     n flagged OPTIONAL, o BOOLEAN OPTIONAL, p outer3 OPTIONAL, ..., more flagged OPTIONAL
/// }
#[derive(Debug, Drop, PartialEq)]
pub struct ManyExtended {
    pub a: Option<bool>,
    pub b: Option<Outer1>,
    pub c: Option<u8>,
    pub d: Option<Outer2>,
    pub e: Option<OctetString>,
    pub f: Option<Flagged>,
    pub g: Option<bool>,
    pub h: Option<Alt2>,
    pub i: Option<u8>,
    pub j: Option<Outer3>,
    pub k: Option<()>,
    pub l: Option<Outer1>,
    pub m: Option<Integer>,
    pub n: Option<Flagged>,
    pub o: Option<bool>,
    pub p: Option<Outer3>,
    pub more: Option<Flagged>,
}

macro_rules! components { ($to:ident $($with:ident)*) => { $to! { [$($with)*]
    optional 0 "a" a: Option<bool> [];
    optional 1 "b" b: Option<Outer1> [];
    optional 2 "c" c: Option<u8> [0..=7];
    optional 3 "d" d: Option<Outer2> [];
    optional 4 "e" e: Option<OctetString> [SIZE 1];
    optional 5 "f" f: Option<Flagged> [];
    optional 6 "g" g: Option<bool> [];
    optional 7 "h" h: Option<Alt2> [];
    optional 8 "i" i: Option<u8> [0..=255];
    optional 9 "j" j: Option<Outer3> [];
    optional 10 "k" k: Option<()> [];
    optional 11 "l" l: Option<Outer1> [];
    optional 12 "m" m: Option<Integer> [];
    optional 13 "n" n: Option<Flagged> [];
    optional 14 "o" o: Option<bool> [];
    optional 15 "p" p: Option<Outer3> [];
    ...;
    optional 16 "more" more: Option<Flagged> [];
} }; }

const FIELDS: FieldLists = components!(fields);

const BOUNDS: Bounds = components!(bounds);

impl Components for ManyExtended {
    const COMPONENTS: FieldLists = FIELDS;

    ghost COMPONENTS = { fields_of many_extended };

    ghost components = { (many_extended, refl) };

    ghost contents = { λ x.
        slot_of truth x.a ∷ slot_of ⟦<Outer1 as AsnType>⟧.value x.b ∷ slot_of (λ n. whole (pos n)) x.c ∷
        slot_of ⟦<Outer2 as AsnType>⟧.value x.d ∷ slot_of octets x.e ∷ slot_of ⟦<Flagged as AsnType>⟧.value x.f ∷
        slot_of truth x.g ∷ slot_of ⟦<Alt2 as AsnType>⟧.value x.h ∷ slot_of (λ n. whole (pos n)) x.i ∷
        slot_of ⟦<Outer3 as AsnType>⟧.value x.j ∷ slot_of (λ _. nothing) x.k ∷ slot_of ⟦<Outer1 as AsnType>⟧.value x.l ∷
        slot_of whole x.m ∷ slot_of ⟦<Flagged as AsnType>⟧.value x.n ∷ slot_of truth x.o ∷
        slot_of ⟦<Outer3 as AsnType>⟧.value x.p ∷ [] };

    ghost added = { λ x. slot_of ⟦<Flagged as AsnType>⟧.value x.more ∷ [] };

    ghost depth = { λ x. deeper_of
        (max (slot_levels ⟦<Outer1 as AsnType>⟧.levels x.b)
        (max (slot_levels ⟦<Outer2 as AsnType>⟧.levels x.d)
        (max (slot_levels ⟦<Flagged as AsnType>⟧.levels x.f)
        (max (slot_levels ⟦<Alt2 as AsnType>⟧.levels x.h)
        (max (slot_levels ⟦<Outer3 as AsnType>⟧.levels x.j)
        (max (slot_levels ⟦<Outer1 as AsnType>⟧.levels x.l)
        (max (slot_levels ⟦<Flagged as AsnType>⟧.levels x.n)
        (slot_levels ⟦<Outer3 as AsnType>⟧.levels x.p))))))))
        (slot_levels ⟦<Flagged as AsnType>⟧.levels x.more) };
}

impl Record for ManyExtended {
    fn encode_components<E: Encoder>(&self, encoder: &mut E) -> Result<(), E::Error> {
        components!(encode_components self encoder)
    }

    fn decode_components<D: Decoder>(decoder: &mut D) -> Result<Self, D::Error> {
        components!(decode_components decoder)
    }
}
