//! A SEQUENCE of twelve optional components.

ghost use Rattle.std.specs.Prelude.{refl, [], ◌∷◌, pos};
ghost use Rattle.rasn_below.specs.Page.{truth, nothing, whole, octets, bits, slot_of, fields_of};
ghost use Rattle.per_samples_a.specs.Optionals.{twelve};

use rasn_below::page::*;

/// SEQUENCE {
///     a BOOLEAN OPTIONAL, b INTEGER (0..7) OPTIONAL, c NULL OPTIONAL, d INTEGER (-8..7) OPTIONAL,
///     e OCTET STRING (SIZE (1)) OPTIONAL, f BOOLEAN OPTIONAL, g INTEGER (0..255) OPTIONAL, h BOOLEAN OPTIONAL,
///     i BIT STRING (SIZE (4)) OPTIONAL, j INTEGER OPTIONAL, k BOOLEAN OPTIONAL, l INTEGER (0..3) OPTIONAL
/// }
#[derive(Debug, Drop, PartialEq)]
pub struct Twelve {
    pub a: Option<bool>,
    pub b: Option<u8>,
    pub c: Option<()>,
    pub d: Option<i8>,
    pub e: Option<OctetString>,
    pub f: Option<bool>,
    pub g: Option<u8>,
    pub h: Option<bool>,
    pub i: Option<BitString>,
    pub j: Option<Integer>,
    pub k: Option<bool>,
    pub l: Option<u8>,
}

macro_rules! components { ($to:ident $($with:ident)*) => { $to! { [$($with)*]
    optional 0 "a" a: Option<bool> [];
    optional 1 "b" b: Option<u8> [0..=7];
    optional 2 "c" c: Option<()> [];
    optional 3 "d" d: Option<i8> [-8..=7];
    optional 4 "e" e: Option<OctetString> [SIZE 1];
    optional 5 "f" f: Option<bool> [];
    optional 6 "g" g: Option<u8> [0..=255];
    optional 7 "h" h: Option<bool> [];
    optional 8 "i" i: Option<BitString> [SIZE 4];
    optional 9 "j" j: Option<Integer> [];
    optional 10 "k" k: Option<bool> [];
    optional 11 "l" l: Option<u8> [0..=3];
} }; }

const FIELDS: FieldLists = components!(fields);

const BOUNDS: Bounds = components!(bounds);

impl Components for Twelve {
    const COMPONENTS: FieldLists = FIELDS;

    ghost COMPONENTS = { fields_of twelve };

    ghost components = { (twelve, refl) };

    ghost contents = { λ x.
        slot_of truth x.a ∷ slot_of (λ n. whole (pos n)) x.b ∷ slot_of (λ _. nothing) x.c ∷ slot_of whole x.d ∷
        slot_of octets x.e ∷ slot_of truth x.f ∷ slot_of (λ n. whole (pos n)) x.g ∷ slot_of truth x.h ∷
        slot_of bits x.i ∷ slot_of whole x.j ∷ slot_of truth x.k ∷ slot_of (λ n. whole (pos n)) x.l ∷ [] };
}

impl Record for Twelve {
    fn encode_components<E: Encoder>(&self, encoder: &mut E) -> Result<(), E::Error> {
        components!(encode_components self encoder)
    }

    fn decode_components<D: Decoder>(decoder: &mut D) -> Result<Self, D::Error> {
        components!(decode_components decoder)
    }
}
