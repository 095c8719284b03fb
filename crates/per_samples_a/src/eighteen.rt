//! A SEQUENCE of eighteen components, of which sixteen are required.

ghost use Rattle.std.specs.Prelude.{refl, true, false, [], ◌∷◌, Some, None, pos};
ghost use Rattle.rasn_below.specs.Page.{truth, whole, slot_of, fields_of};
ghost use Rattle.per_core.specs.Rows.{unaligned, IsWrittenAs};
ghost use Rattle.per_samples_a.specs.Eighteens.{eighteen};

use rasn_below::page::*;

/// SEQUENCE { a BOOLEAN, b BOOLEAN, .., p BOOLEAN, q INTEGER (0..7) OPTIONAL, r INTEGER (0..7) DEFAULT 3 }
#[derive(Clone, Copy, Debug, PartialEq)]
pub struct Eighteen {
    pub a: bool,
    pub b: bool,
    pub c: bool,
    pub d: bool,
    pub e: bool,
    pub f: bool,
    pub g: bool,
    pub h: bool,
    pub i: bool,
    pub j: bool,
    pub k: bool,
    pub l: bool,
    pub m: bool,
    pub n: bool,
    pub o: bool,
    pub p: bool,
    pub q: Option<u8>,
    pub r: u8,
}

macro_rules! components { ($to:ident $($with:ident)*) => { $to! { [$($with)*]
    required 0 "a" a: bool [];
    required 1 "b" b: bool [];
    required 2 "c" c: bool [];
    required 3 "d" d: bool [];
    required 4 "e" e: bool [];
    required 5 "f" f: bool [];
    required 6 "g" g: bool [];
    required 7 "h" h: bool [];
    required 8 "i" i: bool [];
    required 9 "j" j: bool [];
    required 10 "k" k: bool [];
    required 11 "l" l: bool [];
    required 12 "m" m: bool [];
    required 13 "n" n: bool [];
    required 14 "o" o: bool [];
    required 15 "p" p: bool [];
    optional 16 "q" q: Option<u8> [0..=7];
    default 17 "r" r: u8 [0..=7 DEFAULT 3_u8];
} }; }

const FIELDS: FieldLists = components!(fields);

const BOUNDS: Bounds = components!(bounds);

impl Components for Eighteen {
    const COMPONENTS: FieldLists = FIELDS;

    ghost COMPONENTS = { fields_of eighteen };

    ghost components = { (eighteen, refl) };

    ghost contents = { λ x.
        Some (truth x.a) ∷ Some (truth x.b) ∷ Some (truth x.c) ∷ Some (truth x.d) ∷
        Some (truth x.e) ∷ Some (truth x.f) ∷ Some (truth x.g) ∷ Some (truth x.h) ∷
        Some (truth x.i) ∷ Some (truth x.j) ∷ Some (truth x.k) ∷ Some (truth x.l) ∷
        Some (truth x.m) ∷ Some (truth x.n) ∷ Some (truth x.o) ∷ Some (truth x.p) ∷
        slot_of (λ n. whole (pos n)) x.q ∷ Some (whole (pos x.r)) ∷ [] };
}

impl Record for Eighteen {
    fn encode_components<E: Encoder>(&self, encoder: &mut E) -> Result<(), E::Error> {
        components!(encode_components self encoder)
    }

    fn decode_components<D: Decoder>(decoder: &mut D) -> Result<Self, D::Error> {
        components!(decode_components decoder)
    }
}

/// The presence bits of the last two components are before all components (X.691 19.2).
#[tactic(auto, unfolding(per_core::specs::Rows::bytes, rasn_below::specs::Types::normal))]
pub fn presence_bits_come_before_sixteen()
    ensures there { let own = ⟦<Eighteen as AsnType>⟧ in
        IsWrittenAs unaligned (own.schema own.CONSTRAINTS) own.levels own.value
        (record {
          a = true;
          b = true;
          c = true;
          d = true;
          e = true;
          f = true;
          g = true;
          h = true;
          i = true;
          j = true;
          k = true;
          l = true;
          m = true;
          n = true;
          o = true;
          p = true;
          q = Some 5;
          r = 3;
        })
        (0xbf ∷ 0xff ∷ 0xe8 ∷ []) }
    ensures absent { let own = ⟦<Eighteen as AsnType>⟧ in
        IsWrittenAs unaligned (own.schema own.CONSTRAINTS) own.levels own.value
        (record {
          a = false;
          b = false;
          c = false;
          d = false;
          e = false;
          f = false;
          g = false;
          h = false;
          i = false;
          j = false;
          k = false;
          l = false;
          m = false;
          n = false;
          o = false;
          p = true;
          q = None;
          r = 4;
        })
        (0x40 ∷ 0x00 ∷ 0x60 ∷ []) }
{}
