//! Sixteen required components in one call, so that a page of many components names no cells within cells, whose types
//! a check would spell out at each step.

ghost use Rattle.std.specs.Prelude.{◌≡◌, ℕ, [], ◌∷◌, Some};
ghost use Rattle.rasn_schema.specs.Components.{added_parts, root_parts};
ghost use Rattle.rasn_schema.specs.Schemas.{no_parts};
ghost use Rattle.rasn_traits.specs.Scopes.{TakesFields, WritesFields};
ghost use Rattle.rasn_record.specs.Lists.{AreWithin};
ghost use Rattle.rasn_record.specs.RequiredComponents.{typed, typed_parts};

use crate::bounds::Bounds;
use crate::cells::{DecodeCells, EncodeCells, GivesBounds, OfRecord};
use crate::fours::FourCells;
use crate::sides::Root;
use crate::{read, write};
use rasn_codec::codec::{Decode, Decoder, Encode, Encoder};
use rasn_schema::components::Components;
use std::marker::PhantomData;

/// Writes all components of a record in turn: sixteen required ones, and the rest as cells. Their tags are those of the
/// record's own fields.
pub fn write<T, A, B, C, D, E, F, G, H, I, J, K, L, M, N, O, P, R, S, X>(
    of: &T,
    a: &A,
    b: &B,
    c: &C,
    d: &D,
    e: &E,
    f: &F,
    g: &G,
    h: &H,
    i: &I,
    j: &J,
    k: &K,
    l: &L,
    m: &M,
    n: &N,
    o: &O,
    p: &P,
    rest: &R,
    bounds: &S,
    encoder: &mut X,
) -> Result<(), X::Error>
where
    T: Components,
    A: Encode,
    B: Encode,
    C: Encode,
    D: Encode,
    E: Encode,
    F: Encode,
    G: Encode,
    H: Encode,
    I: Encode,
    J: Encode,
    K: Encode,
    L: Encode,
    M: Encode,
    N: Encode,
    O: Encode,
    P: Encode,
    R: EncodeCells<Root>,
    S: GivesBounds,
    X: Encoder,
    requires components { (n : ℕ) → root_parts T.components.0 n ≡ typed_parts (
        typed A.TAG A.CONSTRAINTS A.schema ∷ typed B.TAG B.CONSTRAINTS B.schema ∷ typed C.TAG C.CONSTRAINTS C.schema ∷
        typed D.TAG D.CONSTRAINTS D.schema ∷ typed E.TAG E.CONSTRAINTS E.schema ∷ typed F.TAG F.CONSTRAINTS F.schema ∷
        typed G.TAG G.CONSTRAINTS G.schema ∷ typed H.TAG H.CONSTRAINTS H.schema ∷ typed I.TAG I.CONSTRAINTS I.schema ∷
        typed J.TAG J.CONSTRAINTS J.schema ∷ typed K.TAG K.CONSTRAINTS K.schema ∷ typed L.TAG L.CONSTRAINTS L.schema ∷
        typed M.TAG M.CONSTRAINTS M.schema ∷ typed N.TAG N.CONSTRAINTS N.schema ∷ typed O.TAG O.CONSTRAINTS O.schema ∷
        typed P.TAG P.CONSTRAINTS P.schema ∷ [])
        (R.parts rest.now) T.COMPONENTS.before (S.list bounds.now) n }
    requires additions { (n : ℕ) → added_parts T.components.0 n ≡ no_parts }
    requires added { T.added of.now ≡ [] }
    requires values { T.contents of.now ≡
        Some (A.value a.now) ∷ Some (B.value b.now) ∷ Some (C.value c.now) ∷ Some (D.value d.now) ∷
        Some (E.value e.now) ∷ Some (F.value f.now) ∷ Some (G.value g.now) ∷ Some (H.value h.now) ∷
        Some (I.value i.now) ∷ Some (J.value j.now) ∷ Some (K.value k.now) ∷ Some (L.value l.now) ∷
        Some (M.value m.now) ∷ Some (N.value n.now) ∷ Some (O.value o.now) ∷ Some (P.value p.now) ∷
        R.contents rest.now }
    requires depth { AreWithin (T.depth of.now) (
        A.levels a.now ∷ B.levels b.now ∷ C.levels c.now ∷ D.levels d.now ∷ E.levels e.now ∷ F.levels f.now ∷
        G.levels g.now ∷ H.levels h.now ∷ I.levels i.now ∷ J.levels j.now ∷ K.levels k.now ∷ L.levels l.now ∷
        M.levels m.now ∷ N.levels n.now ∷ O.levels o.now ∷ P.levels p.now ∷ R.levels rest.now) }
    ensures { WritesFields X.rules (root_parts T.components.0) (added_parts T.components.0) (T.depth of.now)
        (T.contents of.now) (T.added of.now) encoder.old result encoder.new }
{
    let cells = FourCells {
        first: a,
        second: b,
        third: c,
        fourth: d,
        next: FourCells {
            first: e,
            second: f,
            third: g,
            fourth: h,
            next: FourCells {
                first: i,
                second: j,
                third: k,
                fourth: l,
                next: FourCells {
                    first: m,
                    second: n,
                    third: o,
                    fourth: p,
                    next: rest,
                },
            },
        },
    };
    let of_record = OfRecord {
        of: PhantomData::<T>,
        constraints: bounds.list(),
        cells,
    };
    write::plain(of, &of_record, encoder)
}

/// Reads all components of a record in turn: sixteen required ones, and the rest as cells. Their tags are those of the
/// record's own fields, their constraints those of a list.
pub fn read<T, A, B, C, D, E, F, G, H, I, J, K, L, M, N, O, P, R, X>(
    bounds: Bounds,
    rest: R,
    decoder: &mut X,
) -> Result<(A, B, C, D, E, F, G, H, I, J, K, L, M, N, O, P, R::Values), X::Error>
where
    T: Components,
    A: Decode,
    B: Decode,
    C: Decode,
    D: Decode,
    E: Decode,
    F: Decode,
    G: Decode,
    H: Decode,
    I: Decode,
    J: Decode,
    K: Decode,
    L: Decode,
    M: Decode,
    N: Decode,
    O: Decode,
    P: Decode,
    R: DecodeCells<Root> + Drop,
    X: Decoder,
    requires components { (n : ℕ) → root_parts T.components.0 n ≡ typed_parts (
        typed A.TAG A.CONSTRAINTS A.schema ∷ typed B.TAG B.CONSTRAINTS B.schema ∷ typed C.TAG C.CONSTRAINTS C.schema ∷
        typed D.TAG D.CONSTRAINTS D.schema ∷ typed E.TAG E.CONSTRAINTS E.schema ∷ typed F.TAG F.CONSTRAINTS F.schema ∷
        typed G.TAG G.CONSTRAINTS G.schema ∷ typed H.TAG H.CONSTRAINTS H.schema ∷ typed I.TAG I.CONSTRAINTS I.schema ∷
        typed J.TAG J.CONSTRAINTS J.schema ∷ typed K.TAG K.CONSTRAINTS K.schema ∷ typed L.TAG L.CONSTRAINTS L.schema ∷
        typed M.TAG M.CONSTRAINTS M.schema ∷ typed N.TAG N.CONSTRAINTS N.schema ∷ typed O.TAG O.CONSTRAINTS O.schema ∷
        typed P.TAG P.CONSTRAINTS P.schema ∷ [])
        (R.parts rest) T.COMPONENTS.before bounds.lists.now.root.now n }
    requires additions { (n : ℕ) → added_parts T.components.0 n ≡ no_parts }
    ensures { TakesFields X.rules (root_parts T.components.0) (added_parts T.components.0) (λ xs.
        Some (A.value xs.0) ∷ Some (B.value xs.1.0) ∷
        Some (C.value xs.1.1.0) ∷ Some (D.value xs.1.1.1.0) ∷
        Some (E.value xs.1.1.1.1.0) ∷ Some (F.value xs.1.1.1.1.1.0) ∷
        Some (G.value xs.1.1.1.1.1.1.0) ∷ Some (H.value xs.1.1.1.1.1.1.1.0) ∷
        Some (I.value xs.1.1.1.1.1.1.1.1.0) ∷ Some (J.value xs.1.1.1.1.1.1.1.1.1.0) ∷
        Some (K.value xs.1.1.1.1.1.1.1.1.1.1.0) ∷ Some (L.value xs.1.1.1.1.1.1.1.1.1.1.1.0) ∷
        Some (M.value xs.1.1.1.1.1.1.1.1.1.1.1.1.0) ∷ Some (N.value xs.1.1.1.1.1.1.1.1.1.1.1.1.1.0) ∷
        Some (O.value xs.1.1.1.1.1.1.1.1.1.1.1.1.1.1.0) ∷ Some (P.value xs.1.1.1.1.1.1.1.1.1.1.1.1.1.1.1.0) ∷
        R.contents xs.1.1.1.1.1.1.1.1.1.1.1.1.1.1.1.1.0) (λ xs. [])
        decoder.old result decoder.new }
{
    let cells = FourCells {
        first: PhantomData::<A>,
        second: PhantomData::<B>,
        third: PhantomData::<C>,
        fourth: PhantomData::<D>,
        next: FourCells {
            first: PhantomData::<E>,
            second: PhantomData::<F>,
            third: PhantomData::<G>,
            fourth: PhantomData::<H>,
            next: FourCells {
                first: PhantomData::<I>,
                second: PhantomData::<J>,
                third: PhantomData::<K>,
                fourth: PhantomData::<L>,
                next: FourCells {
                    first: PhantomData::<M>,
                    second: PhantomData::<N>,
                    third: PhantomData::<O>,
                    fourth: PhantomData::<P>,
                    next: rest,
                },
            },
        },
    };
    let (a, b, c, d, (e, f, g, h, (i, j, k, l, (m, n, o, p, rest)))) = read::plain::<T, _, _>(
        cells, bounds, decoder,
    )?;
    Ok((a, b, c, d, e, f, g, h, i, j, k, l, m, n, o, p, rest))
}
