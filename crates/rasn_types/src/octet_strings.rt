//! Types whose values are octets (X.680 23, 41), and open types (X.680 14).

ghost use Rattle.std.specs.Prelude.{◌≡◌, ◌↔◌, [], IsTrue, length, nat_eq, refl, Some};
ghost use Rattle.std.specs.Cmp.{partial_equiv_from_equiv};
ghost use Rattle.std.specs.Cmp.Lexicographic.{nat_list_cmp_total, nat_list_eq_equiv, pointwise, slice_cmp, texts_po};
ghost use Rattle.std.specs.Cmp.Lexicographic.{texts_ties};
ghost use Rattle.std.specs.Cmp.Rules.{hashing};
ghost use Rattle.std.specs.Hash as fed;
ghost use Rattle.std.specs.Ordering.{nat_cmp};
ghost use Rattle.std.proofs.Common.{rules};

use std::alloc::AllocError;
use std::cmp::Ordering;
use std::fmt;
use std::hash::{Hash, Hasher};
use std::marker::{Model, PhantomData};

/// The characters of a UTF8String (X.680 41), in UTF-8.
pub type Utf8String = String;

/// The octets of an OCTET STRING (X.680 23).
pub type OctetString = OctetsOf<OctetStringKind>;

/// The octets of a GeneralString (X.680 41), any of them.
pub type GeneralString = OctetsOf<GeneralKind>;

/// The octets of a GraphicString (X.680 41), any of them.
pub type GraphicString = OctetsOf<GraphicKind>;

/// The octets of a TeletexString (X.680 41), any of them.
pub type TeletexString = OctetsOf<TeletexKind>;

/// The encoding of a value of an open type (X.680 14), any octets.
pub type Any = OctetsOf<AnyKind>;

/// A type whose values are any octets.
pub trait OctetsKind {
    /// The name of the type, as `Debug` writes it.
    const NAME: &'static str;
}

/// The kind of OCTET STRING (X.680 23).
pub struct OctetStringKind {}

impl OctetsKind for OctetStringKind {
    const NAME: &'static str = "OctetString";
}

/// The kind of GeneralString (X.680 41).
pub struct GeneralKind {}

impl OctetsKind for GeneralKind {
    const NAME: &'static str = "GeneralString";
}

/// The kind of GraphicString (X.680 41).
pub struct GraphicKind {}

impl OctetsKind for GraphicKind {
    const NAME: &'static str = "GraphicString";
}

/// The kind of TeletexString (X.680 41).
pub struct TeletexKind {}

impl OctetsKind for TeletexKind {
    const NAME: &'static str = "TeletexString";
}

/// The kind of an open type (X.680 14).
pub struct AnyKind {}

impl OctetsKind for AnyKind {
    const NAME: &'static str = "Any";
}

/// The octets that a value of a kind is.
#[derive(Drop)]
pub struct OctetsOf<K> {
    octets: Vec<u8>,
    kind: PhantomData<K>,
}

impl<K> Model for OctetsOf<K> {
    ghost use Rattle.std.specs.Prelude.{List, ℕ};

    ghost Value = { List ℕ };

    ghost view = { λ a. a.octets.items };
}

impl<K> OctetsOf<K> {
    /// These octets.
    pub fn new(octets: Vec<u8>) -> Self
        ensures { result ≡ octets.items }
    {
        OctetsOf {
            octets,
            kind: PhantomData::<K>,
        }
    }

    /// The octets.
    pub fn as_bytes(&self) -> &[u8]
        ensures { result.now ≡ self.now }
    {
        self.octets.as_slice()
    }

    /// The octets, as their own list.
    pub fn into_vec(self) -> Vec<u8>
        ensures { result.items ≡ self }
    {
        self.octets
    }

    /// How many octets there are.
    pub fn len(&self) -> usize
        ensures { result ≡ length self.now }
    {
        self.octets.len()
    }

    /// Whether there is no octet.
    pub fn is_empty(&self) -> bool
        ensures { IsTrue result ↔ (self.now ≡ []) }
    {
        self.octets.is_empty()
    }
}

impl<K> From<Vec<u8>> for OctetsOf<K> {
    ghost from_gives = { λ octets held. held ≡ octets.items };

    fn from(octets: Vec<u8>) -> Self {
        OctetsOf::new(octets)
    }
}

impl<K: OctetsKind> fmt::Debug for OctetsOf<K> {
    fn fmt<W: fmt::Write>(&self, f: &mut fmt::Formatter<W>) -> fmt::Result {
        f.debug_struct(K::NAME)
            .field("octets", &self.octets)
            .finish()
    }
}

/// Equality of the octets.
impl<K> PartialEq for OctetsOf<K> {
    ghost eq = { pointwise nat_eq };

    ghost laws = { partial_equiv_from_equiv nat_list_eq_equiv };

    fn eq(&self, other: &Self) -> bool {
        self.octets == other.octets
    }
}

impl<K> Eq for OctetsOf<K> {
    ghost laws = { nat_list_eq_equiv };
}

/// The octets, octet by octet: what begins another is before it.
impl<K> PartialOrd for OctetsOf<K> {
    ghost partial_cmp = { λ a b. Some (slice_cmp nat_cmp a b) };

    ghost laws = { texts_po };

    fn partial_cmp(&self, other: &Self) -> Option<Ordering> {
        Some(self.cmp(other))
    }
}

impl<K> Ord for OctetsOf<K> {
    ghost cmp = { slice_cmp nat_cmp };

    ghost total = { nat_list_cmp_total };

    ghost matches_partial_cmp = { λ _ _. refl };

    ghost matches_eq = { texts_ties };

    fn cmp(&self, other: &Self) -> Ordering {
        self.octets.as_slice().cmp(other.octets.as_slice())
    }
}

/// The hash of the octets.
impl<K> Hash for OctetsOf<K> {
    ghost hash_input = { fed.slice fed.u8 };

    ghost respects_eq = { Prim.search (hashing, rules) };

    fn hash<H: Hasher>(&self, state: &mut H) {
        self.octets.as_slice().hash(state);
    }
}

/// The same octets, in memory of their own.
impl<K> Clone for OctetsOf<K> {
    ghost is_clone = { λ held copy. copy ≡ held };

    fn clone(&self) -> Result<Self, AllocError> {
        Ok(OctetsOf::new(self.octets.clone()?))
    }
}
