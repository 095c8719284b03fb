//! OBJECT IDENTIFIER (X.680 32).

ghost use Rattle.std.specs.Prelude.{◌≡◌, ◌≢◌, ◌↔◌, ◌<◌, ◌^◌, ℕ, [], IsTrue, length, map, nat_eq, refl};
ghost use Rattle.std.specs.Prelude.{IfOk, MatchOption, Err, Some};
ghost use Rattle.std.specs.Cmp.{partial_equiv_from_equiv};
ghost use Rattle.std.specs.Cmp.Lexicographic.{nat_list_cmp_total, nat_list_eq_equiv, pointwise, slice_cmp};
ghost use Rattle.std.specs.Cmp.Lexicographic.{texts_po, texts_ties};
ghost use Rattle.std.specs.Fmt.{decimal};
ghost use Rattle.std.specs.Hash as fed;
ghost use Rattle.std.specs.Ordering.{nat_cmp};
ghost use Rattle.std.proofs.Common.{rules};
ghost use Rattle.std.specs.Cmp.Rules.{comparing, hashing};
ghost use Rattle.rasn_types.specs.declared.ber.BerError.TheVariants.{InvalidObjectIdentifier};
ghost use Rattle.rasn_types.specs.declared.types.TheConstants.Tag.{OBJECT_IDENTIFIER};
ghost use Rattle.rasn_constraints.specs.Ranges.{no_constraints};
ghost use Rattle.rasn_schema.specs.Fields.{tagged};
ghost use Rattle.rasn_schema.specs.Forms.{always};
ghost use Rattle.rasn_schema.specs.Levels.{simple_levelled};
ghost use Rattle.rasn_schema.specs.Schemas.{Schema};
ghost use Rattle.rasn_traits.specs.Moments.{identifier_value};
ghost use Rattle.rasn_useful.specs.Texts.{HasNoArcs, begins_well, numbers_in};

use rasn_codec::codec::{Decode, Decoder, Encode, Encoder};
use rasn_schema::fields::{TagTree, TypeTree};
use rasn_schema::schema::{AsnType, Constraints};
use rasn_types::ber::BerError;
use rasn_types::types::{Identifier, Tag};
use std::alloc::{AllocError, Global};
use std::cmp::Ordering;
use std::fmt;
use std::hash::{Hash, Hasher};
use std::marker::Model;

/// The arcs of an OBJECT IDENTIFIER (X.680 32), the root's first. Any list of numbers may be held; one that names no
/// object has no encoding.
#[derive(Drop, Debug)]
pub struct ObjectIdentifier {
    arcs: Vec<u32>,
}

impl Model for ObjectIdentifier {
    ghost use Rattle.std.specs.Prelude.{List, ℕ};

    ghost Value = { List ℕ };

    ghost view = { λ a. a.arcs.items };
}

impl ObjectIdentifier {
    /// The identifier of these arcs.
    pub fn new(arcs: Vec<u32>) -> ObjectIdentifier
        ensures { result ≡ arcs.items }
    {
        ObjectIdentifier { arcs }
    }

    /// The identifier of these arcs, in memory of its own. The only error is want of memory.
    pub fn from_slice(alloc: Global, arcs: &[u32]) -> Result<ObjectIdentifier, AllocError>
        ensures { IfOk result (λ identifier. identifier ≡ arcs.now) }
    {
        Ok(ObjectIdentifier::new(Vec::from_slice(alloc, arcs)?))
    }

    /// The identifier whose arcs are in a text as decimal numbers with full stops between them, such as `1.2.840`.
    /// Refused as no object identifier is any other text, also one with a sign, with superfluous zeros, or with a
    /// number past 32 bits.
    pub fn from_text(alloc: Global, text: &str) -> Result<ObjectIdentifier, BerError>
        ensures read { IfOk result (λ arcs. map decimal arcs ≡ numbers_in text.now) }
        ensures refused { result ≡ Err InvalidObjectIdentifier → HasNoArcs text.now }
    {
        match arcs_of(alloc, text)? {
            Some(arcs) => Ok(ObjectIdentifier::new(arcs)),
            None => Err(BerError::InvalidObjectIdentifier),
        }
    }

    /// The arcs.
    pub fn as_arcs(&self) -> &[u32]
        ensures { result.now ≡ self.now }
    {
        self.arcs.as_slice()
    }

    /// The arcs, as their own list.
    pub fn into_vec(self) -> Vec<u32>
        ensures { result.items ≡ self }
    {
        let ObjectIdentifier { arcs } = self;
        arcs
    }

    /// How many arcs there are.
    pub fn len(&self) -> usize
        ensures { result ≡ length self.now }
    {
        self.arcs.len()
    }

    /// Whether there is no arc.
    pub fn is_empty(&self) -> bool
        ensures { IsTrue result ↔ (self.now ≡ []) }
    {
        self.arcs.is_empty()
    }
}

impl From<Vec<u32>> for ObjectIdentifier {
    ghost from_gives = { λ arcs held. held ≡ arcs.items };

    fn from(arcs: Vec<u32>) -> ObjectIdentifier {
        ObjectIdentifier::new(arcs)
    }
}

/// The arcs in memory of their own.
impl Clone for ObjectIdentifier {
    ghost is_clone = { λ arcs copy. copy ≡ arcs };

    fn clone(&self) -> Result<ObjectIdentifier, AllocError> {
        ObjectIdentifier::from_slice(*self.arcs.allocator(), self.as_arcs())
    }
}

/// Prints the arcs as decimal numbers with full stops between them, such as `1.2.840`.
impl fmt::Display for ObjectIdentifier {
    fn fmt<W: fmt::Write>(&self, f: &mut fmt::Formatter<W>) -> fmt::Result {
        f.write_joined(self.arcs.iter(), ".")
    }
}

/// Equality of the arcs.
impl PartialEq for ObjectIdentifier {
    ghost eq = { pointwise nat_eq };

    ghost laws = { partial_equiv_from_equiv nat_list_eq_equiv };

    fn eq(&self, other: &ObjectIdentifier) -> bool {
        self.arcs == other.arcs
    }
}

impl Eq for ObjectIdentifier {
    ghost laws = { nat_list_eq_equiv };
}

/// The order of the first arcs that differ. An identifier is before those that it begins.
impl PartialOrd for ObjectIdentifier {
    ghost partial_cmp = { λ arcs others. Some (slice_cmp nat_cmp arcs others) };

    ghost laws = { texts_po };

    fn partial_cmp(&self, other: &ObjectIdentifier) -> Option<Ordering> {
        Some(self.cmp(other))
    }
}

impl Ord for ObjectIdentifier {
    ghost cmp = { slice_cmp nat_cmp };

    ghost total = { nat_list_cmp_total };

    ghost matches_partial_cmp = { Prim.search (comparing, rules) };

    ghost matches_eq = { texts_ties };

    fn cmp(&self, other: &ObjectIdentifier) -> Ordering {
        self.arcs.cmp(&other.arcs)
    }
}

impl Hash for ObjectIdentifier {
    ghost hash_input = { fed.slice fed.u32 };

    ghost respects_eq = { Prim.search (hashing, rules) };

    fn hash<H: Hasher>(&self, state: &mut H) {
        self.arcs.hash(state);
    }
}

/// The numbers that are in a text with full stops between them; `None` where not all are arcs. The only error is want
/// of memory.
fn arcs_of(alloc: Global, text: &str) -> Result<Option<Vec<u32>>, AllocError>
    ensures { IfOk result (λ read. MatchOption read (HasNoArcs text.now)
        (λ arcs. map decimal arcs.items ≡ numbers_in text.now)) }
{
    let mut arcs = Vec::new(alloc);
    for number in text.split('.') {
        match arc_of(number) {
            Some(arc) => arcs.push(arc)?,
            None => return Ok(None),
        }
    }
    Ok(Some(arcs))
}

/// The number below 2^32 that a decimal text means, where it has no sign and no superfluous zeros (X.680 12.8).
fn arc_of(text: &str) -> Option<u32>
    ensures { MatchOption result ((arc : ℕ) → arc < 2 ^ 32 → decimal arc ≢ text.now) (λ arc. decimal arc ≡ text.now) }
{
    if !is_plain(text.as_bytes()) {
        return None;
    }
    match text.parse::<u32>() {
        Ok(arc) => Some(arc),
        Err(_) => None,
    }
}

/// Whether a text begins with no sign and no superfluous zero, and with something.
fn is_plain(text: &[u8]) -> bool
    ensures { result ≡ begins_well text.now }
{
    !text.is_empty() && text[0] != b'+' && (text[0] != b'0' || text.len() == 1)
}

impl AsnType for ObjectIdentifier {
    const TAG: Tag = Tag::OBJECT_IDENTIFIER;

    ghost TAG = { OBJECT_IDENTIFIER };

    const TAG_TREE: TypeTree = TypeTree(TagTree::Leaf(Tag::OBJECT_IDENTIFIER));

    ghost TAG_TREE = { Some (tagged OBJECT_IDENTIFIER) };

    const IS_CHOICE: bool = false;

    const CONSTRAINTS: Constraints<'static> = Constraints::NONE;

    ghost CONSTRAINTS = { no_constraints };

    ghost schema = { λ _. always Schema.identifier };

    ghost value = { identifier_value };

    ghost levelled = { λ _. simple_levelled Schema.identifier tt };

    ghost tag_fits = { λ _ _. refl };

    ghost tree_fits = { λ _ _. (refl, refl) };
}

impl Encode for ObjectIdentifier {
    #[tactic(auto, unfolding(rasn_schema::specs::Normal::normal))]
    fn encode_with_tag_and_constraints<E: Encoder>(
        &self,
        encoder: &mut E,
        tag: Tag,
        _: &Constraints,
        identifier: Identifier,
    ) -> Result<(), E::Error> {
        encoder.encode_object_identifier(tag, self.as_arcs(), identifier)
    }
}

impl Decode for ObjectIdentifier {
    fn decode_with_tag_and_constraints<D: Decoder>(
        decoder: &mut D,
        tag: Tag,
        _: &Constraints,
    ) -> Result<ObjectIdentifier, D::Error> {
        let arcs = decoder.decode_object_identifier(tag)?;
        Ok(ObjectIdentifier::new(arcs))
    }
}
