//! A SEQUENCE with a list of its own type.

ghost use Rattle.std.specs.Prelude.{refl, [], ◌∷◌};
ghost use Rattle.rasn_below.specs.Page.{fields_of};
ghost use Rattle.per_core.specs.Rows.{aligned, unaligned, IsWrittenAs};
ghost use Rattle.per_samples_c.specs.Trees.{branch, tree, tree_contents, tree_depth};

use rasn_below::codec::{Decode, Encode};
use rasn_below::page::*;
use rasn_below::types::Identifier;
use rasn_constructed::read::{Holds, Same, decode};
use rasn_constructed::{decode_record, encode_holding_record};

/// Tree ::= SEQUENCE { value INTEGER (0..255), children SEQUENCE OF Tree }
#[derive(Debug, Drop, PartialEq)]
pub struct Tree {
    pub value: u8,
    pub children: Vec<Tree>,
}

macro_rules! components { ($to:ident $($with:ident)*) => { $to! { [$($with)*]
    required 0 "value" value: u8 [0..=255];
    required 1 "children" children: Vec<Tree> [RECURSIVE];
} }; }

const FIELDS: FieldLists = components!(fields);

const BOUNDS: Bounds = components!(bounds);

impl Components for Tree {
    const COMPONENTS: FieldLists = FIELDS;

    ghost COMPONENTS = { fields_of tree };

    ghost components = { (tree, refl) };

    ghost contents = { tree_contents };

    ghost depth = { tree_depth };
}

impl Encode for Tree {
    #[cycle(write)]
    #[tactic(auto, using(crate::proofs::Trees::levels_of, crate::proofs::Trees::tree_of))]
    fn encode_with_tag_and_constraints<E: Encoder>(
        &self,
        encoder: &mut E,
        tag: Tag,
        _: &Constraints,
        identifier: Identifier,
    ) -> Result<(), E::Error> {
        components!(encode_holding_record self encoder tag identifier)
    }
}

impl Holds<Tree> for Tree {
    #[tactic(auto, using(crate::proofs::Trees::tree_read))]
    fn decode_holding<H: Same<Tree>, D: Decoder, F: Fn(&mut D, Tag) -> Result<H, D::Error>>(
        decoder: &mut D,
        tag: Tag,
        held: &F,
    ) -> Result<Tree, D::Error> {
        components!(decode_record decoder tag held Tree)
    }
}

impl Decode for Tree {
    fn decode_with_tag_and_constraints<D: Decoder>(
        decoder: &mut D,
        tag: Tag,
        _: &Constraints,
    ) -> Result<Tree, D::Error> {
        decode::<Tree, Tree, D>(decoder, tag)
    }
}

/// A tree is its number, in an octet, and its children after their count (X.691 20.6), in both variants.
#[tactic(auto, unfolding(
// Words that these rows unfold.
per_core::specs::Rows::bytes, rasn_below::specs::Types::normal, rasn_below::specs::Types::settle))]
pub fn a_list_of_trees_is_counted()
    ensures leaf { let own = ⟦<Tree as AsnType>⟧ in
        IsWrittenAs unaligned (own.schema own.CONSTRAINTS) (λ _. 2) (λ v. v) (branch 1 []) (0x01 ∷ 0x00 ∷ []) }
    ensures child { let own = ⟦<Tree as AsnType>⟧ in
        IsWrittenAs unaligned (own.schema own.CONSTRAINTS) (λ _. 4) (λ v. v) (branch 5 (branch 6 [] ∷ []))
        (0x05 ∷ 0x01 ∷ 0x06 ∷ 0x00 ∷ []) }
    ensures aligned_leaf { let own = ⟦<Tree as AsnType>⟧ in
        IsWrittenAs aligned (own.schema own.CONSTRAINTS) (λ _. 2) (λ v. v) (branch 1 []) (0x01 ∷ 0x00 ∷ []) }
    ensures aligned_child { let own = ⟦<Tree as AsnType>⟧ in
        IsWrittenAs aligned (own.schema own.CONSTRAINTS) (λ _. 4) (λ v. v) (branch 5 (branch 6 [] ∷ []))
        (0x05 ∷ 0x01 ∷ 0x06 ∷ 0x00 ∷ []) }
{}
