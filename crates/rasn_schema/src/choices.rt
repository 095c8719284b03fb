//! What a CHOICE states of its alternatives (X.680 29).

ghost use Rattle.std.specs.Prelude.{◌≡◌, ◌<◌, ℕ, Some, length, map, slice_get};
ghost use Rattle.std.specs.List.{position_from};
ghost use Rattle.rasn_schema.specs.Choices.{AreVariants, StandsAt, VariantShape, choice_at, go_by, place_of};
ghost use Rattle.rasn_schema.specs.Choices.{stated_tag};
ghost use Rattle.rasn_schema.specs.Choices.{variant_shape, variants_after, variants_of};
ghost use Rattle.rasn_schema.specs.Structures.{tag_of};
ghost use Rattle.rasn_schema.specs.Lawful.{same_tag};
ghost use Rattle.rasn_schema.specs.Schemas.{Parts};

use crate::fields::TagTree;
use crate::items::Place;
use crate::schema::AsnType;
use rasn_types::types::Tag;
use std::marker::Model;

/// The alternatives of a CHOICE that are in one list, in their order. A nested untagged choice is one alternative.
#[derive(Drop)]
pub struct Variants {
    /// The tags of each alternative, at its index.
    pub list: &'static [TagTree],
}

impl Model for Variants {
    ghost use Rattle.std.specs.Prelude.{List, map};
    ghost use Rattle.std.specs.Coded.{codes};
    ghost use Rattle.rasn_schema.specs.Choices.{VariantShape, variant_shape};
    ghost use Rattle.rasn_schema.specs.Laws.TagCodes.{tree_code};

    ghost Value = { List VariantShape };

    ghost coded = { Prim.hlevel (codes, tree_code) };

    ghost view = { λ variants. map variant_shape variants.list.now };
}

/// The alternatives of a CHOICE as its type lists them (X.680 29.1).
#[derive(Drop)]
pub struct VariantLists {
    /// The tags of each root alternative, at its index.
    pub root: &'static [TagTree],
    /// The tags of each alternative after the extension marker, at its index. There is a marker exactly where this is
    /// `Some`.
    pub added: Option<&'static [TagTree]>,
    /// The identifier of each alternative, in the order of the lists: the root's, and then those after the marker.
    pub identifiers: &'static [&'static str],
}

impl Model for VariantLists {
    ghost use Rattle.std.specs.Prelude.{map, option_map};
    ghost use Rattle.std.specs.Coded.{codes};
    ghost use Rattle.rasn_schema.specs.Choices.{VariantShapes, variant_shape};
    ghost use Rattle.rasn_schema.specs.Laws.TagCodes.{tree_code};

    ghost Value = { VariantShapes };

    ghost coded = { Prim.hlevel (codes, tree_code) };

    ghost view = { λ variants. record {
      before = map variant_shape variants.root.now;
      behind = option_map (λ list. map variant_shape list.now) variants.added;
    } };
}

impl Variants {
    /// How many alternatives there are.
    pub fn len(&self) -> usize
        ensures { result ≡ length self.now }
    {
        self.list.len()
    }

    /// The tag that the alternative at an index goes by.
    pub fn tag_at(&self, index: usize) -> Tag
        requires { index < length self.now }
        ensures { slice_get (go_by self.now) index ≡ Some (tag_of result) }
    {
        tag_in(self.list, index)
    }

    /// The index of the alternative that goes by a tag, or none.
    pub fn index_of(&self, tag: Tag) -> Option<usize>
        ensures { result ≡ place_of (tag_of tag) self.now }
    {
        index_in(self.list, tag)
    }

    /// Where the alternative stands that goes by a tag: in this list, or in `added`, those after the extension marker.
    /// `None` where none goes by it.
    pub fn place_of(&self, added: &Option<Variants>, tag: Tag) -> Option<Place>
        requires { AreVariants self.now added.now }
        ensures { StandsAt (tag_of tag) self.now added.now result }
    {
        if let Some(index) = self.index_of(tag) {
            return Some(Place::Root(index));
        }
        let index = added.as_ref()?.index_of(tag)?;
        Some(Place::Added(index))
    }
}

/// The tag that the alternative at an index of a list goes by.
fn tag_in(list: &[TagTree], index: usize) -> Tag
    requires { index < length list.now }
    ensures { slice_get (go_by (map variant_shape list.now)) index ≡ Some (tag_of result) }
{
    tag_by(&list[index])
}

/// The tag that an alternative goes by (X.691 21.1): the smallest of its tags, and EOC's where it has none.
fn tag_by(tree: &TagTree) -> Tag
    ensures { tag_of result ≡ stated_tag tree.now }
{
    match tree.smallest_tag() {
        Some(tag) => tag,
        None => Tag::EOC,
    }
}

/// Whether an alternative goes by a tag.
fn goes_by(tree: &TagTree, tag: Tag) -> bool
    ensures { result ≡ same_tag (tag_of tag) (stated_tag tree.now) }
{
    is_same_tag(tag, tag_by(tree))
}

/// The index of the alternative of a list that goes by a tag, or none.
fn index_in(list: &[TagTree], tag: Tag) -> Option<usize>
    ensures { result ≡ position_from (λ t. same_tag (tag_of tag) (stated_tag t)) 0 list.now }
{
    list.iter().position(|tree| goes_by(tree, tag))
}

/// Whether two tags are the same.
pub(crate) fn is_same_tag(tag: Tag, other: Tag) -> bool
    ensures { result ≡ same_tag (tag_of tag) (tag_of other) }
{
    tag.class as u8 == other.class as u8 && tag.value == other.value
}

/// A CHOICE (X.680 29), by its alternatives.
pub trait Choice: AsnType {
    ghost use Rattle.std.specs.Prelude.{List, Option};
    ghost use Rattle.rasn_constraints.specs.declared.constraints.Constraints.{Constraints};
    ghost use Rattle.rasn_schema.specs.Records.{no_additions};

    /// The root alternatives, in the order of their indexes (X.691 23.5).
    const VARIANTS: Variants;

    ghost VARIANTS: { List VariantShape };

    /// The alternatives after the extension marker, in the order of their indexes (X.691 23.5, 23.8). The choice has a
    /// marker exactly where this is `Some`, of none or of more alternatives.
    const EXTENDED_VARIANTS: Option<Variants>;

    ghost EXTENDED_VARIANTS: { Option (List VariantShape) };

    /// The identifier of each alternative (X.680 29.1): the root's, and after them those after the marker; none,
    /// where the type names none. No clause ties them to the alternatives.
    const IDENTIFIERS: &'static [&'static str] = &[];

    // The root alternatives, to a number of levels.
    ghost alternatives: { ℕ → Parts };

    // The alternatives after the marker, to a number of levels.
    ghost added: { ℕ → Parts } = { no_additions };

    // The variants are those of the root alternatives.
    ghost described: { (n : ℕ) → VARIANTS ≡ variants_of (alternatives n) };

    // The variants after the marker are those of the alternatives there.
    ghost extends: { (n : ℕ) → variants_after EXTENDED_VARIANTS ≡ variants_of (added n) };

    // No two alternatives go by one tag, and there aren't too many.
    ghost are_variants: { AreVariants VARIANTS EXTENDED_VARIANTS };

    // The schema is the choice of the alternatives.
    ghost is_choice: { (c : Constraints) → Self.schema c ≡ choice_at alternatives EXTENDED_VARIANTS added };
}
