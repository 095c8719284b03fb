//! The tags of a tag tree: the smallest, and whether one of them is a given one.

ghost use Rattle.std.specs.Prelude.{◌≡◌, Some, option_map};
ghost use Rattle.rasn_schema.specs.Structures.{tag_of};
ghost use Rattle.rasn_schema.specs.Fields.{tree_of};
ghost use Rattle.rasn_schema.specs.Lawful.{leaves};
ghost use Rattle.rasn_schema.specs.Schemas.{smallest};
ghost use Rattle.rasn_schema.specs.TreeTags.{has_tag, least, leaves_in, lesser_there};

use crate::choices::is_same_tag;
use crate::fields::TagTree;
use rasn_types::types::Tag;

impl TagTree {
    /// The least of its tags (X.680 8.6), by which an untagged choice counts (X.691 21.1); `None` where it has none, as
    /// in the tree of an untagged choice without alternatives.
    pub fn smallest_tag(&self) -> Option<Tag>
        ensures least { option_map tag_of result ≡ least (leaves_in self.now) }
        ensures smallest { (tree : _) → tree_of self.now ≡ Some tree → option_map tag_of result ≡ Some (smallest tree) }
    {
        match self {
            TagTree::Leaf(tag) => Some(*tag),
            TagTree::Choice(trees) => {
                let mut smallest = None;
                for tree in trees.iter() {
                    smallest = lesser(smallest, tree.smallest_tag());
                }
                smallest
            }
        }
    }

    /// Whether a tag is one of its tags (X.680 29.3).
    pub fn contains(&self, tag: Tag) -> bool
        ensures leaves { result ≡ has_tag (tag_of tag) (leaves_in self.now) }
        ensures tree { (tree : _) → tree_of self.now ≡ Some tree → result ≡ has_tag (tag_of tag) (leaves tree) }
    {
        match self {
            TagTree::Leaf(own) => is_same_tag(tag, *own),
            TagTree::Choice(trees) => {
                for tree in trees.iter() {
                    if tree.contains(tag) {
                        return true;
                    }
                }
                false
            }
        }
    }
}

/// The lesser of two tags that are there.
fn lesser(one: Option<Tag>, other: Option<Tag>) -> Option<Tag>
    ensures { option_map tag_of result ≡ lesser_there (option_map tag_of one) (option_map tag_of other) }
{
    match (one, other) {
        (Some(one), Some(other)) => Some(if other < one { other } else { one }),
        (Some(tag), None) | (None, Some(tag)) => Some(tag),
        (None, None) => None,
    }
}
