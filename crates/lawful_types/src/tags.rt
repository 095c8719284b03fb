//! Whether the alternatives of a CHOICE are told apart by their tags.

ghost use Rattle.std.specs.Prelude.{◌≡◌, ◌++◌, ◌&&◌};
ghost use Rattle.rasn_schema.specs.Structures.{tag_of};
ghost use Rattle.rasn_schema.specs.Lawful.{are_distinct, is_new, same_tag};
ghost use Rattle.lawful_types.specs.TypeRules.{tags_of};

use rasn_dynamic::types::Alternative;
use rasn_types::types::Tag;

/// Whether no two alternatives, before the extension marker and after it, have one tag (X.680 29.3).
pub(crate) fn are_told_apart(roots: &[Alternative], addeds: &[Alternative]) -> bool
    ensures { result ≡ are_distinct (tags_of roots.now ++ tags_of addeds.now) }
{
    are_distinct(roots, addeds) && are_distinct(addeds, &[])
}

/// Whether each of some alternatives has another tag than those after it, and than some others.
fn are_distinct(alternatives: &[Alternative], others: &[Alternative]) -> bool
    ensures { (result && are_distinct (tags_of others.now))
        ≡ are_distinct (tags_of alternatives.now ++ tags_of others.now) }
{
    let mut left = alternatives;
    while let Some((first, behind)) = left.split_first() {
        if !is_new_in_both(first.tag, behind, others) {
            return false;
        }
        left = behind;
    }
    true
}

/// Whether no alternative of two lists has a tag.
#[tactic(auto, using(crate::proofs::Passing::new_both))]
fn is_new_in_both(tag: Tag, alternatives: &[Alternative], others: &[Alternative]) -> bool
    ensures { result ≡ is_new (tag_of tag) (tags_of alternatives.now ++ tags_of others.now) }
{
    is_new(tag, alternatives) && is_new(tag, others)
}

/// Whether no alternative has a tag.
fn is_new(tag: Tag, alternatives: &[Alternative]) -> bool
    ensures { result ≡ is_new (tag_of tag) (tags_of alternatives.now) }
{
    for alternative in alternatives {
        if is_same_tag(tag, alternative.tag) {
            return false;
        }
    }
    true
}

/// Whether two tags are the same.
fn is_same_tag(tag: Tag, other: Tag) -> bool
    ensures { result ≡ same_tag (tag_of tag) (tag_of other) }
{
    tag.class as u8 == other.class as u8 && tag.value == other.value
}
