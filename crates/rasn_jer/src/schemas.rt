//! What the encoder of JSON takes from the schema of a type: the names of its members, the tags of its alternatives,
//! and what its constraints say of a count.

ghost use Rattle.std.specs.Prelude.{◌≡◌, None, true, false, count_by, IfOk};
ghost use Rattle.std.specs.Option.{unwrap_or};
ghost use Rattle.rasn_schema.specs.Choices.{place_of, variants_after};
ghost use Rattle.rasn_schema.specs.Extensions.{fields_after};
ghost use Rattle.rasn_schema.specs.Fields.{in_tag_order, may_be_absent};
ghost use Rattle.rasn_schema.specs.Structures.{tag_of};
ghost use Rattle.rasn_schema.specs.Forms.{is_size_marked, size_of};
ghost use Rattle.rasn_jer.specs.Names.{AreNamesOf};
ghost use Rattle.rasn_jer.specs.Frames.{IsNamedBy};
ghost use Rattle.rasn_jer.specs.Shown.{fixed_count};

use crate::frame::{Frame, Names};
use rasn_schema::choices::Choice;
use rasn_schema::fields::Constructed;
use rasn_schema::schema::Constraints;
use rasn_types::types::Tag;
use std::alloc::{AllocError, Allocator};

/// The place of a record's members, by the names of its fields as they are listed.
pub(crate) fn members_of<C: Constructed, A: Allocator + Copy>(
    alloc: A,
) -> Result<Frame<A>, AllocError>
    ensures { IfOk result (IsNamedBy C.FIELDS (fields_after C.EXTENDED_FIELDS) (count_by may_be_absent C.FIELDS)) }
{
    let fields = C::FIELDS;
    let bits = fields.number_of_optional_and_default_fields();
    let root = Names::of_fields(alloc, fields.list)?;
    let added = added_names::<C, A>(alloc)?;
    Ok(Frame::of_members(alloc, root, bits, added))
}

/// The place of a SET's members, by the names of its fields in ascending order of their smallest tags.
pub(crate) fn ordered_members_of<C: Constructed, A: Allocator + Copy>(
    alloc: A,
) -> Result<Frame<A>, AllocError>
    ensures { IfOk result (IsNamedBy (in_tag_order C.FIELDS) (fields_after C.EXTENDED_FIELDS)
        (count_by may_be_absent C.FIELDS)) }
{
    let fields = C::FIELDS.canonised(alloc)?;
    let root = Names::of_fields(alloc, fields.as_slice())?;
    let added = added_names::<C, A>(alloc)?;
    let bits = C::FIELDS.number_of_optional_and_default_fields();
    Ok(Frame::of_members(alloc, root, bits, added))
}

/// The names of a record's additions.
pub(crate) fn added_names<C: Constructed, A: Allocator + Copy>(
    alloc: A,
) -> Result<Names<A>, AllocError>
    ensures { IfOk result (AreNamesOf (fields_after C.EXTENDED_FIELDS)) }
{
    match C::EXTENDED_FIELDS {
        Some(fields) => Names::of_fields(alloc, fields.list),
        None => Ok(Names::none(alloc)),
    }
}

/// Whether an alternative of a choice goes by a tag.
pub(crate) fn has_alternative<C: Choice>(tag: Tag) -> bool
    ensures none { result ≡ false → (place_of (tag_of tag) C.VARIANTS ≡ None)
        × (place_of (tag_of tag) (variants_after C.EXTENDED_VARIANTS) ≡ None) }
    ensures some { result ≡ true → place_of (tag_of tag) C.VARIANTS ≡ None
        → place_of (tag_of tag) (variants_after C.EXTENDED_VARIANTS) ≡ None → ⊥ }
{
    let variants = C::VARIANTS;
    let added = C::EXTENDED_VARIANTS;
    let place = variants.place_of(&added, tag);
    place.is_some()
}

/// The least count that constraints leave, 0 where they don't say one.
pub(crate) fn least_count(constraints: &Constraints) -> usize
    ensures { result ≡ unwrap_or (size_of constraints.now).least 0 }
{
    match constraints.size() {
        Some(size) => size.constraint.start_and_end().0.unwrap_or(0),
        None => 0,
    }
}

/// How many items there are, where constraints fix it: by a size of one number, without an extension marker.
pub(crate) fn count_of(constraints: &Constraints) -> Option<usize>
    ensures { result ≡ fixed_count (size_of constraints.now) (is_size_marked constraints.now) }
{
    let size = constraints.size()?;
    match size.constraint.start_and_end() {
        (Some(least), Some(most)) if !size.extensible && least == most => Some(least),
        _ => None,
    }
}
