//! What a type states of its schema: tags, constraints, components, alternatives and items (X.680 8, 20, 25, 29, 49 to
//! 52).

ghost use Rattle.std.specs.Prelude.{◌≡◌};
ghost use Rattle.rasn_schema.specs.Choices.{place_of};
ghost use Rattle.rasn_schema.specs.Structures.{tag_of};

pub use rasn_constraints::constraints::{Bounded, Constraint, Constraints, Extensible};
pub use rasn_constraints::integer_type::IntegerType;
pub use rasn_schema::choices::{Choice, Variants};
pub use rasn_schema::constrained::{Constrained, Limits};
pub use rasn_schema::enumerated::Enumerated;
pub use rasn_schema::fields::{
    AdditionGroup, Constructed, Field, Fields, Presence, TagTree, TypeTree,
};
pub use rasn_schema::schema::AsnType;
use rasn_schema::types::Tag;
pub use rasn_strings::alphabet::CharacterAlphabet;
pub use rasn_strings::strings::StaticPermittedAlphabet;

/// The index of the root alternative of a CHOICE that goes by a tag, or none.
pub fn variant_index<C: Choice>(tag: Tag) -> Option<usize>
    ensures { result ≡ place_of (tag_of tag) C.VARIANTS }
{
    C::VARIANTS.index_of(tag)
}
