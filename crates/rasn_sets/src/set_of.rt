//! The type of bags (X.680 28).

ghost use Rattle.std.specs.Prelude.{◌≡◌, ◌↔◌, [], IsTrue, Some, suc, map, length};
ghost use Rattle.std.specs.Cmp.{partial_equiv_from_equiv};
ghost use Rattle.std.specs.List.{AllZip};
ghost use Rattle.rasn_types.specs.Values.{bag_of};
ghost use Rattle.rasn_types.specs.declared.types.TheConstants.Tag.{SET};
ghost use Rattle.rasn_constraints.specs.Ranges.{no_constraints};
ghost use Rattle.rasn_schema.specs.Fields.{tagged};
ghost use Rattle.rasn_schema.specs.Forms.{is_size_marked, size_of};
ghost use Rattle.rasn_schema.specs.Lists.{deepest};
ghost use Rattle.rasn_schema.specs.Bags.{set_at, set_levelled, set_stated, set_tag};
ghost use Rattle.rasn_sets.specs.Equality.{same_bag, stand_alike, times};
ghost use Rattle.rasn_sets.specs.Laws.Equality.{same_bag_equiv};

use rasn_schema::fields::{TagTree, TypeTree};
use rasn_schema::schema::{AsnType, Constraints};
use rasn_types::types::Tag;
use std::alloc::AllocError;
use std::marker::Model;

/// The members of a SET OF (X.680 28), in whatever order.
#[derive(Drop, Debug)]
pub struct SetOf<T> {
    members: Vec<T>,
}

impl<T> Model for SetOf<T> {
    ghost use Rattle.std.specs.Prelude.{List};

    ghost Value = { List T };

    ghost view = { λ a. a.members.items };
}

impl<T> SetOf<T> {
    /// These members.
    pub fn from_vec(members: Vec<T>) -> SetOf<T>
        ensures { result ≡ members.items }
    {
        SetOf { members }
    }

    /// The members, in the order in which they are kept.
    pub fn to_vec(self) -> Vec<T>
        ensures { result.items ≡ self }
    {
        self.members
    }

    /// The members, in the order in which they are kept.
    pub fn as_slice(&self) -> &[T]
        ensures { result.now ≡ self.now }
    {
        self.members.as_slice()
    }

    /// How many members there are.
    pub fn len(&self) -> usize
        ensures { result ≡ length self.now }
    {
        self.members.len()
    }

    /// Whether there is no member.
    pub fn is_empty(&self) -> bool
        ensures { IsTrue result ↔ (self.now ≡ []) }
    {
        self.members.is_empty()
    }
}

/// Clones of the members, in the order in which these are kept.
impl<T: Clone> Clone for SetOf<T> {
    ghost is_clone = { λ members clones. AllZip T.is_clone members clones };

    fn clone(&self) -> Result<SetOf<T>, AllocError> {
        let members = Vec::from_clones(*self.members.allocator(), self.as_slice())?;
        Ok(SetOf::from_vec(members))
    }
}

/// Equality as bags: each member stands as often in the one as in the other.
impl<T: Eq> PartialEq for SetOf<T> {
    ghost eq = { same_bag T.eq };

    ghost laws = { partial_equiv_from_equiv (same_bag_equiv T.Eq.laws) };

    fn eq(&self, other: &SetOf<T>) -> bool {
        let (members, others) = (self.as_slice(), other.as_slice());
        stand_as_often(members, others, members) && stand_as_often(members, others, others)
    }
}

impl<T: Eq> Eq for SetOf<T> {
    ghost laws = { same_bag_equiv T.Eq.laws };
}

/// Whether each of these values is in the one list as often as in the other.
fn stand_as_often<T: Eq>(members: &[T], others: &[T], values: &[T]) -> bool
    ensures { result ≡ stand_alike T.eq members.now others.now values.now }
{
    for value in values {
        if times_in(members, value) != times_in(others, value) {
            return false;
        }
    }
    true
}

/// How often a value is in a list.
#[tactic(auto, using(std::proofs::lemmas::List::at_drop_more, std::proofs::lemmas::List::drop_all))]
fn times_in<T: Eq>(members: &[T], value: &T) -> usize
    ensures { result ≡ times T.eq value.now members.now }
{
    let mut times = 0;
    for member in members {
        if value == member {
            times += 1;
        }
    }
    times
}

impl<T: AsnType> AsnType for SetOf<T> {
    const TAG: Tag = Tag::SET;

    ghost TAG = { SET };

    const TAG_TREE: TypeTree = TypeTree(TagTree::Leaf(Tag::SET));

    ghost TAG_TREE = { Some (tagged SET) };

    const IS_CHOICE: bool = false;

    const CONSTRAINTS: Constraints<'static> = Constraints::NONE;

    ghost CONSTRAINTS = { no_constraints };

    ghost schema = { λ c. set_at (T.schema T.CONSTRAINTS) (size_of c) (is_size_marked c) };

    ghost value = { λ xs. bag_of (map T.value xs) };

    ghost levels = { λ xs. suc (deepest T.levels xs) };

    ghost levelled = { λ c. set_levelled (size_of c) (is_size_marked c) (T.levelled T.CONSTRAINTS) };

    ghost tag_fits = { λ c. set_tag (T.schema T.CONSTRAINTS) (size_of c) (is_size_marked c) };

    ghost tree_fits = { λ c. set_stated (T.schema T.CONSTRAINTS) (size_of c) (is_size_marked c) };
}
