//! Newer versions within a group and within a component with a default, and additions of a type that holds itself or of
//! many (X.680, 52).
#![tactic(auto)]

ghost use Rattle.per_core.specs.Versions.{NewerType};

use per_laws::computed::is_newer_version;
use per_samples_b::many::Many;
use per_samples_b::none_needed::NoneNeeded;
use per_samples_c::added_nest::AddedNest;
use per_samples_c::before_nest::BeforeNest;
use per_samples_c::default_outer1::DefaultOuter1;
use per_samples_c::default_outer3::DefaultOuter3;
use per_samples_c::grouped1::Grouped1;
use per_samples_c::grouped2::Grouped2;
use rasn_below::AsnType;

/// The type of an addition group, which has a marker of its own, is a newer version.
pub fn group_is_added_to()
    ensures { let newer = ⟦<Grouped2 as AsnType>⟧ in let older = ⟦<Grouped1 as AsnType>⟧ in
        NewerType (newer.schema newer.CONSTRAINTS) (older.schema older.CONSTRAINTS) }
{
    is_newer_version::<Grouped2, Grouped1>();
}

/// The type of a component is a newer version, and its default the older one with both additions absent.
#[tactic(auto, unfolding(per_laws::specs::Compared::is_widened, per_laws::specs::Judged::is_good_default))]
pub fn default_is_widened()
    ensures { let newer = ⟦<DefaultOuter3 as AsnType>⟧ in let older = ⟦<DefaultOuter1 as AsnType>⟧ in
        NewerType (newer.schema newer.CONSTRAINTS) (older.schema older.CONSTRAINTS) }
{
    is_newer_version::<DefaultOuter3, DefaultOuter1>();
}

/// An addition of a type that holds itself is added.
pub fn recursive_addition_is_one()
    ensures { let newer = ⟦<AddedNest as AsnType>⟧ in let older = ⟦<BeforeNest as AsnType>⟧ in
        NewerType (newer.schema newer.CONSTRAINTS) (older.schema older.CONSTRAINTS) }
{
    is_newer_version::<AddedNest, BeforeNest>();
}

/// 65 optional additions are added.
pub fn many_are_additions()
    ensures { let newer = ⟦<Many as AsnType>⟧ in let older = ⟦<NoneNeeded as AsnType>⟧ in
        NewerType (newer.schema newer.CONSTRAINTS) (older.schema older.CONSTRAINTS) }
{
    is_newer_version::<Many, NoneNeeded>();
}
