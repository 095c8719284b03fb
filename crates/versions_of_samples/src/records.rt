//! Records are lawful (X.680, 25).
#![tactic(auto)]

ghost use Rattle.rasn_schema.specs.Lawful.{IsLawfulType};

use per_laws::computed::is_lawful;
use per_samples_a::absent::OneDefault;
use per_samples_a::four::Four;
use per_samples_a::seven::Seven;
use per_samples_a::signals::Signals;
use per_samples_b::added_default::AddedDefault;
use per_samples_b::grouped::Grouped;
use per_samples_b::many::Many;
use per_samples_b::none_needed::NoneNeeded;
use per_samples_b::one_needed::OneNeeded;
use per_samples_b::outer1::{Outer1, Outers1};
use per_samples_b::outer2::Outer2;
use per_samples_b::outer3::{Outer3, Outers3};
use per_samples_c::before_nest::BeforeNest;
use per_samples_c::byte::Byte;
use per_samples_c::default_outer1::DefaultOuter1;
use per_samples_c::default_outer3::DefaultOuter3;
use per_samples_c::elements::Elements;
use per_samples_c::empty::MaybeEmpty;
use per_samples_c::grouped1::Grouped1;
use per_samples_c::grouped2::Grouped2;
use per_samples_c::items::WithItem;
use per_samples_c::lists::{Bytes, NullList, Nulls};
use rasn_below::AsnType;

/// Records of numbers, items, strings, and bits that have names.
pub fn records_are_lawful()
    ensures four { let own = ⟦<Four as AsnType>⟧ in IsLawfulType (own.schema own.CONSTRAINTS) }
    ensures seven { let own = ⟦<Seven as AsnType>⟧ in IsLawfulType (own.schema own.CONSTRAINTS) }
    ensures signals { let own = ⟦<Signals as AsnType>⟧ in IsLawfulType (own.schema own.CONSTRAINTS) }
    ensures byte { let own = ⟦<Byte as AsnType>⟧ in IsLawfulType (own.schema own.CONSTRAINTS) }
    ensures items { let own = ⟦<WithItem as AsnType>⟧ in IsLawfulType (own.schema own.CONSTRAINTS) }
    ensures empty { let own = ⟦<MaybeEmpty as AsnType>⟧ in IsLawfulType (own.schema own.CONSTRAINTS) }
{
    is_lawful::<Four>();
    is_lawful::<Seven>();
    is_lawful::<Signals>();
    is_lawful::<Byte>();
    is_lawful::<WithItem>();
    is_lawful::<MaybeEmpty>();
}

/// SEQUENCE OF, alone, under a size, and within a record.
pub fn lists_are_lawful()
    ensures bytes { let own = ⟦<Bytes as AsnType>⟧ in IsLawfulType (own.schema own.CONSTRAINTS) }
    ensures nulls { let own = ⟦<Nulls as AsnType>⟧ in IsLawfulType (own.schema own.CONSTRAINTS) }
    ensures null_list { let own = ⟦<NullList as AsnType>⟧ in IsLawfulType (own.schema own.CONSTRAINTS) }
    ensures elements { let own = ⟦<Elements as AsnType>⟧ in IsLawfulType (own.schema own.CONSTRAINTS) }
{
    is_lawful::<Bytes>();
    is_lawful::<Nulls>();
    is_lawful::<NullList>();
    is_lawful::<Elements>();
}

/// Records with additions, and lists of them.
pub fn extensible_records_are_lawful()
    ensures first { let own = ⟦<Outer1 as AsnType>⟧ in IsLawfulType (own.schema own.CONSTRAINTS) }
    ensures second { let own = ⟦<Outer2 as AsnType>⟧ in IsLawfulType (own.schema own.CONSTRAINTS) }
    ensures third { let own = ⟦<Outer3 as AsnType>⟧ in IsLawfulType (own.schema own.CONSTRAINTS) }
    ensures firsts { let own = ⟦<Outers1 as AsnType>⟧ in IsLawfulType (own.schema own.CONSTRAINTS) }
    ensures thirds { let own = ⟦<Outers3 as AsnType>⟧ in IsLawfulType (own.schema own.CONSTRAINTS) }
    ensures none { let own = ⟦<NoneNeeded as AsnType>⟧ in IsLawfulType (own.schema own.CONSTRAINTS) }
    ensures needed { let own = ⟦<OneNeeded as AsnType>⟧ in IsLawfulType (own.schema own.CONSTRAINTS) }
    ensures before { let own = ⟦<BeforeNest as AsnType>⟧ in IsLawfulType (own.schema own.CONSTRAINTS) }
    ensures many { let own = ⟦<Many as AsnType>⟧ in IsLawfulType (own.schema own.CONSTRAINTS) }
{
    is_lawful::<Outer1>();
    is_lawful::<Outer2>();
    is_lawful::<Outer3>();
    is_lawful::<Outers1>();
    is_lawful::<Outers3>();
    is_lawful::<NoneNeeded>();
    is_lawful::<OneNeeded>();
    is_lawful::<BeforeNest>();
    is_lawful::<Many>();
}

/// Addition groups, of a SEQUENCE with a marker of its own among them.
pub fn groups_are_lawful()
    ensures possible { let own = ⟦<Grouped as AsnType>⟧ in IsLawfulType (own.schema own.CONSTRAINTS) }
    ensures older { let own = ⟦<Grouped1 as AsnType>⟧ in IsLawfulType (own.schema own.CONSTRAINTS) }
    ensures newer { let own = ⟦<Grouped2 as AsnType>⟧ in IsLawfulType (own.schema own.CONSTRAINTS) }
{
    is_lawful::<Grouped>();
    is_lawful::<Grouped1>();
    is_lawful::<Grouped2>();
}

/// Defaults of a number and of a record, in the root and among the additions.
#[tactic(auto, unfolding(per_laws::specs::Judged::is_good_default))]
pub fn defaults_are_lawful()
    ensures number { let own = ⟦<OneDefault as AsnType>⟧ in IsLawfulType (own.schema own.CONSTRAINTS) }
    ensures added { let own = ⟦<AddedDefault as AsnType>⟧ in IsLawfulType (own.schema own.CONSTRAINTS) }
    ensures older { let own = ⟦<DefaultOuter1 as AsnType>⟧ in IsLawfulType (own.schema own.CONSTRAINTS) }
    ensures newer { let own = ⟦<DefaultOuter3 as AsnType>⟧ in IsLawfulType (own.schema own.CONSTRAINTS) }
{
    is_lawful::<OneDefault>();
    is_lawful::<AddedDefault>();
    is_lawful::<DefaultOuter1>();
    is_lawful::<DefaultOuter3>();
}
