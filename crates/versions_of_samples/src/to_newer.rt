//! What a newer reader answers to what an older writer writes, at types of worked encodings: with the premises met, so
//! that each contract says the plain result, the widening of the normal form or why there is none (X.680, 52).
#![tactic(auto)]

ghost use Rattle.per_versions.specs.Exchanges.{Exchanges};
ghost use Rattle.per_versions.specs.Readings.{IsReadByNewer};

use crate::additions::{
    default_is_an_addition, list_of_newer_elements_is_newer, needed_additions_are_additions,
    outer2_adds_to_outer1, outer3_adds_to_outer1, outer3_adds_to_outer2,
};
use crate::alternatives::{alternative_is_added, item_is_added};
use crate::within::{
    default_is_widened, group_is_added_to, many_are_additions, recursive_addition_is_one,
};
use per_samples_b::added_default::AddedDefault;
use per_samples_b::alt1::Alt1;
use per_samples_b::alt2::Alt2;
use per_samples_b::many::Many;
use per_samples_b::none_needed::NoneNeeded;
use per_samples_b::one_needed::OneNeeded;
use per_samples_b::outer1::{Outer1, Outers1};
use per_samples_b::outer2::Outer2;
use per_samples_b::outer3::{Outer3, Outers3};
use per_samples_c::added_nest::AddedNest;
use per_samples_c::before_nest::BeforeNest;
use per_samples_c::colors::TwoColors;
use per_samples_c::default_outer1::DefaultOuter1;
use per_samples_c::default_outer3::DefaultOuter3;
use per_samples_c::grouped1::Grouped1;
use per_samples_c::grouped2::Grouped2;
use per_samples_c::one_color::OneColor;
use per_versions::exchange::{ExchangeError, read_by_newer};
use rasn_below::AsnType;
use rasn_below::types::Codec;
use std::alloc::Global;

/// The newer reader answers the value, and the group is absent.
pub fn outer1_is_read_by_outer2(
    alloc: Global,
    codec: Codec,
    value: &Outer1,
) -> Result<Outer2, ExchangeError>
    ensures { let new = ⟦<Outer2 as AsnType>⟧ in let old = ⟦<Outer1 as AsnType>⟧ in
        let newer = new.schema new.CONSTRAINTS in let older = old.schema old.CONSTRAINTS in
        let v = old.value value.now in
        Exchanges codec older (old.levels value.now) v new.value (IsReadByNewer newer older v) result }
{
    outer2_adds_to_outer1();
    read_by_newer(alloc, codec, value)
}

/// The newer reader answers the value, and that addition is absent.
pub fn outer2_is_read_by_outer3(
    alloc: Global,
    codec: Codec,
    value: &Outer2,
) -> Result<Outer3, ExchangeError>
    ensures { let new = ⟦<Outer3 as AsnType>⟧ in let old = ⟦<Outer2 as AsnType>⟧ in
        let newer = new.schema new.CONSTRAINTS in let older = old.schema old.CONSTRAINTS in
        let v = old.value value.now in
        Exchanges codec older (old.levels value.now) v new.value (IsReadByNewer newer older v) result }
{
    outer3_adds_to_outer2();
    read_by_newer(alloc, codec, value)
}

/// The newer reader answers the value, and both are absent.
pub fn outer1_is_read_by_outer3(
    alloc: Global,
    codec: Codec,
    value: &Outer1,
) -> Result<Outer3, ExchangeError>
    ensures { let new = ⟦<Outer3 as AsnType>⟧ in let old = ⟦<Outer1 as AsnType>⟧ in
        let newer = new.schema new.CONSTRAINTS in let older = old.schema old.CONSTRAINTS in
        let v = old.value value.now in
        Exchanges codec older (old.levels value.now) v new.value (IsReadByNewer newer older v) result }
{
    outer3_adds_to_outer1();
    read_by_newer(alloc, codec, value)
}

/// The newer reader answers the value, and the additions of each element are absent.
pub fn outers1_is_read_by_outers3(
    alloc: Global,
    codec: Codec,
    value: &Outers1,
) -> Result<Outers3, ExchangeError>
    ensures { let new = ⟦<Outers3 as AsnType>⟧ in let old = ⟦<Outers1 as AsnType>⟧ in
        let newer = new.schema new.CONSTRAINTS in let older = old.schema old.CONSTRAINTS in
        let v = old.value value.now in
        Exchanges codec older (old.levels value.now) v new.value (IsReadByNewer newer older v) result }
{
    list_of_newer_elements_is_newer();
    read_by_newer(alloc, codec, value)
}

/// The newer reader answers nothing, since an addition is required.
pub fn none_needed_is_read_by_one_needed(
    alloc: Global,
    codec: Codec,
    value: &NoneNeeded,
) -> Result<OneNeeded, ExchangeError>
    ensures { let new = ⟦<OneNeeded as AsnType>⟧ in let old = ⟦<NoneNeeded as AsnType>⟧ in
        let newer = new.schema new.CONSTRAINTS in let older = old.schema old.CONSTRAINTS in
        let v = old.value value.now in
        Exchanges codec older (old.levels value.now) v new.value (IsReadByNewer newer older v) result }
{
    needed_additions_are_additions();
    read_by_newer(alloc, codec, value)
}

/// The newer reader answers the value, and the addition is at its default.
pub fn none_needed_is_read_by_added_default(
    alloc: Global,
    codec: Codec,
    value: &NoneNeeded,
) -> Result<AddedDefault, ExchangeError>
    ensures { let new = ⟦<AddedDefault as AsnType>⟧ in let old = ⟦<NoneNeeded as AsnType>⟧ in
        let newer = new.schema new.CONSTRAINTS in let older = old.schema old.CONSTRAINTS in
        let v = old.value value.now in
        Exchanges codec older (old.levels value.now) v new.value (IsReadByNewer newer older v) result }
{
    default_is_an_addition();
    read_by_newer(alloc, codec, value)
}

/// The newer reader answers the value, and all of them are absent.
pub fn none_needed_is_read_by_many(
    alloc: Global,
    codec: Codec,
    value: &NoneNeeded,
) -> Result<Many, ExchangeError>
    ensures { let new = ⟦<Many as AsnType>⟧ in let old = ⟦<NoneNeeded as AsnType>⟧ in
        let newer = new.schema new.CONSTRAINTS in let older = old.schema old.CONSTRAINTS in
        let v = old.value value.now in
        Exchanges codec older (old.levels value.now) v new.value (IsReadByNewer newer older v) result }
{
    many_are_additions();
    read_by_newer(alloc, codec, value)
}

/// The newer reader answers the value, and that addition is absent.
pub fn grouped1_is_read_by_grouped2(
    alloc: Global,
    codec: Codec,
    value: &Grouped1,
) -> Result<Grouped2, ExchangeError>
    ensures { let new = ⟦<Grouped2 as AsnType>⟧ in let old = ⟦<Grouped1 as AsnType>⟧ in
        let newer = new.schema new.CONSTRAINTS in let older = old.schema old.CONSTRAINTS in
        let v = old.value value.now in
        Exchanges codec older (old.levels value.now) v new.value (IsReadByNewer newer older v) result }
{
    group_is_added_to();
    read_by_newer(alloc, codec, value)
}

/// The newer reader answers the value, and these are absent.
pub fn default_outer1_is_read_by_default_outer3(
    alloc: Global,
    codec: Codec,
    value: &DefaultOuter1,
) -> Result<DefaultOuter3, ExchangeError>
    ensures { let new = ⟦<DefaultOuter3 as AsnType>⟧ in let old = ⟦<DefaultOuter1 as AsnType>⟧ in
        let newer = new.schema new.CONSTRAINTS in let older = old.schema old.CONSTRAINTS in
        let v = old.value value.now in
        Exchanges codec older (old.levels value.now) v new.value (IsReadByNewer newer older v) result }
{
    default_is_widened();
    read_by_newer(alloc, codec, value)
}

/// The newer reader answers the value, and the addition is absent.
pub fn before_nest_is_read_by_added_nest(
    alloc: Global,
    codec: Codec,
    value: &BeforeNest,
) -> Result<AddedNest, ExchangeError>
    ensures { let new = ⟦<AddedNest as AsnType>⟧ in let old = ⟦<BeforeNest as AsnType>⟧ in
        let newer = new.schema new.CONSTRAINTS in let older = old.schema old.CONSTRAINTS in
        let v = old.value value.now in
        Exchanges codec older (old.levels value.now) v new.value (IsReadByNewer newer older v) result }
{
    recursive_addition_is_one();
    read_by_newer(alloc, codec, value)
}

/// The newer reader answers the same alternative.
pub fn alt1_is_read_by_alt2(
    alloc: Global,
    codec: Codec,
    value: &Alt1,
) -> Result<Alt2, ExchangeError>
    ensures { let new = ⟦<Alt2 as AsnType>⟧ in let old = ⟦<Alt1 as AsnType>⟧ in
        let newer = new.schema new.CONSTRAINTS in let older = old.schema old.CONSTRAINTS in
        let v = old.value value.now in
        Exchanges codec older (old.levels value.now) v new.value (IsReadByNewer newer older v) result }
{
    alternative_is_added();
    read_by_newer(alloc, codec, value)
}

/// The newer reader answers the same item.
pub fn one_color_is_read_by_two_colors(
    alloc: Global,
    codec: Codec,
    value: &OneColor,
) -> Result<TwoColors, ExchangeError>
    ensures { let new = ⟦<TwoColors as AsnType>⟧ in let old = ⟦<OneColor as AsnType>⟧ in
        let newer = new.schema new.CONSTRAINTS in let older = old.schema old.CONSTRAINTS in
        let v = old.value value.now in
        Exchanges codec older (old.levels value.now) v new.value (IsReadByNewer newer older v) result }
{
    item_is_added();
    read_by_newer(alloc, codec, value)
}
