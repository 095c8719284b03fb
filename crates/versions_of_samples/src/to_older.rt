//! What an older reader answers to what a newer writer writes, at types of worked encodings: with the premises met, so
//! that each contract says the plain result, the projection of the normal form or why there is none (X.680, 52).
#![tactic(auto)]

ghost use Rattle.per_versions.specs.Exchanges.{Exchanges};
ghost use Rattle.per_versions.specs.Readings.{IsReadByOlder};

use crate::additions::{
    default_is_an_addition, list_of_newer_elements_is_newer, needed_additions_are_additions,
    outer2_adds_to_outer1, outer3_adds_to_outer1, outer3_adds_to_outer2,
};
use crate::alternatives::{alternative_is_added, item_is_added};
use crate::within::{
    default_is_widened, group_is_added_to, many_are_additions, recursive_addition_is_one,
};
use per_samples_b::added_default::AddedDefault;
use per_samples_b::alt1::Alt1;
use per_samples_b::alt2::Alt2;
use per_samples_b::many::Many;
use per_samples_b::none_needed::NoneNeeded;
use per_samples_b::one_needed::OneNeeded;
use per_samples_b::outer1::{Outer1, Outers1};
use per_samples_b::outer2::Outer2;
use per_samples_b::outer3::{Outer3, Outers3};
use per_samples_c::added_nest::AddedNest;
use per_samples_c::before_nest::BeforeNest;
use per_samples_c::colors::TwoColors;
use per_samples_c::default_outer1::DefaultOuter1;
use per_samples_c::default_outer3::DefaultOuter3;
use per_samples_c::grouped1::Grouped1;
use per_samples_c::grouped2::Grouped2;
use per_samples_c::one_color::OneColor;
use per_versions::exchange::{ExchangeError, read_by_older};
use rasn_below::AsnType;
use rasn_below::types::Codec;
use std::alloc::Global;

/// The older reader answers the value without the group.
pub fn outer2_is_read_by_outer1(
    alloc: Global,
    codec: Codec,
    value: &Outer2,
) -> Result<Outer1, ExchangeError>
    ensures { let new = ⟦<Outer2 as AsnType>⟧ in let old = ⟦<Outer1 as AsnType>⟧ in
        let newer = new.schema new.CONSTRAINTS in let older = old.schema old.CONSTRAINTS in
        let v = new.value value.now in
        Exchanges codec newer (new.levels value.now) v old.value (IsReadByOlder newer older v) result }
{
    outer2_adds_to_outer1();
    read_by_older(alloc, codec, value)
}

/// The older reader answers the value without the addition after the group.
pub fn outer3_is_read_by_outer2(
    alloc: Global,
    codec: Codec,
    value: &Outer3,
) -> Result<Outer2, ExchangeError>
    ensures { let new = ⟦<Outer3 as AsnType>⟧ in let old = ⟦<Outer2 as AsnType>⟧ in
        let newer = new.schema new.CONSTRAINTS in let older = old.schema old.CONSTRAINTS in
        let v = new.value value.now in
        Exchanges codec newer (new.levels value.now) v old.value (IsReadByOlder newer older v) result }
{
    outer3_adds_to_outer2();
    read_by_older(alloc, codec, value)
}

/// The older reader answers the value without the group and the addition.
pub fn outer3_is_read_by_outer1(
    alloc: Global,
    codec: Codec,
    value: &Outer3,
) -> Result<Outer1, ExchangeError>
    ensures { let new = ⟦<Outer3 as AsnType>⟧ in let old = ⟦<Outer1 as AsnType>⟧ in
        let newer = new.schema new.CONSTRAINTS in let older = old.schema old.CONSTRAINTS in
        let v = new.value value.now in
        Exchanges codec newer (new.levels value.now) v old.value (IsReadByOlder newer older v) result }
{
    outer3_adds_to_outer1();
    read_by_older(alloc, codec, value)
}

/// The older reader answers the value each element without its additions.
pub fn outers3_is_read_by_outers1(
    alloc: Global,
    codec: Codec,
    value: &Outers3,
) -> Result<Outers1, ExchangeError>
    ensures { let new = ⟦<Outers3 as AsnType>⟧ in let old = ⟦<Outers1 as AsnType>⟧ in
        let newer = new.schema new.CONSTRAINTS in let older = old.schema old.CONSTRAINTS in
        let v = new.value value.now in
        Exchanges codec newer (new.levels value.now) v old.value (IsReadByOlder newer older v) result }
{
    list_of_newer_elements_is_newer();
    read_by_older(alloc, codec, value)
}

/// The older reader answers the value without the additions.
pub fn one_needed_is_read_by_none_needed(
    alloc: Global,
    codec: Codec,
    value: &OneNeeded,
) -> Result<NoneNeeded, ExchangeError>
    ensures { let new = ⟦<OneNeeded as AsnType>⟧ in let old = ⟦<NoneNeeded as AsnType>⟧ in
        let newer = new.schema new.CONSTRAINTS in let older = old.schema old.CONSTRAINTS in
        let v = new.value value.now in
        Exchanges codec newer (new.levels value.now) v old.value (IsReadByOlder newer older v) result }
{
    needed_additions_are_additions();
    read_by_older(alloc, codec, value)
}

/// The older reader answers the value without the addition.
pub fn added_default_is_read_by_none_needed(
    alloc: Global,
    codec: Codec,
    value: &AddedDefault,
) -> Result<NoneNeeded, ExchangeError>
    ensures { let new = ⟦<AddedDefault as AsnType>⟧ in let old = ⟦<NoneNeeded as AsnType>⟧ in
        let newer = new.schema new.CONSTRAINTS in let older = old.schema old.CONSTRAINTS in
        let v = new.value value.now in
        Exchanges codec newer (new.levels value.now) v old.value (IsReadByOlder newer older v) result }
{
    default_is_an_addition();
    read_by_older(alloc, codec, value)
}

/// The older reader answers the value without the additions.
pub fn many_is_read_by_none_needed(
    alloc: Global,
    codec: Codec,
    value: &Many,
) -> Result<NoneNeeded, ExchangeError>
    ensures { let new = ⟦<Many as AsnType>⟧ in let old = ⟦<NoneNeeded as AsnType>⟧ in
        let newer = new.schema new.CONSTRAINTS in let older = old.schema old.CONSTRAINTS in
        let v = new.value value.now in
        Exchanges codec newer (new.levels value.now) v old.value (IsReadByOlder newer older v) result }
{
    many_are_additions();
    read_by_older(alloc, codec, value)
}

/// The older reader answers the value without the addition of the group.
pub fn grouped2_is_read_by_grouped1(
    alloc: Global,
    codec: Codec,
    value: &Grouped2,
) -> Result<Grouped1, ExchangeError>
    ensures { let new = ⟦<Grouped2 as AsnType>⟧ in let old = ⟦<Grouped1 as AsnType>⟧ in
        let newer = new.schema new.CONSTRAINTS in let older = old.schema old.CONSTRAINTS in
        let v = new.value value.now in
        Exchanges codec newer (new.levels value.now) v old.value (IsReadByOlder newer older v) result }
{
    group_is_added_to();
    read_by_older(alloc, codec, value)
}

/// The older reader answers the value without the additions of the component.
pub fn default_outer3_is_read_by_default_outer1(
    alloc: Global,
    codec: Codec,
    value: &DefaultOuter3,
) -> Result<DefaultOuter1, ExchangeError>
    ensures { let new = ⟦<DefaultOuter3 as AsnType>⟧ in let old = ⟦<DefaultOuter1 as AsnType>⟧ in
        let newer = new.schema new.CONSTRAINTS in let older = old.schema old.CONSTRAINTS in
        let v = new.value value.now in
        Exchanges codec newer (new.levels value.now) v old.value (IsReadByOlder newer older v) result }
{
    default_is_widened();
    read_by_older(alloc, codec, value)
}

/// The older reader answers the value without the addition, however deep it is.
pub fn added_nest_is_read_by_before_nest(
    alloc: Global,
    codec: Codec,
    value: &AddedNest,
) -> Result<BeforeNest, ExchangeError>
    ensures { let new = ⟦<AddedNest as AsnType>⟧ in let old = ⟦<BeforeNest as AsnType>⟧ in
        let newer = new.schema new.CONSTRAINTS in let older = old.schema old.CONSTRAINTS in
        let v = new.value value.now in
        Exchanges codec newer (new.levels value.now) v old.value (IsReadByOlder newer older v) result }
{
    recursive_addition_is_one();
    read_by_older(alloc, codec, value)
}

/// The older reader answers the value, and nothing where the added alternative is chosen.
pub fn alt2_is_read_by_alt1(
    alloc: Global,
    codec: Codec,
    value: &Alt2,
) -> Result<Alt1, ExchangeError>
    ensures { let new = ⟦<Alt2 as AsnType>⟧ in let old = ⟦<Alt1 as AsnType>⟧ in
        let newer = new.schema new.CONSTRAINTS in let older = old.schema old.CONSTRAINTS in
        let v = new.value value.now in
        Exchanges codec newer (new.levels value.now) v old.value (IsReadByOlder newer older v) result }
{
    alternative_is_added();
    read_by_older(alloc, codec, value)
}

/// The older reader answers the value, and nothing where it is the added item.
pub fn two_colors_is_read_by_one_color(
    alloc: Global,
    codec: Codec,
    value: &TwoColors,
) -> Result<OneColor, ExchangeError>
    ensures { let new = ⟦<TwoColors as AsnType>⟧ in let old = ⟦<OneColor as AsnType>⟧ in
        let newer = new.schema new.CONSTRAINTS in let older = old.schema old.CONSTRAINTS in
        let v = new.value value.now in
        Exchanges codec newer (new.levels value.now) v old.value (IsReadByOlder newer older v) result }
{
    item_is_added();
    read_by_older(alloc, codec, value)
}
