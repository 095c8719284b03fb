//! Which SEQUENCE is a newer version of which, by its additions (X.680, 52).
#![tactic(auto)]

ghost use Rattle.per_core.specs.Versions.{NewerType};

use per_laws::computed::is_newer_version;
use per_samples_b::added_default::AddedDefault;
use per_samples_b::none_needed::NoneNeeded;
use per_samples_b::one_needed::OneNeeded;
use per_samples_b::outer1::{Outer1, Outers1};
use per_samples_b::outer2::Outer2;
use per_samples_b::outer3::{Outer3, Outers3};
use rasn_below::AsnType;
use rasn_below::types::Contains;

/// An addition group is added.
pub fn outer2_adds_to_outer1()
    ensures { let newer = ⟦<Outer2 as AsnType>⟧ in let older = ⟦<Outer1 as AsnType>⟧ in
        NewerType (newer.schema newer.CONSTRAINTS) (older.schema older.CONSTRAINTS) }
{
    is_newer_version::<Outer2, Outer1>();
}

/// An optional addition is added after the group.
pub fn outer3_adds_to_outer2()
    ensures { let newer = ⟦<Outer3 as AsnType>⟧ in let older = ⟦<Outer2 as AsnType>⟧ in
        NewerType (newer.schema newer.CONSTRAINTS) (older.schema older.CONSTRAINTS) }
{
    is_newer_version::<Outer3, Outer2>();
}

/// The group and the addition are added at once.
pub fn outer3_adds_to_outer1()
    ensures { let newer = ⟦<Outer3 as AsnType>⟧ in let older = ⟦<Outer1 as AsnType>⟧ in
        NewerType (newer.schema newer.CONSTRAINTS) (older.schema older.CONSTRAINTS) }
{
    is_newer_version::<Outer3, Outer1>();
}

/// What octets contain is a newer version where their type is.
pub fn what_contains_outer3_adds_to_what_contains_outer1()
    ensures { let newer = ⟦<Contains<Outer3> as AsnType>⟧ in let older = ⟦<Contains<Outer1> as AsnType>⟧ in
        NewerType (newer.schema newer.CONSTRAINTS) (older.schema older.CONSTRAINTS) }
{
    is_newer_version::<Contains<Outer3>, Contains<Outer1>>();
}

/// A required addition is added, which an older sender never gives, and an optional one.
pub fn needed_additions_are_additions()
    ensures { let newer = ⟦<OneNeeded as AsnType>⟧ in let older = ⟦<NoneNeeded as AsnType>⟧ in
        NewerType (newer.schema newer.CONSTRAINTS) (older.schema older.CONSTRAINTS) }
{
    is_newer_version::<OneNeeded, NoneNeeded>();
}

/// An addition with a default is added.
pub fn default_is_an_addition()
    ensures { let newer = ⟦<AddedDefault as AsnType>⟧ in let older = ⟦<NoneNeeded as AsnType>⟧ in
        NewerType (newer.schema newer.CONSTRAINTS) (older.schema older.CONSTRAINTS) }
{
    is_newer_version::<AddedDefault, NoneNeeded>();
}

/// The elements of a SEQUENCE OF are of a newer version.
pub fn list_of_newer_elements_is_newer()
    ensures { let newer = ⟦<Outers3 as AsnType>⟧ in let older = ⟦<Outers1 as AsnType>⟧ in
        NewerType (newer.schema newer.CONSTRAINTS) (older.schema older.CONSTRAINTS) }
{
    is_newer_version::<Outers3, Outers1>();
}
