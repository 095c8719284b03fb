//! Relays of types of worked encodings: what one that knows a newer version decodes and encodes again, an older reader
//! sees as it was, but for the normal form (X.680, 52; X.691, 19.9); and what a relay makes of any octets.
#![tactic(auto)]

ghost use Rattle.std.specs.Prelude.{◌≡◌, ℕ, Bool, List, Result, Ok};
ghost use Rattle.rasn_types.specs.Variants.{variant_of};
ghost use Rattle.rasn_types.specs.Values.{Value};
ghost use Rattle.rasn_types.specs.declared.types.Codec.{Codec};
ghost use Rattle.per_core.specs.declared.decode_error.DecodeError.{DecodeError};
ghost use Rattle.rasn_per.specs.Calls.{DecodedBy, AreBytes};
ghost use Rattle.per_versions.specs.Answers.{Answers};
ghost use Rattle.per_versions.specs.Exchanges.{PassesOn};
ghost use Rattle.per_versions.specs.NumbersKept.{KeepsToI128};
ghost use Rattle.per_versions.specs.Readings.{normal_form};

use crate::additions::outer3_adds_to_outer1;
use crate::plain::bounded_numbers_are_lawful;
use crate::records::extensible_records_are_lawful;
use per_samples_a::bounded::OneToTenExtensible;
use per_samples_b::outer1::Outer1;
use per_samples_b::outer3::Outer3;
use per_versions::exchange::{ExchangeError, pass_on};
use per_versions::faults::keeps_to_i128;
use per_versions::relays::relay_changes_nothing_that_the_older_sees;
use rasn_below::AsnType;
use rasn_below::types::Codec;
use std::alloc::Global;

/// What `outer1`'s `decode` answers to what a relay of `outer3` passes on, has the normal form of what it answers to
/// the octets that were passed, in either variant.
pub fn relay_of_outer3_changes_nothing_for_outer1()
    ensures { let new = ⟦<Outer3 as AsnType>⟧ in let old = ⟦<Outer1 as AsnType>⟧ in
        let newer = new.schema new.CONSTRAINTS in let older = old.schema old.CONSTRAINTS in (strict again : Bool)
        (codec other : Codec) (x : _) (y : _) (octets others : List ℕ) (answer : Result _ DecodeError)
        → DecodedBy strict codec newer new.value octets (Ok x) → DecodedBy strict codec older old.value octets (Ok y)
        → AreBytes (variant_of other) newer (new.levels x) (new.value x) others
        → DecodedBy again other older old.value others answer
        → Answers old.value (λ (w : Value). normal_form older w ≡ normal_form older (old.value y)) answer }
{
    extensible_records_are_lawful();
    outer3_adds_to_outer1();
    relay_changes_nothing_that_the_older_sees::<Outer3, Outer1>();
}

/// A record without a number, and an extensible INTEGER between two bounds.
#[tactic(auto, unfolding(per_versions::specs::NumbersKept::keeps_to_i128))]
pub fn types_keep_to_i128()
    ensures record_of { let own = ⟦<Outer3 as AsnType>⟧ in KeepsToI128 (own.schema own.CONSTRAINTS) }
    ensures number { let own = ⟦<OneToTenExtensible as AsnType>⟧ in KeepsToI128 (own.schema own.CONSTRAINTS) }
{
    keeps_to_i128::<Outer3>();
    keeps_to_i128::<OneToTenExtensible>();
}

/// What a relay of `outer3` makes of octets: their value's canonical octets. It refuses octets that spell no value, and
/// besides these for want of memory alone.
pub fn outer3_is_passed_on(
    alloc: Global,
    from: Codec,
    to: Codec,
    octets: &[u8],
) -> Result<Vec<u8>, ExchangeError>
    ensures { let own = ⟦<Outer3 as AsnType>⟧ in
        PassesOn from to (own.schema own.CONSTRAINTS) octets.now result }
{
    extensible_records_are_lawful();
    types_keep_to_i128();
    pass_on::<Outer3>(alloc, from, to, octets)
}

/// What a relay of an extensible INTEGER makes of octets, likewise.
pub fn extensible_number_is_passed_on(
    alloc: Global,
    from: Codec,
    to: Codec,
    octets: &[u8],
) -> Result<Vec<u8>, ExchangeError>
    ensures { let own = ⟦<OneToTenExtensible as AsnType>⟧ in
        PassesOn from to (own.schema own.CONSTRAINTS) octets.now result }
{
    bounded_numbers_are_lawful();
    types_keep_to_i128();
    pass_on::<OneToTenExtensible>(alloc, from, to, octets)
}
