//! Three versions in a chain: by way of the middle one or not, the reader at the other end answers the same (X.680,
//! 52).
#![tactic(auto)]

ghost use Rattle.std.specs.Prelude.{ℕ, Bool, List, Result, Ok};
ghost use Rattle.rasn_types.specs.declared.types.Codec.{Codec};
ghost use Rattle.per_core.specs.Versions.{NewerType};
ghost use Rattle.per_core.specs.declared.decode_error.DecodeError.{DecodeError};
ghost use Rattle.rasn_per.specs.Calls.{DecodedBy};
ghost use Rattle.per_versions.specs.Answers.{Answers, AreKnown};
ghost use Rattle.per_versions.specs.Readings.{IsProjection, IsWidening};

use crate::additions::{outer2_adds_to_outer1, outer3_adds_to_outer2};
use per_samples_b::outer1::Outer1;
use per_samples_b::outer2::Outer2;
use per_samples_b::outer3::Outer3;
use per_versions::chains::{
    newest_is_newer_than_the_oldest, newest_reader_answers_the_same_by_way_of_the_middle,
    oldest_reader_answers_the_same_by_way_of_the_middle,
};
use rasn_below::AsnType;

/// What `outer2` adds to `outer1` and `outer3` to `outer2`, `outer3` adds to `outer1`.
pub fn outer3_is_newer_by_way_of_outer2()
    ensures { let newer = ⟦<Outer3 as AsnType>⟧ in let older = ⟦<Outer1 as AsnType>⟧ in
        NewerType (newer.schema newer.CONSTRAINTS) (older.schema older.CONSTRAINTS) }
{
    outer3_adds_to_outer2();
    outer2_adds_to_outer1();
    newest_is_newer_than_the_oldest::<Outer3, Outer2, Outer1>();
}

/// Of octets that `outer3`'s and `outer2`'s `decode` answer, `outer1`'s answers the projection of either value.
pub fn outer1_reads_the_same_by_way_of_outer2()
    ensures { let third = ⟦<Outer3 as AsnType>⟧ in let second = ⟦<Outer2 as AsnType>⟧ in
        let first = ⟦<Outer1 as AsnType>⟧ in let newest = third.schema third.CONSTRAINTS in
        let middle = second.schema second.CONSTRAINTS in let oldest = first.schema first.CONSTRAINTS in
        (strict : Bool) (codec : Codec) (octets : List ℕ) (x : _) (y : _) (answer : Result _ DecodeError)
        → DecodedBy strict codec newest third.value octets (Ok x)
        → DecodedBy strict codec middle second.value octets (Ok y)
        → DecodedBy strict codec oldest first.value octets answer →
        Answers first.value (IsProjection newest oldest (third.value x)) answer
        × Answers first.value (IsProjection middle oldest (second.value y)) answer }
{
    outer3_adds_to_outer2();
    outer2_adds_to_outer1();
    oldest_reader_answers_the_same_by_way_of_the_middle::<Outer3, Outer2, Outer1>();
}

/// Of octets that `outer1`'s and `outer2`'s `decode` answer, without additions that `outer1` doesn't know, `outer3`'s
/// answers the widening of either value.
pub fn outer3_reads_the_same_by_way_of_outer2()
    ensures { let third = ⟦<Outer3 as AsnType>⟧ in let second = ⟦<Outer2 as AsnType>⟧ in
        let first = ⟦<Outer1 as AsnType>⟧ in let newest = third.schema third.CONSTRAINTS in
        let middle = second.schema second.CONSTRAINTS in let oldest = first.schema first.CONSTRAINTS in
        (strict : Bool) (codec : Codec) (octets : List ℕ) (x : _) (y : _) (answer : Result _ DecodeError)
        → AreKnown strict codec oldest (first.value x) octets
        → DecodedBy strict codec middle second.value octets (Ok y)
        → DecodedBy strict codec newest third.value octets answer →
        Answers third.value (IsWidening newest oldest (first.value x)) answer
        × Answers third.value (IsWidening newest middle (second.value y)) answer }
{
    outer3_adds_to_outer2();
    outer2_adds_to_outer1();
    newest_reader_answers_the_same_by_way_of_the_middle::<Outer3, Outer2, Outer1>();
}
