//! What an older and a newer type's `decode` answer to the same octets (X.680, 52).

ghost use Rattle.std.specs.Prelude.{◌≡◌, ◌↔◌, ℕ, Bool, List, Result, Ok, Some, false};
ghost use Rattle.rasn_types.specs.Variants.{variant_of};
ghost use Rattle.rasn_types.specs.Values.{Value};
ghost use Rattle.rasn_types.specs.declared.types.Codec.{Codec};
ghost use Rattle.rasn_schema.specs.Depth.{meets_cut};
ghost use Rattle.per_core.specs.Versions.{NewerType, project, widen};
ghost use Rattle.per_core.specs.declared.decode_error.DecodeError.{DecodeError};
ghost use Rattle.rasn_per.specs.Calls.{DecodedBy, AreBytes};
ghost use Rattle.per_versions.specs.Answers.{Answers, AreKnown};
ghost use Rattle.per_versions.specs.Readings.{IsProjection, IsReadByNewer, IsReadByOlder, IsWidening};

use rasn_codec::codec::{Decode, Encode};
use rasn_schema::schema::AsnType;

/// Of the octets that a newer type's `encode` answers, an older type's `decode` answers the projection of the value's
/// normal form. It refuses, memory aside, exactly where there is none, or where something that is written lies deeper
/// than 128 levels, outside the additions that it doesn't know (X.680, 52; X.691, 19.9).
pub fn older_reader_answers_the_projection<New: Encode, Old: Decode>()
    ensures { let newer = New.schema New.CONSTRAINTS in let older = Old.schema Old.CONSTRAINTS in
        NewerType newer older
        → (strict : Bool) (codec : Codec) (x : New) (octets : List ℕ) (answer : Result Old DecodeError)
        → AreBytes (variant_of codec) newer (New.levels x) (New.value x) octets
        → DecodedBy strict codec older Old.value octets answer
        → Answers Old.value (IsReadByOlder newer older (New.value x)) answer }
{}

/// Of the octets that an older type's `encode` answers, a newer type's `decode` answers the widening of the value's
/// normal form. It refuses, memory aside, exactly where there is none, or where something that is written lies deeper
/// than 128 levels (X.680, 52; X.691, 19.5, 19.8).
pub fn newer_reader_answers_the_widening<New: Decode, Old: Encode>()
    ensures { let newer = New.schema New.CONSTRAINTS in let older = Old.schema Old.CONSTRAINTS in
        NewerType newer older
        → (strict : Bool) (codec : Codec) (x : Old) (octets : List ℕ) (answer : Result New DecodeError)
        → AreBytes (variant_of codec) older (Old.levels x) (Old.value x) octets
        → DecodedBy strict codec newer New.value octets answer
        → Answers New.value (IsReadByNewer newer older (Old.value x)) answer }
{}

/// Of any octets, canonical or not, that a newer type's `decode` answers with a value, an older type's answers the
/// projection of that value. It refuses, memory aside, exactly where there is none.
pub fn older_reader_projects_what_the_newer_reads<New: Decode, Old: Decode>()
    ensures { let newer = New.schema New.CONSTRAINTS in let older = Old.schema Old.CONSTRAINTS in
        NewerType newer older
        → (strict : Bool) (codec : Codec) (octets : List ℕ) (x : New) (answer : Result Old DecodeError)
        → DecodedBy strict codec newer New.value octets (Ok x) → DecodedBy strict codec older Old.value octets answer
        → Answers Old.value (IsProjection newer older (New.value x)) answer }
{}

/// Of any octets, canonical or not, that an older type's `decode` answers with a value, no additions being present that
/// it doesn't know, a newer type's answers the widening of that value. It refuses, memory aside, exactly where there is
/// none. Nor are there additions then that the newer type doesn't know, and the older value is the projection of the
/// newer one.
pub fn newer_reader_widens_what_the_older_reads<New: Decode, Old: Decode>()
    ensures answers { let newer = New.schema New.CONSTRAINTS in let older = Old.schema Old.CONSTRAINTS in
        NewerType newer older
        → (strict : Bool) (codec : Codec) (octets : List ℕ) (x : Old) (answer : Result New DecodeError)
        → AreKnown strict codec older (Old.value x) octets → DecodedBy strict codec newer New.value octets answer
        → Answers New.value (IsWidening newer older (Old.value x)) answer }
    ensures known { let newer = New.schema New.CONSTRAINTS in let older = Old.schema Old.CONSTRAINTS in
        NewerType newer older → (strict : Bool) (codec : Codec) (octets : List ℕ) (x : Old) (y : New)
        → AreKnown strict codec older (Old.value x) octets → IsWidening newer older (Old.value x) (New.value y)
        → AreKnown strict codec newer (New.value y) octets }
    ensures projects_back { let newer = New.schema New.CONSTRAINTS in let older = Old.schema Old.CONSTRAINTS in
        NewerType newer older → (strict : Bool) (codec : Codec) (octets : List ℕ) (x : Old) (y : New)
        → AreKnown strict codec older (Old.value x) octets → DecodedBy strict codec newer New.value octets (Ok y)
        → IsProjection newer older (New.value y) (Old.value x) }
{}

/// In the octets that `encode` answers no additions are present that the type doesn't know, where they are read within
/// 128 levels (X.691, 19.9).
pub fn encoded_octets_are_known<T: Encode + Decode>()
    ensures { let type = T.schema T.CONSTRAINTS in (strict : Bool) (codec : Codec) (x y : T) (octets : List ℕ)
        → AreBytes (variant_of codec) type (T.levels x) (T.value x) octets
        → DecodedBy strict codec type T.value octets (Ok y)
        → AreKnown strict codec type (T.value y) octets }
{}

/// The projection and the widening are the same along all trees that hold the newer value.
pub fn version_of_a_value_is_one_at_all_depths<New: AsnType, Old: AsnType>()
    ensures { let newer = New.schema New.CONSTRAINTS in let older = Old.schema Old.CONSTRAINTS in
        NewerType newer older → (v w : Value) (n : ℕ) → meets_cut (newer n) v ≡ false →
        (IsProjection newer older v w ↔ (project (newer n) (older n) v ≡ Some w))
        × (IsWidening newer older w v ↔ (widen (newer n) (older n) w ≡ Some v)) }
{}
