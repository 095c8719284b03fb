//! Relays: what was decoded is encoded again, in the same variant or in the other, and read by another version (X.680,
//! 52). No reader refuses it for its depth.

ghost use Rattle.std.specs.Prelude.{◌≡◌, ◌≢◌, ℕ, Bool, List, Vec, Result, Ok, Err};
ghost use Rattle.std.specs.Global.{Global};
ghost use Rattle.rasn_types.specs.Variants.{variant_of};
ghost use Rattle.rasn_types.specs.Values.{Value};
ghost use Rattle.rasn_types.specs.declared.types.Codec.{Codec};
ghost use Rattle.rasn_schema.specs.Lawful.{IsLawfulType};
ghost use Rattle.per_core.specs.Versions.{NewerType};
ghost use Rattle.per_core.specs.declared.decode_error.DecodeError.{DecodeError};
ghost use Rattle.per_core.specs.declared.decode_error.DecodeErrorKind.TheVariants.{OutOfMemory};
ghost use Rattle.per_core.specs.declared.encode_error.EncodeError.{EncodeError};
ghost use Rattle.per_versions.specs.NumbersKept.{KeepsToI128};
ghost use Rattle.rasn_per.specs.Calls.{DecodedBy, Encoded, AreBytes};
ghost use Rattle.per_versions.specs.Answers.{Answers, Passes};
ghost use Rattle.per_versions.specs.Readings.{IsInReach, IsProjection, IsWidening, normal_form};

use rasn_codec::codec::{Decode, Encode};
use rasn_schema::schema::AsnType;

/// Where a lawful newer type's `decode` answered any octets with a value, an older type's `decode` answers the
/// projection of its normal form to the octets as which `encode` writes that value. It refuses, memory aside, exactly
/// where there is no projection (X.680, 52).
pub fn older_reader_projects_what_is_passed_on<New: Encode + Decode, Old: Decode>()
    ensures { let newer = New.schema New.CONSTRAINTS in let older = Old.schema Old.CONSTRAINTS in IsLawfulType newer
        → NewerType newer older → (strict again : Bool) (codec other : Codec) (x : New) (octets others : List ℕ)
        (answer : Result Old DecodeError) → DecodedBy strict codec newer New.value octets (Ok x)
        → AreBytes (variant_of other) newer (New.levels x) (New.value x) others
        → DecodedBy again other older Old.value others answer
        → Answers Old.value (IsProjection newer older (normal_form newer (New.value x))) answer }
{}

/// Where a lawful older type's `decode` answered any octets with a value, also some with additions that it doesn't
/// know, a newer type's `decode` answers the widening of its normal form to the octets as which `encode` writes that
/// value. It refuses, memory aside, exactly where there is no widening (X.680, 52).
pub fn newer_reader_widens_what_is_passed_on<New: Decode, Old: Encode + Decode>()
    ensures { let newer = New.schema New.CONSTRAINTS in let older = Old.schema Old.CONSTRAINTS in IsLawfulType older
        → NewerType newer older → (strict again : Bool) (codec other : Codec) (x : Old) (octets others : List ℕ)
        (answer : Result New DecodeError) → DecodedBy strict codec older Old.value octets (Ok x)
        → AreBytes (variant_of other) older (Old.levels x) (Old.value x) others
        → DecodedBy again other newer New.value others answer
        → Answers New.value (IsWidening newer older (normal_form older (Old.value x))) answer }
{}

/// Where a value has a projection, its normal form has one, and both projections have one normal form; where the normal
/// form has one, the value has one (X.691, 19.9).
pub fn normal_form_is_projected_alike<New: AsnType, Old: AsnType>()
    ensures alike { let newer = New.schema New.CONSTRAINTS in let older = Old.schema Old.CONSTRAINTS in
        IsLawfulType older → NewerType newer older → (v w : Value) → IsProjection newer older v w →
        (u : Value) × IsProjection newer older (normal_form newer v) u × (normal_form older u ≡ normal_form older w) }
    ensures back { let newer = New.schema New.CONSTRAINTS in let older = Old.schema Old.CONSTRAINTS in
        IsLawfulType older → NewerType newer older → (v u : Value)
        → IsProjection newer older (normal_form newer v) u → (w : Value) × IsProjection newer older v w }
{}

/// What an older type's `decode` answers to what a lawful newer type passes on, has the normal form of what it answers
/// to the octets that were passed, and it refuses for want of memory alone. Where it refuses those, memory aside, it
/// refuses what is passed on. So to an older reader a relay that knows more changes nothing else (X.680, 52; X.691,
/// 19.9).
pub fn relay_changes_nothing_that_the_older_sees<New: Encode + Decode, Old: Decode>()
    ensures answers { let newer = New.schema New.CONSTRAINTS in let older = Old.schema Old.CONSTRAINTS in
        IsLawfulType newer → IsLawfulType older → NewerType newer older → (strict again : Bool) (codec other : Codec)
        (x : New) (y : Old) (octets others : List ℕ) (answer : Result Old DecodeError)
        → DecodedBy strict codec newer New.value octets (Ok x) → DecodedBy strict codec older Old.value octets (Ok y)
        → AreBytes (variant_of other) newer (New.levels x) (New.value x) others
        → DecodedBy again other older Old.value others answer
        → Answers Old.value (λ (w : Value). normal_form older w ≡ normal_form older (Old.value y)) answer }
    ensures refuses { let newer = New.schema New.CONSTRAINTS in let older = Old.schema Old.CONSTRAINTS in
        IsLawfulType newer → IsLawfulType older → NewerType newer older → (strict again : Bool) (codec other : Codec)
        (x : New) (y : Old) (octets others : List ℕ) (e : DecodeError) → e.kind ≢ OutOfMemory
        → DecodedBy strict codec newer New.value octets (Ok x)
        → DecodedBy {T = Old} strict codec older Old.value octets (Err e)
        → AreBytes (variant_of other) newer (New.levels x) (New.value x) others
        → DecodedBy again other older Old.value others (Ok y) → ⊥ }
{}

/// Nothing that is written of what a lawful type's `decode` answered lies deeper than an older or a newer type's 128
/// levels.
pub fn what_was_decoded_is_in_reach<New: AsnType, Old: AsnType>()
    ensures of_older { let newer = New.schema New.CONSTRAINTS in let older = Old.schema Old.CONSTRAINTS in
        IsLawfulType newer → NewerType newer older → (strict : Bool) (codec : Codec) (x : New) (octets : List ℕ)
        → DecodedBy strict codec newer New.value octets (Ok x)
        → IsInReach older newer (normal_form newer (New.value x)) }
    ensures of_newer { let newer = New.schema New.CONSTRAINTS in let older = Old.schema Old.CONSTRAINTS in
        IsLawfulType older → NewerType newer older → (strict : Bool) (codec : Codec) (x : Old) (octets : List ℕ)
        → DecodedBy strict codec older Old.value octets (Ok x)
        → IsInReach newer older (normal_form older (Old.value x)) }
{}

/// A relay to an older reader, whole: what a lawful newer type's `decode` answered to any octets, `encode` writes or
/// refuses for want of memory alone, where the type keeps to the numbers of an `i128`; and to what it wrote an older
/// type's `decode` answers the projection of the normal form, or refuses it, memory aside, exactly where there is none.
pub fn relay_to_an_older_reader<New: Encode + Decode, Old: Decode>()
    ensures { let newer = New.schema New.CONSTRAINTS in let older = Old.schema Old.CONSTRAINTS in IsLawfulType newer
        → KeepsToI128 newer → NewerType newer older → (strict again : Bool) (codec other : Codec) (x : New)
        (octets : List ℕ) (written : Result (Vec ℕ Global) EncodeError) (answer : Result Old DecodeError)
        → DecodedBy strict codec newer New.value octets (Ok x)
        → Encoded other newer (New.levels x) (New.value x) written
        → Passes (λ (others : List ℕ). DecodedBy again other older Old.value others answer
        → Answers Old.value (IsProjection newer older (normal_form newer (New.value x))) answer) written }
{}

/// A relay to a newer reader, whole: what a lawful older type's `decode` answered to any octets, `encode` writes or
/// refuses for want of memory alone, where the type keeps to the numbers of an `i128`; and to what it wrote a newer
/// type's `decode` answers the widening of the normal form, or refuses it, memory aside, exactly where there is none.
pub fn relay_to_a_newer_reader<New: Decode, Old: Encode + Decode>()
    ensures { let newer = New.schema New.CONSTRAINTS in let older = Old.schema Old.CONSTRAINTS in IsLawfulType older
        → KeepsToI128 older → NewerType newer older → (strict again : Bool) (codec other : Codec) (x : Old)
        (octets : List ℕ) (written : Result (Vec ℕ Global) EncodeError) (answer : Result New DecodeError)
        → DecodedBy strict codec older Old.value octets (Ok x)
        → Encoded other older (Old.levels x) (Old.value x) written
        → Passes (λ (others : List ℕ). DecodedBy again other newer New.value others answer
        → Answers New.value (IsWidening newer older (normal_form older (Old.value x))) answer) written }
{}
