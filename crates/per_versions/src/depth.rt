//! Values of which the normal form has at most 128 levels: no reader refuses one for its depth.

ghost use Rattle.std.specs.Prelude.{◌≡◌, ◌≤◌, ℕ, Bool, List, Result};
ghost use Rattle.rasn_types.specs.Variants.{variant_of};
ghost use Rattle.rasn_types.specs.Values.{Value};
ghost use Rattle.rasn_types.specs.declared.types.Codec.{Codec};
ghost use Rattle.per_core.specs.Versions.{NewerType};
ghost use Rattle.per_laws.specs.Levels.{levels_of};
ghost use Rattle.per_core.specs.declared.decode_error.DecodeError.{DecodeError};
ghost use Rattle.rasn_per.specs.Calls.{DecodedBy, AreBytes};
ghost use Rattle.per_versions.specs.Answers.{Answers};
ghost use Rattle.per_versions.specs.Readings.{IsProjection, IsWidening, normal_form};

use rasn_codec::codec::{Decode, Encode};

/// Of the octets that `encode` answers, `decode` answers the normal form of such a value, and refuses for want of
/// memory alone.
pub fn few_levels_are_read_back<T: Encode + Decode>()
    ensures { let type = T.schema T.CONSTRAINTS in
        (strict : Bool) (codec : Codec) (x : T) (octets : List ℕ) (answer : Result T DecodeError)
        → AreBytes (variant_of codec) type (T.levels x) (T.value x) octets
        → levels_of (normal_form type (T.value x)) ≤ 128 → DecodedBy strict codec type T.value octets answer
        → Answers T.value (λ (w : Value). w ≡ normal_form type (T.value x)) answer }
{}

/// An older type's `decode` answers the projection of its normal form, and refuses, memory aside, exactly where there
/// is none (X.680, 52).
pub fn few_levels_are_projected<New: Encode, Old: Decode>()
    ensures { let newer = New.schema New.CONSTRAINTS in let older = Old.schema Old.CONSTRAINTS in
        NewerType newer older
        → (strict : Bool) (codec : Codec) (x : New) (octets : List ℕ) (answer : Result Old DecodeError)
        → AreBytes (variant_of codec) newer (New.levels x) (New.value x) octets
        → levels_of (normal_form newer (New.value x)) ≤ 128 → DecodedBy strict codec older Old.value octets answer
        → Answers Old.value (IsProjection newer older (normal_form newer (New.value x))) answer }
{}

/// A newer type's `decode` answers the widening of its normal form, and refuses, memory aside, exactly where there is
/// none (X.680, 52).
pub fn few_levels_are_widened<New: Decode, Old: Encode>()
    ensures { let newer = New.schema New.CONSTRAINTS in let older = Old.schema Old.CONSTRAINTS in
        NewerType newer older
        → (strict : Bool) (codec : Codec) (x : Old) (octets : List ℕ) (answer : Result New DecodeError)
        → AreBytes (variant_of codec) older (Old.levels x) (Old.value x) octets
        → levels_of (normal_form older (Old.value x)) ≤ 128 → DecodedBy strict codec newer New.value octets answer
        → Answers New.value (IsWidening newer older (normal_form older (Old.value x))) answer }
{}
