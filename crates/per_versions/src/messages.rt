//! Messages in which additions stand that the reader doesn't know: whatever these are, at any depth, it answers the
//! same
//! (X.691, 19.9).

ghost use Rattle.std.specs.Prelude.{◌≡◌, ◌↔◌, ◌++◌, ℕ, Bool, false, List, Result, Ok};
ghost use Rattle.std.specs.Borrow.{Bor};
ghost use Rattle.rasn_types.specs.Variants.{variant_of};
ghost use Rattle.rasn_types.specs.Values.{Value};
ghost use Rattle.rasn_types.specs.declared.types.Codec.{Codec};
ghost use Rattle.per_core.specs.Versions.{NewerType};
ghost use Rattle.per_laws.specs.Alike.{AreAlike};
ghost use Rattle.per_core.specs.declared.decode_error.DecodeError.{DecodeError};
ghost use Rattle.rasn_per.specs.Calls.{DecodedBy, DecodedFront, reading};
ghost use Rattle.per_versions.specs.Answers.{Answers, AnswersFront};
ghost use Rattle.per_versions.specs.Readings.{IsProjection};

use rasn_codec::codec::Decode;

/// Where a type's `decode` answers octets with a value, it answers the same value to these octets with others in the
/// additions that it doesn't know, at any depth, of as many octets or of any number; it refuses them for want of memory
/// alone.
pub fn reader_answers_the_same_whatever_is_unknown<T: Decode>()
    ensures { let type = T.schema T.CONSTRAINTS in (strict : Bool) (codec : Codec) (x : T) (octets others : List ℕ)
        (answer : Result T DecodeError) → AreAlike (reading strict (variant_of codec)) (type 128) octets others
        → DecodedBy strict codec type T.value octets (Ok x) → DecodedBy strict codec type T.value others answer
        → Answers T.value (λ (w : Value). w ≡ T.value x) answer }
{}

/// To octets of a value, in which any additions that the type doesn't know are others, with any octets after them,
/// `decode_with_remainder` answers that value and the octets behind; it refuses them for want of memory alone.
pub fn reader_in_front_answers_the_same_whatever_is_unknown<T: Decode>()
    ensures { let type = T.schema T.CONSTRAINTS in (codec : Codec) (x : T) (octets others rest : List ℕ)
        (answer : Result (T × Bor (List ℕ)) DecodeError)
        → AreAlike (reading false (variant_of codec)) (type 128) octets others
        → DecodedBy false codec type T.value octets (Ok x)
        → DecodedFront codec type T.value (others ++ rest) answer
        → AnswersFront T.value (λ (w : Value). w ≡ T.value x) rest answer }
{}

/// Where a newer type's `decode` answers two messages with values of which an older type sees the same, an older type's
/// `decode` answers both with the same value; it refuses the second for want of memory alone (X.680, 52).
pub fn older_reader_answers_the_same_where_it_sees_the_same<New: Decode, Old: Decode>()
    ensures { let newer = New.schema New.CONSTRAINTS in let older = Old.schema Old.CONSTRAINTS in
        NewerType newer older → (strict : Bool) (codec : Codec) (x y : New) (z : Old) (octets others : List ℕ)
        → (answer : Result Old DecodeError)
        → DecodedBy strict codec newer New.value octets (Ok x) → DecodedBy strict codec newer New.value others (Ok y)
        → ((w : Value) → IsProjection newer older (New.value x) w ↔ IsProjection newer older (New.value y) w)
        → DecodedBy strict codec older Old.value octets (Ok z) → DecodedBy strict codec older Old.value others answer
        → Answers Old.value (λ (w : Value). w ≡ Old.value z) answer }
{}
