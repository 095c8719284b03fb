//! What `decode_zero_padded` answers, `decode` answers (X.691, 11.1). So a reader that takes padding of any value and
//! one that takes zero bits alone may be of two versions.

ghost use Rattle.std.specs.Prelude.{◌≡◌, ◌≢◌, ℕ, true, false, List, Result, Ok, Err};
ghost use Rattle.rasn_types.specs.Values.{Value};
ghost use Rattle.rasn_types.specs.declared.types.Codec.{Codec};
ghost use Rattle.per_core.specs.Versions.{NewerType};
ghost use Rattle.per_core.specs.declared.decode_error.DecodeError.{DecodeError};
ghost use Rattle.per_core.specs.declared.decode_error.DecodeErrorKind.TheVariants.{OutOfMemory};
ghost use Rattle.rasn_per.specs.Calls.{Decoded, DecodedZeroPadded};
ghost use Rattle.per_versions.specs.Answers.{Answers, AreKnown};
ghost use Rattle.per_versions.specs.Readings.{IsProjection, IsWidening};

use rasn_codec::codec::Decode;

/// What `decode_zero_padded` answers, `decode` answers to the same octets; it refuses for want of memory alone. What
/// `decode` refuses for another reason, `decode_zero_padded` refuses. Where no additions are present that the type
/// doesn't know, the same is so for both.
pub fn what_is_decoded_zero_padded_is_decoded<T: Decode>()
    ensures answers { let type = T.schema T.CONSTRAINTS in
        (codec : Codec) (octets : List ℕ) (x : T) (answer : Result T DecodeError)
        → DecodedZeroPadded codec type T.value octets (Ok x) → Decoded codec type T.value octets answer
        → Answers T.value (λ (w : Value). w ≡ T.value x) answer }
    ensures refuses { let type = T.schema T.CONSTRAINTS in
        (codec : Codec) (octets : List ℕ) (x : T) (e : DecodeError) → e.kind ≢ OutOfMemory
        → Decoded {T = T} codec type T.value octets (Err e) → DecodedZeroPadded codec type T.value octets (Ok x) → ⊥ }
    ensures known { let type = T.schema T.CONSTRAINTS in (codec : Codec) (octets : List ℕ) (x : T)
        → AreKnown true codec type (T.value x) octets → AreKnown false codec type (T.value x) octets }
{}

/// Of any octets that a newer type's `decode_zero_padded` answers with a value, an older type's `decode` answers the
/// projection of that value. It refuses, memory aside, exactly where there is none (X.680, 52).
pub fn older_reader_projects_what_the_newer_reads_zero_padded<New: Decode, Old: Decode>()
    ensures { let newer = New.schema New.CONSTRAINTS in let older = Old.schema Old.CONSTRAINTS in NewerType newer older
        → (codec : Codec) (octets : List ℕ) (x : New) (answer : Result Old DecodeError)
        → DecodedZeroPadded codec newer New.value octets (Ok x) → Decoded codec older Old.value octets answer
        → Answers Old.value (IsProjection newer older (New.value x)) answer }
{}

/// Of any octets that an older type's `decode_zero_padded` answers with a value, no additions being present that it
/// doesn't know, a newer type's `decode` answers the widening of that value. It refuses, memory aside, exactly where
/// there is none (X.680, 52).
pub fn newer_reader_widens_what_the_older_reads_zero_padded<New: Decode, Old: Decode>()
    ensures { let newer = New.schema New.CONSTRAINTS in let older = Old.schema Old.CONSTRAINTS in NewerType newer older
        → (codec : Codec) (octets : List ℕ) (x : Old) (answer : Result New DecodeError)
        → AreKnown true codec older (Old.value x) octets → Decoded codec newer New.value octets answer
        → Answers New.value (IsWidening newer older (Old.value x)) answer }
{}
