//! What `encode` and `decode` of one type answer to one another.

ghost use Rattle.std.specs.Prelude.{◌≡◌, ◌≢◌, ◌↔◌, ◌<◌, ℕ, Bool, List, Vec, length, Result, Ok, IfErr};
ghost use Rattle.std.specs.Global.{Global};
ghost use Rattle.rasn_types.specs.Bits.{AreOctets};
ghost use Rattle.rasn_types.specs.Variants.{variant_of};
ghost use Rattle.rasn_types.specs.Values.{Value};
ghost use Rattle.rasn_types.specs.declared.types.Codec.{Codec};
ghost use Rattle.rasn_schema.specs.Lawful.{IsLawfulType};
ghost use Rattle.per_core.specs.declared.decode_error.DecodeError.{DecodeError};
ghost use Rattle.per_core.specs.declared.encode_error.EncodeError.{EncodeError};
ghost use Rattle.per_core.specs.declared.encode_error.EncodeErrorKind.TheVariants.{IntegerTypeConversionFailed};
ghost use Rattle.per_core.specs.declared.encode_error.EncodeErrorKind.TheVariants.{OutOfMemory};
ghost use Rattle.per_versions.specs.NumbersKept.{KeepsToI128};
ghost use Rattle.rasn_per.specs.Calls.{DecodedBy, Encoded, AreBytes, HasNoBytes};
ghost use Rattle.per_versions.specs.Answers.{Answers};
ghost use Rattle.per_versions.specs.Readings.{AreCanonical, IsReadBack, normal_form};

use rasn_codec::codec::{Decode, Encode};

/// Two values of one type have equal octets exactly where their normal forms are equal (X.691, 19.9, 22).
pub fn equal_octets_mean_equal_normal_forms<T: Encode>()
    ensures { let type = T.schema T.CONSTRAINTS in (codec : Codec) (x y : T) (octets others : List ℕ)
        → AreBytes (variant_of codec) type (T.levels x) (T.value x) octets
        → AreBytes (variant_of codec) type (T.levels y) (T.value y) others
        → (octets ≡ others) ↔ (normal_form type (T.value x) ≡ normal_form type (T.value y)) }
{}

/// What `encode` answers is octets, and at least one (X.691, 11.1).
pub fn encoding_is_octets_and_at_least_one<T: Encode>()
    ensures { (codec : Codec) (x : T) (octets : List ℕ)
        → AreBytes (variant_of codec) (T.schema T.CONSTRAINTS) (T.levels x) (T.value x) octets
        → (0 < length octets) × AreOctets octets }
{}

/// Of the octets that `encode` answers, `decode` answers the value's normal form. It refuses, memory aside, exactly
/// where something that is written lies deeper than 128 levels.
pub fn reader_answers_the_normal_form<T: Encode + Decode>()
    ensures { let type = T.schema T.CONSTRAINTS in
        (strict : Bool) (codec : Codec) (x : T) (octets : List ℕ) (answer : Result T DecodeError)
        → AreBytes (variant_of codec) type (T.levels x) (T.value x) octets
        → DecodedBy strict codec type T.value octets answer → Answers T.value (IsReadBack type (T.value x)) answer }
{}

/// What `decode` answers to the octets that `encode` answered is encoded as these octets again, and refused for want of
/// memory alone.
pub fn what_was_decoded_is_encoded_the_same<T: Encode + Decode>()
    ensures same { let type = T.schema T.CONSTRAINTS in
        (strict : Bool) (codec : Codec) (x y : T) (octets others : List ℕ)
        → AreBytes (variant_of codec) type (T.levels x) (T.value x) octets
        → DecodedBy strict codec type T.value octets (Ok y)
        → AreBytes (variant_of codec) type (T.levels y) (T.value y) others → others ≡ octets }
    ensures encoded { let type = T.schema T.CONSTRAINTS in (strict : Bool) (codec : Codec) (x y : T) (octets : List ℕ)
        → AreBytes (variant_of codec) type (T.levels x) (T.value x) octets
        → DecodedBy strict codec type T.value octets (Ok y)
        → HasNoBytes (variant_of codec) type (T.levels y) (T.value y) → ⊥ }
{}

/// What a lawful type's `decode` answers to any octets, canonical or not, it answers in normal form to the octets as
/// which `encode` writes that, in the same variant or in the other, and refuses these for want of memory alone.
pub fn what_was_decoded_is_decoded_again<T: Encode + Decode>()
    ensures { let type = T.schema T.CONSTRAINTS in IsLawfulType type
        → (strict again : Bool) (codec other : Codec) (x : T) (octets others : List ℕ) (answer : Result T DecodeError)
        → DecodedBy strict codec type T.value octets (Ok x)
        → AreBytes (variant_of other) type (T.levels x) (T.value x) others
        → DecodedBy again other type T.value others answer
        → Answers T.value (λ (w : Value). w ≡ normal_form type (T.value x)) answer }
{}

/// What `decode` answered to any octets, canonical or not, is encoded as the canonical octets of its normal form,
/// unless
/// it is refused (`what_was_decoded_is_encoded`). What `decode` then answers to those is encoded as the same octets
/// again: so whoever decodes and encodes makes octets canonical, in the same variant or in the other, and does so once
/// for all (X.691, 11.1).
pub fn what_was_decoded_is_encoded_canonically<T: Encode + Decode>()
    ensures canonical { let type = T.schema T.CONSTRAINTS in
        (strict : Bool) (codec other : Codec) (x : T) (octets others : List ℕ)
        → DecodedBy strict codec type T.value octets (Ok x)
        → AreBytes (variant_of other) type (T.levels x) (T.value x) others
        → AreCanonical (variant_of other) type (normal_form type (T.value x)) others }
    ensures settled { let type = T.schema T.CONSTRAINTS in
        (strict again : Bool) (codec other : Codec) (x y : T) (octets others last : List ℕ)
        → DecodedBy strict codec type T.value octets (Ok x)
        → AreBytes (variant_of other) type (T.levels x) (T.value x) others
        → DecodedBy again other type T.value others (Ok y)
        → AreBytes (variant_of other) type (T.levels y) (T.value y) last → last ≡ others }
{}

/// What a lawful type's `decode` answered to any octets, canonical or not, `encode` writes, in the same variant or in
/// the other: it refuses that for want of memory, or for a number past an `i128` that came after an extension bit and
/// is within the bounds. A type that keeps to the numbers of an `i128` has none (X.691, 13).
pub fn what_was_decoded_is_encoded<T: Encode + Decode>()
    ensures one_fault { let type = T.schema T.CONSTRAINTS in IsLawfulType type
        → (strict : Bool) (codec other : Codec) (x : T) (octets : List ℕ)
        (answer : Result (Vec ℕ Global) EncodeError) → DecodedBy strict codec type T.value octets (Ok x)
        → Encoded other type (T.levels x) (T.value x) answer
        → IfErr answer (λ e. e.kind ≢ OutOfMemory → e.kind ≡ IntegerTypeConversionFailed) }
    ensures none { let type = T.schema T.CONSTRAINTS in IsLawfulType type → KeepsToI128 type
        → (strict : Bool) (codec other : Codec) (x : T) (octets : List ℕ)
        (answer : Result (Vec ℕ Global) EncodeError) → DecodedBy strict codec type T.value octets (Ok x)
        → Encoded other type (T.levels x) (T.value x) answer → IfErr answer (λ e. e.kind ≡ OutOfMemory) }
{}
