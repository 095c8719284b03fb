//! What the calls of a Rust type and those of a type of a table answer to one another, where both have one schema. Each
//! law is the contract of a function that does nothing.

ghost use Rattle.std.specs.Prelude.{◌≡◌, ◌↔◌, ℕ, Bool, List, Result, Ok};
ghost use Rattle.std.specs.Borrow.{Bor};
ghost use Rattle.rasn_types.specs.Variants.{variant_of};
ghost use Rattle.rasn_types.specs.Values.{Value as Content};
ghost use Rattle.rasn_types.specs.declared.types.Codec.{Codec};
ghost use Rattle.rasn_dynamic.specs.Types.{schema_at};
ghost use Rattle.rasn_dynamic.specs.Values.{levels_of, value_of};
ghost use Rattle.rasn_dynamic.specs.declared.values.Value.{Value};
ghost use Rattle.per_core.specs.declared.decode_error.DecodeError.{DecodeError};
ghost use Rattle.rasn_per.specs.Calls.{DecodedBy, DecodedFront, AreBytes, HasNoBytes};
ghost use Rattle.per_versions.specs.Answers.{Answers, AnswersFront};
ghost use Rattle.per_versions.specs.Readings.{normal_form};
ghost use Rattle.per_dynamic.specs.Alike.{AreAlike};

use rasn_codec::codec::{Decode, Encode};
use rasn_dynamic::types::Types;

/// A value of a Rust type and one of a type of a table that is alike have equal octets exactly where their normal forms
/// are equal, and then the one has octets where the other has (X.691, 11.1).
pub fn type_and_table_encode_alike<T: Encode>(types: &Types, place: usize)
    ensures equal { let type = T.schema T.CONSTRAINTS in let at = schema_at types.now.kinds.items place in
        AreAlike type at → (codec : Codec) (x : T) (y : Value) (octets others : List ℕ)
        → AreBytes (variant_of codec) type (T.levels x) (T.value x) octets
        → AreBytes (variant_of codec) at (levels_of y) (value_of y) others
        → (octets ≡ others) ↔ (normal_form type (T.value x) ≡ normal_form at (value_of y)) }
    ensures encoded { let type = T.schema T.CONSTRAINTS in let at = schema_at types.now.kinds.items place in
        AreAlike type at → (codec : Codec) (x : T) (y : Value) (octets : List ℕ)
        → normal_form type (T.value x) ≡ normal_form at (value_of y)
        → AreBytes (variant_of codec) type (T.levels x) (T.value x) octets
        → HasNoBytes (variant_of codec) at (levels_of y) (value_of y) → ⊥ }
    ensures refused { let type = T.schema T.CONSTRAINTS in let at = schema_at types.now.kinds.items place in
        AreAlike type at → (codec : Codec) (x : T) (y : Value) (octets : List ℕ)
        → normal_form type (T.value x) ≡ normal_form at (value_of y)
        → HasNoBytes (variant_of codec) type (T.levels x) (T.value x)
        → AreBytes (variant_of codec) at (levels_of y) (value_of y) octets → ⊥ }
{
    let _ = types;
}

/// What `decode` by a Rust type answers to octets, `decode` by a type of a table that is alike answers too, and the
/// other way round; it refuses for want of memory alone.
pub fn type_and_table_decode_alike<T: Decode>(types: &Types, place: usize)
    ensures by_table { let type = T.schema T.CONSTRAINTS in let at = schema_at types.now.kinds.items place in
        AreAlike type at
        → (strict : Bool) (codec : Codec) (octets : List ℕ) (x : T) (answer : Result Value DecodeError)
        → DecodedBy strict codec type T.value octets (Ok x) → DecodedBy strict codec at value_of octets answer
        → Answers value_of (λ (w : Content). w ≡ T.value x) answer }
    ensures by_type { let type = T.schema T.CONSTRAINTS in let at = schema_at types.now.kinds.items place in
        AreAlike type at
        → (strict : Bool) (codec : Codec) (octets : List ℕ) (y : Value) (answer : Result T DecodeError)
        → DecodedBy strict codec at value_of octets (Ok y) → DecodedBy strict codec type T.value octets answer
        → Answers T.value (λ (w : Content). w ≡ value_of y) answer }
{
    let _ = types;
}

/// What `decode_with_remainder` by a Rust type answers to octets, that by a type of a table that is alike answers too,
/// and the other way round, with the same octets behind; it refuses for want of memory alone.
pub fn type_and_table_decode_fronts_alike<T: Decode>(types: &Types, place: usize)
    ensures by_table { let type = T.schema T.CONSTRAINTS in let at = schema_at types.now.kinds.items place in
        AreAlike type at → (codec : Codec) (octets : List ℕ) (x : T × Bor (List ℕ))
        → (answer : Result (Value × Bor (List ℕ)) DecodeError)
        → DecodedFront codec type T.value octets (Ok x) → DecodedFront codec at value_of octets answer
        → AnswersFront value_of (λ (w : Content). w ≡ T.value x.0) x.1.now answer }
    ensures by_type { let type = T.schema T.CONSTRAINTS in let at = schema_at types.now.kinds.items place in
        AreAlike type at → (codec : Codec) (octets : List ℕ) (y : Value × Bor (List ℕ))
        → (answer : Result (T × Bor (List ℕ)) DecodeError)
        → DecodedFront codec at value_of octets (Ok y) → DecodedFront codec type T.value octets answer
        → AnswersFront T.value (λ (w : Content). w ≡ value_of y.0) y.1.now answer }
{
    let _ = types;
}
