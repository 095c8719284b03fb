//! What `decode` by an older and by a newer table answers to the same octets (X.680, 52), in both variants, where a
//! type of the one is a newer version of a type of the other, as `lawful_types` finds out at run time. Each law is
//! the contract of a function that does nothing.
//!
//! `strict` says how padding is taken: the laws are of `decode` where it is false and of `decode_zero_padded` where it
//! is true (`DecodedBy`). They say of types that are data what `per_versions` says of Rust types.

ghost use Rattle.std.specs.Prelude.{◌≡◌, ◌↔◌, ℕ, Bool, List, Result, Ok, Some, false};
ghost use Rattle.rasn_types.specs.Variants.{variant_of};
ghost use Rattle.rasn_types.specs.Values.{Value as Content};
ghost use Rattle.rasn_types.specs.declared.types.Codec.{Codec};
ghost use Rattle.rasn_schema.specs.Depth.{meets_cut};
ghost use Rattle.per_core.specs.Versions.{NewerType, project, widen};
ghost use Rattle.rasn_dynamic.specs.Types.{schema_at};
ghost use Rattle.rasn_dynamic.specs.Values.{levels_of, value_of};
ghost use Rattle.rasn_dynamic.specs.declared.values.Value.{Value};
ghost use Rattle.per_core.specs.declared.decode_error.DecodeError.{DecodeError};
ghost use Rattle.rasn_per.specs.Calls.{DecodedBy, AreBytes};
ghost use Rattle.per_versions.specs.Answers.{Answers, AreKnown};
ghost use Rattle.per_versions.specs.Readings.{IsProjection, IsReadByNewer, IsReadByOlder, IsWidening};

use rasn_dynamic::types::Types;

/// Of the octets that `encode` by a newer table answers, `decode` by an older one answers the projection of the value's
/// normal form. It refuses, memory aside, exactly where there is none, or where something that is written lies deeper
/// than 128 levels, outside the additions that the older type doesn't know (X.680, 52; X.691, 19.9).
pub fn older_table_answers_the_projection(
    newer: &Types,
    place: usize,
    older: &Types,
    old_place: usize,
)
    ensures { let new = schema_at newer.now.kinds.items place in let old = schema_at older.now.kinds.items old_place in
        NewerType new old
        → (strict : Bool) (codec : Codec) (x : Value) (octets : List ℕ) (answer : Result Value DecodeError)
        → AreBytes (variant_of codec) new (levels_of x) (value_of x) octets
        → DecodedBy strict codec old value_of octets answer
        → Answers value_of (IsReadByOlder new old (value_of x)) answer }
{
    let _ = newer;
    let _ = older;
}

/// Of the octets that `encode` by an older table answers, `decode` by a newer one answers the widening of the value's
/// normal form. It refuses, memory aside, exactly where there is none, or where something that is written lies deeper
/// than 128 levels (X.680, 52; X.691, 19.5, 19.8).
pub fn newer_table_answers_the_widening(
    newer: &Types,
    place: usize,
    older: &Types,
    old_place: usize,
)
    ensures { let new = schema_at newer.now.kinds.items place in let old = schema_at older.now.kinds.items old_place in
        NewerType new old
        → (strict : Bool) (codec : Codec) (x : Value) (octets : List ℕ) (answer : Result Value DecodeError)
        → AreBytes (variant_of codec) old (levels_of x) (value_of x) octets
        → DecodedBy strict codec new value_of octets answer
        → Answers value_of (IsReadByNewer new old (value_of x)) answer }
{
    let _ = newer;
    let _ = older;
}

/// Of any octets, canonical or not, that `decode` by a newer table answers with a value, `decode` by an older one
/// answers the projection of that value. It refuses, memory aside, exactly where there is none.
pub fn older_table_projects_what_the_newer_reads(
    newer: &Types,
    place: usize,
    older: &Types,
    old_place: usize,
)
    ensures { let new = schema_at newer.now.kinds.items place in let old = schema_at older.now.kinds.items old_place in
        NewerType new old
        → (strict : Bool) (codec : Codec) (octets : List ℕ) (x : Value) (answer : Result Value DecodeError)
        → DecodedBy strict codec new value_of octets (Ok x) → DecodedBy strict codec old value_of octets answer
        → Answers value_of (IsProjection new old (value_of x)) answer }
{
    let _ = newer;
    let _ = older;
}

/// Of any octets, canonical or not, that `decode` by an older table answers with a value, no additions being present
/// that it doesn't know, `decode` by a newer one answers the widening of that value. It refuses, memory aside, exactly
/// where there is none. Nor are there additions then that the newer type doesn't know, and the older value is the
/// projection of the newer one.
pub fn newer_table_widens_what_the_older_reads(
    newer: &Types,
    place: usize,
    older: &Types,
    old_place: usize,
)
    ensures answers { let new = schema_at newer.now.kinds.items place in
        let old = schema_at older.now.kinds.items old_place in
        NewerType new old
        → (strict : Bool) (codec : Codec) (octets : List ℕ) (x : Value) (answer : Result Value DecodeError)
        → AreKnown strict codec old (value_of x) octets → DecodedBy strict codec new value_of octets answer
        → Answers value_of (IsWidening new old (value_of x)) answer }
    ensures known { let new = schema_at newer.now.kinds.items place in
        let old = schema_at older.now.kinds.items old_place in
        NewerType new old → (strict : Bool) (codec : Codec) (octets : List ℕ) (x y : Value)
        → AreKnown strict codec old (value_of x) octets → IsWidening new old (value_of x) (value_of y)
        → AreKnown strict codec new (value_of y) octets }
    ensures projects_back { let new = schema_at newer.now.kinds.items place in
        let old = schema_at older.now.kinds.items old_place in
        NewerType new old → (strict : Bool) (codec : Codec) (octets : List ℕ) (x y : Value)
        → AreKnown strict codec old (value_of x) octets → DecodedBy strict codec new value_of octets (Ok y)
        → IsProjection new old (value_of y) (value_of x) }
{
    let _ = newer;
    let _ = older;
}

/// In the octets that `encode` answers no additions are present that the type doesn't know, where they are read within
/// 128 levels (X.691, 19.9).
pub fn encoded_octets_are_known(types: &Types, place: usize)
    ensures { let type = schema_at types.now.kinds.items place in
        (strict : Bool) (codec : Codec) (x y : Value) (octets : List ℕ)
        → AreBytes (variant_of codec) type (levels_of x) (value_of x) octets
        → DecodedBy strict codec type value_of octets (Ok y)
        → AreKnown strict codec type (value_of y) octets }
{
    let _ = types;
}

/// The projection and the widening are the same along all trees that hold the newer value.
pub fn version_of_a_value_is_one_at_all_depths(
    newer: &Types,
    place: usize,
    older: &Types,
    old_place: usize,
)
    ensures { let new = schema_at newer.now.kinds.items place in let old = schema_at older.now.kinds.items old_place in
        NewerType new old → (v w : Content) (n : ℕ) → meets_cut (new n) v ≡ false →
        (IsProjection new old v w ↔ (project (new n) (old n) v ≡ Some w))
        × (IsWidening new old w v ↔ (widen (new n) (old n) w ≡ Some v)) }
{
    let _ = newer;
    let _ = older;
}
