//! The laws of open types: their contents are the same octets wherever they stand.

ghost use Rattle.std.specs.Prelude.{◌≡◌, ◌↔◌, ℕ, List, Some, None};
ghost use Rattle.rasn_types.specs.Bits.{Bits};
ghost use Rattle.rasn_types.specs.Values.{Value};
ghost use Rattle.rasn_types.specs.Variants.{Variant};
ghost use Rattle.rasn_schema.specs.Schemas.{Schema};
ghost use Rattle.per_core.specs.Basic.{Octets, OpenOf, basic, fills};
ghost use Rattle.per_core.specs.Canon.{canon, bytes};
ghost use Rattle.per_core.specs.Counts.{open_bits, unconstrained_octets};
ghost use Rattle.per_core.specs.Spellings.{Settings};

/// Wherever they stand and however their count is written, octets are read as an open type of a value exactly where
/// they are a complete encoding of it (X.691, 11.2).
pub fn open_type_is_a_complete_encoding()
    ensures { (a : Settings) (s : Schema) (v : Value) (octets : List ℕ) (p : ℕ) (bits : Bits)
        → Octets a octets p bits → OpenOf a (basic a s) v p bits ↔ fills a s v octets }
{}

/// Wherever an open type is written, its octets are the canonical bytes of its value (X.691, 11.2).
pub fn open_type_is_written_as_canonical_bytes()
    ensures { (a : Settings) (s : Schema) (v : Value) (p : ℕ) (bits : Bits)
        → open_bits a.variant (canon a.variant s v 0) p ≡ Some bits
        → (octets : List ℕ) × (bytes a.variant s v ≡ Some octets) × Octets a octets p bits }
{}

/// Octets that contain a value are the canonical bytes of that value, after an unconstrained length; where it has none,
/// nothing is written (X.682, 11; X.691, 11.2).
pub fn contained_value_is_written_as_canonical_bytes()
    ensures written { (a : Variant) (s : Schema) (v : Value) (p : ℕ) (octets : List ℕ) → bytes a s v ≡ Some octets
        → canon a (Schema.containing s) v p ≡ unconstrained_octets a octets p }
    ensures refused { (a : Variant) (s : Schema) (v : Value) (p : ℕ) → bytes a s v ≡ None
        → canon a (Schema.containing s) v p ≡ None }
{}
