//! The laws of canonical and basic encodings. Each is the contract of a function that does nothing.

ghost use Rattle.std.specs.Prelude.{◌≡◌, ◌↔◌, ◌++◌, ◌+◌, ◌<◌, length, ℕ, Bool, true, false, List, Some};
ghost use Rattle.rasn_types.specs.Bits.{Bits, AreOctets};
ghost use Rattle.rasn_types.specs.Values.{Value};
ghost use Rattle.rasn_types.specs.Variants.{Variant};
ghost use Rattle.rasn_constraints.specs.Bounds.{Size};
ghost use Rattle.rasn_schema.specs.Normal.{normal};
ghost use Rattle.rasn_schema.specs.Schemas.{Schema};
ghost use Rattle.per_core.specs.Basic.{basic, basic_in, fills, front};
ghost use Rattle.per_core.specs.Canon.{canon, bytes};
ghost use Rattle.per_core.specs.Spellings.{Settings};

/// Octets are a complete encoding of at most one value (X.691, 11.1).
pub fn decoding_is_unambiguous()
    ensures { (a : Settings) (s : Schema) (v w : Value) (octets : List ℕ) →
        fills a s v octets → fills a s w octets → v ≡ w }
{}

/// Octets begin with a complete encoding of at most one value, and it leaves one remainder (X.691, 11.1).
pub fn decoding_with_remainder_is_unambiguous()
    ensures { (a : Settings) (s : Schema) (v w : Value) (octets rest after : List ℕ) →
        front a s v octets rest → front a s w octets after → (v ≡ w) × (rest ≡ after) }
{}

/// From one position a basic encoding is of one value, and none is a proper beginning of another.
pub fn basic_encodings_are_prefix_free()
    ensures { (a : Settings) (s : Schema) (v w : Value) (p : ℕ) (b c t r : Bits) →
        basic a s v p b → basic a s w p c → b ++ t ≡ c ++ r → (v ≡ w) × (b ≡ c) }
{}

/// A canonical encoding is a basic encoding of the same value, from every position, whether padding must be zero or
/// not.
pub fn canonical_encoding_is_basic()
    ensures { (a : Settings) (s : Schema) (v : Value) (p : ℕ) (b : Bits) →
        canon a.variant s v p ≡ Some b → basic a s v p b }
{}

/// The canonical bytes of a value are read as that value (X.691, 11.1).
pub fn canonical_bytes_are_decoded()
    ensures { (a : Settings) (s : Schema) (v : Value) (octets : List ℕ) →
        bytes a.variant s v ≡ Some octets → fills a s v octets }
{}

/// The canonical bytes of a value, with any octets after them, are read as that value and those octets, and as
/// nothing else.
pub fn canonical_bytes_are_decoded_with_remainder()
    ensures { (a : Settings) (s : Schema) (v : Value) (octets rest : List ℕ) →
        bytes a.variant s v ≡ Some octets →
        front a s v (octets ++ rest) rest
        × ((w : Value) (after : List ℕ) → front a s w (octets ++ rest) after → (v ≡ w) × (rest ≡ after)) }
{}

/// A complete encoding is whole octets, at least one (X.691, 11.1).
pub fn complete_encoding_is_octets()
    ensures { (a : Settings) (s : Schema) (v : Value) (octets : List ℕ) →
        bytes a.variant s v ≡ Some octets → (0 < length octets) × AreOctets octets }
{}

/// Values in normal form with equal bytes are equal; so elements of a SET OF that differ never tie (X.691, 22).
pub fn equal_bytes_mean_equal_values()
    ensures { (a : Variant) (s : Schema) (v w : Value) (octets : List ℕ) →
        bytes a s v ≡ Some octets → bytes a s w ≡ Some octets → v ≡ w }
{}

/// Two values of one type that can be encoded have equal bytes exactly where their normal forms are equal.
pub fn equal_bytes_exactly_where_normal_forms_are_equal()
    ensures { (a : Variant) (s : Schema) (v w : Value) (b c : List ℕ) →
        bytes a s (normal s v) ≡ Some b → bytes a s (normal s w) ≡ Some c →
        (b ≡ c) ↔ (normal s v ≡ normal s w) }
{}

/// Bits that have names are written and read as they stand, as those without names are (X.691, 16).
pub fn named_bits_are_bits()
    ensures written { (a : Variant) (size : Size) (mark : Bool) (v : Value) →
        canon a (Schema.bit_string size mark true) v ≡ canon a (Schema.bit_string size mark false) v }
    ensures read { (a : Settings) (u : Bool) (size : Size) (mark : Bool) (v : Value) (p : ℕ) (b : Bits) →
        basic_in a u (Schema.bit_string size mark true) v p b
        ↔ basic_in a u (Schema.bit_string size mark false) v p b }
{}

/// What is written depends on its position modulo 8 alone: so the bits for eight positions are the bits for all
/// (X.691, 11.1).
pub fn encoding_depends_on_position_modulo_eight()
    ensures { (a : Variant) (s : Schema) (v : Value) (p : ℕ) →
        canon a s v (p + 8) ≡ canon a s v p }
{}
