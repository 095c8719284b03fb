//! The items of a value and the bits of its encodings (X.691, 11.9).

ghost use Rattle.std.specs.Prelude.{◌≡◌, ◌<◌, ◌≤◌, ◌+◌, ◌*◌, ◌^◌, ℕ, Bool, true, List, [], length};
ghost use Rattle.rasn_types.specs.Bits.{Bits};
ghost use Rattle.rasn_types.specs.Identifiers.{are_arcs, contents};
ghost use Rattle.rasn_types.specs.Values.{Value, octets};
ghost use Rattle.rasn_types.specs.Variants.{unaligned};
ghost use Rattle.rasn_schema.specs.Schemas.{Schema};
ghost use Rattle.per_core.specs.Basic.{basic};
ghost use Rattle.per_core.specs.Spellings.{Settings};
ghost use Rattle.per_core.specs.ItemCounts.{item_count, most_items, HasAtMost};
ghost use Rattle.per_core.specs.Nulls.{any_nulls, nulls, sized_nulls};

/// A value has at most 65535 items, and 8192 for each bit of a basic encoding of it; and so has each value within it,
/// but for a default that stands for an absent part (X.691, 19.5).
pub fn items_are_few_for_their_bits()
    ensures own { (a : Settings) (s : Schema) (v : Value) (p : ℕ) (bits : Bits) →
        basic a s v p bits → item_count v ≤ most_items (length bits) }
    ensures within { (a : Settings) (s : Schema) (v : Value) (p : ℕ) (bits : Bits) →
        basic a s v p bits → HasAtMost (most_items (length bits)) s v }
{}

/// Neither number can be less: n NULLs under the size n, below 65536, take no bits; and 65536 times k NULLs under no
/// size take 8 bits for each of k fragments, and 8 more (X.691, 11.9.3.3, 11.9.3.8).
pub fn so_many_nulls_take_so_few_bits()
    ensures count { (n : ℕ) → item_count (nulls n) ≡ n }
    ensures sized { (a : Settings) (p n : ℕ) → n < 65536 → basic a (sized_nulls n) (nulls n) p [] }
    ensures in_fragments { (strict : Bool) (p k n : ℕ) → n ≡ 65536 * k → n < 2 ^ 64 → (bits : Bits)
        × (length bits ≡ 8 * k + 8)
        × basic (record { variant = unaligned; strict = strict }) any_nulls (nulls n) p bits }
{}

/// An OBJECT IDENTIFIER of n arcs has n - 1 contents octets or more (X.690, 8.19), which are its items. So the arcs are
/// few for its bits, too: at most 65535, and 8192 for each bit of a basic encoding (X.691, 11.9).
pub fn arcs_are_few_for_their_bits()
    ensures octets { (arcs : List ℕ) → are_arcs arcs ≡ true → length arcs ≤ item_count (octets (contents arcs)) + 1 }
    ensures bits { (a : Settings) (arcs : List ℕ) (p : ℕ) (bits : Bits) → are_arcs arcs ≡ true
        → basic a Schema.identifier (octets (contents arcs)) p bits → length arcs ≤ most_items (length bits) }
{}
