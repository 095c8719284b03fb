//! The laws of bits that have names, beside those that have none (X.680, 22; X.691, 16).

ghost use Rattle.std.specs.Prelude.{◌≡◌, ◌↔◌, ◌++◌, ℕ, Bool, true, false, List, Some};
ghost use Rattle.rasn_types.specs.Bits.{Bits};
ghost use Rattle.rasn_types.specs.Values.{Value, bits};
ghost use Rattle.rasn_types.specs.Variants.{Variant};
ghost use Rattle.rasn_constraints.specs.Bounds.{Size};
ghost use Rattle.rasn_schema.specs.Depth.{Unfolds, meets_cut};
ghost use Rattle.rasn_schema.specs.Normal.{normal};
ghost use Rattle.rasn_schema.specs.Schemas.{Schema};
ghost use Rattle.per_core.specs.Basic.{fills, fills_known, front, read};
ghost use Rattle.per_core.specs.Canon.{bytes};
ghost use Rattle.per_core.specs.Spellings.{Settings};
ghost use Rattle.per_core.specs.Versions.{Newer, project, widen};
ghost use Rattle.per_laws.specs.NamedBits.{MeanTheSame, NewerButForNames, NewerTypeButForNames, without_names};

/// Bits that have names have the same canonical bytes exactly where they are the same but for zero bits at their ends
/// (X.691, 16.2).
pub fn named_bits_are_written_alike_exactly_where_they_mean_the_same()
    ensures { (a : Variant) (size : Size) (mark : Bool) (bs cs : Bits) (b c : List ℕ) →
        let named = Schema.bit_string size mark true in bytes a named (normal named (bits bs)) ≡ Some b
        → bytes a named (normal named (bits cs)) ≡ Some c → (b ≡ c) ↔ MeanTheSame bs cs }
{}

/// At any depth, the canonical bytes of a value in normal form are those of the type whose bits have no names, and it
/// is in normal form there too.
pub fn canonical_bytes_are_those_without_names()
    ensures written { (a : Variant) (s : Schema) (v : Value) → bytes a s v ≡ bytes a (without_names s) v }
    ensures normal { (s : Schema) (v : Value) → normal (without_names s) (normal s v) ≡ normal s v }
{}

/// At any depth, what is read of a type is what is read of the type whose bits have no names, zero bits at their end
/// with them.
pub fn names_change_nothing_that_is_read()
    ensures whole { (a : Settings) (s : Schema) (v : Value) (octets : List ℕ) →
        fills a s v octets ↔ fills a (without_names s) v octets }
    ensures in_front { (a : Settings) (s : Schema) (v : Value) (octets rest : List ℕ) →
        front a s v octets rest ↔ front a (without_names s) v octets rest }
    ensures known { (a : Settings) (s : Schema) (v : Value) (octets : List ℕ) →
        fills_known a s v octets ↔ fills_known a (without_names s) v octets }
{}

/// A newer version is one whichever bits have names.
pub fn newer_version_is_one_but_for_names()
    ensures { (newer older : Schema) → Newer newer older → NewerButForNames newer older }
{}

/// Where bits have names in one of two versions alone, an older one reads the projection of what the newer one reads,
/// and nothing else, as it does where the same bits have names.
pub fn older_version_reads_the_projection_whichever_bits_have_names()
    ensures { (a : Settings) (newer older : Schema) → NewerButForNames newer older →
        (v w : Value) (octets rest after : List ℕ) →
        fills a newer v octets → meets_cut newer v ≡ false →
        (front a older w (octets ++ rest) after → (project newer older v ≡ Some w) × (after ≡ rest))
        × (project newer older v ≡ Some w → fills a older w octets) }
{}

/// Where bits have names in one of two versions alone, a newer one reads the widening of what the older one reads
/// without unknown additions, and nothing else, as it does where the same bits have names.
pub fn newer_version_reads_the_widening_whichever_bits_have_names()
    ensures { (a : Settings) (newer older : Schema) → NewerButForNames newer older →
        (w v : Value) (octets rest after : List ℕ) →
        fills_known a older w octets → meets_cut newer v ≡ false →
        (front a newer v (octets ++ rest) after → (widen newer older w ≡ Some v) × (after ≡ rest))
        × (widen newer older w ≡ Some v → fills_known a newer v octets) }
{}

/// The same of types of any depth, and of what an older type's reader reads within 128 levels.
pub fn older_reader_reads_the_projection_whichever_bits_have_names()
    ensures { (a : Settings) (newer older : ℕ → Schema) →
        Unfolds newer → Unfolds older → NewerTypeButForNames newer older →
        (v w : Value) (octets rest after : List ℕ) (n : ℕ) → meets_cut (newer n) v ≡ false → read a newer v octets →
        (read a older w octets ↔ (project (newer n) (older n) v ≡ Some w))
        × (front a (older 128) w (octets ++ rest) after
        ↔ ((project (newer n) (older n) v ≡ Some w) × (after ≡ rest))) }
{}

/// The same of types of any depth, and of what a newer type's reader reads within 128 levels.
pub fn newer_reader_reads_the_widening_whichever_bits_have_names()
    ensures { (a : Settings) (newer older : ℕ → Schema) →
        Unfolds newer → Unfolds older → NewerTypeButForNames newer older →
        (w v : Value) (octets rest after : List ℕ) (n : ℕ) → meets_cut (newer n) v ≡ false →
        fills_known a (older 128) w octets →
        (read a newer v octets ↔ (widen (newer n) (older n) w ≡ Some v))
        × (front a (newer 128) v (octets ++ rest) after
        ↔ ((widen (newer n) (older n) w ≡ Some v) × (after ≡ rest))) }
{}
