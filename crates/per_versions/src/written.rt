//! The law that what is read can be written: each value that is read has a canonical encoding. Each law is the contract
//! of a function that does nothing.

ghost use Rattle.std.specs.Prelude.{◌≡◌, List, Some, ℕ, true, false};
ghost use Rattle.rasn_types.specs.Bits.{Bits};
ghost use Rattle.rasn_types.specs.Values.{Value};
ghost use Rattle.rasn_types.specs.Variants.{Variant};
ghost use Rattle.rasn_schema.specs.Depth.{meets_cut};
ghost use Rattle.rasn_schema.specs.Lawful.{IsLawful};
ghost use Rattle.rasn_schema.specs.Normal.{normal};
ghost use Rattle.rasn_schema.specs.Schemas.{Schema};
ghost use Rattle.per_core.specs.Basic.{fills};
ghost use Rattle.per_core.specs.Canon.{bytes, canon};
ghost use Rattle.per_core.specs.Spellings.{Settings};
ghost use Rattle.per_versions.specs.CountableOpens.{AreCountable};
ghost use Rattle.per_versions.specs.Writable.{is_writable};

/// What a lawful schema reads, in a tree that holds it, has canonical bits in normal form from each position, and
/// canonical bytes, in the variant in which it was read and in the other. Excepted are a number that came after an
/// extension bit and can't be written within its bounds, records of more additions than `usize::MAX`, and an open type
/// whose canonical contents would have more octets than that (X.691, 11.2, 13, 19).
pub fn what_was_read_is_written()
    ensures bits { (a : Settings) (b : Variant) (s : Schema) (v : Value) (octets : List ℕ)
        → IsLawful s → is_writable s ≡ true → meets_cut s v ≡ false → fills a s v octets
        → AreCountable b s (normal s v) → (p : ℕ) → (bits : Bits) × (canon b s (normal s v) p ≡ Some bits) }
    ensures octets { (a : Settings) (b : Variant) (s : Schema) (v : Value) (octets : List ℕ) → IsLawful s
        → is_writable s ≡ true → meets_cut s v ≡ false → fills a s v octets → AreCountable b s (normal s v)
        → (others : List ℕ) × (bytes b s (normal s v) ≡ Some others) }
{}
