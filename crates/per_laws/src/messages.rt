//! The law of a whole message: what is read doesn't depend on the octets of additions that the reader doesn't know, at
//! any depth. Each law is the contract of a function that does nothing.

ghost use Rattle.std.specs.Prelude.{◌≡◌, ◌↔◌, ◌++◌, ℕ, Bool, true, List, length};
ghost use Rattle.rasn_types.specs.Bits.{Bits};
ghost use Rattle.rasn_types.specs.Values.{Value};
ghost use Rattle.rasn_schema.specs.Schemas.{Order, Parts, Schema};
ghost use Rattle.per_core.specs.Basic.{basic, fills, front};
ghost use Rattle.per_core.specs.Spellings.{Settings};
ghost use Rattle.per_core.specs.Writers.{after};
ghost use Rattle.per_laws.specs.Unknown.{BeforeUnknown, OpenTypes, count_set};
ghost use Rattle.per_laws.specs.Alike.{AreAlike, alike_in};

/// Octets in which any additions that the reader doesn't know, at any depth of what it knows, are replaced by others,
/// of as many octets or of any number, are read as the same value and as nothing else (X.691, 19.9).
pub fn whole_message_is_read_whatever_is_unknown()
    ensures { (a : Settings) (s : Schema) (v : Value) (octets others : List ℕ) → AreAlike a s octets others →
        fills a s v octets ↔ fills a s v others }
{}

/// Octets in front of others, in which any additions that the reader doesn't know are replaced by others, at any depth
/// of what it knows, are read as the same value, and the same octets are left after it (X.691, 19.9).
pub fn message_in_front_is_read_whatever_is_unknown()
    ensures { (a : Settings) (s : Schema) (v : Value) (octets others rest after : List ℕ) → AreAlike a s octets others →
        front a s v (octets ++ rest) after ↔ front a s v (others ++ rest) after }
{}

/// Whatever is read is alike itself.
pub fn what_is_read_is_alike_itself()
    ensures { (a : Settings) (s : Schema) (v : Value) (octets : List ℕ) → fills a s v octets
        → AreAlike a s octets octets }
{}

/// Two that are alike from one position on spell one value there, and end at the same position modulo 8, so that what
/// follows them may stay as it is.
pub fn alike_spell_one_value_and_end_alike()
    ensures { (a : Settings) (s : Schema) (v : Value) (p : ℕ) (bits others : Bits) → alike_in a s v p bits others
        → basic a s v p bits × basic a s v p others × (after p bits ≡ after p others) }
{}

/// Records that are the same up to their unknown additions are alike, whatever octets are in these, of none or of
/// any.
pub fn records_are_alike_whatever_is_unknown()
    ensures { (a : Settings) (o : Order) (ps adds : Parts) (more : List Bool) (octets others : List (List ℕ))
        (v : Value) (p : ℕ) (known unknown replaced : Bits) → BeforeUnknown a o ps adds more v p known
        → count_set more ≡ length octets → count_set more ≡ length others → OpenTypes a octets (after p known) unknown
        → OpenTypes a others (after p known) replaced
        → alike_in a (Schema.sequence o ps true adds) v p (known ++ unknown) (known ++ replaced) }
{}
