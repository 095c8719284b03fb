//! The laws of unknown additions: they change nothing else of a record and take no level.

ghost use Rattle.std.specs.Prelude.{◌≡◌, ◌↔◌, ◌<◌, ◌++◌, ℕ, Bool, true, List, ◌∷◌, length};
ghost use Rattle.rasn_types.specs.Bits.{Bits, unpack};
ghost use Rattle.rasn_types.specs.Values.{Value};
ghost use Rattle.rasn_schema.specs.Schemas.{Order, Parts, Schema};
ghost use Rattle.per_core.specs.Basic.{basic, fills};
ghost use Rattle.per_core.specs.Spellings.{Settings, ZeroIf};
ghost use Rattle.per_core.specs.Writers.{after};
ghost use Rattle.per_laws.specs.Unknown.{BeforeUnknown, OpenTypes, WithUnknown, count_set};

/// Whatever octets are in the unknown additions of a record, of none or of any, it is read as the same value and as
/// nothing else. The tree that reads what is known reads all, wherever it is cut off: so they take no level (X.691,
/// 19.9).
pub fn unknown_additions_change_nothing()
    ensures { (a : Settings) (o : Order) (ps adds : Parts) (more : List Bool) (octets : List (List ℕ)) (v w : Value)
        (p : ℕ) (known unknown : Bits) → BeforeUnknown a o ps adds more v p known → count_set more ≡ length octets
        → OpenTypes a octets (after p known) unknown →
        basic a (Schema.sequence o ps true adds) w p (known ++ unknown) ↔ (w ≡ v) }
{}

/// Every record that is read with extension bit 1 is of that form.
pub fn unknown_additions_stand_after_all_else()
    ensures { (a : Settings) (o : Order) (ps adds : Parts) (v : Value) (p : ℕ) (bits : Bits) →
        basic a (Schema.sequence o ps true adds) v p (true ∷ bits) → WithUnknown a o ps adds v p (true ∷ bits) }
{}

/// What follows them begins at the same position modulo 8, whatever octets are in them (X.691, 11.2).
pub fn open_types_of_any_octets_end_alike()
    ensures { (a : Settings) (octets others : List (List ℕ)) (p : ℕ) (bits other : Bits) → OpenTypes a octets p bits
        → OpenTypes a others p other → length octets ≡ length others → after p bits ≡ after p other }
{}

/// So a complete encoding is read as the same value whatever octets are in its unknown additions (X.691, 11.1, 19.9).
pub fn complete_encoding_is_read_whatever_is_unknown()
    ensures { (a : Settings) (o : Order) (ps adds : Parts) (more : List Bool) (contents : List (List ℕ)) (v w : Value)
        (known unknown spare : Bits) (octets : List ℕ) → BeforeUnknown a o ps adds more v 0 known
        → count_set more ≡ length contents → OpenTypes a contents (after 0 known) unknown
        → unpack octets ≡ known ++ (unknown ++ spare) → length spare < 8 → ZeroIf a.strict spare →
        fills a (Schema.sequence o ps true adds) w octets ↔ (w ≡ v) }
{}
