//! The laws by which a decoder reads additions one after another (X.691 11.2, 19.7 to 19.9): each is the contract of a
//! function that does nothing.

ghost use Rattle.std.specs.Prelude.{◌≡◌, ◌↔◌, ℕ, List, [], ◌∷◌, Bool, true, false, Option};
ghost use Rattle.rasn_types.specs.Bits.{Bits};
ghost use Rattle.rasn_types.specs.Values.{Value};
ghost use Rattle.rasn_schema.specs.Orders.{ordered};
ghost use Rattle.rasn_schema.specs.Schemas.{Order, Parts, Presence, Schema, tags};
ghost use Rattle.per_core.specs.Basic.{Additions, Record, Octets, OpenOf, Unknown, basic, rules};
ghost use Rattle.per_core.specs.Spellings.{Settings, Took};
ghost use Rattle.per_read.specs.Additions.{FirstAddition, IsExtended, IsPlain};
ghost use Rattle.per_core.specs.AdditionFaults.{NextFlag, rule_of};
ghost use Rattle.per_read.specs.Ends.{IsWhole};

/// Where octets were taken, they are an open type of a value exactly where the value is read of them and what is left
/// ends them (X.691 11.1, 11.2).
pub fn open_type_is_read_of_its_octets()
    ensures { (a : Settings) (c : Schema) (v : Value) (octets : List ℕ) (s m t : Bits) → Took (Octets a octets) s m
        → Took (OpenOf a (basic a c) v) s t ↔ ((m ≡ t) × IsWhole a (basic a c v) octets) }
{}

/// Additions are the first one, as the next bit of the bitmap says, and the others, as the bits after it say (X.691
/// 19.7 to 19.9).
pub fn additions_are_read_in_turn()
    ensures { (a : Settings) (p : Presence) (c : Schema) (ps : Parts) (xs : List (Option Value)) (s t : Bits)
        (flags : List Bool) (flag : Option Bool) (rest : List Bool) → NextFlag flags flag rest
        → Took (Additions a (rule_of a p c ∷ rules a ps) xs flags) s t
        ↔ FirstAddition a (rule_of a p c) (rules a ps) xs flag rest s t }
{}

/// After the last of the schema's additions stand those that it doesn't know (X.691 19.9).
pub fn unknown_additions_stand_last()
    ensures { (a : Settings) (xs : List (Option Value)) (flags : List Bool) (s t : Bits)
        → Took (Additions a [] xs flags) s t ↔ ((xs ≡ []) × Took (Unknown a flags) s t) }
{}

/// A record with an extension marker has a bitmap exactly where its extension bit is 1 (X.691 19.1, 19.7).
pub fn extension_bit_shows_a_bitmap()
    ensures none { (a : Settings) (o : Order) (ps adds : Parts) (ss xs : List (Option Value)) (s t : Bits)
        → let rs = ordered o (tags ps) (rules a ps) in
        Took (Record a true rs (rules a adds) ss xs) (false ∷ s) t ↔ IsPlain a rs (rules a adds) ss xs s t }
    ensures some { (a : Settings) (o : Order) (ps adds : Parts) (ss xs : List (Option Value)) (s t : Bits)
        → let rs = ordered o (tags ps) (rules a ps) in
        Took (Record a true rs (rules a adds) ss xs) (true ∷ s) t ↔ IsExtended a rs (rules a adds) ss xs s t }
{}
