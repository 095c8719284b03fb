//! The laws of SET over the grammar of the packed encoding rules: a SET is written and read exactly as the SEQUENCE of
//! its root parts in ascending order of their smallest tags (X.691, 21.1). Each law is the contract of a function that
//! does nothing.

ghost use Rattle.std.specs.Prelude.{◌≡◌, ◌↔◌, ℕ, Bool, List, Option, length};
ghost use Rattle.rasn_types.specs.Bits.{Bits};
ghost use Rattle.rasn_types.specs.Values.{Value};
ghost use Rattle.rasn_types.specs.Variants.{Variant};
ghost use Rattle.rasn_schema.specs.Structures.{presence_bits, record_value};
ghost use Rattle.rasn_schema.specs.Normal.{normal, normals};
ghost use Rattle.rasn_schema.specs.Orders.{by_tags, canonised, canonised_slots};
ghost use Rattle.rasn_schema.specs.Schemas.{Schema, Parts, count, tags, by_tag, listed};
ghost use Rattle.per_core.specs.Basic.{basic_in};
ghost use Rattle.per_core.specs.Canon.{canon, members};
ghost use Rattle.per_core.specs.Spellings.{Settings};
ghost use Rattle.per_core.specs.ListedParts.{listed_slots, AsListed, InOrder};
ghost use Rattle.per_core.specs.PlacedSets.{placed_set};

/// Of parts in order, how they are written, their tags, how many they are and how many presence bits they have are
/// those of the parts, in order.
pub fn parts_in_order()
    ensures writes { (a : Variant) (ps : Parts) → members a (canonised ps) ≡ by_tags (tags ps) (members a ps) }
    ensures named { (ps : Parts) → tags (canonised ps) ≡ by_tags (tags ps) (tags ps) }
    ensures counted { (ps : Parts) → count (canonised ps) ≡ count ps }
    ensures flagged { (ps : Parts) → presence_bits (canonised ps) ≡ presence_bits ps }
{}

/// What parts are, put in order and listed again, is what they are; and so it is the other way round.
pub fn order_is_one_to_one()
    ensures listed_again { (ps : Parts) (rs : List (Option Value)) → listed_slots ps (canonised_slots ps rs) ≡ rs }
    ensures ordered_again { (ps : Parts) (rs : List (Option Value)) → canonised_slots ps (listed_slots ps rs) ≡ rs }
{}

/// A SET is written as the SEQUENCE of its root parts in order (X.691, 21.1).
pub fn set_is_written_in_order()
    ensures { (a : Variant) (ps : Parts) (ext : Bool) (adds : Parts) (rs xs : List (Option Value))
        → canon a (Schema.sequence by_tag ps ext adds) (record_value rs xs)
        ≡ canon a (Schema.sequence listed (canonised ps) ext adds) (record_value (canonised_slots ps rs) xs) }
{}

/// A SET of as many root parts as its schema has is what these write, each by itself: their presence bits and then
/// their values, in ascending order of their smallest tags, wherever they were written first (X.691, 21.1).
pub fn set_is_placed()
    ensures { (a : Variant) (ps : Parts) (ext : Bool) (adds : Parts) (rs xs : List (Option Value))
        → length rs ≡ count ps
        → canon a (Schema.sequence by_tag ps ext adds) (record_value rs xs) ≡ placed_set a ps ext adds rs xs }
{}

/// What spells a SET spells the SEQUENCE of its root parts in order, and the other way round (X.691, 21.1).
pub fn set_is_read_in_order()
    ensures { (a : Settings) (u : Bool) (ps : Parts) (ext : Bool) (adds : Parts) (rs xs : List (Option Value)) (p : ℕ)
        (bits : Bits) → basic_in a u (Schema.sequence by_tag ps ext adds) (record_value rs xs) p bits
        ↔ basic_in a u (Schema.sequence listed (canonised ps) ext adds)
        (record_value (canonised_slots ps rs) xs) p bits }
{}

/// Whatever a SET is read as has as many root parts as the SET.
pub fn set_is_read_as_listed()
    ensures { (a : Settings) (u : Bool) (ps : Parts) (ext : Bool) (adds : Parts) (v : Value) (p : ℕ) (bits : Bits)
        → basic_in a u (Schema.sequence by_tag ps ext adds) v p bits → AsListed ps v }
{}

/// Whatever the SEQUENCE is read as has the root parts of exactly one value of the SET, in order.
pub fn sequence_is_read_in_order()
    ensures { (a : Settings) (u : Bool) (ps : Parts) (ext : Bool) (adds : Parts) (v : Value) (p : ℕ) (bits : Bits)
        → basic_in a u (Schema.sequence listed (canonised ps) ext adds) v p bits → InOrder ps v }
{}

/// Nothing is read of a SET exactly where nothing is read of the SEQUENCE.
pub fn set_is_refused_where_the_sequence_is()
    ensures { (a : Settings) (u : Bool) (ps : Parts) (ext : Bool) (adds : Parts) (p : ℕ) (bits : Bits)
        → ((v : Value) → basic_in a u (Schema.sequence by_tag ps ext adds) v p bits → ⊥)
        ↔ ((v : Value) → basic_in a u (Schema.sequence listed (canonised ps) ext adds) v p bits → ⊥) }
{}

/// The normal form of the SEQUENCE is that of the SET, in order (X.691, 19.9).
pub fn normal_form_is_in_order()
    ensures parts { (ps : Parts) (rs : List (Option Value)) → length rs ≡ count ps
        → canonised_slots ps (normals ps rs) ≡ normals (canonised ps) (canonised_slots ps rs) }
    ensures set { (ps : Parts) (ext : Bool) (adds : Parts) (rs xs : List (Option Value))
        → normal (Schema.sequence by_tag ps ext adds) (record_value rs xs)
        ≡ record_value (normals ps rs) (normals adds xs) }
    ensures sequence { (ps : Parts) (ext : Bool) (adds : Parts) (rs xs : List (Option Value)) → length rs ≡ count ps
        → normal (Schema.sequence listed (canonised ps) ext adds) (record_value (canonised_slots ps rs) xs)
        ≡ record_value (canonised_slots ps (normals ps rs)) (normals adds xs) }
{}
