//! Octets that no value is read of.
#![tactic(auto)]

ghost use Rattle.std.specs.Prelude.{◌≡◌, ℕ, List, [], ◌∷◌, ◌++◌, replicate, true, false, Some, None, pos};
ghost use Rattle.rasn_types.specs.Alphabets.{visible};
ghost use Rattle.rasn_types.specs.Values.{Value};
ghost use Rattle.rasn_constraints.specs.Bounds.{any_size, between};
ghost use Rattle.rasn_schema.specs.Schemas.{Schema};
ghost use Rattle.per_core.specs.Spellings.{Settings};
ghost use Rattle.per_core.specs.Basic.{fills};
ghost use Rattle.per_core.specs.Canon.{bytes};
ghost use Rattle.per_rows.specs.Build.{aper, uper, zero_padded, integer, integer_in, extensible_integer, at_least};
ghost use Rattle.per_rows.specs.Build.{minus, octet_string, list_of, sized, sized_to};
ghost use Rattle.per_rows.specs.Samples.{one_alternative, one_color, x_y_or_z, required_addition, with_group, a_to_e};

/// A complete encoding with more octets after it is none (X.691 11.1).
pub fn surplus_octets_are_refused()
    ensures { (a : Settings) (s : Schema) (v w : Value) (os : List ℕ) (o : ℕ) (rest : List ℕ) → bytes a.variant s v
        ≡ Some os → ¬ (fills a s w (os ++ o ∷ rest)) }
{}

/// The beginning of a complete encoding is none (X.691 11.1).
pub fn cut_octets_are_refused()
    ensures { (a : Settings) (s : Schema) (v w : Value) (os : List ℕ) (o : ℕ) (rest : List ℕ) → bytes a.variant s v
        ≡ Some (os ++ o ∷ rest) → ¬ (fills a s w os) }
{}

/// UPER NULL is one zero octet, and no other (X.691 11.1.3).
pub fn uper_null_is_one_zero_octet()
    ensures other { (v : Value) → ¬ (fills uper Schema.null v (0x01 ∷ [])) }
    ensures none { (v : Value) → ¬ (fills uper Schema.null v []) }
    ensures two { (v : Value) → ¬ (fills uper Schema.null v (0x00 ∷ 0x00 ∷ [])) }
{}

/// UPER BOOLEAN has no octets after its own, and for a reader that wants zero padding no ones after its bit (X.691
/// 11.1, 12).
pub fn uper_boolean_refuses_what_follows()
    ensures octets { (v : Value) → ¬ (fills uper Schema.boolean v (0x80 ∷ 0xaa ∷ 0xbb ∷ [])) }
    ensures padding { (v : Value) → ¬ (fills (zero_padded uper) Schema.boolean v (0xff ∷ [])) }
    ensures padding_and_octet { (v : Value) → ¬ (fills (zero_padded uper) Schema.boolean v (0x80 ∷ 0x00 ∷ [])) }
{}

/// UPER INTEGER has at least one octet, and all that its length tells (X.691 11.8).
pub fn uper_integer_refuses_missing_octets()
    ensures none { (v : Value) → ¬ (fills uper integer v (0x00 ∷ [])) }
    ensures cut_off { (v : Value) → ¬ (fills uper integer v (0x02 ∷ 0x10 ∷ [])) }
{}

/// UPER INTEGER (1..10, ...): the last codes of the four bits in the root are of no number; nor is one past the range
/// of its type (X.691 11.5.6, 13).
pub fn uper_number_out_of_bounds_is_refused()
    ensures root_code { (v : Value) → ¬ (fills uper (extensible_integer (between (pos 1) (pos 10))) v (0x78 ∷ [])) }
    ensures past_its_type { (v : Value) → ¬ (fills uper (Schema.number (between (minus 1) (pos 254)) false
        (between (pos 0) (pos 255))) v (0x00 ∷ [])) }
{}

/// UPER INTEGER with a lower bound: a number past 128 bits with a sign is refused (X.691 11.7; the limit is own to
/// this profile).
pub fn uper_bounded_number_past_128_bits_is_refused()
    ensures natural { (v : Value) → ¬ (fills uper (integer_in (at_least (pos 0))) v (0x10 ∷ replicate 16 0xff)) }
    ensures offset { (v : Value) → ¬ (fills uper (integer_in (at_least (minus 1))) v (0x10 ∷ 0x80
        ∷ (replicate 14 0x00 ++ 0x01 ∷ []))) }
{}

/// UPER OCTET STRING: a length whose first two bits are ones announces 1 to 4 times 16384 octets, and no other number
/// (X.691 11.9.3.8).
pub fn uper_fragment_code_out_of_1_to_4_is_refused()
    ensures five { (v : Value) → ¬ (fills uper (octet_string any_size) v (0xc5 ∷ [])) }
    ensures zero { (v : Value) → ¬ (fills uper (octet_string any_size) v (0xc0 ∷ [])) }
    ensures greatest { (v : Value) → ¬ (fills uper (octet_string any_size) v (0xff ∷ [])) }
{}

/// SEQUENCE (SIZE (1..300)) OF NULL: nine bits that tell 301, or two octets; OCTET STRING (SIZE (..4)) of six octets;
/// VisibleString (SIZE (1..10)): four bits that tell 16 (X.691 17, 20, 30.5).
pub fn count_out_of_its_size_is_refused()
    ensures in_uper { (v : Value) → ¬ (fills uper (list_of Schema.null (sized 1 300)) v (0x96 ∷ 0x00 ∷ [])) }
    ensures in_aper { (v : Value) → ¬ (fills aper (list_of Schema.null (sized 1 300)) v (0x01 ∷ 0x2c ∷ [])) }
    ensures upper_bound_alone { (v : Value) → ¬ (fills uper (octet_string (sized_to 4)) v (0x06 ∷ 0x01 ∷ 0x02 ∷ 0x03
        ∷ 0x04 ∷ 0x05 ∷ 0x06 ∷ [])) }
    ensures characters { (v : Value) → ¬ (fills uper (Schema.char_string visible (sized 1 10) false) v
        (replicate 20 0xff)) }
{}

/// UPER VisibleString (FROM ("A".."E")) (SIZE (1..20)): a code that no permitted character has (X.691 30.5).
pub fn uper_code_without_a_character_is_refused()
    ensures { (v : Value) → ¬ (fills uper a_to_e v (0x0f ∷ 0x00 ∷ [])) }
{}

/// UPER DATE: 30 February 2010, and a month 13 (X.691 32).
pub fn uper_date_that_is_none_is_not_read()
    ensures february { (v : Value) → ¬ (fills uper Schema.date v (0x14 ∷ 0x7a ∷ [])) }
    ensures month { (v : Value) → ¬ (fills uper Schema.date v (0x17 ∷ 0x00 ∷ [])) }
{}

/// UPER: an index past the alternatives or items that the schema has (X.691 14, 23).
pub fn uper_unknown_index_is_refused()
    ensures root_alternative { (v : Value) → ¬ (fills uper x_y_or_z v (0xc0 ∷ [])) }
    ensures added_alternative { (v : Value) → ¬ (fills uper one_alternative v (0x80 ∷ 0x01 ∷ 0x80 ∷ [])) }
    ensures great_index { (v : Value) → ¬ (fills uper one_alternative v (0xc2 ∷ 0x40 ∷ 0x40 ∷ replicate 8 0x00)) }
    ensures added_item { (v : Value) → ¬ (fills uper one_color v (0x80 ∷ [])) }
{}

/// UPER SEQUENCE { ..., a BOOLEAN, b BOOLEAN OPTIONAL }: a is never absent (X.691 19.7 to 19.9).
pub fn uper_required_addition_is_never_absent()
    ensures no_additions { (v : Value) → ¬ (fills uper required_addition v (0x00 ∷ [])) }
    ensures no_bit { (v : Value) → ¬ (fills uper required_addition v (0x80 ∷ 0x00 ∷ [])) }
    ensures zero_bit { (v : Value) → ¬ (fills uper required_addition v (0x81 ∷ 0x40 ∷ 0x60 ∷ 0x00 ∷ [])) }
{}

/// A bitmap of no bits is refused, in both variants (X.691 11.9.3.4, 19.8).
pub fn empty_bitmap_is_refused()
    ensures in_uper { (v : Value) → ¬ (fills uper with_group v (0xe0 ∷ 0x00 ∷ [])) }
    ensures in_aper { (v : Value) → ¬ (fills aper with_group v (0xe0 ∷ 0x00 ∷ [])) }
{}

/// APER INTEGER (0..65536): padding of ones, for a reader that wants zero padding (X.691 11.5.7.4).
pub fn aper_padding_of_ones_is_refused()
    ensures { (v : Value) → ¬ (fills (zero_padded aper) (integer_in (between (pos 0) (pos 65536))) v (0x3f ∷ 0xfd
        ∷ [])) }
{}

/// UPER SEQUENCE { first BOOLEAN, ..., [[ x BOOLEAN OPTIONAL ]] }: the octets of an open type are the group's complete
/// encoding, neither more nor fewer, and with spare bits of zero for a reader that wants zero padding (X.691 11.2).
pub fn uper_open_type_is_its_contents_alone()
    ensures two_octets { (v : Value) → ¬ (fills uper with_group v (0xc0 ∷ 0x40 ∷ 0x80 ∷ 0x00 ∷ 0x00 ∷ [])) }
    ensures no_octets { (v : Value) → ¬ (fills uper with_group v (0xc0 ∷ 0x40 ∷ 0x00 ∷ [])) }
    ensures spare_bit { (v : Value) → ¬ (fills (zero_padded uper) with_group v (0xc0 ∷ 0x40 ∷ 0x40 ∷ 0x80 ∷ [])) }
{}
