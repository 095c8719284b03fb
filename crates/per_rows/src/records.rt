//! SEQUENCE without an extension marker.
#![tactic(auto, unfolding(per_core::specs::Canon::bytes, rasn_schema::specs::Normal::normal))]

ghost use Rattle.std.specs.Prelude.{◌≡◌, List, [], ◌∷◌, ◌++◌, replicate, codes, true, false, Some, None, pos};
ghost use Rattle.rasn_types.specs.Variants.{aligned, unaligned};
ghost use Rattle.rasn_types.specs.Values.{whole, truth, item, root, octets, bits, characters};
ghost use Rattle.rasn_types.specs.Bits.{unpack};
ghost use Rattle.rasn_types.specs.Alphabets.{visible};
ghost use Rattle.rasn_constraints.specs.Bounds.{between};
ghost use Rattle.rasn_schema.specs.Schemas.{Schema};
ghost use Rattle.per_core.specs.Canon.{bytes};
ghost use Rattle.per_rows.specs.Build.{integer_in, octet_string, bit_string, list_of, sized, sequence, with_all};
ghost use Rattle.per_rows.specs.Build.{record_with, list, minus};
ghost use Rattle.per_rows.specs.Samples.{four, empty_middle, with_item, with_default, nest, nested, deep, dated};
ghost use Rattle.per_rows.specs.Samples.{dated_value};

/// SEQUENCE of required parts: one after the other; in APER the length of b and the two octets of d on octet
/// boundaries (X.691 19).
pub fn sequence_is_its_parts_one_by_one()
    ensures uper { bytes unaligned four (with_all (truth true ∷ whole (pos 43554344223) ∷ truth false
        ∷ whole (minus 9) ∷ []))
        ≡ Some (0x82 ∷ 0x85 ∷ 0x12 ∷ 0x05 ∷ 0x46 ∷ 0x8f ∷ 0x80 ∷ 0x20 ∷ []) }
    ensures aper { bytes aligned four (with_all (truth true ∷ whole (pos 43554344223) ∷ truth false ∷ whole (minus 9)
        ∷ []))
        ≡ Some (0x80 ∷ 0x05 ∷ 0x0a ∷ 0x24 ∷ 0x0a ∷ 0x8d ∷ 0x1f ∷ 0x00 ∷ 0x00 ∷ 0x01 ∷ []) }
{}

/// UPER SEQUENCE { a INTEGER (7..7) }: no bits, so one zero octet (X.691 11.1.3).
pub fn uper_sequence_of_no_bits_is_one_zero_octet()
    ensures { bytes unaligned (sequence (integer_in (between (pos 7) (pos 7)) ∷ [])) (with_all (whole (pos 7) ∷ []))
        ≡ Some (0x00 ∷ []) }
{}

/// APER OCTET STRING (SIZE (0..3)) between two BOOLEAN: padding is before octets, and none where there are none
/// (X.691 11.9.3.3).
pub fn aper_empty_string_has_no_padding()
    ensures empty { bytes aligned empty_middle (with_all (truth true ∷ octets [] ∷ truth true ∷ []))
        ≡ Some (0x90 ∷ []) }
    ensures one { bytes aligned empty_middle (with_all (truth true ∷ octets (7 ∷ []) ∷ truth true ∷ []))
        ≡ Some (0xa0 ∷ 0x07 ∷ 0x80 ∷ []) }
{}

/// ENUMERATED of 256 items after a BOOLEAN: an index in eight bits, in APER on an octet boundary (X.691 14.2).
pub fn index_of_256_items_takes_an_octet()
    ensures uper { bytes unaligned with_item (with_all (truth true ∷ item root 255 ∷ [])) ≡ Some (0xff ∷ 0x80 ∷ []) }
    ensures aper { bytes aligned with_item (with_all (truth true ∷ item root 255 ∷ [])) ≡ Some (0x80 ∷ 0xff ∷ []) }
    ensures refused { bytes aligned with_item (with_all (truth true ∷ item root 256 ∷ [])) ≡ None }
{}

/// UPER SEQUENCE { a INTEGER (0..7) DEFAULT 3 }: a part at its default is absent (X.691 19.5).
pub fn uper_default_is_not_written()
    ensures at_default { bytes unaligned with_default (with_all (whole (pos 3) ∷ [])) ≡ Some (0x00 ∷ []) }
    ensures other { bytes unaligned with_default (with_all (whole (pos 5) ∷ [])) ≡ Some (0xd0 ∷ []) }
    ensures missing { bytes unaligned with_default (record_with (None ∷ [])) ≡ None }
{}

/// UPER Nest ::= SEQUENCE { inner Nest OPTIONAL }: one bit a level; 128 levels, and 129 (X.691 19.2).
pub fn uper_recursive_sequence_takes_a_bit_a_level()
    ensures levels_128 { bytes unaligned (nest 128) (nested 127) ≡ Some (replicate 15 0xff ++ 0xfe ∷ []) }
    ensures levels_129 { bytes unaligned (nest 129) (nested 128) ≡ Some (replicate 16 0xff ++ 0x00 ∷ []) }
    ensures cut_off { bytes unaligned (nest 128) (nested 128) ≡ None }
{}

/// UPER SEQUENCE { d Nest DEFAULT a value of 200 levels }: the default is one zero bit at any unfolding (X.691 19.5).
pub fn uper_deep_default_is_not_written()
    ensures default_of_199_levels { bytes unaligned (deep 201) (with_all (nested 199 ∷ [])) ≡ Some (0x00 ∷ []) }
    ensures shallow { bytes unaligned (deep 128) (with_all (nested 199 ∷ [])) ≡ Some (0x00 ∷ []) }
{}

/// UPER SEQUENCE { inner the same OPTIONAL, d DATE OPTIONAL }: two bits a record; a date takes two of 128 levels, a
/// record one (X.691 19.2, 32).
pub fn uper_recursive_sequence_with_a_date()
    ensures records_126 { bytes unaligned (dated 128) (dated_value 125)
        ≡ Some (replicate 31 0xaa ++ 0x91 ∷ 0x40 ∷ 0x00 ∷ []) }
    ensures records_127 { bytes unaligned (dated 129) (dated_value 126)
        ≡ Some (replicate 31 0xaa ++ 0xa4 ∷ 0x50 ∷ 0x00 ∷ []) }
    ensures cut_off { bytes unaligned (dated 128) (dated_value 126) ≡ None }
{}

/// APER OCTET STRING after a BOOLEAN: how the upper bound of its size sets the form of its length (X.691 11.5.7,
/// 11.9).
pub fn aper_length_form_follows_the_upper_bound()
    ensures to_256 { bytes aligned (sequence (Schema.boolean ∷ octet_string (sized 1 256) ∷ []))
        (with_all (truth true ∷ octets (0x11 ∷ 0x22 ∷ 0x33 ∷ []) ∷ []))
        ≡ Some (0x80 ∷ 0x02 ∷ 0x11 ∷ 0x22 ∷ 0x33 ∷ []) }
    ensures to_1000 { bytes aligned (sequence (Schema.boolean ∷ octet_string (sized 1 1000) ∷ []))
        (with_all (truth true ∷ octets (0x11 ∷ 0x22 ∷ 0x33 ∷ []) ∷ []))
        ≡ Some (0x80 ∷ 0x00 ∷ 0x02 ∷ 0x11 ∷ 0x22 ∷ 0x33 ∷ []) }
    ensures to_65536 { bytes aligned (sequence (Schema.boolean ∷ octet_string (sized 1 65536) ∷ []))
        (with_all (truth true ∷ octets (0x11 ∷ 0x22 ∷ 0x33 ∷ []) ∷ []))
        ≡ Some (0x80 ∷ 0x03 ∷ 0x11 ∷ 0x22 ∷ 0x33 ∷ []) }
{}

/// APER SEQUENCE (SIZE (1..256)) OF BOOLEAN after a BOOLEAN: a list's items are not aligned (X.691 20).
pub fn aper_list_items_are_not_aligned()
    ensures { bytes aligned (sequence (Schema.boolean ∷ list_of Schema.boolean (sized 1 256) ∷ []))
        (with_all (truth true ∷ list (truth true ∷ truth false ∷ truth true ∷ []) ∷ []))
        ≡ Some (0x80 ∷ 0x02 ∷ 0xa0 ∷ []) }
{}

/// APER BIT STRING after a BOOLEAN: a fixed size above 16 bits is aligned, 16 bits are not (X.691 16.9, 16.10).
pub fn aper_fixed_bit_string_is_aligned_past_16_bits()
    ensures bits_24 { bytes aligned (sequence (Schema.boolean ∷ bit_string (sized 24 24) ∷ []))
        (with_all (truth true ∷ bits (unpack (0xab ∷ 0xcd ∷ 0xef ∷ [])) ∷ []))
        ≡ Some (0x80 ∷ 0xab ∷ 0xcd ∷ 0xef ∷ []) }
    ensures bits_16 { bytes aligned (sequence (Schema.boolean ∷ bit_string (sized 16 16) ∷ []))
        (with_all (truth true ∷ bits (unpack (0xab ∷ 0xcd ∷ [])) ∷ [])) ≡ Some (0xd5 ∷ 0xe6 ∷ 0x80 ∷ []) }
{}

/// APER INTEGER after a BOOLEAN: 255 values are not aligned, 257 are two aligned octets (X.691 11.5.7).
pub fn aper_integer_is_aligned_past_255_values()
    ensures values_255 { bytes aligned (sequence (Schema.boolean ∷ integer_in (between (pos 0) (pos 254)) ∷ []))
        (with_all (truth true ∷ whole (pos 5) ∷ [])) ≡ Some (0x82 ∷ 0x80 ∷ []) }
    ensures values_257 { bytes aligned (sequence (Schema.boolean ∷ integer_in (between (pos 0) (pos 256)) ∷ []))
        (with_all (truth true ∷ whole (pos 5) ∷ [])) ≡ Some (0x80 ∷ 0x00 ∷ 0x05 ∷ []) }
{}

/// APER VisibleString after a BOOLEAN: two characters of a fixed size are not aligned, of a size from 1 to 2 they are
/// (X.691 30.5.6, 30.5.7).
pub fn aper_short_visible_string_is_aligned_where_its_size_varies()
    ensures fixed { bytes aligned (sequence (Schema.boolean ∷ Schema.char_string visible (sized 2 2) false ∷ []))
        (with_all (truth true ∷ characters (codes "AB") ∷ [])) ≡ Some (0xa0 ∷ 0xa1 ∷ 0x00 ∷ []) }
    ensures varies { bytes aligned (sequence (Schema.boolean ∷ Schema.char_string visible (sized 1 2) false ∷ []))
        (with_all (truth true ∷ characters (codes "AB") ∷ [])) ≡ Some (0xc0 ∷ 0x41 ∷ 0x42 ∷ []) }
{}
