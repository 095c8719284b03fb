//! SEQUENCE OF, and long strings.
#![tactic(auto, unfolding(per_core::specs::Canon::bytes))]

ghost use Rattle.std.specs.Prelude.{◌≡◌, List, [], ◌∷◌, ◌++◌, replicate, true, false, Some, None, pos};
ghost use Rattle.rasn_types.specs.Variants.{aligned, unaligned};
ghost use Rattle.rasn_types.specs.Values.{whole, truth, nothing, octets, bits, characters};
ghost use Rattle.rasn_types.specs.Bits.{unpack};
ghost use Rattle.rasn_constraints.specs.Bounds.{any_size};
ghost use Rattle.rasn_schema.specs.Schemas.{Schema};
ghost use Rattle.per_core.specs.Canon.{bytes};
ghost use Rattle.per_rows.specs.Build.{bit_string, list_of, sized, with_all, list};
ghost use Rattle.per_rows.specs.Samples.{byte, element, with_lists, only_x};

/// APER BIT STRING of 16384 bits: a fragment of all of them, and a last count of 0 (X.691 11.9.3.8).
pub fn aper_bit_string_of_one_fragment()
    ensures { bytes aligned (bit_string any_size) (bits (unpack (replicate 2048 0x55)))
        ≡ Some (0xc1 ∷ (replicate 2048 0x55 ++ 0x00 ∷ [])) }
{}

/// APER: lists of a fixed and of a bounded count, between a BOOLEAN and an INTEGER (0..255) (X.691 20).
pub fn aper_lists_of_fixed_and_bounded_count()
    ensures { bytes aligned with_lists (with_all (
        truth true
        ∷ list (with_all (octets (1 ∷ 2 ∷ 3 ∷ []) ∷ []) ∷ with_all (octets (4 ∷ 5 ∷ 6 ∷ []) ∷ []) ∷ [])
        ∷ list (with_all (octets (7 ∷ 8 ∷ 9 ∷ []) ∷ []) ∷ [])
        ∷ whole (pos 0xab)
        ∷ []))
        ≡ Some (0x80 ∷ 0x01 ∷ 0x02 ∷ 0x03 ∷ 0x04 ∷ 0x05 ∷ 0x06 ∷ 0x00 ∷ 0x07 ∷ 0x08 ∷ 0x09 ∷ 0xab ∷ []) }
{}

/// SEQUENCE (SIZE (1..300)) OF NULL: the count alone, in nine bits in UPER and two octets in APER; 301 are refused
/// (X.691 18, 20).
pub fn list_of_null_is_its_count()
    ensures uper { bytes unaligned (list_of Schema.null (sized 1 300)) (list (replicate 300 nothing))
        ≡ Some (0x95 ∷ 0x80 ∷ []) }
    ensures aper { bytes aligned (list_of Schema.null (sized 1 300)) (list (replicate 300 nothing))
        ≡ Some (0x01 ∷ 0x2b ∷ []) }
    ensures uper_refused { bytes unaligned (list_of Schema.null (sized 1 300)) (list (replicate 301 nothing)) ≡ None }
    ensures aper_refused { bytes aligned (list_of Schema.null (sized 1 300)) (list (replicate 301 nothing)) ≡ None }
{}

/// UPER SEQUENCE OF SEQUENCE of eight BOOLEAN: a count in two octets, and an octet for each (X.691 11.9.3.7, 20).
pub fn uper_list_of_bytes()
    ensures { bytes unaligned (list_of byte any_size) (list (replicate 1000 (with_all (replicate 8 (truth false)))))
        ≡ Some (0x83 ∷ 0xe8 ∷ replicate 1000 0x00) }
{}

/// UPER: 65536 characters of no bits: one fragment code and a last count of 0 (X.691 11.9.3.8, 30.5).
pub fn uper_characters_of_no_bits_in_fragments()
    ensures { bytes unaligned only_x (characters (replicate 65536 120)) ≡ Some (0xc4 ∷ 0x00 ∷ []) }
{}

/// UPER SEQUENCE OF NULL of 196608 items: three fragment codes and a last count of 0 (X.691 11.9.3.8, 18).
pub fn uper_nulls_in_fragments()
    ensures { bytes unaligned (list_of Schema.null any_size) (list (replicate 196608 nothing))
        ≡ Some (0xc4 ∷ 0xc4 ∷ 0xc4 ∷ 0x00 ∷ []) }
{}

/// UPER: 99000 bytes, in fragments of 65536 and 32768 and a last count of 696 (X.691 11.9.3.8, 20).
pub fn uper_long_list_of_bytes_in_fragments()
    ensures { bytes unaligned (list_of byte any_size) (list (replicate 99000 (with_all (replicate 8 (truth false)))))
        ≡ Some (0xc4 ∷ (replicate 65536 0x00 ++ 0xc2 ∷ (replicate 32768 0x00 ++ 0x82 ∷ 0xb8 ∷ replicate 696 0x00))) }
{}
