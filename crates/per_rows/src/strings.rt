//! Strings of bits, octets and characters, and object identifiers.
#![tactic(auto, unfolding(per_core::specs::Canon::bytes))]

ghost use Rattle.std.specs.Prelude.{◌≡◌, List, [], ◌∷◌, ◌++◌, replicate, codes, true, false, Some, None};
ghost use Rattle.rasn_types.specs.Variants.{aligned, unaligned};
ghost use Rattle.rasn_types.specs.Values.{octets, bits, characters, alternative, root};
ghost use Rattle.rasn_types.specs.Contents.{TextKind};
ghost use Rattle.rasn_types.specs.Alphabets.{visible};
ghost use Rattle.rasn_constraints.specs.Bounds.{any_size};
ghost use Rattle.rasn_schema.specs.Schemas.{Schema};
ghost use Rattle.per_core.specs.Canon.{bytes};
ghost use Rattle.per_rows.specs.Build.{octet_string, bit_string, with_all};
ghost use Rattle.per_rows.specs.Samples.{short_visible, a_to_e, only_x, connect};

/// VisibleString (SIZE (1..3, ...)) "abcd": bit 1, a count without bounds, and seven bits a character; in APER the
/// count on an octet boundary, and eight bits a character (X.691 30.4, 30.5).
pub fn visible_string_past_its_root_size()
    ensures uper { bytes unaligned short_visible (characters (codes "abcd"))
        ≡ Some (0x82 ∷ 0x61 ∷ 0xc5 ∷ 0x8f ∷ 0x20 ∷ []) }
    ensures aper { bytes aligned short_visible (characters (codes "abcd"))
        ≡ Some (0x80 ∷ 0x04 ∷ 0x61 ∷ 0x62 ∷ 0x63 ∷ 0x64 ∷ []) }
{}

/// VisibleString (FROM ("A".."E")) (SIZE (1..20)): a character is its place in the alphabet, in three bits in UPER
/// and four in APER; one that isn't permitted has no encoding (X.691 30.5).
pub fn permitted_alphabet_numbers_its_characters()
    ensures uper { bytes unaligned a_to_e (characters (codes "AE")) ≡ Some (0x08 ∷ 0x80 ∷ []) }
    ensures aper { bytes aligned a_to_e (characters (codes "AE")) ≡ Some (0x08 ∷ 0x04 ∷ []) }
    ensures uper_refused { bytes unaligned a_to_e (characters (codes "AF")) ≡ None }
    ensures aper_refused { bytes aligned a_to_e (characters (codes "AF")) ≡ None }
{}

/// UPER IA5String (FROM ("x")) "xxx": one permitted character takes no bits (X.691 30.5).
pub fn uper_single_character_takes_no_bits()
    ensures { bytes unaligned only_x (characters (codes "xxx")) ≡ Some (0x03 ∷ []) }
{}

/// UPER OCTET STRING: a count in one octet, or from 128 on in two (X.691 11.9.3.6, 11.9.3.7).
pub fn uper_octet_string_counts_its_octets()
    ensures two { bytes unaligned (octet_string any_size) (octets (0xaa ∷ 0xbb ∷ [])) ≡ Some (0x02 ∷ 0xaa ∷ 0xbb ∷ []) }
    ensures many { bytes unaligned (octet_string any_size) (octets (replicate 128 0x2a))
        ≡ Some (0x80 ∷ 0x80 ∷ replicate 128 0x2a) }
    ensures refused { bytes unaligned (octet_string any_size) (octets (256 ∷ [])) ≡ None }
{}

/// UPER OCTET STRING of 16385 octets: a fragment of 16384, then the last count (X.691 11.9.3.8).
pub fn uper_octet_string_in_fragments()
    ensures { bytes unaligned (octet_string any_size) (octets (replicate 16385 0x2a))
        ≡ Some (0xc1 ∷ (replicate 16384 0x2a ++ 0x01 ∷ 0x2a ∷ [])) }
{}

/// UPER OCTET STRING of 32768 octets: one fragment, and a last count of 0 (X.691 11.9.3.8).
pub fn uper_octet_string_takes_its_largest_fragment()
    ensures { bytes unaligned (octet_string any_size) (octets (replicate 32768 0x2a))
        ≡ Some (0xc2 ∷ (replicate 32768 0x2a ++ 0x00 ∷ [])) }
{}

/// UPER BIT STRING (SIZE (2, ...)) of three ones: bit 1 and a count without bounds (X.691 16.6).
pub fn uper_bit_string_past_its_fixed_size()
    ensures { bytes unaligned (Schema.bit_string (record { least = Some 2; most = Some 2 }) true false)
        (bits (replicate 3 true)) ≡ Some (0x81 ∷ 0xf0 ∷ []) }
{}

/// UPER UTF8String: its octets with a count; octets that are no UTF-8 have no encoding (X.691 30.6).
pub fn uper_utf8_string_is_octets()
    ensures text { bytes unaligned (Schema.text TextKind.utf8) (octets (0xc3 ∷ 0xa9 ∷ []))
        ≡ Some (0x02 ∷ 0xc3 ∷ 0xa9 ∷ []) }
    ensures surrogate { bytes unaligned (Schema.text TextKind.utf8) (octets (0xed ∷ 0xa0 ∷ 0x80 ∷ [])) ≡ None }
    ensures overlong { bytes unaligned (Schema.text TextKind.utf8) (octets (0xc0 ∷ 0x80 ∷ [])) ≡ None }
    ensures cut_off { bytes unaligned (Schema.text TextKind.utf8) (octets (0xe2 ∷ 0x82 ∷ [])) ≡ None }
{}

/// APER SEQUENCE of a chosen OBJECT IDENTIFIER 0.0.20.124.0.1 and an OCTET STRING: contents octets with a count (X.691
/// 24).
pub fn aper_object_identifier_is_its_contents()
    ensures { bytes aligned connect (with_all (
        alternative root 0 (octets (0x00 ∷ 0x14 ∷ 0x7c ∷ 0x00 ∷ 0x01 ∷ []))
        ∷ octets (0 ∷ 1 ∷ 2 ∷ 3 ∷ [])
        ∷ []))
        ≡ Some (0x00 ∷ 0x05 ∷ 0x00 ∷ 0x14 ∷ 0x7c ∷ 0x00 ∷ 0x01 ∷ 0x04 ∷ 0x00 ∷ 0x01 ∷ 0x02 ∷ 0x03 ∷ []) }
{}

/// Contents octets of an identifier: the fewest octets of each subidentifier, none cut off, arcs below 2 to the 32nd
/// (X.690 8.19).
pub fn uper_object_identifier_refuses_other_octets()
    ensures good { bytes unaligned Schema.identifier (octets (0x2a ∷ 0x86 ∷ 0x48 ∷ []))
        ≡ Some (0x03 ∷ 0x2a ∷ 0x86 ∷ 0x48 ∷ []) }
    ensures greatest { bytes unaligned Schema.identifier (octets (0x2a ∷ 0x8f ∷ 0xff ∷ 0xff ∷ 0xff ∷ 0x7f ∷ []))
        ≡ Some (0x06 ∷ 0x2a ∷ 0x8f ∷ 0xff ∷ 0xff ∷ 0xff ∷ 0x7f ∷ []) }
    ensures padded { bytes unaligned Schema.identifier (octets (0x2a ∷ 0x80 ∷ 0x01 ∷ [])) ≡ None }
    ensures cut_off { bytes unaligned Schema.identifier (octets (0x2a ∷ 0x86 ∷ [])) ≡ None }
    ensures past { bytes unaligned Schema.identifier (octets (0x2a ∷ 0x90 ∷ 0x80 ∷ 0x80 ∷ 0x80 ∷ 0x00 ∷ [])) ≡ None }
    ensures empty { bytes unaligned Schema.identifier (octets []) ≡ None }
{}
