//! Bits that have names, which are written without the zero bits at their end, save those that the size asks for (X.680
//! 22.7; X.691 16.2).
#![tactic(auto, unfolding(per_core::specs::Canon::bytes, rasn_schema::specs::Normal::normal))]

ghost use Rattle.std.specs.Prelude.{◌≡◌, [], ◌∷◌, ◌++◌, replicate, true, false, Some, None};
ghost use Rattle.rasn_types.specs.Values.{bits};
ghost use Rattle.rasn_types.specs.Variants.{aligned, unaligned};
ghost use Rattle.rasn_constraints.specs.Bounds.{any_size};
ghost use Rattle.rasn_schema.specs.Normal.{normal};
ghost use Rattle.rasn_schema.specs.Schemas.{Schema};
ghost use Rattle.per_core.specs.Canon.{bytes};
ghost use Rattle.per_rows.specs.Build.{bit_string, named_bits, sized};

/// BIT STRING { a(0), b(1) }: of 0100 the two bits 01, and of 000 none; without names all four.
pub fn named_bits_end_with_a_one()
    ensures some { bytes unaligned (named_bits any_size) (normal (named_bits any_size) (bits (false ∷ true ∷ false
        ∷ false ∷ []))) ≡ Some (0x02 ∷ 0x40 ∷ []) }
    ensures all_zeros { bytes unaligned (named_bits any_size) (normal (named_bits any_size) (bits (replicate 3 false)))
        ≡ Some (0x00 ∷ []) }
    ensures without_names { bytes unaligned (bit_string any_size) (normal (bit_string any_size) (bits (false ∷ true
        ∷ false ∷ false ∷ []))) ≡ Some (0x04 ∷ 0x40 ∷ []) }
{}

/// UPER BIT STRING { a(0), b(1) } (SIZE (2..8)): of 1 the two bits 10, and of 1 and nine zeros too; of 111 all three.
pub fn named_bits_are_as_many_as_the_size_asks_for()
    ensures added { let s = named_bits (sized 2 8) in
        bytes unaligned s (normal s (bits (true ∷ []))) ≡ Some (0x10 ∷ []) }
    ensures removed { let s = named_bits (sized 2 8) in
        bytes unaligned s (normal s (bits (true ∷ replicate 9 false))) ≡ Some (0x10 ∷ []) }
    ensures kept { let s = named_bits (sized 2 8) in
        bytes unaligned s (normal s (bits (replicate 3 true))) ≡ Some (0x3c ∷ []) }
    ensures too_many { let s = named_bits (sized 2 8) in
        bytes unaligned s (normal s (bits (replicate 8 false ++ true ∷ []))) ≡ None }
    ensures at_most { let s = named_bits (sized 0 3) in
        bytes unaligned s (normal s (bits (true ∷ replicate 3 false))) ≡ Some (0x60 ∷ []) }
{}

/// BIT STRING { a(0), b(1) } (SIZE (4)): four bits without a count, also of none and of 01000000.
pub fn named_bits_of_a_fixed_size_have_no_count()
    ensures uper { let s = named_bits (sized 4 4) in
        bytes unaligned s (normal s (bits (false ∷ true ∷ replicate 6 false))) ≡ Some (0x40 ∷ []) }
    ensures aper { let s = named_bits (sized 4 4) in
        bytes aligned s (normal s (bits (false ∷ true ∷ replicate 6 false))) ≡ Some (0x40 ∷ []) }
    ensures none { let s = named_bits (sized 4 4) in bytes unaligned s (normal s (bits [])) ≡ Some (0x00 ∷ []) }
{}

/// UPER BIT STRING { a(0), b(1) } (SIZE (4, ...)): of 01 and seven zeros bit 0 and four bits; of five bits up to a 1
/// bit 1 and a count without bounds.
pub fn named_bits_past_an_extensible_size()
    ensures within { let s = Schema.bit_string (sized 4 4) true true in
        bytes unaligned s (normal s (bits (false ∷ true ∷ replicate 7 false))) ≡ Some (0x20 ∷ []) }
    ensures past { let s = Schema.bit_string (sized 4 4) true true in
        bytes unaligned s (normal s (bits (replicate 4 false ++ true ∷ false ∷ []))) ≡ Some (0x82 ∷ 0x84 ∷ []) }
{}
