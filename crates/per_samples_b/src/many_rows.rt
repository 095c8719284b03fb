//! What is written of many additions.

ghost use Rattle.std.specs.Prelude.{true, [], ◌∷◌, ◌++◌, Some, None, replicate};
ghost use Rattle.per_core.specs.Rows.{aligned, unaligned, IsWrittenAs};

use crate::many::Many;
use rasn_below::AsnType;

/// A bitmap of more than 64 bits has a length in the form of any length (X.691 11.9.3.4, 19.8).
pub fn long_bitmaps_have_a_length()
    ensures unaligned { let own = ⟦<Many as AsnType>⟧ in
        IsWrittenAs unaligned (own.schema own.CONSTRAINTS) own.levels own.value
        (record { options = replicate 64 None ++ (Some true ∷ []) })
        (0xd0 ∷ 0x40 ∷ replicate 7 0x00 ++ (0x20 ∷ 0x30 ∷ 0x00 ∷ [])) }
    ensures aligned { let own = ⟦<Many as AsnType>⟧ in
        IsWrittenAs aligned (own.schema own.CONSTRAINTS) own.levels own.value
        (record { options = replicate 64 None ++ (Some true ∷ []) })
        (0xc0 ∷ 0x41 ∷ replicate 8 0x00 ++ (0x80 ∷ 0x01 ∷ 0x80 ∷ [])) }
{}
