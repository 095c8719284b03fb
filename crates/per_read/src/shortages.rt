//! What isn't read of bits that end early (X.691 11): each law is the contract of a function that does nothing.

ghost use Rattle.std.specs.Prelude.{ℕ, List, Bool};
ghost use Rattle.rasn_types.specs.Bits.{Bits};
ghost use Rattle.rasn_types.specs.Contents.{TextKind, is_text};
ghost use Rattle.rasn_constraints.specs.Bounds.{Bounds, Size, number_of};
ghost use Rattle.rasn_constraints.specs.declared.count.Count.{Count};
ghost use Rattle.per_core.specs.Basic.{Counted, IsBitmap, IsNumberOf, Octets, Proper, String, bit, constrained_form};
ghost use Rattle.per_core.specs.Basic.{octet};
ghost use Rattle.per_core.specs.Counts.{bit_items, octet_items};
ghost use Rattle.per_core.specs.Spellings.{BitField, Settings};
ghost use Rattle.per_core.specs.declared.items.Item.TheVariants.{Bit, Octet};
ghost use Rattle.per_core.specs.AdditionFaults.{IsOfBitmap};
ghost use Rattle.per_core.specs.BitFieldFaults.{IsOfBitField, IsOfLength, IsOfUnconstrained};
ghost use Rattle.per_core.specs.Lengths.{LengthOf};
ghost use Rattle.per_core.specs.NumberFaults.{IsOfConstrained, IsOfNumber};
ghost use Rattle.per_read.specs.Shortages.{NoneWithin};
ghost use Rattle.per_core.specs.SizeFaults.{IsOfItems, IsOfString, IsOfText};
ghost use Rattle.per_core.specs.declared.decode_error.DecodeErrorKind.TheVariants.{Incomplete};

/// Where bits end within a field, a length, a constrained whole number or octets after a length, none of them is read,
/// nor with fewer further bits than are said to be missing, in whole octets (X.691 11.3, 11.5, 11.9).
pub fn fewer_bits_are_no_field()
    ensures field { (w : ℕ) (m : Count) (s : Bits) → IsOfBitField w s (Incomplete m)
        → NoneWithin (BitField w) (number_of m) s }
    ensures length { (a : Settings) (m : Count) (s : Bits) → IsOfLength a s (Incomplete m)
        → NoneWithin (LengthOf a) (number_of m) s }
    ensures constrained { (a : Settings) (n : ℕ) (m : Count) (s : Bits) → IsOfConstrained a n s (Incomplete m)
        → NoneWithin (constrained_form a n) (number_of m) s }
    ensures octets { (a : Settings) (m : Count) (s : Bits) → IsOfUnconstrained a 8 s (Incomplete m)
        → NoneWithin (Octets a) (number_of m) s }
{}

/// The same of a number, a bit string, an octet string, a string of characters and a text (X.691 12, 13, 16, 17, 30).
pub fn fewer_bits_are_no_value()
    ensures truth { (m : Count) (s : Bits) → IsOfBitField 1 s (Incomplete m) → NoneWithin bit (number_of m) s }
    ensures number { (a : Settings) (bounds : Bounds) (mark : Bool) (range : Bounds) (m : Count) (s : Bits)
        → IsOfNumber a bounds mark range s (Incomplete m)
        → NoneWithin (IsNumberOf a bounds mark range) (number_of m) s }
    ensures octets { (a : Settings) (size : Size) (mark : Bool) (m : Count) (s : Bits)
        → IsOfItems a size mark Octet s (Incomplete m)
        → NoneWithin (Counted a size mark octet_items octet) (number_of m) s }
    ensures bits { (a : Settings) (size : Size) (mark : Bool) (m : Count) (s : Bits)
        → IsOfItems a size mark Bit s (Incomplete m)
        → NoneWithin (Counted a size mark bit_items bit) (number_of m) s }
    ensures characters { (a : Settings) (alphabet : List ℕ) (size : Size) (mark : Bool) (m : Count) (s : Bits)
        → IsOfString a alphabet size mark s (Incomplete m)
        → NoneWithin (String a alphabet size mark) (number_of m) s }
    ensures text { (a : Settings) (kind : TextKind) (m : Count) (s : Bits) → IsOfText a kind s (Incomplete m)
        → NoneWithin (Proper (is_text kind) (Octets a)) (number_of m) s }
{}

/// The same of a bitmap of additions (X.691 19.7, 19.8).
pub fn fewer_bits_are_no_bitmap()
    ensures { (a : Settings) (m : Count) (s : Bits) → IsOfBitmap a s (Incomplete m)
        → NoneWithin (IsBitmap a) (number_of m) s }
{}
