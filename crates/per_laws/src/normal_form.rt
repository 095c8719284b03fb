//! The laws of normal forms.

ghost use Rattle.std.specs.Prelude.{◌≡◌, ◌↔◌, Bool, true, length};
ghost use Rattle.rasn_types.specs.Bits.{Bits};
ghost use Rattle.rasn_types.specs.Values.{Value, bits};
ghost use Rattle.rasn_constraints.specs.Bounds.{allows, Size};
ghost use Rattle.rasn_schema.specs.Normal.{normal};
ghost use Rattle.rasn_schema.specs.Schemas.{Schema};
ghost use Rattle.per_laws.specs.NamedBits.{MeanTheSame, IsFewest};

/// The normal form of a normal form is itself (X.691, 19.9).
pub fn normal_form_of_normal_form_is_itself()
    ensures { (s : Schema) (v : Value) →
        normal s (normal s v) ≡ normal s v }
{}

/// Bits that have names have one normal form exactly where they are the same but for zero bits at their ends (X.680,
/// 22.7).
pub fn named_bits_are_told_apart_without_zeros_at_their_ends()
    ensures { (size : Size) (mark : Bool) (bs cs : Bits) →
        (normal (Schema.bit_string size mark true) (bits bs) ≡ normal (Schema.bit_string size mark true) (bits cs))
        ↔ MeanTheSame bs cs }
{}

/// The normal form of bits that have names is the same but for zero bits at its end, and the shortest of those bits
/// that mean the same and whose count the size allows, wherever there are any (X.691, 16.2).
pub fn normal_form_of_named_bits_is_the_shortest_that_the_size_allows()
    ensures same { (size : Size) (mark : Bool) (bs ns : Bits) →
        normal (Schema.bit_string size mark true) (bits bs) ≡ bits ns → MeanTheSame bs ns }
    ensures shortest { (size : Size) (mark : Bool) (bs ns cs : Bits) →
        normal (Schema.bit_string size mark true) (bits bs) ≡ bits ns →
        MeanTheSame bs cs → allows size (length cs) ≡ true → IsFewest size ns cs }
{}
