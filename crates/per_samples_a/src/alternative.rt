//! A CHOICE of two alternatives.

ghost use Rattle.std.specs.Prelude.{refl, true, [], ◌∷◌};
ghost use Rattle.rasn_below.specs.Page.{variants_listed, ◌to◌};
ghost use Rattle.per_core.specs.Rows.{aligned, unaligned, IsWrittenAs};
ghost use Rattle.per_samples_a.specs.Alternatives.{alternatives, alternative_of};
ghost use Rattle.per_samples_a.specs.declared.alternative.Alternative.TheVariants.{X, Y};

use rasn_below::page::*;

/// INTEGER (0..7)
pub type ZeroTo7 = Constrained<u8, ZeroTo7Limits>;

/// The constraints of `ZeroTo7`.
#[derive(Clone, Copy, Debug, PartialEq, Eq)]
pub struct ZeroTo7Limits;

const ZERO_TO_7: &[Constraint] = constraints!(0..=7);

impl Limits for ZeroTo7Limits {
    const LIMITS: Constraints<'static> = Constraints(ZERO_TO_7);

    ghost LIMITS = { 0 to 7 };
}

/// CHOICE { x BOOLEAN, y INTEGER (0..7) }
#[derive(Clone, Copy, Debug, PartialEq, Eq)]
pub enum Alternative {
    X(bool),
    Y(ZeroTo7),
}

macro_rules! alternatives { ($to:ident $($with:ident)*) => { $to! { [$($with)*]
    0 "x" X: bool [];
    1 "y" Y: ZeroTo7 [];
} }; }

const VARIANTS: VariantLists = alternatives!(variants);

const BOUNDS: Bounds = alternatives!(alternative_bounds);

/// The tags of an untagged `Alternative`.
pub(crate) const ALTERNATIVE_TAGS: rasn_below::TagTree = alternatives!(tags_of_choice);

impl OfKind for Alternative {
    type Kind = ChoiceKind;
}

impl Alternatives for Alternative {
    const ALTERNATIVES: VariantLists = VARIANTS;

    ghost ALTERNATIVES = { variants_listed alternatives };

    ghost alternatives = { (alternatives, refl) };

    ghost chosen = { alternative_of };

    ghost are_variants = { record { distinct = refl; few = refl } };
}

impl CodedAlternatives for Alternative {
    fn place(&self) -> Place {
        alternatives!(place_of_alternative self)
    }

    fn encode_alternative<E: Encoder>(&self, encoder: &mut E) -> Result<(), E::Error> {
        alternatives!(encode_alternative self encoder)
    }

    fn decode_alternative<D: Decoder>(decoder: &mut D, place: Place) -> Result<Self, D::Error> {
        alternatives!(decode_alternative decoder place)
    }
}

impl ByKind for Alternative {}

/// The index in one bit, and the value of the alternative after it (X.691 23.6).
#[tactic(auto, unfolding(per_core::specs::Rows::bytes, rasn_below::specs::Types::normal))]
pub fn alternative_is_written_after_its_index()
    ensures first { let own = ⟦<Alternative as AsnType>⟧ in
        IsWrittenAs unaligned (own.schema own.CONSTRAINTS) own.levels own.value (X true) (0x40 ∷ []) }
    ensures second { let own = ⟦<Alternative as AsnType>⟧ in
        IsWrittenAs unaligned (own.schema own.CONSTRAINTS) own.levels own.value
        (Y (record { value = 5; limits = record {} })) (0xd0 ∷ []) }
    ensures second_aligned { let own = ⟦<Alternative as AsnType>⟧ in
        IsWrittenAs aligned (own.schema own.CONSTRAINTS) own.levels own.value
        (Y (record { value = 5; limits = record {} })) (0xd0 ∷ []) }
{}
