//! A SEQUENCE of components with defaults, one an item and one a record.

ghost use Rattle.std.specs.Prelude.{[], ◌∷◌, Some, true, false, refl};
ghost use Rattle.rasn_below.specs.Page.{truth, fields_of};
ghost use Rattle.per_core.specs.Rows.{aligned, unaligned, IsWrittenAs};
ghost use Rattle.per_samples_c.specs.Colors.{color};
ghost use Rattle.per_samples_c.specs.Defaults.{default_color};
ghost use Rattle.per_samples_c.specs.declared.colors.TwoColors.TheVariants.{A};

use crate::colors::TwoColors;
use crate::default_outer1::TrueFalse;
use per_samples_b::outer1::Outer1;
use rasn_below::page::*;

/// SEQUENCE { color TwoColors DEFAULT b, outer outer1 DEFAULT (TRUE, FALSE), last BOOLEAN }
#[derive(Clone, Copy, Debug, PartialEq)]
pub struct DefaultColor {
    pub color: TwoColors,
    pub outer: Outer1,
    pub last: bool,
}

macro_rules! components { ($to:ident $($with:ident)*) => { $to! { [$($with)*]
    default 0 "color" color: TwoColors [DEFAULT Item(TwoColors::B)];
    default 1 "outer" outer: Outer1 [DEFAULT TrueFalse];
    required 2 "last" last: bool [];
} }; }

const FIELDS: FieldLists = components!(fields);

const BOUNDS: Bounds = components!(bounds);

impl Components for DefaultColor {
    const COMPONENTS: FieldLists = FIELDS;

    ghost COMPONENTS = { fields_of default_color };

    ghost components = { (default_color, refl) };

    ghost contents = { λ x.
        Some (color x.color) ∷ Some (⟦<Outer1 as AsnType>⟧.value x.outer) ∷ Some (truth x.last) ∷ [] };

    ghost depth = { λ x. ⟦<Outer1 as AsnType>⟧.levels x.outer };
}

impl Record for DefaultColor {
    fn encode_components<E: Encoder>(&self, encoder: &mut E) -> Result<(), E::Error> {
        components!(encode_components self encoder)
    }

    fn decode_components<D: Decoder>(decoder: &mut D) -> Result<Self, D::Error> {
        components!(decode_components decoder)
    }
}

/// Components that aren't at their defaults are after two presence bits (X.691 19.2, 19.5).
#[tactic(auto, unfolding(per_core::specs::Rows::bytes, rasn_below::specs::Types::normal))]
pub fn other_components_stand_after_their_bits()
    ensures none { let own = ⟦<DefaultColor as AsnType>⟧ in
        IsWrittenAs unaligned (own.schema own.CONSTRAINTS) own.levels own.value
        (record { color = A; outer = record { first = true; second = true }; last = true }) (0xce ∷ []) }
    ensures none_aligned { let own = ⟦<DefaultColor as AsnType>⟧ in
        IsWrittenAs aligned (own.schema own.CONSTRAINTS) own.levels own.value
        (record { color = A; outer = record { first = true; second = true }; last = true }) (0xce ∷ []) }
{}
