//! A SEQUENCE of a component with an extension marker, which has a default.

ghost use Rattle.std.specs.Prelude.{[], ◌∷◌, Some, refl};
ghost use Rattle.rasn_below.specs.Page.{fields_of};
ghost use Rattle.per_samples_c.specs.Defaults.{default_outer1, true_false};

use per_samples_b::outer1::Outer1;
use rasn_below::page::*;
use rasn_constructed::{made_record, stands_for_record};
use std::alloc::{AllocError, Global};

/// SEQUENCE { o outer1 DEFAULT (TRUE, FALSE) }
#[derive(Clone, Copy, Debug, PartialEq)]
pub struct DefaultOuter1 {
    pub o: Outer1,
}

macro_rules! components { ($to:ident $($with:ident)*) => { $to! { [$($with)*]
    default 0 "o" o: Outer1 [DEFAULT TrueFalse];
} }; }

const FIELDS: FieldLists = components!(fields);

const BOUNDS: Bounds = components!(bounds);

impl Components for DefaultOuter1 {
    const COMPONENTS: FieldLists = FIELDS;

    ghost COMPONENTS = { fields_of default_outer1 };

    ghost components = { (default_outer1, refl) };

    ghost contents = { λ x. Some (⟦<Outer1 as AsnType>⟧.value x.o) ∷ [] };

    ghost depth = { λ x. ⟦<Outer1 as AsnType>⟧.levels x.o };
}

impl Record for DefaultOuter1 {
    fn encode_components<E: Encoder>(&self, encoder: &mut E) -> Result<(), E::Error> {
        components!(encode_components self encoder)
    }

    fn decode_components<D: Decoder>(decoder: &mut D) -> Result<Self, D::Error> {
        components!(decode_components decoder)
    }
}

/// (TRUE, FALSE), as a default of `Outer1`.
#[derive(Clone, Copy, Debug)]
pub struct TrueFalse;

macro_rules! true_false { ($to:ident $($with:ident)*) => { $to! { [$($with)*]
    required first: bool [true];
    required second: bool [false];
} }; }

impl DefaultOf<Outer1> for TrueFalse {
    ghost default = { λ _. true_false };

    fn stands_for(&self, component: &Outer1, _constraints: &Constraints) -> bool {
        true_false!(stands_for_record component)
    }

    fn made(&self, alloc: Global) -> Result<Outer1, AllocError> {
        true_false!(made_record alloc Outer1)
    }
}
