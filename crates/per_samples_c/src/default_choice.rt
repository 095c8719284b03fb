//! A SEQUENCE of choices, which have defaults.

ghost use Rattle.std.specs.Prelude.{[], ◌∷◌, Some, refl};
ghost use Rattle.rasn_below.specs.Page.{fields_of};
ghost use Rattle.per_samples_c.specs.Defaults.{a_true, b_false, default_choice};

use per_samples_b::alt2::Alt2;
use rasn_below::page::*;
use rasn_constructed::{alternative_behind_stands_for, alternative_made, alternative_stands_for};
use std::alloc::{AllocError, Global};

/// SEQUENCE { first Alt2 DEFAULT a : TRUE, second Alt2 DEFAULT b : FALSE }
#[derive(Clone, Copy, Debug, PartialEq, Eq)]
pub struct DefaultChoice {
    pub first: Alt2,
    pub second: Alt2,
}

macro_rules! components { ($to:ident $($with:ident)*) => { $to! { [$($with)*]
    default 0 "first" first: Alt2 [DEFAULT ATrue];
    default 1 "second" second: Alt2 [DEFAULT BFalse];
} }; }

const FIELDS: FieldLists = components!(fields);

const BOUNDS: Bounds = components!(bounds);

impl Components for DefaultChoice {
    const COMPONENTS: FieldLists = FIELDS;

    ghost COMPONENTS = { fields_of default_choice };

    ghost components = { (default_choice, refl) };

    ghost contents = { λ x. Some (⟦<Alt2 as AsnType>⟧.value x.first) ∷ Some (⟦<Alt2 as AsnType>⟧.value x.second) ∷ [] };

    ghost depth = { λ _. 1 };
}

impl Record for DefaultChoice {
    fn encode_components<E: Encoder>(&self, encoder: &mut E) -> Result<(), E::Error> {
        components!(encode_components self encoder)
    }

    fn decode_components<D: Decoder>(decoder: &mut D) -> Result<Self, D::Error> {
        components!(decode_components decoder)
    }
}

/// a : TRUE, as a default of `Alt2`.
#[derive(Clone, Copy, Debug)]
pub struct ATrue;

macro_rules! a_true { ($to:ident $($with:ident)*) => { $to! { [$($with)*]
    0 A: bool [true];
    B(_)
} }; }

impl DefaultOf<Alt2> for ATrue {
    ghost default = { λ _. a_true };

    fn stands_for(&self, component: &Alt2, _constraints: &Constraints) -> bool {
        a_true!(alternative_stands_for component Alt2)
    }

    fn made(&self, alloc: Global) -> Result<Alt2, AllocError> {
        a_true!(alternative_made alloc Alt2)
    }
}

/// b : FALSE, as a default of `Alt2`.
#[derive(Clone, Copy, Debug)]
pub struct BFalse;

macro_rules! b_false { ($to:ident $($with:ident)*) => { $to! { [$($with)*]
    0 B: bool [false];
    A(_)
} }; }

impl DefaultOf<Alt2> for BFalse {
    ghost default = { λ _. b_false };

    fn stands_for(&self, component: &Alt2, _constraints: &Constraints) -> bool {
        b_false!(alternative_behind_stands_for component Alt2)
    }

    fn made(&self, alloc: Global) -> Result<Alt2, AllocError> {
        b_false!(alternative_made alloc Alt2)
    }
}
