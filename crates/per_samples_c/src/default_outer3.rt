//! A SEQUENCE of a component with additions, which has a default.

ghost use Rattle.std.specs.Prelude.{[], ◌∷◌, Some, refl};
ghost use Rattle.rasn_below.specs.Page.{fields_of};
ghost use Rattle.per_samples_c.specs.Defaults.{default_outer3, true_false_alone};

use per_samples_b::flagged::Flagged;
use per_samples_b::outer3::Outer3;
use rasn_below::page::*;
use rasn_constructed::{made_record, stands_for_record};
use std::alloc::{AllocError, Global};

/// SEQUENCE { o outer3 DEFAULT (TRUE, FALSE, both additions absent) }
#[derive(Debug, Drop, PartialEq)]
pub struct DefaultOuter3 {
    pub o: Outer3,
}

macro_rules! components { ($to:ident $($with:ident)*) => { $to! { [$($with)*]
    default 0 "o" o: Outer3 [DEFAULT TrueFalseAlone];
} }; }

const FIELDS: FieldLists = components!(fields);

const BOUNDS: Bounds = components!(bounds);

impl Components for DefaultOuter3 {
    const COMPONENTS: FieldLists = FIELDS;

    ghost COMPONENTS = { fields_of default_outer3 };

    ghost components = { (default_outer3, refl) };

    ghost contents = { λ x. Some (⟦<Outer3 as AsnType>⟧.value x.o) ∷ [] };

    ghost depth = { λ x. ⟦<Outer3 as AsnType>⟧.levels x.o };
}

impl Record for DefaultOuter3 {
    fn encode_components<E: Encoder>(&self, encoder: &mut E) -> Result<(), E::Error> {
        components!(encode_components self encoder)
    }

    fn decode_components<D: Decoder>(decoder: &mut D) -> Result<Self, D::Error> {
        components!(decode_components decoder)
    }
}

/// (TRUE, FALSE, both additions absent), as a default of `Outer3`.
#[derive(Clone, Copy, Debug)]
pub struct TrueFalseAlone;

macro_rules! true_false_alone { ($to:ident $($with:ident)*) => { $to! { [$($with)*]
    required first: bool [true];
    required second: bool [false];
    ...;
    group group: Option<Flagged> [ABSENT];
    optional after: Option<OctetString> [ABSENT];
} }; }

impl DefaultOf<Outer3> for TrueFalseAlone {
    ghost default = { λ _. true_false_alone };

    fn stands_for(&self, component: &Outer3, _constraints: &Constraints) -> bool {
        true_false_alone!(stands_for_record component)
    }

    fn made(&self, alloc: Global) -> Result<Outer3, AllocError> {
        true_false_alone!(made_record alloc Outer3)
    }
}
