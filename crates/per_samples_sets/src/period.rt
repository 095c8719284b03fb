//! A SEQUENCE with a UTCTime and a GeneralizedTime.

ghost use Rattle.std.specs.Prelude.{[], ◌∷◌, Some, refl};
ghost use Rattle.rasn_below.specs.Page.{slot_of, fields_of};
ghost use Rattle.rasn_below.specs.Times.{generalized_value, utc_value};
ghost use Rattle.per_samples_sets.specs.Periods.{period};

use rasn_below::page::*;
use rasn_below::types::{GeneralizedTime, UtcTime};

/// SEQUENCE { since UTCTime, until GeneralizedTime OPTIONAL }
#[derive(Clone, Copy, Debug, PartialEq, Eq)]
pub struct Period {
    pub since: UtcTime,
    pub until: Option<GeneralizedTime>,
}

macro_rules! components { ($to:ident $($with:ident)*) => { $to! { [$($with)*]
    required 0 "since" since: UtcTime [];
    optional 1 "until" until: Option<GeneralizedTime> [];
} }; }

const FIELDS: FieldLists = components!(fields);

const BOUNDS: Bounds = components!(bounds);

impl Components for Period {
    const COMPONENTS: FieldLists = FIELDS;

    ghost COMPONENTS = { fields_of period };

    ghost components = { (period, refl) };

    ghost contents = { λ x. Some (utc_value x.since) ∷ slot_of generalized_value x.until ∷ [] };
}

impl Record for Period {
    fn encode_components<E: Encoder>(&self, encoder: &mut E) -> Result<(), E::Error> {
        components!(encode_components self encoder)
    }

    fn decode_components<D: Decoder>(decoder: &mut D) -> Result<Self, D::Error> {
        components!(decode_components decoder)
    }
}
