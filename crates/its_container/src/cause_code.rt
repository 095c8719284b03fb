// Written by tools/asn1/compile: change the ASN.1, not this file.
//! CauseCode, of the module ITS-Container.

ghost use Rattle.its_container.specs.ItsContainer.{cause_code_lists};
ghost use Rattle.rasn_below.specs.Page.{fields_of, whole};
ghost use Rattle.std.specs.Prelude.{Some, [], pos, refl, ◌∷◌};

use crate::aliases::{CauseCodeType, SubCauseCodeType};
use rasn_below::page::*;

/// CauseCode ::= SEQUENCE {
///     causeCode CauseCodeType,
///     subCauseCode SubCauseCodeType,
///     ...
/// }
#[derive(Clone, Copy, Debug, PartialEq, Eq)]
pub struct CauseCode {
    pub cause_code: CauseCodeType,
    pub sub_cause_code: SubCauseCodeType,
}

macro_rules! components { ($to:ident $($with:ident)*) => { $to! { [$($with)*]
    required 0 "causeCode" cause_code: CauseCodeType [0..=255];
    required 1 "subCauseCode" sub_cause_code: SubCauseCodeType [0..=255];
    ...;
} }; }

const FIELDS: FieldLists = components!(fields);

const BOUNDS: Bounds = components!(bounds);

impl Components for CauseCode {
    const COMPONENTS: FieldLists = FIELDS;

    ghost COMPONENTS = { fields_of cause_code_lists };

    ghost components = { (cause_code_lists, refl) };

    ghost contents = { λ x.
        Some (whole (pos x.cause_code)) ∷
        Some (whole (pos x.sub_cause_code)) ∷
        [] };
}

impl Record for CauseCode {
    fn encode_components<E: Encoder>(&self, encoder: &mut E) -> Result<(), E::Error> {
        components!(encode_components self encoder)
    }

    fn decode_components<D: Decoder>(decoder: &mut D) -> Result<Self, D::Error> {
        components!(decode_components decoder)
    }
}
