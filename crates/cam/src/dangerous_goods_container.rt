// Written by tools/asn1/compile: change the ASN.1, not this file.
//! DangerousGoodsContainer, of the module CAM-PDU-Descriptions.

ghost use Rattle.cam.specs.CamPduDescriptions.{dangerous_goods_container_lists};
ghost use Rattle.rasn_below.specs.Page.{fields_of};
ghost use Rattle.std.specs.Prelude.{Some, [], refl, ◌∷◌};

use its_container::dangerous_goods_basic::DangerousGoodsBasic;
use rasn_below::page::*;

/// DangerousGoodsContainer ::= SEQUENCE {
///     dangerousGoodsBasic DangerousGoodsBasic
/// }
#[derive(Clone, Copy, Debug, PartialEq, Eq)]
pub struct DangerousGoodsContainer {
    pub dangerous_goods_basic: DangerousGoodsBasic,
}

macro_rules! components { ($to:ident $($with:ident)*) => { $to! { [$($with)*]
    required 0 "dangerousGoodsBasic" dangerous_goods_basic: DangerousGoodsBasic [];
} }; }

const FIELDS: FieldLists = components!(fields);

const BOUNDS: Bounds = components!(bounds);

impl Components for DangerousGoodsContainer {
    const COMPONENTS: FieldLists = FIELDS;

    ghost COMPONENTS = { fields_of dangerous_goods_container_lists };

    ghost components = { (dangerous_goods_container_lists, refl) };

    ghost contents = { λ x.
        Some (⟦<DangerousGoodsBasic as AsnType>⟧.value x.dangerous_goods_basic) ∷
        [] };
}

impl Record for DangerousGoodsContainer {
    fn encode_components<E: Encoder>(&self, encoder: &mut E) -> Result<(), E::Error> {
        components!(encode_components self encoder)
    }

    fn decode_components<D: Decoder>(decoder: &mut D) -> Result<Self, D::Error> {
        components!(decode_components decoder)
    }
}
