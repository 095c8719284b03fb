//! What a page of an author's types names, for `use rasn_below::page::*;`. Times and dates are named by themselves, so
//! that a page without them is checked without a calendar; and so is `TagTree`, beside which the check can't state what
//! a type of the same file is written as.

pub use crate::types::{
    Any, BitString, BmpString, Contains, EncodingOf, GeneralString, GraphicString, Ia5String,
    Integer, NamedBits, NumericString, ObjectIdentifier, OctetString, OpenType, PrintableString,
    SetOf, TeletexString, Utf8String, VisibleString,
};
pub use crate::{
    Alternatives, AsnType, Bits, Bounds, ByKind, ChoiceKind, CodedAlternatives, Components,
    Constrained, Constraint, Constraints, Decoder, DefaultOf, EmptyList, Encoder, EnumeratedKind,
    FieldLists, Fields, Item, ItemCounts, ItemLists, Items, Limits, Octets, OfKind, Place, Record,
    SetComponents, SetKind, SetRecord, Tag, Text, Utf8Text, VariantLists, alternative_bounds,
    bounds, constraints, decode_alternative, decode_components, decode_each_component,
    decode_own_alternative, decode_set_components, encode_alternative, encode_components,
    encode_each_component, encode_own_alternative, encode_set_components, fields, item_at,
    item_lists, own_alternative_bounds, own_tags_of_choice, own_variants, place_of_alternative,
    place_of_item, tags_of_choice, variants,
};
