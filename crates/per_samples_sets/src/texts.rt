//! A SEQUENCE of strings of any octets and of a value whose type isn't known.

ghost use Rattle.std.specs.Prelude.{[], ◌∷◌, Some, refl};
ghost use Rattle.rasn_below.specs.Page.{octets, slot_of, fields_of};
ghost use Rattle.per_samples_sets.specs.Texts.{texts};

use rasn_below::page::*;

/// SEQUENCE { title TeletexString, figure GraphicString, note GeneralString OPTIONAL, rest ANY }
#[derive(Debug, Drop, PartialEq)]
pub struct SomeTexts {
    pub title: TeletexString,
    pub figure: GraphicString,
    pub note: Option<GeneralString>,
    pub rest: Any,
}

macro_rules! components { ($to:ident $($with:ident)*) => { $to! { [$($with)*]
    required 0 "title" title: TeletexString [];
    required 1 "figure" figure: GraphicString [];
    optional 2 "note" note: Option<GeneralString> [];
    required 3 "rest" rest: Any [];
} }; }

const FIELDS: FieldLists = components!(fields);

const BOUNDS: Bounds = components!(bounds);

impl Components for SomeTexts {
    const COMPONENTS: FieldLists = FIELDS;

    ghost COMPONENTS = { fields_of texts };

    ghost components = { (texts, refl) };

    ghost contents = { λ x. Some (octets x.title) ∷ Some (octets x.figure) ∷ slot_of octets x.note ∷
        Some (octets x.rest) ∷ [] };
}

impl Record for SomeTexts {
    fn encode_components<E: Encoder>(&self, encoder: &mut E) -> Result<(), E::Error> {
        components!(encode_components self encoder)
    }

    fn decode_components<D: Decoder>(decoder: &mut D) -> Result<Self, D::Error> {
        components!(decode_components decoder)
    }
}
