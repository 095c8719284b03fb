//! A SEQUENCE of 65 optional additions, kept as an array.

ghost use Rattle.std.specs.Prelude.{map};
ghost use Rattle.std.specs.Prelude.{[], refl};
ghost use Rattle.rasn_below.specs.Page.{truth, slot_of, fields_of};
ghost use Rattle.per_samples_b.specs.Many.{many};

use crate::additions::{TruthsToRead, TruthsToWrite};
use rasn_below::cells::{End, Listed};
use rasn_below::page::*;
use rasn_below::types::Identifier;
use rasn_below::{Decode, Encode, Field, Presence, context_tag, tag_tree};

/// SEQUENCE { ..., a0 BOOLEAN OPTIONAL, a1 BOOLEAN OPTIONAL, and so on up to a64 }
#[derive(Clone, Copy, Debug, PartialEq)]
pub struct Many {
    /// The additions, in their order.
    pub options: [Option<bool>; 65],
}

/// Optional fields at their places, which are their tags (X.680 25.7).
macro_rules! optional_fields {
    ($($place:literal $name:literal),*) => {
        &[$(Field {
            index: $place,
            tag: context_tag!($place),
            tag_tree: tag_tree!($place),
            presence: Presence::Optional,
            name: $name,
        }),*]
    };
}

/// The components before the marker, of which there are none.
const NO_COMPONENTS: Listed<End> = Listed {
    fields: &[],
    constraints: &[],
    cells: End {},
};

const FIELDS: FieldLists = FieldLists {
    root: &[],
    added: Some(optional_fields!(
    0 "a0", 1 "a1", 2 "a2", 3 "a3", 4 "a4", 5 "a5", 6 "a6", 7 "a7", 8 "a8", 9 "a9", 10 "a10",
    11 "a11", 12 "a12", 13 "a13", 14 "a14", 15 "a15", 16 "a16", 17 "a17", 18 "a18", 19 "a19",
    20 "a20", 21 "a21", 22 "a22", 23 "a23", 24 "a24", 25 "a25", 26 "a26", 27 "a27", 28 "a28",
    29 "a29", 30 "a30", 31 "a31", 32 "a32", 33 "a33", 34 "a34", 35 "a35", 36 "a36", 37 "a37",
    38 "a38", 39 "a39", 40 "a40", 41 "a41", 42 "a42", 43 "a43", 44 "a44", 45 "a45", 46 "a46",
    47 "a47", 48 "a48", 49 "a49", 50 "a50", 51 "a51", 52 "a52", 53 "a53", 54 "a54", 55 "a55",
    56 "a56", 57 "a57", 58 "a58", 59 "a59", 60 "a60", 61 "a61", 62 "a62", 63 "a63", 64 "a64"
)),
};

impl Components for Many {
    const COMPONENTS: FieldLists = FIELDS;

    ghost COMPONENTS = { fields_of many };

    ghost components = { (many, refl) };

    ghost contents = { λ x. [] };

    ghost added = { λ x. map (slot_of truth) x.options };
}

impl Encode for Many {
    fn encode_with_tag_and_constraints<E: Encoder>(
        &self,
        encoder: &mut E,
        tag: Tag,
        _: &Constraints,
        identifier: Identifier,
    ) -> Result<(), E::Error> {
        let additions = TruthsToWrite {
            options: self.options,
        };
        encoder.encode_record::<Self, _, _, _>(tag, &NO_COMPONENTS, &additions, identifier)
    }
}

impl Decode for Many {
    fn decode_with_tag_and_constraints<D: Decoder>(
        decoder: &mut D,
        tag: Tag,
        _: &Constraints,
    ) -> Result<Many, D::Error> {
        let ((), options) = decoder.decode_record::<Self, _, _>(
            tag,
            &NO_COMPONENTS,
            &TruthsToRead,
        )?;
        Ok(Many { options })
    }
}
