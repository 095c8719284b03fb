//! A SEQUENCE of two required components, by a scope that writes or reads them.

ghost use Rattle.std.specs.Prelude.{◌≡◌};
ghost use Rattle.rasn_below.specs.Types.{AtParts, normals};
ghost use Rattle.rasn_below.specs.Calls.{WrittenParts, AnswersParts};
ghost use Rattle.per_samples_a.specs.Pairs.{pair_parts, pair_contents};

use crate::pair_schema::{A, B};
use rasn_below::codec::{Decode, Decoder, Encode, Encoder};
use rasn_below::schema::Constraints;
use rasn_below::types::{Identifier, Tag};

/// SEQUENCE { a BOOLEAN, b INTEGER }
#[derive(Clone, Copy, Debug, PartialEq)]
pub struct Pair {
    pub a: bool,
    pub b: i128,
}

impl Encode for Pair {
    fn encode_with_tag_and_constraints<E: Encoder>(
        &self,
        encoder: &mut E,
        tag: Tag,
        constraints: &Constraints,
        identifier: Identifier,
    ) -> Result<(), E::Error> {
        let _ = constraints;
        encoder.encode_sequence::<Pair, _, _>(
            tag,
            |e: &mut E| -> Result<(), E::Error>
                ensures law { AtParts pair_parts 0 (λ ps. WrittenParts E.rules ps
                    (normals ps (pair_contents self.entry.now.a self.entry.now.b)) e.old result e.new) }
                ensures kept { E.rules.codec e.new ≡ E.rules.codec e.old }
            {
                self.a.encode_with_tag(e, A)?;
                self.b.encode_with_tag(e, B)
            },
            identifier,
        )
    }
}

impl Decode for Pair {
    fn decode_with_tag_and_constraints<D: Decoder>(
        decoder: &mut D,
        tag: Tag,
        constraints: &Constraints,
    ) -> Result<Pair, D::Error> {
        let _ = constraints;
        decoder.decode_sequence(
            tag,
            None::<fn() -> Pair>,
            |d|
                ensures law { AnswersParts D.rules (pair_parts (D.rules.levels d.old)) (λ x. pair_contents x.a x.b)
                    d.old result d.new }
                ensures kept { D.rules.codec d.new ≡ D.rules.codec d.old }
            {
                let a = bool::decode_with_tag(d, A)?;
                let b = i128::decode_with_tag(d, B)?;
                Ok(Pair { a, b })
            },
        )
    }
}
