//! A SET of two required components, by a scope that writes them in the order of its fields, which isn't that of its
//! tags.

ghost use Rattle.std.specs.Prelude.{◌≡◌};
ghost use Rattle.rasn_below.specs.Types.{AtParts, normals};
ghost use Rattle.rasn_below.specs.Calls.{WrittenParts};
ghost use Rattle.per_samples_sets.specs.SetPairs.{set_pair_parts, set_pair_contents};

use crate::set_pair_schema::{A, B};
use rasn_below::Constraints;
use rasn_below::codec::{Encode, Encoder, EncoderExt as _};
use rasn_below::types::{Identifier, Tag};

/// SET { b [1] INTEGER, a [0] BOOLEAN }
#[derive(Clone, Copy, Debug, PartialEq, Eq)]
pub struct SetPair {
    pub b: i128,
    pub a: bool,
}

impl Encode for SetPair {
    fn encode_with_tag_and_constraints<E: Encoder>(
        &self,
        encoder: &mut E,
        tag: Tag,
        constraints: &Constraints,
        identifier: Identifier,
    ) -> Result<(), E::Error> {
        let _ = constraints;
        encoder.encode_set::<SetPair, _, _>(
            tag,
            |e: &mut E| -> Result<(), E::Error>
                ensures law { AtParts set_pair_parts 0 (λ ps. WrittenParts E.rules ps
                    (normals ps (set_pair_contents self.entry.now.b self.entry.now.a)) e.old result e.new) }
                ensures kept { E.rules.codec e.new ≡ E.rules.codec e.old }
            {
                self.b.encode_with_tag(e, B)?;
                self.a.encode_with_tag(e, A)
            },
            identifier,
        )
    }
}
