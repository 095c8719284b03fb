//! A speed: an INTEGER by hand, with the calls of an encoder and a decoder.

ghost use Rattle.std.specs.Prelude.{Some, refl};
ghost use Rattle.rasn_below.specs.Values.{whole};
ghost use Rattle.rasn_below.specs.Types.{INTEGER};
ghost use Rattle.rasn_below.specs.Types.{i128_range, no_constraints};
ghost use Rattle.rasn_below.specs.Types.{always, number_schema};
ghost use Rattle.rasn_below.specs.Types.{simple_levelled, tagged};

use rasn_below::codec::{Decode, Decoder, Encode, Encoder};
use rasn_below::schema::{AsnType, Constraints, TagTree, TypeTree};
use rasn_below::types::{Identifier, Tag};

/// Speed ::= INTEGER
#[derive(Clone, Copy)]
pub struct Speed {
    pub metres_a_second: i128,
}

impl AsnType for Speed {
    const TAG: Tag = Tag::INTEGER;

    ghost TAG = { INTEGER };

    const TAG_TREE: TypeTree = TypeTree(TagTree::Leaf(Tag::INTEGER));

    ghost TAG_TREE = { Some (tagged INTEGER) };

    const IS_CHOICE: bool = false;

    const CONSTRAINTS: Constraints<'static> = Constraints::NONE;

    ghost CONSTRAINTS = { no_constraints };

    ghost schema = { λ c. always (number_schema c i128_range) };

    ghost value = { λ s. whole s.metres_a_second };

    ghost levelled = { λ c. simple_levelled (number_schema c i128_range) tt };

    ghost tag_fits = { λ _ _. refl };

    ghost tree_fits = { λ _ _. (refl, refl) };
}

impl Encode for Speed {
    #[tactic(auto, unfolding(rasn_below::specs::Types::normal))]
    fn encode_with_tag_and_constraints<E: Encoder>(
        &self,
        encoder: &mut E,
        tag: Tag,
        constraints: &Constraints,
        identifier: Identifier,
    ) -> Result<(), E::Error> {
        encoder.encode_integer(tag, constraints, &self.metres_a_second, identifier)
    }
}

impl Decode for Speed {
    fn decode_with_tag_and_constraints<D: Decoder>(
        decoder: &mut D,
        tag: Tag,
        constraints: &Constraints,
    ) -> Result<Speed, D::Error> {
        let metres_a_second = decoder.decode_integer(tag, constraints)?;
        Ok(Speed { metres_a_second })
    }
}
