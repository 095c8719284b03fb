//! How an `Option` is written where a value is asked for: as what it holds, and `None` not at all. A component that may
//! be absent is written by `encode_some` and `encode_none`.

ghost use Rattle.std.specs.Prelude.{◌≡◌, is_some};

use crate::codec::{Encode, Encoder};
use rasn_schema::schema::Constraints;
use rasn_types::types::{Identifier, Tag};

impl<T: Encode> Encode for Option<T> {
    fn encode_with_tag_and_constraints<E: Encoder>(
        &self,
        encoder: &mut E,
        tag: Tag,
        constraints: &Constraints,
        identifier: Identifier,
    ) -> Result<(), E::Error> {
        match self {
            Some(value) => {
                value.encode_with_tag_and_constraints(encoder, tag, constraints, identifier)
            }
            None => encoder.encode_absent(tag, identifier),
        }
    }

    /// Whether there is a value to write.
    fn is_present(&self) -> bool
        ensures { result ≡ is_some self.now }
    {
        self.is_some()
    }
}
