//! The errors of decoders.

ghost use Rattle.rasn_schema.specs.Structures.{tag_of};
ghost use Rattle.rasn_schema.specs.Errors.{Lacking};

use rasn_types::types::{Codec, Tag};

/// What a decoder refuses by.
pub trait Error: Sized + Drop {
    // An error says, under a variant, that a required addition of a tag isn't there.
    ghost lacks: { Lacking Self };

    /// The refusal of a value of which a required addition, which has this tag, isn't there (X.691 19.9), under the
    /// variant in use. A decoder that has refused refuses from then on: its own `required_extension_not_present` sees
    /// to that. Takes no memory.
    fn required_extension_not_present(tag: Tag, codec: Codec) -> Self
        ensures { lacks (tag_of tag) codec result };
}
