//! Calls for types that are data: a record by how many components and additions it has and how many components have
//! presence bits, an item and an alternative by how many there are and where it stands.

ghost use Rattle.rasn_schema.specs.Enumerations.{items_of};
ghost use Rattle.rasn_traits.specs.Calls.{freely_read, Reads, Writes};
ghost use Rattle.rasn_traits.specs.Counted.{ClosesAny, ClosesFieldsOf, ClosesGroupOf, IsAnyInTurn};
ghost use Rattle.rasn_traits.specs.Counted.{IsAnyReadInTurn, OpensCounted, OpensCountedToRead, OpensFieldsOf};
ghost use Rattle.rasn_traits.specs.Counted.{OpensFieldsOfToRead, OpensPlaced, OpensPlacedToRead, WritesNothing};
ghost use Rattle.rasn_traits.specs.Counted.{WritesOther, item_at, stands_in, variant_counts};
ghost use Rattle.rasn_traits.specs.Scopes.{ClosesRead};
ghost use Rattle.std.specs.Prelude.{◌≡◌, true};

use crate::decoder::Decoder;
use crate::encoder::Encoder;
use rasn_schema::choices::Choice;
use rasn_schema::items::{ItemCounts, Place};
use rasn_types::types::{Identifier, Tag};

/// An encoder of types that are data.
pub trait CountedEncoder: Encoder {
    /// Writes the item of an ENUMERATED that is at a place (X.691 14).
    fn encode_item(
        &mut self,
        tag: Tag,
        items: ItemCounts,
        place: Place,
        identifier: Identifier,
    ) -> Result<(), Self::Error>
        requires { stands_in items place ≡ true }
        ensures { Writes Self.rules (items_of items) (item_at place) self.old result self.new };

    /// Opens a SEQUENCE (X.691 19), or a SET whose components come in ascending order of their smallest tags (X.691
    /// 21): it has so many root components, of which so many have a presence bit, and so many additions after its
    /// extension marker, where it has one. The calls from here to `close_record` write its root components, and then
    /// give its additions.
    fn open_record(
        &mut self,
        tag: Tag,
        components: usize,
        presence_bits: usize,
        additions: Option<usize>,
        identifier: Identifier,
    ) -> Result<Self::Scope, Self::Error>
        ensures { OpensCounted Self.rules Self.opens components presence_bits additions self.old result self.new };

    /// Closes a record in which its components were written and its additions given. Where one is missing, or one too
    /// many came, it refuses.
    fn close_record(&mut self, scope: Self::Scope) -> Result<(), Self::Error>
        ensures { ClosesAny Self.rules Self.opens scope self.old result self.new };

    /// Opens a record as `open_record` does, but for `close_fields_of` alone: what is written in it isn't counted.
    fn open_fields_of(
        &mut self,
        tag: Tag,
        presence_bits: usize,
        additions: Option<usize>,
        identifier: Identifier,
    ) -> Result<Self::Scope, Self::Error>
        ensures { OpensFieldsOf Self.rules Self.opens_fields presence_bits additions self.old result self.new };

    /// Closes a record that `open_fields_of` opened. The caller shows that each component was written as it is listed,
    /// and each addition given, so that nothing need be counted.
    fn close_fields_of(&mut self, scope: Self::Scope) -> Result<(), Self::Error>
        requires in_turn { IsAnyInTurn Self.rules Self.opens_fields scope self.old }
        ensures { ClosesFieldsOf Self.rules Self.opens_fields scope self.old result self.new };

    /// Opens a CHOICE (X.691 23) of so many alternatives, to write the one at a place: the calls from here to
    /// `close_alternative` write its value.
    fn open_alternative_of(
        &mut self,
        tag: Tag,
        alternatives: ItemCounts,
        place: Place,
        identifier: Identifier,
    ) -> Result<Self::Alternative, Self::Error>
        requires { stands_in alternatives place ≡ true }
        ensures { OpensPlaced Self.rules Self.opens_alternative alternatives place self.old result self.new };

    /// Closes an open type in which an addition group was written, of which a root component is required or none is:
    /// one that holds nothing is given as absent (X.691 19.9).
    fn close_group_of(
        &mut self,
        addition: Self::Addition,
        has_required: bool,
    ) -> Result<(), Self::Error>
        ensures { ClosesGroupOf Self.rules Self.opens_addition has_required addition self.old result self.new };

    /// Refuses a value that isn't of its type's kind. Takes no memory.
    fn refuse_other(&mut self) -> Result<(), Self::Error>
        ensures { WritesOther Self.rules self.old result self.new };

    /// Refuses since memory ran out for what the caller made of a value.
    fn refuse_out_of_memory(&mut self) -> Result<(), Self::Error>
        ensures { WritesNothing Self.rules self.old result self.new };
}

/// A decoder of types that are data.
pub trait CountedDecoder: Decoder {
    /// Reads an item of an ENUMERATED (X.691 14), and answers where it stands. Takes no memory.
    fn decode_item(&mut self, tag: Tag, items: ItemCounts) -> Result<Place, Self::Error>
        ensures { Reads (freely_read Self.rules) (items_of items) item_at self.old result self.new };

    /// Opens a SEQUENCE (X.691 19), or a SET whose components are read in ascending order of their smallest tags (X.691
    /// 21), which takes a level: it has so many root components, of which so many have a presence bit, and so many
    /// additions after its extension marker, where it has one. The calls from here to `close_sequence` read its root
    /// components, and then its additions. At no level left it refuses.
    fn open_record(
        &mut self,
        tag: Tag,
        components: usize,
        presence_bits: usize,
        additions: Option<usize>,
    ) -> Result<Self::Scope, Self::Error>
        ensures { OpensCountedToRead Self.rules Self.opens components presence_bits additions
            self.old result self.new };

    /// Opens a record as `open_record` does, but for `close_fields_of` alone: what is read in it isn't counted.
    fn open_fields_of(
        &mut self,
        tag: Tag,
        presence_bits: usize,
        additions: Option<usize>,
    ) -> Result<Self::Scope, Self::Error>
        ensures { OpensFieldsOfToRead Self.rules Self.opens_fields presence_bits additions
            self.old result self.new };

    /// Closes a record that `open_fields_of` opened, as `close_sequence` does one that counts what comes. The caller
    /// shows that all its components were read as they are listed, so that nothing need be counted.
    fn close_fields_of(&mut self, scope: Self::Scope) -> Result<(), Self::Error>
        requires in_turn { IsAnyReadInTurn Self.rules Self.opens_fields scope self.old }
        ensures { ClosesRead Self.rules Self.unended_fields Self.closes_fields scope self.old result self.new };

    /// Reads the index of a CHOICE of so many alternatives (X.691 23), which takes a level, answers where its
    /// alternative stands, and opens the open type of one after the extension marker (X.691 23.8): the calls from here
    /// to `close_choice` read the value of the alternative. At no level left it refuses.
    fn open_alternative_of(
        &mut self,
        tag: Tag,
        alternatives: ItemCounts,
    ) -> Result<(Place, Self::Alternative), Self::Error>
        ensures { OpensPlacedToRead Self.rules Self.opens_choice alternatives self.old result self.new };
}

/// How many alternatives a CHOICE has.
#[inline(always)]
pub fn alternative_counts<C: Choice>() -> ItemCounts
    ensures { result ≡ variant_counts C.VARIANTS C.EXTENDED_VARIANTS }
{
    let roots = C::VARIANTS;
    let addeds = match C::EXTENDED_VARIANTS {
        Some(variants) => Some(variants.len()),
        None => None,
    };
    ItemCounts {
        roots: roots.len(),
        addeds,
    }
}
