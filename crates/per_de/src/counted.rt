//! The decoder of types that are data: records by counts, items and alternatives by counts and places.

ghost use Rattle.rasn_schema.specs.Enumerations.{addeds_of, is_extensible, items_of};
ghost use Rattle.rasn_traits.specs.Calls.{Reads, freely_read};
ghost use Rattle.rasn_traits.specs.Counted.{OpensPlacedToRead, item_at};
ghost use Rattle.per_decoding.specs.Rules.{decoder_rules, plain_rules};
ghost use Rattle.per_de.specs.InTurn.{EntersRecord, is_choice_in_turn};
ghost use Rattle.per_de.specs.Steps.{TakesIndex};

use crate::turns::{Around, Turn};
use crate::{Alternative, Decoder, Scope};
use per_decoding::choices::{take_choice_index, take_root_index};
use per_decoding::items::{take_item, take_short_item};
use per_decoding::source::Extension;
use per_read::error::DecodeError;
use rasn_schema::items::{ItemCounts, Place};
use rasn_traits::counted::CountedDecoder;
use rasn_types::types::Tag;

impl<'input> CountedDecoder for Decoder<'input> {
    fn decode_item(&mut self, _tag: Tag, items: ItemCounts) -> Result<Place, DecodeError> {
        self.begin_value()?;
        let mut reader = self.reader();
        let taken = take_short_item(&mut reader, items.roots, items.addeds);
        let left = reader.bits().len();
        let Some(place) = taken else {
            return self.read_item(items);
        };
        self.advance(left);
        Ok(place)
    }

    fn open_record(
        &mut self,
        _tag: Tag,
        components: usize,
        presence_bits: usize,
        additions: Option<usize>,
    ) -> Result<Around<Scope>, DecodeError> {
        self.begin_value()?;
        let turn = self.turn();
        let scope = self.enter_record(presence_bits, additions)?;
        self.set_turn(Turn::Awaiting(components));
        Ok(Around { scope, turn })
    }

    fn open_fields_of(
        &mut self,
        _tag: Tag,
        presence_bits: usize,
        additions: Option<usize>,
    ) -> Result<Around<Scope>, DecodeError> {
        self.begin_value()?;
        let turn = self.turn();
        let scope = self.enter_record(presence_bits, additions)?;
        self.set_turn(Turn::Uncounted);
        Ok(Around { scope, turn })
    }

    fn close_fields_of(&mut self, outside: Around<Scope>) -> Result<(), DecodeError> {
        self.close_uncounted(outside)
    }

    fn open_alternative_of(
        &mut self,
        _tag: Tag,
        alternatives: ItemCounts,
    ) -> Result<(Place, Around<Alternative<'input>>), DecodeError> {
        self.begin_alternative(alternatives)
    }
}

impl<'input> Decoder<'input> {
    /// Reads an item of an ENUMERATED in whichever form it is written (X.691 14), and answers where it stands.
    #[inline(never)]
    fn read_item(&mut self, items: ItemCounts) -> Result<Place, DecodeError>
        ensures { Reads (freely_read plain_rules) (items_of items) item_at self.old result self.new }
    {
        self.check_unfailed()?;
        let mut reader = self.reader();
        let taken = take_item(&mut reader, items.roots, items.addeds);
        let left = reader.bits().len();
        self.answer(taken, left)
    }

    /// Takes the index of a CHOICE of so many alternatives (X.691 23.5 to 23.8), and answers the place of its
    /// alternative.
    #[inline(always)]
    fn take_place(&mut self, alternatives: ItemCounts) -> Result<Place, DecodeError>
        ensures { TakesIndex alternatives.roots (addeds_of alternatives.addeds) (is_extensible alternatives.addeds)
            self.old result self.new }
    {
        let mut reader = self.reader();
        let taken = take_root_index(&mut reader, alternatives.roots, alternatives.addeds);
        let left = reader.bits().len();
        let Some(place) = taken else {
            return self.take_any_place(alternatives);
        };
        self.advance(left);
        Ok(place)
    }

    /// Takes the index of a CHOICE in whichever form it is written.
    #[inline(never)]
    fn take_any_place(&mut self, alternatives: ItemCounts) -> Result<Place, DecodeError>
        ensures { TakesIndex alternatives.roots (addeds_of alternatives.addeds) (is_extensible alternatives.addeds)
            self.old result self.new }
    {
        let mut reader = self.reader();
        let taken = take_choice_index(&mut reader, alternatives.roots, alternatives.addeds);
        let left = reader.bits().len();
        self.answer(taken, left)
    }

    /// Enters a record of which so many root components have a presence bit, and that has so many additions after its
    /// extension marker, where it has one, whatever was counted.
    #[inline(always)]
    fn enter_record(
        &mut self,
        presence_bits: usize,
        additions: Option<usize>,
    ) -> Result<Scope, DecodeError>
        ensures { EntersRecord presence_bits additions self.old result self.new }
    {
        self.check_unfailed()?;
        let levels = self.level_inside()?;
        let extends = self.take_extension_bit(additions.is_some())?;
        let presences = self.take_presences(presence_bits as u128)?;
        Ok(self.enter(Scope {
            presences,
            extension: Extension::of_bit(extends),
            expected: additions.unwrap_or(0),
            levels,
        }))
    }

    /// Reads the index of a CHOICE of so many alternatives, a component of what is around it, and enters the open type
    /// of one after the extension marker: one value is to come. What waits outside is made once, at its end.
    #[inline(always)]
    pub(crate) fn begin_alternative(
        &mut self,
        alternatives: ItemCounts,
    ) -> Result<(Place, Around<Alternative<'input>>), DecodeError>
        ensures { OpensPlacedToRead decoder_rules is_choice_in_turn alternatives self.old result self.new }
    {
        let turn = self.begin_scope()?;
        let levels = self.level_inside()?;
        let place = self.take_place(alternatives)?;
        let scope = self.enter(Scope::without_record(levels));
        let contents = Decoder::open_alternative(self, place)?;
        self.set_turn(Turn::Awaiting(1));
        let scope = Alternative { scope, contents };
        Ok((place, Around { scope, turn }))
    }
}
