//! The decoder of types that are pages: each value by what its type states, in turn.

ghost use Rattle.std.specs.Prelude.{length};
ghost use Rattle.per_read.specs.Lists.{most};
ghost use Rattle.per_decoding.specs.Additions.{ClosesAddition};
ghost use Rattle.per_decoding.specs.Choices.{ClosesChoice, UnendedChoice};
ghost use Rattle.per_decoding.specs.Faults.{UnendedAddition};
ghost use Rattle.per_decoding.specs.Rules.{AwaitsValues, decoder_rules};
ghost use Rattle.per_decoding.specs.InTurn.{AddsInTurn, ChoosesInTurn, ContainsInTurn, Leaves, Unfinished};
ghost use Rattle.per_decoding.proofs.Scoping.Counted.{additions_well, bags_well, choices_well, contents_well};
ghost use Rattle.per_decoding.proofs.Scoping.Counted.{decodes_well, errors_well, scopes_well, sets_well};
ghost use Rattle.per_decoding.proofs.Scoping.InTurn.{all_past, none_past};
ghost use Rattle.per_decoding.specs.Turns.{awaiting, is_complete, is_uncounted, uncounted};
ghost use Rattle.per_de.specs.InTurn.{closes_in_turn, closes_uncounted, is_open_in_turn, is_open_uncounted};
ghost use Rattle.per_de.specs.InTurn.{unended_in_turn, unended_uncounted};
ghost use Rattle.per_de.specs.Lists.{IsCountedList, IsListInTurn};
ghost use Rattle.per_de.specs.Laws.{elements_well, lists_well};
ghost use Rattle.per_de.specs.Outsides.{outside_choice_of, outside_record_of, outside_addition_of};
ghost use Rattle.per_de.specs.Lending.{AreLent};
ghost use Rattle.per_de.specs.Turns.{turn_of};

use crate::choices::tag_at;
use crate::turns::{Around, Mode, Turn};
use crate::{Addition, Alternative, Decoder, OpenedList, Scope};
use per_decoding::dates::take_date;
use per_decoding::enumerated::take_root_item;
use per_decoding::identifiers::take_object_identifier;
use per_decoding::integers::take_short_integer;
use per_decoding::times::{take_generalized_time, take_utc_time};
use per_read::error::{DecodeError, DecodeErrorKind};
use rasn_schema::choices::Choice;
use rasn_schema::constraints::Constraints;
use rasn_schema::enumerated::Enumerated;
use rasn_schema::fields::Constructed;
use rasn_schema::items::Place;
use rasn_schema::schema::IntegerType;
use rasn_strings::civil::{CivilDate, GeneralizedMoment, UtcMoment};
use rasn_strings::strings::StaticPermittedAlphabet;
use rasn_traits::counted::alternative_counts;
use rasn_traits::decoder;
use rasn_types::bit_string::BitString;
use rasn_types::octet_strings::{Any, GeneralString, GraphicString, TeletexString, Utf8String};
use rasn_types::types::{Codec, Tag};
use std::alloc::Global;
use std::borrow::CowSlice;

impl<'input> decoder::Decoder for Decoder<'input> {
    type Error = DecodeError;

    type Octets = CowSlice<'input, u8>;

    type Scope = Around<Scope>;

    type List = Around<OpenedList>;

    type Addition = Around<Addition<'input>>;

    type Alternative = Around<Alternative<'input>>;

    type Contents = Around<Addition<'input>>;

    ghost rules = { decoder_rules };

    ghost opens = { is_open_in_turn };

    ghost closes = { closes_in_turn };

    ghost unended = { unended_in_turn };

    ghost opens_fields = { is_open_uncounted };

    ghost closes_fields = { closes_uncounted };

    ghost unended_fields = { unended_uncounted };

    ghost opens_addition = { λ s o i. AddsInTurn s (outside_addition_of i.source o.scope) (turn_of o.turn) i };

    ghost closes_addition = { λ s o t.
        Leaves is_complete (λ a b. ClosesAddition a (outside_addition_of s.source o.scope) b) s (turn_of o.turn) t };

    ghost unended_addition = { λ o e s.
        Unfinished is_complete (UnendedAddition (outside_addition_of s.source o.scope)) e s };

    ghost opens_choice = { λ c d k s o i.
        ChoosesInTurn c d k s (outside_choice_of i.source o.scope) (turn_of o.turn) i };

    ghost closes_choice = { λ s o t.
        Leaves is_complete (λ a b. ClosesChoice a (outside_choice_of s.source o.scope) b) s (turn_of o.turn) t };

    ghost unended_choice = { λ o e s.
        Unfinished is_complete (UnendedChoice (outside_choice_of s.source o.scope).contents) e s };

    ghost opens_contents = { λ s o i. ContainsInTurn s (outside_addition_of i.source o.scope) (turn_of o.turn) i };

    ghost closes_contents = { λ s o t.
        Leaves is_complete (λ a b. ClosesAddition a (outside_addition_of s.source o.scope) b) s (turn_of o.turn) t };

    ghost unended_contents = { λ o e s.
        Unfinished is_complete (UnendedAddition (outside_addition_of s.source o.scope)) e s };

    ghost amid = { IsCountedList };

    ghost amid_elements = { IsListInTurn };

    ghost most = { λ l. most l.scope.list.list };

    ghost awaits_values = { AwaitsValues };

    ghost lends = { λ size mark s t n. AreLent size mark s (length t.bits) n };

    fn codec(&self) -> Codec {
        Decoder::codec(self)
    }

    fn alloc(&self) -> Global {
        self.alloc
    }

    fn out_of_memory(&mut self) -> DecodeError {
        self.refuse(DecodeErrorKind::OutOfMemory)
    }

    #[inline(always)]
    fn decode_bool(&mut self, _tag: Tag) -> Result<bool, DecodeError> {
        self.begin_value()?;
        self.take_bit()
    }

    #[inline(always)]
    fn decode_integer<I: IntegerType>(
        &mut self,
        _tag: Tag,
        constraints: &Constraints,
    ) -> Result<I, DecodeError> {
        self.begin_value()?;
        let mut reader = self.reader();
        let taken = take_short_integer(&mut reader, constraints);
        let left = reader.bits().len();
        let Some(number) = taken else {
            return self.read_integer(constraints);
        };
        self.advance(left);
        Ok(number)
    }

    fn decode_real(&mut self, _tag: Tag, _constraints: &Constraints) -> Result<(), DecodeError> {
        self.begin_value()?;
        Err(self.refuse(DecodeErrorKind::RealNotSupported))
    }

    #[inline(always)]
    fn decode_null(&mut self, _tag: Tag) -> Result<(), DecodeError> {
        self.begin_value()
    }

    fn decode_enumerated<E: Enumerated>(&mut self, _tag: Tag) -> Result<E, DecodeError> {
        self.begin_value()?;
        let mut reader = self.reader();
        let taken = take_root_item(&mut reader);
        let left = reader.bits().len();
        let Some(item) = taken else {
            return self.read_enumerated();
        };
        self.advance(left);
        Ok(item)
    }

    fn decode_any(&mut self, _tag: Tag) -> Result<Any, DecodeError> {
        self.begin_value()?;
        let mut reader = self.reader();
        let taken = reader.take_octets();
        let left = reader.bits().len();
        let octets = self.answer(taken, left)?;
        Ok(Any::new(octets))
    }

    #[inline(always)]
    fn decode_octet_string(
        &mut self,
        tag: Tag,
        constraints: &Constraints,
    ) -> Result<CowSlice<'input, u8>, DecodeError> {
        Decoder::decode_octet_string(self, tag, constraints)
    }

    fn decode_bit_string(
        &mut self,
        _tag: Tag,
        constraints: &Constraints,
    ) -> Result<BitString, DecodeError> {
        self.begin_value()?;
        let mut reader = self.reader();
        let taken = reader.take_bit_string(constraints);
        let left = reader.bits().len();
        self.answer(taken, left)
    }

    fn decode_named_bits(
        &mut self,
        _tag: Tag,
        constraints: &Constraints,
    ) -> Result<BitString, DecodeError> {
        self.begin_value()?;
        let mut reader = self.reader();
        let named = reader.take_bit_string(constraints);
        let left = reader.bits().len();
        self.answer(named, left)
    }

    #[inline(always)]
    fn decode_known_multiplier_string<S: StaticPermittedAlphabet>(
        &mut self,
        _tag: Tag,
        constraints: &Constraints,
    ) -> Result<S, DecodeError> {
        self.begin_value()?;
        let mut reader = self.reader();
        let taken = reader.take_characters(constraints);
        let left = reader.bits().len();
        self.answer(taken, left)
    }

    fn decode_utf8_string(
        &mut self,
        _tag: Tag,
        _constraints: &Constraints,
    ) -> Result<Utf8String, DecodeError> {
        self.begin_value()?;
        let mut reader = self.reader();
        let taken = reader.take_utf8();
        let left = reader.bits().len();
        self.answer(taken, left)
    }

    fn decode_general_string(
        &mut self,
        _tag: Tag,
        _constraints: &Constraints,
    ) -> Result<GeneralString, DecodeError> {
        self.begin_value()?;
        let mut reader = self.reader();
        let taken = reader.take_octets();
        let left = reader.bits().len();
        let octets = self.answer(taken, left)?;
        Ok(GeneralString::new(octets))
    }

    fn decode_graphic_string(
        &mut self,
        _tag: Tag,
        _constraints: &Constraints,
    ) -> Result<GraphicString, DecodeError> {
        self.begin_value()?;
        let mut reader = self.reader();
        let taken = reader.take_octets();
        let left = reader.bits().len();
        let octets = self.answer(taken, left)?;
        Ok(GraphicString::new(octets))
    }

    fn decode_teletex_string(
        &mut self,
        _tag: Tag,
        _constraints: &Constraints,
    ) -> Result<TeletexString, DecodeError> {
        self.begin_value()?;
        let mut reader = self.reader();
        let taken = reader.take_octets();
        let left = reader.bits().len();
        let octets = self.answer(taken, left)?;
        Ok(TeletexString::new(octets))
    }

    fn decode_object_identifier(&mut self, _tag: Tag) -> Result<Vec<u32>, DecodeError> {
        self.begin_value()?;
        let mut reader = self.reader();
        let taken = take_object_identifier(&mut reader);
        let left = reader.bits().len();
        self.answer(taken, left)
    }

    fn decode_utc_time<M: UtcMoment>(&mut self, _tag: Tag) -> Result<M, DecodeError> {
        self.begin_value()?;
        let mut reader = self.reader();
        let taken = take_utc_time(&mut reader);
        let left = reader.bits().len();
        self.answer(taken, left)
    }

    fn decode_generalized_time<M: GeneralizedMoment>(
        &mut self,
        _tag: Tag,
    ) -> Result<M, DecodeError> {
        self.begin_value()?;
        let mut reader = self.reader();
        let taken = take_generalized_time(&mut reader);
        let left = reader.bits().len();
        self.answer(taken, left)
    }

    fn decode_date<D: CivilDate>(&mut self, _tag: Tag) -> Result<D, DecodeError> {
        self.begin_value()?;
        self.check_date_levels()?;
        let mut reader = self.reader();
        let taken = take_date(&mut reader);
        let left = reader.bits().len();
        self.answer(taken, left)
    }

    #[inline(always)]
    fn open_sequence<C: Constructed>(&mut self, _tag: Tag) -> Result<Around<Scope>, DecodeError> {
        self.open_counted::<C>()
    }

    fn open_set<C: Constructed>(&mut self, _tag: Tag) -> Result<Around<Scope>, DecodeError> {
        self.open_counted::<C>()
    }

    #[inline(always)]
    fn close_sequence(&mut self, outside: Around<Scope>) -> Result<(), DecodeError> {
        self.close_in_turn(outside)
    }

    #[inline(always)]
    fn open_fields<C: Constructed>(&mut self, _tag: Tag) -> Result<Around<Scope>, DecodeError> {
        let turn = self.begin_scope()?;
        let scope = self.open_record::<C>()?;
        self.set_turn(Turn::Uncounted);
        Ok(Around { scope, turn })
    }

    #[inline(always)]
    fn close_fields<C: Constructed>(&mut self, outside: Around<Scope>) -> Result<(), DecodeError> {
        self.close_uncounted(outside)
    }

    #[inline(always)]
    fn open_addition(&mut self) -> Result<Option<Around<Addition<'input>>>, DecodeError> {
        let turn = self.turn();
        let Some(scope) = self.enter_addition()? else {
            return Ok(None);
        };
        self.set_turn(Turn::Awaiting(1));
        Ok(Some(Around { scope, turn }))
    }

    #[inline(always)]
    fn close_addition(&mut self, outside: Around<Addition<'input>>) -> Result<(), DecodeError> {
        self.check_complete()?;
        self.leave_open(outside.scope)?;
        self.set_turn(outside.turn);
        Ok(())
    }

    #[inline(always)]
    fn open_choice<C: Choice>(
        &mut self,
    ) -> Result<(Tag, Around<Alternative<'input>>), DecodeError> {
        let (place, outside) = self.begin_alternative(alternative_counts::<C>())?;
        Ok((tag_at::<C>(place), outside))
    }

    #[inline(always)]
    fn open_alternative<C: Choice>(
        &mut self,
    ) -> Result<(Place, Around<Alternative<'input>>), DecodeError> {
        self.begin_alternative(alternative_counts::<C>())
    }

    #[inline(always)]
    fn close_choice(&mut self, outside: Around<Alternative<'input>>) -> Result<(), DecodeError> {
        self.check_complete()?;
        self.leave_choice(outside.scope)?;
        self.set_turn(outside.turn);
        Ok(())
    }

    fn open_contents(&mut self, _tag: Tag) -> Result<Around<Addition<'input>>, DecodeError> {
        self.begin_value()?;
        let turn = self.turn();
        let scope = self.enter_containing()?;
        self.set_turn(Turn::Awaiting(1));
        Ok(Around { scope, turn })
    }

    fn close_contents(&mut self, outside: Around<Addition<'input>>) -> Result<(), DecodeError> {
        self.check_complete()?;
        self.leave_open(outside.scope)?;
        self.set_turn(outside.turn);
        Ok(())
    }

    fn open_list(
        &mut self,
        _tag: Tag,
        constraints: &Constraints,
    ) -> Result<Around<OpenedList>, DecodeError> {
        self.begin_value()?;
        let turn = self.turn();
        let outer = self.enter(Scope::without_record(self.levels));
        let list = self.enter_list(constraints)?;
        self.set_turn(Turn::InList(0));
        Ok(Around {
            scope: OpenedList {
                list,
                outer: Some(outer),
            },
            turn,
        })
    }

    fn next_element(&mut self, outside: &mut Around<OpenedList>) -> Result<bool, DecodeError> {
        self.check_between()?;
        let follows = self.next_item(&mut outside.scope.list)?;
        if follows {
            self.set_turn(Turn::InList(1));
        } else {
            self.end_list(outside);
        }
        Ok(follows)
    }

    fn open_elements(
        &mut self,
        _tag: Tag,
        constraints: &Constraints,
    ) -> Result<Around<OpenedList>, DecodeError> {
        self.begin_value()?;
        let turn = self.turn();
        let list = self.enter_list(constraints)?;
        self.set_turn(turn.within_list());
        Ok(Around {
            scope: OpenedList { list, outer: None },
            turn,
        })
    }

    #[inline(always)]
    fn next_element_in_turn(
        &mut self,
        outside: &mut Around<OpenedList>,
    ) -> Result<bool, DecodeError> {
        let follows = self.next_item(&mut outside.scope.list)?;
        if !follows {
            self.set_turn(outside.turn);
        }
        Ok(follows)
    }

    #[inline(always)]
    fn next_presence(&mut self) -> Result<bool, DecodeError> {
        let bit = self.take_presence()?;
        if !bit {
            self.note();
        }
        Ok(bit)
    }

    fn fail(&mut self) {
        self.mode = Mode::Failed;
    }

    ghost lawful = { decodes_well };

    ghost errors = { errors_well };

    ghost scopes = { scopes_well (λ b o. outside_record_of b o.scope) (λ o. turn_of o.turn) awaiting
        is_complete all_past };

    ghost fields = { scopes_well (λ b o. outside_record_of b o.scope) (λ o. turn_of o.turn) (λ n. uncounted)
        is_uncounted none_past };

    ghost additions = { additions_well (λ b o. outside_addition_of b o.scope) (λ o. turn_of o.turn) };

    ghost contents = { contents_well (λ b o. outside_addition_of b o.scope) (λ o. turn_of o.turn) };

    ghost choices = { choices_well (λ b o. outside_choice_of b o.scope) (λ o. turn_of o.turn) };

    ghost lists = { lists_well };

    ghost elements = { elements_well };

    ghost sets = { sets_well };

    ghost bags = { bags_well };
}
