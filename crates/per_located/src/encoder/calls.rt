//! The calls of an encoder that knows at which component it refused.

use crate::encoder::{Located, NO_BITS};
use per_ways::extents::OpenAhead;
use per_ways::trail::{Frame, RecordFrame};
use per_ways::turns::{Alternatives, Elements, place_among, step_among};
use rasn_schema::choices::Choice;
use rasn_schema::enumerated::Enumerated;
use rasn_schema::fields::{AdditionGroup, Constructed};
use rasn_schema::items::Place;
use rasn_schema::schema::{Constraints, IntegerType};
use rasn_strings::civil::{CivilDate, GeneralizedMoment, UtcMoment};
use rasn_strings::strings::StaticPermittedAlphabet;
use rasn_traits::counted::alternative_counts;
use rasn_traits::encoder::Encoder;
use rasn_types::bit_string::BitString;
use rasn_types::octet_strings::{Any, GeneralString, GraphicString, TeletexString};
use rasn_types::types::{Codec, Identifier, Tag};

impl<E: Encoder + Drop> Encoder for Located<E> {
    type Error = E::Error;

    type Scope = E::Scope;

    type Addition = E::Addition;

    type Alternative = E::Alternative;

    type Contents = E::Contents;

    type List = E::List;

    type Bag = E::Bag;

    ghost rules = { E.rules };

    ghost opens = { E.opens };

    ghost opens_fields = { E.opens_fields };

    ghost opens_addition = { E.opens_addition };

    ghost opens_choice = { E.opens_choice };

    ghost opens_alternative = { E.opens_alternative };

    ghost opens_contents = { E.opens_contents };

    ghost amid = { E.amid };

    ghost amid_elements = { E.amid_elements };

    ghost amid_bag = { E.amid_bag };

    ghost amid_members = { E.amid_members };

    ghost awaits_values = { E.awaits_values };

    fn codec(&self) -> Codec {
        self.inner.codec()
    }

    fn encode_bool(
        &mut self,
        tag: Tag,
        value: bool,
        identifier: Identifier,
    ) -> Result<(), E::Error> {
        let answer = self.inner.encode_bool(tag, value, identifier);
        self.begun(tag, answer)
    }

    fn encode_integer<I: IntegerType>(
        &mut self,
        tag: Tag,
        constraints: &Constraints,
        value: &I,
        identifier: Identifier,
    ) -> Result<(), E::Error> {
        let answer = self
            .inner
            .encode_integer(tag, constraints, value, identifier);
        self.begun(tag, answer)
    }

    fn encode_real(
        &mut self,
        tag: Tag,
        constraints: &Constraints,
        identifier: Identifier,
    ) -> Result<(), E::Error> {
        let answer = self.inner.encode_real(tag, constraints, identifier);
        self.begun(tag, answer)
    }

    fn encode_absent(&mut self, tag: Tag, identifier: Identifier) -> Result<(), E::Error> {
        let answer = self.inner.encode_absent(tag, identifier);
        self.begun(tag, answer)
    }

    fn encode_null(&mut self, tag: Tag, identifier: Identifier) -> Result<(), E::Error> {
        let answer = self.inner.encode_null(tag, identifier);
        self.begun(tag, answer)
    }

    fn encode_enumerated<N: Enumerated>(
        &mut self,
        tag: Tag,
        value: &N,
        identifier: Identifier,
    ) -> Result<(), E::Error> {
        let answer = self.inner.encode_enumerated(tag, value, identifier);
        self.begun(tag, answer)
    }

    fn encode_any(
        &mut self,
        tag: Tag,
        value: &Any,
        identifier: Identifier,
    ) -> Result<(), E::Error> {
        let answer = self.inner.encode_any(tag, value, identifier);
        self.begun(tag, answer)
    }

    fn encode_octet_string(
        &mut self,
        tag: Tag,
        constraints: &Constraints,
        value: &[u8],
        identifier: Identifier,
    ) -> Result<(), E::Error> {
        let answer = self
            .inner
            .encode_octet_string(tag, constraints, value, identifier);
        self.begun(tag, answer)
    }

    fn encode_bit_string(
        &mut self,
        tag: Tag,
        constraints: &Constraints,
        value: &BitString,
        identifier: Identifier,
    ) -> Result<(), E::Error> {
        let answer = self
            .inner
            .encode_bit_string(tag, constraints, value, identifier);
        self.begun(tag, answer)
    }

    fn encode_named_bits(
        &mut self,
        tag: Tag,
        constraints: &Constraints,
        value: &BitString,
        identifier: Identifier,
    ) -> Result<(), E::Error> {
        let answer = self
            .inner
            .encode_named_bits(tag, constraints, value, identifier);
        self.begun(tag, answer)
    }

    fn encode_known_multiplier_string<S: StaticPermittedAlphabet>(
        &mut self,
        tag: Tag,
        constraints: &Constraints,
        value: &S,
        identifier: Identifier,
    ) -> Result<(), E::Error> {
        let answer = self
            .inner
            .encode_known_multiplier_string(tag, constraints, value, identifier);
        self.begun(tag, answer)
    }

    fn encode_utf8_string(
        &mut self,
        tag: Tag,
        constraints: &Constraints,
        value: &str,
        identifier: Identifier,
    ) -> Result<(), E::Error> {
        let answer = self
            .inner
            .encode_utf8_string(tag, constraints, value, identifier);
        self.begun(tag, answer)
    }

    fn encode_general_string(
        &mut self,
        tag: Tag,
        constraints: &Constraints,
        value: &GeneralString,
        identifier: Identifier,
    ) -> Result<(), E::Error> {
        let answer = self
            .inner
            .encode_general_string(tag, constraints, value, identifier);
        self.begun(tag, answer)
    }

    fn encode_graphic_string(
        &mut self,
        tag: Tag,
        constraints: &Constraints,
        value: &GraphicString,
        identifier: Identifier,
    ) -> Result<(), E::Error> {
        let answer = self
            .inner
            .encode_graphic_string(tag, constraints, value, identifier);
        self.begun(tag, answer)
    }

    fn encode_teletex_string(
        &mut self,
        tag: Tag,
        constraints: &Constraints,
        value: &TeletexString,
        identifier: Identifier,
    ) -> Result<(), E::Error> {
        let answer = self
            .inner
            .encode_teletex_string(tag, constraints, value, identifier);
        self.begun(tag, answer)
    }

    fn encode_object_identifier(
        &mut self,
        tag: Tag,
        value: &[u32],
        identifier: Identifier,
    ) -> Result<(), E::Error> {
        let answer = self.inner.encode_object_identifier(tag, value, identifier);
        self.begun(tag, answer)
    }

    fn encode_utc_time<M: UtcMoment>(
        &mut self,
        tag: Tag,
        value: &M,
        identifier: Identifier,
    ) -> Result<(), E::Error> {
        let answer = self.inner.encode_utc_time(tag, value, identifier);
        self.begun(tag, answer)
    }

    fn encode_generalized_time<M: GeneralizedMoment>(
        &mut self,
        tag: Tag,
        value: &M,
        identifier: Identifier,
    ) -> Result<(), E::Error> {
        let answer = self.inner.encode_generalized_time(tag, value, identifier);
        self.begun(tag, answer)
    }

    fn encode_date<D: CivilDate>(
        &mut self,
        tag: Tag,
        value: &D,
        identifier: Identifier,
    ) -> Result<(), E::Error> {
        let answer = self.inner.encode_date(tag, value, identifier);
        self.begun(tag, answer)
    }

    fn open_sequence<C: Constructed>(
        &mut self,
        tag: Tag,
        identifier: Identifier,
    ) -> Result<E::Scope, E::Error> {
        let answer = self.inner.open_sequence::<C>(tag, identifier);
        let frame = Frame::Record(RecordFrame::new::<C>(false, false));
        self.opened(tag, answer, frame)
    }

    fn close_sequence<C: Constructed>(&mut self, scope: E::Scope) -> Result<(), E::Error> {
        self.trail.pause();
        let answer = self.inner.close_sequence::<C>(scope);
        self.closed(answer)
    }

    fn open_fields<C: Constructed>(
        &mut self,
        tag: Tag,
        identifier: Identifier,
    ) -> Result<E::Scope, E::Error> {
        let answer = self.inner.open_fields::<C>(tag, identifier);
        let frame = Frame::Record(RecordFrame::new::<C>(false, false));
        self.opened(tag, answer, frame)
    }

    fn close_fields<C: Constructed>(&mut self, scope: E::Scope) -> Result<(), E::Error> {
        self.trail.pause();
        let answer = self.inner.close_fields::<C>(scope);
        self.closed(answer)
    }

    fn open_components<C: Constructed>(
        &mut self,
        tag: Tag,
        identifier: Identifier,
    ) -> Result<E::Scope, E::Error> {
        let answer = self.inner.open_components::<C>(tag, identifier);
        let frame = Frame::Record(RecordFrame::new::<C>(false, false));
        self.opened(tag, answer, frame)
    }

    fn close_components<C: Constructed>(&mut self, scope: E::Scope) -> Result<(), E::Error> {
        self.trail.pause();
        let answer = self.inner.close_components::<C>(scope);
        self.closed(answer)
    }

    fn open_set<C: Constructed>(
        &mut self,
        tag: Tag,
        identifier: Identifier,
    ) -> Result<E::Scope, E::Error> {
        let answer = self.inner.open_set::<C>(tag, identifier);
        let frame = Frame::Record(RecordFrame::new::<C>(true, false));
        self.opened(tag, answer, frame)
    }

    fn close_set<C: Constructed>(&mut self, scope: E::Scope) -> Result<(), E::Error> {
        self.trail.pause();
        let answer = self.inner.close_set::<C>(scope);
        self.closed(answer)
    }

    fn open_choice<C: Choice>(
        &mut self,
        tag: Tag,
        identifier: Identifier,
    ) -> Result<E::Alternative, E::Error> {
        let answer = self.inner.open_choice::<C>(tag, identifier);
        self.opened(
            tag,
            answer,
            Frame::Choice(Alternatives::new::<C>(C::IDENTIFIERS)),
        )
    }

    fn close_choice<C: Choice>(
        &mut self,
        alternative: E::Alternative,
        chosen: Tag,
    ) -> Result<(), E::Error> {
        self.trail.pause();
        let answer = self.inner.close_choice::<C>(alternative, chosen);
        self.closed(answer)
    }

    fn open_alternative<C: Choice>(
        &mut self,
        tag: Tag,
        place: Place,
        identifier: Identifier,
    ) -> Result<E::Alternative, E::Error> {
        let answer = self.inner.open_alternative::<C>(tag, place, identifier);
        let among = place_among(alternative_counts::<C>(), place);
        let step = step_among(C::IDENTIFIERS, Some(among));
        self.opened(tag, answer, Frame::Alternative(step, None))
    }

    fn close_alternative(&mut self, alternative: E::Alternative) -> Result<(), E::Error> {
        let answer = self.inner.close_alternative(alternative);
        self.closed(answer)
    }

    fn open_contents(&mut self, tag: Tag, identifier: Identifier) -> Result<E::Contents, E::Error> {
        let answer = self.inner.open_contents(tag, identifier);
        self.opened(tag, answer, Frame::Contents(None))
    }

    fn close_contents(&mut self, contents: E::Contents) -> Result<(), E::Error> {
        let answer = self.inner.close_contents(contents);
        self.closed(answer)
    }

    fn set_presence(&mut self, is_there: bool) -> Result<(), E::Error> {
        let answer = self.inner.set_presence(is_there);
        self.trail.told_of(is_there, answer.is_ok(), NO_BITS);
        answer
    }

    fn skip_addition(&mut self) -> Result<(), E::Error> {
        self.trail.begin_addition();
        let answer = self.inner.skip_addition();
        self.seen(answer)
    }

    fn open_addition(&mut self) -> Result<E::Addition, E::Error> {
        self.trail.begin_addition();
        let answer = self.inner.open_addition();
        if answer.is_ok() {
            self.trail.enter_addition(OpenAhead::InPlace(NO_BITS));
        }
        self.seen(answer)
    }

    fn close_addition(&mut self, addition: E::Addition) -> Result<(), E::Error> {
        let answer = self.inner.close_addition(addition);
        self.closed_addition(answer)
    }

    fn close_group<C: AdditionGroup>(&mut self, addition: E::Addition) -> Result<(), E::Error> {
        let answer = self.inner.close_group::<C>(addition);
        self.closed_addition(answer)
    }

    fn open_list(
        &mut self,
        tag: Tag,
        constraints: &Constraints,
        count: usize,
        identifier: Identifier,
    ) -> Result<E::List, E::Error> {
        let answer = self.inner.open_list(tag, constraints, count, identifier);
        self.opened(tag, answer, Frame::List(Elements::new()))
    }

    fn next_element(&mut self, list: &mut E::List) -> Result<(), E::Error> {
        let answer = self.inner.next_element(list);
        self.gone_on(answer)
    }

    fn close_list(&mut self, list: E::List) -> Result<(), E::Error> {
        self.trail.pause();
        let answer = self.inner.close_list(list);
        self.closed(answer)
    }

    fn open_elements(
        &mut self,
        tag: Tag,
        constraints: &Constraints,
        count: usize,
        identifier: Identifier,
    ) -> Result<E::List, E::Error> {
        let answer = self
            .inner
            .open_elements(tag, constraints, count, identifier);
        self.opened(tag, answer, Frame::List(Elements::new()))
    }

    fn next_element_in_turn(&mut self, list: &mut E::List) -> Result<(), E::Error> {
        let answer = self.inner.next_element_in_turn(list);
        self.gone_on(answer)
    }

    fn close_elements(&mut self, list: E::List) -> Result<(), E::Error> {
        self.trail.pause();
        let answer = self.inner.close_elements(list);
        self.closed(answer)
    }

    fn open_set_of(
        &mut self,
        tag: Tag,
        constraints: &Constraints,
        count: usize,
        identifier: Identifier,
    ) -> Result<E::Bag, E::Error> {
        let answer = self.inner.open_set_of(tag, constraints, count, identifier);
        self.opened(tag, answer, Frame::List(Elements::new()))
    }

    fn next_member(&mut self, bag: &mut E::Bag) -> Result<(), E::Error> {
        let answer = self.inner.next_member(bag);
        self.gone_on(answer)
    }

    fn close_set_of(&mut self, bag: E::Bag) -> Result<(), E::Error> {
        self.trail.pause();
        let answer = self.inner.close_set_of(bag);
        self.closed(answer)
    }

    fn open_members(
        &mut self,
        tag: Tag,
        constraints: &Constraints,
        count: usize,
        identifier: Identifier,
    ) -> Result<E::Bag, E::Error> {
        let answer = self.inner.open_members(tag, constraints, count, identifier);
        self.opened(tag, answer, Frame::List(Elements::new()))
    }

    fn next_member_in_turn(&mut self, bag: &mut E::Bag) -> Result<(), E::Error> {
        let answer = self.inner.next_member_in_turn(bag);
        self.gone_on(answer)
    }

    fn close_members(&mut self, bag: E::Bag) -> Result<(), E::Error> {
        self.trail.pause();
        let answer = self.inner.close_members(bag);
        self.closed(answer)
    }

    fn fail(&mut self) {
        self.trail.stop(NO_BITS);
        self.inner.fail()
    }

    ghost lawful = { E.lawful };

    ghost sets = { E.sets };
}
