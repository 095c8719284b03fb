//! A decoder that knows where it was when it refused.

mod counted;

ghost use Rattle.std.specs.Prelude.{◌≡◌};

pub use per_ways::extents::OpenAhead;
use per_ways::trail::{Frame, RecordFrame, Trail};
use per_ways::turns::{Elements, place_among, step_among};
use per_ways::{Path, Step};
use rasn_schema::choices::Choice;
use rasn_schema::enumerated::Enumerated;
use rasn_schema::fields::Constructed;
use rasn_schema::items::{ItemCounts, Place};
use rasn_schema::schema::{Constraints, IntegerType};
use rasn_strings::civil::{CivilDate, GeneralizedMoment, UtcMoment};
use rasn_strings::strings::StaticPermittedAlphabet;
use rasn_traits::counted::alternative_counts;
use rasn_traits::decoder::Decoder;
use rasn_types::bit_string::BitString;
use rasn_types::octet_strings::{Any, GeneralString, GraphicString, TeletexString, Utf8String};
use rasn_types::types::{Codec, Tag};
use std::alloc::Global;
use std::marker::Model;

/// A decoder of which shows where in a message it stands.
pub trait Positioned: Decoder + Drop {
    /// How many bits are left. Within an open type they are those of its contents.
    fn left(&self) -> u128;

    /// Whether the extension bit that is ahead is 1 (X.691 19.1, 23.5).
    fn is_extended(&self) -> bool;

    /// The open type that is next (X.691 11.2).
    fn open_ahead(&self) -> OpenAhead;

    /// The open type of the next addition of a SEQUENCE, after the bitmap of its additions where that is still ahead
    /// (X.691 19.7 to 19.9).
    fn addition_ahead(&self, bitmap: bool) -> OpenAhead;

    /// The open type of an alternative after the extension marker, after the index of its CHOICE, which has so many
    /// alternatives (X.691 23.8).
    fn alternative_ahead(&self, alternatives: ItemCounts) -> OpenAhead;
}

/// A decoder that knows where it was when it refused. Each call is that of the decoder that it holds.
#[derive(Drop)]
pub struct Located<D: Positioned> {
    inner: D,
    trail: Trail,
}

impl<D: Positioned> Model for Located<D> {
    ghost Value = { D };

    ghost view = { λ l. l.inner };
}

impl<D: Positioned> Located<D> {
    /// Holds a decoder that has read nothing of a message of so many bits.
    pub fn new(inner: D, bits: u128) -> Self
        ensures { result ≡ inner }
    {
        let trail = Trail::new(inner.alloc(), bits);
        Located { inner, trail }
    }

    /// The way to the value that was refused, and how many bits are in front of where the decoder stood then; or
    /// where it stands, if none was refused. Without memory for the path that is empty.
    pub fn into_place(mut self) -> (Path, u128) {
        self.stop();
        let bit = self.trail.bit();
        let alloc = self.inner.alloc();
        let path = self.trail.into_path(alloc);
        (path.unwrap_or(Path::to_message(alloc)), bit)
    }

    /// Stops where the decoder stands.
    fn stop(&mut self)
        ensures { self.new ≡ self.old }
    {
        let left = self.inner.left();
        self.trail.stop(left);
    }

    /// Answers what a call of the decoder answered, and stops where that is a refusal.
    fn seen<T: Drop>(&mut self, answer: Result<T, D::Error>) -> Result<T, D::Error>
        ensures same { result ≡ answer }
        ensures state { self.new ≡ self.old }
    {
        let left = self.inner.left();
        self.trail.seen(answer.is_ok(), left);
        answer
    }

    /// Answers what a call answered with which a value began.
    fn begun<T: Drop>(&mut self, answer: Result<T, D::Error>) -> Result<T, D::Error>
        ensures same { result ≡ answer }
        ensures state { self.new ≡ self.old }
    {
        let left = self.inner.left();
        self.trail.begun(answer.is_ok(), left);
        answer
    }

    /// Enters what a call opened with which a value began, unless it was refused.
    fn opened<T: Drop>(&mut self, answer: Result<T, D::Error>, frame: Frame) -> Result<T, D::Error>
        ensures same { result ≡ answer }
        ensures state { self.new ≡ self.old }
    {
        let left = self.inner.left();
        let _ = self.trail.opened(frame, answer.is_ok(), left);
        answer
    }

    /// Leaves what a call closed, unless it was refused.
    fn closed(&mut self, answer: Result<(), D::Error>) -> Result<(), D::Error>
        ensures same { result ≡ answer }
        ensures state { self.new ≡ self.old }
    {
        let left = self.inner.left();
        self.trail.closed(answer.is_ok(), left);
        answer
    }

    /// Begins the element that a call went on to, or leaves the list after the last one, unless the call was refused.
    fn gone_on(&mut self, answer: Result<bool, D::Error>) -> Result<bool, D::Error>
        ensures same { result ≡ answer }
        ensures state { self.new ≡ self.old }
    {
        let left = self.inner.left();
        let goes_on = match &answer {
            Ok(goes_on) => Some(*goes_on),
            Err(_) => None,
        };
        self.trail.gone_on(goes_on, left);
        answer
    }

    /// Enters an alternative at a place, of which the index was read.
    fn enter_alternative(&mut self, step: Step, place: Option<Place>, open: OpenAhead)
        ensures { self.new ≡ self.old }
    {
        let left = self.inner.left();
        let _ = self.trail.enter_alternative(step, place, open, left);
    }
}

impl<D: Positioned> Decoder for Located<D> {
    type Error = D::Error;

    type Octets = D::Octets;

    type Scope = D::Scope;

    type List = D::List;

    type Addition = D::Addition;

    type Alternative = D::Alternative;

    type Contents = D::Contents;

    ghost rules = { D.rules };

    ghost opens = { D.opens };

    ghost closes = { D.closes };

    ghost opens_fields = { D.opens_fields };

    ghost closes_fields = { D.closes_fields };

    ghost opens_choice = { D.opens_choice };

    ghost closes_choice = { D.closes_choice };

    ghost unended_choice = { D.unended_choice };

    ghost opens_contents = { D.opens_contents };

    ghost closes_contents = { D.closes_contents };

    ghost unended_contents = { D.unended_contents };

    ghost amid = { D.amid };

    ghost amid_elements = { D.amid_elements };

    ghost most = { D.most };

    ghost awaits_values = { D.awaits_values };

    ghost unended = { D.unended };

    ghost unended_fields = { D.unended_fields };

    ghost opens_addition = { D.opens_addition };

    ghost closes_addition = { D.closes_addition };

    ghost unended_addition = { D.unended_addition };

    ghost lends = { D.lends };

    fn codec(&self) -> Codec {
        self.inner.codec()
    }

    fn alloc(&self) -> Global {
        self.inner.alloc()
    }

    fn out_of_memory(&mut self) -> D::Error {
        self.stop();
        self.inner.out_of_memory()
    }

    fn fail(&mut self) {
        self.stop();
        self.inner.fail()
    }

    fn decode_bool(&mut self, tag: Tag) -> Result<bool, D::Error> {
        let answer = self.inner.decode_bool(tag);
        self.begun(answer)
    }

    fn decode_integer<I: IntegerType>(
        &mut self,
        tag: Tag,
        constraints: &Constraints,
    ) -> Result<I, D::Error> {
        let answer = self.inner.decode_integer(tag, constraints);
        self.begun(answer)
    }

    fn decode_real(&mut self, tag: Tag, constraints: &Constraints) -> Result<(), D::Error> {
        let answer = self.inner.decode_real(tag, constraints);
        self.begun(answer)
    }

    fn decode_null(&mut self, tag: Tag) -> Result<(), D::Error> {
        let answer = self.inner.decode_null(tag);
        self.begun(answer)
    }

    fn decode_enumerated<E: Enumerated>(&mut self, tag: Tag) -> Result<E, D::Error> {
        let answer = self.inner.decode_enumerated(tag);
        self.begun(answer)
    }

    fn decode_any(&mut self, tag: Tag) -> Result<Any, D::Error> {
        let answer = self.inner.decode_any(tag);
        self.begun(answer)
    }

    fn decode_octet_string(
        &mut self,
        tag: Tag,
        constraints: &Constraints,
    ) -> Result<D::Octets, D::Error> {
        let answer = self.inner.decode_octet_string(tag, constraints);
        self.begun(answer)
    }

    fn decode_bit_string(
        &mut self,
        tag: Tag,
        constraints: &Constraints,
    ) -> Result<BitString, D::Error> {
        let answer = self.inner.decode_bit_string(tag, constraints);
        self.begun(answer)
    }

    fn decode_named_bits(
        &mut self,
        tag: Tag,
        constraints: &Constraints,
    ) -> Result<BitString, D::Error> {
        let answer = self.inner.decode_named_bits(tag, constraints);
        self.begun(answer)
    }

    fn decode_known_multiplier_string<S: StaticPermittedAlphabet>(
        &mut self,
        tag: Tag,
        constraints: &Constraints,
    ) -> Result<S, D::Error> {
        let answer = self.inner.decode_known_multiplier_string(tag, constraints);
        self.begun(answer)
    }

    fn decode_utf8_string(
        &mut self,
        tag: Tag,
        constraints: &Constraints,
    ) -> Result<Utf8String, D::Error> {
        let answer = self.inner.decode_utf8_string(tag, constraints);
        self.begun(answer)
    }

    fn decode_general_string(
        &mut self,
        tag: Tag,
        constraints: &Constraints,
    ) -> Result<GeneralString, D::Error> {
        let answer = self.inner.decode_general_string(tag, constraints);
        self.begun(answer)
    }

    fn decode_graphic_string(
        &mut self,
        tag: Tag,
        constraints: &Constraints,
    ) -> Result<GraphicString, D::Error> {
        let answer = self.inner.decode_graphic_string(tag, constraints);
        self.begun(answer)
    }

    fn decode_teletex_string(
        &mut self,
        tag: Tag,
        constraints: &Constraints,
    ) -> Result<TeletexString, D::Error> {
        let answer = self.inner.decode_teletex_string(tag, constraints);
        self.begun(answer)
    }

    fn decode_object_identifier(&mut self, tag: Tag) -> Result<Vec<u32>, D::Error> {
        let answer = self.inner.decode_object_identifier(tag);
        self.begun(answer)
    }

    fn decode_utc_time<M: UtcMoment>(&mut self, tag: Tag) -> Result<M, D::Error> {
        let answer = self.inner.decode_utc_time(tag);
        self.begun(answer)
    }

    fn decode_generalized_time<M: GeneralizedMoment>(&mut self, tag: Tag) -> Result<M, D::Error> {
        let answer = self.inner.decode_generalized_time(tag);
        self.begun(answer)
    }

    fn decode_date<C: CivilDate>(&mut self, tag: Tag) -> Result<C, D::Error> {
        let answer = self.inner.decode_date(tag);
        self.begun(answer)
    }

    fn open_sequence<C: Constructed>(&mut self, tag: Tag) -> Result<D::Scope, D::Error> {
        let extended = C::IS_EXTENSIBLE && self.inner.is_extended();
        let answer = self.inner.open_sequence::<C>(tag);
        let frame = Frame::Record(RecordFrame::new::<C>(false, extended));
        self.opened(answer, frame)
    }

    fn close_sequence(&mut self, scope: D::Scope) -> Result<(), D::Error> {
        self.trail.pause();
        let answer = self.inner.close_sequence(scope);
        self.closed(answer)
    }

    fn open_fields<C: Constructed>(&mut self, tag: Tag) -> Result<D::Scope, D::Error> {
        let extended = C::IS_EXTENSIBLE && self.inner.is_extended();
        let answer = self.inner.open_fields::<C>(tag);
        let frame = Frame::Record(RecordFrame::new::<C>(false, extended));
        self.opened(answer, frame)
    }

    fn close_fields<C: Constructed>(&mut self, scope: D::Scope) -> Result<(), D::Error> {
        self.trail.pause();
        let answer = self.inner.close_fields::<C>(scope);
        self.closed(answer)
    }

    fn open_set<C: Constructed>(&mut self, tag: Tag) -> Result<D::Scope, D::Error> {
        let extended = C::IS_EXTENSIBLE && self.inner.is_extended();
        let answer = self.inner.open_set::<C>(tag);
        let frame = Frame::Record(RecordFrame::new::<C>(true, extended));
        self.opened(answer, frame)
    }

    fn open_choice<C: Choice>(&mut self) -> Result<(Tag, D::Alternative), D::Error> {
        self.trail.begin();
        let alternatives = alternative_counts::<C>();
        let open = self.inner.alternative_ahead(alternatives);
        let answer = self.inner.open_choice::<C>();
        if let Ok(opened) = &answer {
            let place = C::VARIANTS.place_of(&C::EXTENDED_VARIANTS, opened.0);
            let among = match place {
                Some(place) => Some(place_among(alternatives, place)),
                None => None,
            };
            self.enter_alternative(step_among(C::IDENTIFIERS, among), place, open);
        }
        self.seen(answer)
    }

    fn open_alternative<C: Choice>(&mut self) -> Result<(Place, D::Alternative), D::Error> {
        self.trail.begin();
        let alternatives = alternative_counts::<C>();
        let open = self.inner.alternative_ahead(alternatives);
        let answer = self.inner.open_alternative::<C>();
        if let Ok(opened) = &answer {
            let place = opened.0;
            let among = Some(place_among(alternatives, place));
            self.enter_alternative(step_among(C::IDENTIFIERS, among), Some(place), open);
        }
        self.seen(answer)
    }

    fn close_choice(&mut self, alternative: D::Alternative) -> Result<(), D::Error> {
        let answer = self.inner.close_choice(alternative);
        self.closed(answer)
    }

    fn open_contents(&mut self, tag: Tag) -> Result<D::Contents, D::Error> {
        self.trail.begin();
        let open = self.inner.open_ahead();
        let answer = self.inner.open_contents(tag);
        if answer.is_ok() {
            let left = self.inner.left();
            let _ = self.trail.enter_contents(open, left);
        }
        self.seen(answer)
    }

    fn close_contents(&mut self, contents: D::Contents) -> Result<(), D::Error> {
        let answer = self.inner.close_contents(contents);
        self.closed(answer)
    }

    fn next_presence(&mut self) -> Result<bool, D::Error> {
        let answer = self.inner.next_presence();
        let left = self.inner.left();
        let is_absent = matches!(&answer, Ok(false));
        self.trail.told_of(!is_absent, answer.is_ok(), left);
        answer
    }

    fn open_addition(&mut self) -> Result<Option<D::Addition>, D::Error> {
        let bitmap = self.trail.has_bitmap_ahead();
        let before = self.inner.left();
        let open = self.inner.addition_ahead(bitmap);
        self.trail.begin_addition();
        let answer = self.inner.open_addition();
        match &answer {
            Ok(Some(_)) => self.trail.enter_addition(open),
            Err(_) if bitmap && self.inner.left() == before => self.trail.pause(),
            _ => {}
        }
        self.seen(answer)
    }

    fn close_addition(&mut self, addition: D::Addition) -> Result<(), D::Error> {
        let answer = self.inner.close_addition(addition);
        let left = self.inner.left();
        self.trail.closed_addition(answer.is_ok(), left);
        answer
    }

    fn open_list(&mut self, tag: Tag, constraints: &Constraints) -> Result<D::List, D::Error> {
        let answer = self.inner.open_list(tag, constraints);
        self.opened(answer, Frame::List(Elements::new()))
    }

    fn next_element(&mut self, list: &mut D::List) -> Result<bool, D::Error> {
        let answer = self.inner.next_element(list);
        self.gone_on(answer)
    }

    fn open_elements(&mut self, tag: Tag, constraints: &Constraints) -> Result<D::List, D::Error> {
        let answer = self.inner.open_elements(tag, constraints);
        self.opened(answer, Frame::List(Elements::new()))
    }

    fn next_element_in_turn(&mut self, list: &mut D::List) -> Result<bool, D::Error> {
        let answer = self.inner.next_element_in_turn(list);
        self.gone_on(answer)
    }

    ghost lawful = { D.lawful };

    ghost errors = { D.errors };

    ghost scopes = { D.scopes };

    ghost fields = { D.fields };

    ghost additions = { D.additions };

    ghost contents = { D.contents };

    ghost choices = { D.choices };

    ghost lists = { D.lists };

    ghost elements = { D.elements };

    ghost sets = { D.sets };

    ghost bags = { D.bags };
}
