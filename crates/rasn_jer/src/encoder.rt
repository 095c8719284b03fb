//! The encoder of JSON, behind the trait of encoders.

ghost use Rattle.std.specs.Prelude.{◌≡◌, ◌⊎◌, true, false, IfOk, OnErr};
ghost use Rattle.rasn_jer.specs.Frames.{inside, is_full};
ghost use Rattle.rasn_jer.specs.Rules.{jer_rules};
ghost use Rattle.rasn_jer.specs.declared.error.EncodeError.TheVariants.{AlreadyFailed};
ghost use Rattle.rasn_jer.specs.declared.frame.Kind.TheVariants.{One};

use crate::error::EncodeError;
use crate::frame::{Frame, Kind};
use crate::schemas::{count_of, has_alternative, least_count, members_of, ordered_members_of};
use crate::texts::{
    AlternativeName, bits, chosen_member, day, generalized_time, identifier, item,
    name_of_alternative, named_bits, named_member, nothing, quoted, scalars, truth, utc_time,
    whole,
};
use rasn_schema::choices::Choice;
use rasn_schema::enumerated::Enumerated;
use rasn_schema::fields::{AdditionGroup, Constructed};
use rasn_schema::items;
use rasn_schema::schema::{Constraints, IntegerType};
use rasn_strings::civil::{CivilDate, GeneralizedMoment, UtcMoment};
use rasn_strings::strings::StaticPermittedAlphabet;
use rasn_traits::encoder;
use rasn_types::bit_string::BitString;
use rasn_types::octet_strings::{Any, GeneralString, GraphicString, TeletexString};
use rasn_types::types::{Codec, Identifier, Tag};
use std::alloc::Allocator;
use std::marker::Model;

/// Writes a value as JSON.
#[derive(Drop)]
pub struct Encoder<A: Allocator + Copy> {
    pub(crate) alloc: A,
    pub(crate) place: Frame<A>,
    pub(crate) failed: bool,
}

impl<A: Allocator + Copy> Model for Encoder<A> {
    ghost use Rattle.rasn_jer.specs.Frames.{JsonState};

    ghost Value = { JsonState };

    ghost view = { λ a. record { place = a.place; failed = a.failed } };
}

impl<A: Allocator + Copy> Encoder<A> {
    /// An encoder that has written nothing. It takes no memory yet; its text is kept in memory of `alloc`.
    pub fn new(alloc: A) -> Self
        ensures { result ≡ inside One }
    {
        Encoder {
            alloc,
            place: Frame::new(alloc, Kind::One),
            failed: false,
        }
    }

    /// The text of the value that was written; `OutOfTurn` where none was, or where something is still open.
    pub fn output(self) -> Result<Vec<u8, A>, EncodeError>
        ensures ok { IfOk result (λ text. text.items ≡ self.place.text) }
        ensures err { OnErr result ((self.failed ≡ true) ⊎ (is_full self.place ≡ false)) }
    {
        let Encoder { place, failed, .. } = self;
        if failed {
            return Err(EncodeError::AlreadyFailed);
        }
        if !place.is_full() {
            return Err(EncodeError::OutOfTurn);
        }
        Ok(place.into_text())
    }
}

impl<A: Allocator + Copy> encoder::Encoder for Encoder<A> {
    ghost use Rattle.rasn_jer.specs.Rules.{AwaitsValues, IsOpenList, Opens, OpensAddition, OpensContents};
    ghost use Rattle.rasn_jer.specs.Rules.{OpensRecord};
    ghost use Rattle.rasn_jer.specs.Laws.Relations.{presents_well, sets_written};
    ghost use Rattle.rasn_jer.specs.declared.frame.Kind.TheVariants as Kinds;

    type Error = EncodeError;

    type Scope = Frame<A>;

    type Addition = Frame<A>;

    type Alternative = (Frame<A>, AlternativeName);

    type Contents = Frame<A>;

    type List = (Frame<A>, usize);

    type Bag = (Frame<A>, usize);

    ghost rules = { jer_rules };

    ghost opens = { OpensRecord };

    ghost opens_fields = { OpensRecord };

    ghost opens_addition = { OpensAddition };

    ghost opens_choice = { λ s x o i. Opens Kinds.One x o.0 i };

    ghost opens_alternative = { λ s d k x o i. Opens Kinds.One x o.0 i };

    ghost opens_contents = { OpensContents };

    ghost amid = { IsOpenList };

    ghost amid_elements = { IsOpenList };

    ghost amid_bag = { IsOpenList };

    ghost amid_members = { IsOpenList };

    ghost awaits_values = { AwaitsValues };

    /// No variant of PER writes JSON: the UNALIGNED one stands for it.
    fn codec(&self) -> Codec {
        Codec::Uper
    }

    fn encode_bool(
        &mut self,
        _tag: Tag,
        value: bool,
        _identifier: Identifier,
    ) -> Result<(), EncodeError> {
        let text = truth(self.alloc, value);
        self.write(text)
    }

    fn encode_integer<I: IntegerType>(
        &mut self,
        _tag: Tag,
        _constraints: &Constraints,
        value: &I,
        _identifier: Identifier,
    ) -> Result<(), EncodeError> {
        let text = whole(self.alloc, value);
        self.write(text)
    }

    fn encode_real(
        &mut self,
        _tag: Tag,
        _constraints: &Constraints,
        _identifier: Identifier,
    ) -> Result<(), EncodeError> {
        Err(self.refuse(EncodeError::NoJson))
    }

    fn encode_absent(&mut self, _tag: Tag, _identifier: Identifier) -> Result<(), EncodeError> {
        Err(self.refuse(EncodeError::NoJson))
    }

    fn encode_null(&mut self, _tag: Tag, _identifier: Identifier) -> Result<(), EncodeError> {
        let text = nothing(self.alloc);
        self.write(text)
    }

    fn encode_enumerated<E: Enumerated>(
        &mut self,
        _tag: Tag,
        value: &E,
        _identifier: Identifier,
    ) -> Result<(), EncodeError> {
        let text = item(self.alloc, E::IDENTIFIERS, value);
        self.write(text)
    }

    fn encode_any(
        &mut self,
        _tag: Tag,
        value: &Any,
        _identifier: Identifier,
    ) -> Result<(), EncodeError> {
        self.write_octets(value.as_bytes())
    }

    fn encode_octet_string(
        &mut self,
        _tag: Tag,
        _constraints: &Constraints,
        value: &[u8],
        _identifier: Identifier,
    ) -> Result<(), EncodeError> {
        self.write_octets(value)
    }

    fn encode_bit_string(
        &mut self,
        _tag: Tag,
        constraints: &Constraints,
        value: &BitString,
        _identifier: Identifier,
    ) -> Result<(), EncodeError> {
        let text = bits(self.alloc, value, count_of(constraints));
        self.write(text)
    }

    fn encode_named_bits(
        &mut self,
        _tag: Tag,
        constraints: &Constraints,
        value: &BitString,
        _identifier: Identifier,
    ) -> Result<(), EncodeError> {
        let least = least_count(constraints);
        let text = named_bits(self.alloc, value, least, count_of(constraints));
        self.write(text)
    }

    fn encode_known_multiplier_string<S: StaticPermittedAlphabet>(
        &mut self,
        _tag: Tag,
        _constraints: &Constraints,
        value: &S,
        _identifier: Identifier,
    ) -> Result<(), EncodeError> {
        let text = scalars(self.alloc, value);
        self.write_made(text)
    }

    fn encode_utf8_string(
        &mut self,
        _tag: Tag,
        _constraints: &Constraints,
        value: &str,
        _identifier: Identifier,
    ) -> Result<(), EncodeError> {
        let text = quoted(self.alloc, value);
        self.write(text)
    }

    fn encode_general_string(
        &mut self,
        _tag: Tag,
        _constraints: &Constraints,
        value: &GeneralString,
        _identifier: Identifier,
    ) -> Result<(), EncodeError> {
        self.write_latin(value.as_bytes())
    }

    fn encode_graphic_string(
        &mut self,
        _tag: Tag,
        _constraints: &Constraints,
        value: &GraphicString,
        _identifier: Identifier,
    ) -> Result<(), EncodeError> {
        self.write_latin(value.as_bytes())
    }

    fn encode_teletex_string(
        &mut self,
        _tag: Tag,
        _constraints: &Constraints,
        value: &TeletexString,
        _identifier: Identifier,
    ) -> Result<(), EncodeError> {
        self.write_latin(value.as_bytes())
    }

    fn encode_object_identifier(
        &mut self,
        _tag: Tag,
        value: &[u32],
        _identifier: Identifier,
    ) -> Result<(), EncodeError> {
        let text = identifier(self.alloc, value);
        self.write(text)
    }

    fn encode_utc_time<M: UtcMoment>(
        &mut self,
        _tag: Tag,
        value: &M,
        _identifier: Identifier,
    ) -> Result<(), EncodeError> {
        let text = utc_time(self.alloc, value);
        self.write_made(text)
    }

    fn encode_generalized_time<M: GeneralizedMoment>(
        &mut self,
        _tag: Tag,
        value: &M,
        _identifier: Identifier,
    ) -> Result<(), EncodeError> {
        let text = generalized_time(self.alloc, value);
        self.write_made(text)
    }

    fn encode_date<D: CivilDate>(
        &mut self,
        _tag: Tag,
        value: &D,
        _identifier: Identifier,
    ) -> Result<(), EncodeError> {
        let (year, month, day_of_month) = value.to_parts();
        let text = day(self.alloc, year, month, day_of_month);
        self.write(text)
    }

    fn open_sequence<C: Constructed>(
        &mut self,
        _tag: Tag,
        _identifier: Identifier,
    ) -> Result<Frame<A>, EncodeError> {
        let place = members_of::<C, A>(self.alloc);
        self.enter(place)
    }

    fn close_sequence<C: Constructed>(&mut self, scope: Frame<A>) -> Result<(), EncodeError> {
        self.close(scope, Kind::Members, b'{', b'}')
    }

    fn open_fields<C: Constructed>(
        &mut self,
        _tag: Tag,
        _identifier: Identifier,
    ) -> Result<Frame<A>, EncodeError> {
        let fields = members_of::<C, A>(self.alloc);
        self.enter(fields)
    }

    fn close_fields<C: Constructed>(&mut self, fields: Frame<A>) -> Result<(), EncodeError> {
        self.close(fields, Kind::Members, b'{', b'}')
    }

    fn open_components<C: Constructed>(
        &mut self,
        _tag: Tag,
        _identifier: Identifier,
    ) -> Result<Frame<A>, EncodeError> {
        let place = members_of::<C, A>(self.alloc);
        self.enter(place)
    }

    fn close_components<C: Constructed>(&mut self, scope: Frame<A>) -> Result<(), EncodeError> {
        self.close(scope, Kind::Members, b'{', b'}')
    }

    fn open_set<C: Constructed>(
        &mut self,
        _tag: Tag,
        _identifier: Identifier,
    ) -> Result<Frame<A>, EncodeError> {
        let place = ordered_members_of::<C, A>(self.alloc);
        self.enter(place)
    }

    fn close_set<C: Constructed>(&mut self, scope: Frame<A>) -> Result<(), EncodeError> {
        self.close(scope, Kind::Members, b'{', b'}')
    }

    fn open_choice<C: Choice>(
        &mut self,
        tag: Tag,
        _identifier: Identifier,
    ) -> Result<(Frame<A>, AlternativeName), EncodeError> {
        self.enter_choice(AlternativeName {
            identifier: None,
            tag,
        })
    }

    fn close_choice<C: Choice>(
        &mut self,
        outside: (Frame<A>, AlternativeName),
        chosen: Tag,
    ) -> Result<(), EncodeError> {
        let is_known = has_alternative::<C>(chosen);
        if !is_known {
            return Err(self.refuse(EncodeError::VariantNotInChoice));
        }
        let (outer, _) = outside;
        match self.leave(outer, Kind::One) {
            Ok(inner) => {
                let text = chosen_member::<C, A>(self.alloc, C::IDENTIFIERS, chosen, inner.text());
                self.write(text)
            }
            Err(error) => Err(error),
        }
    }

    fn open_alternative<C: Choice>(
        &mut self,
        _tag: Tag,
        place: items::Place,
        _identifier: Identifier,
    ) -> Result<(Frame<A>, AlternativeName), EncodeError> {
        self.enter_choice(name_of_alternative::<C>(C::IDENTIFIERS, place))
    }

    fn close_alternative(
        &mut self,
        outside: (Frame<A>, AlternativeName),
    ) -> Result<(), EncodeError> {
        let (outer, name) = outside;
        match self.leave(outer, Kind::One) {
            Ok(inner) => {
                let text = named_member(self.alloc, name.identifier, name.tag, inner.text());
                self.write(text)
            }
            Err(error) => Err(error),
        }
    }

    fn set_presence(&mut self, is_there: bool) -> Result<(), EncodeError> {
        self.place.count_bit();
        if !is_there {
            self.place.skip_root();
        }
        self.check_members()
    }

    fn open_contents(
        &mut self,
        _tag: Tag,
        _identifier: Identifier,
    ) -> Result<Frame<A>, EncodeError> {
        let place = Frame::new(self.alloc, Kind::One);
        self.enter(Ok(place))
    }

    /// Octets that contain a value are shown as it.
    fn close_contents(&mut self, contents: Frame<A>) -> Result<(), EncodeError> {
        match self.leave(contents, Kind::One) {
            Ok(inner) => {
                let text = inner.into_text();
                self.write(Ok(text))
            }
            Err(error) => Err(error),
        }
    }

    fn skip_addition(&mut self) -> Result<(), EncodeError> {
        self.place.skip_added();
        self.check_members()
    }

    fn open_addition(&mut self) -> Result<Frame<A>, EncodeError> {
        match self.check_members() {
            Ok(()) => {
                let place = Frame::new(self.alloc, Kind::One);
                self.enter(Ok(place))
            }
            Err(error) => Err(error),
        }
    }

    fn close_addition(&mut self, addition: Frame<A>) -> Result<(), EncodeError> {
        match self.leave(addition, Kind::One) {
            Ok(inner) => self.add(inner.text()),
            Err(error) => Err(error),
        }
    }

    fn close_group<C: AdditionGroup>(&mut self, addition: Frame<A>) -> Result<(), EncodeError> {
        match self.leave(addition, Kind::One) {
            Ok(inner) => self.add_all(inner.text()),
            Err(error) => Err(error),
        }
    }

    fn open_list(
        &mut self,
        _tag: Tag,
        _constraints: &Constraints,
        count: usize,
        _identifier: Identifier,
    ) -> Result<(Frame<A>, usize), EncodeError> {
        let place = Frame::new(self.alloc, Kind::Items);
        let outside = self.enter(Ok(place))?;
        Ok((outside, count))
    }

    fn next_element(&mut self, list: &mut (Frame<A>, usize)) -> Result<(), EncodeError> {
        self.next_item(&mut list.1)
    }

    fn close_list(&mut self, list: (Frame<A>, usize)) -> Result<(), EncodeError> {
        self.close_items(list)
    }

    fn open_elements(
        &mut self,
        tag: Tag,
        constraints: &Constraints,
        count: usize,
        identifier: Identifier,
    ) -> Result<(Frame<A>, usize), EncodeError> {
        encoder::Encoder::open_list(self, tag, constraints, count, identifier)
    }

    fn next_element_in_turn(&mut self, list: &mut (Frame<A>, usize)) -> Result<(), EncodeError> {
        encoder::Encoder::next_element(self, list)
    }

    fn close_elements(&mut self, list: (Frame<A>, usize)) -> Result<(), EncodeError> {
        encoder::Encoder::close_list(self, list)
    }

    fn open_set_of(
        &mut self,
        _tag: Tag,
        _constraints: &Constraints,
        count: usize,
        _identifier: Identifier,
    ) -> Result<(Frame<A>, usize), EncodeError> {
        let place = Frame::new(self.alloc, Kind::Items);
        let outside = self.enter(Ok(place))?;
        Ok((outside, count))
    }

    fn next_member(&mut self, bag: &mut (Frame<A>, usize)) -> Result<(), EncodeError> {
        self.next_item(&mut bag.1)
    }

    fn close_set_of(&mut self, bag: (Frame<A>, usize)) -> Result<(), EncodeError> {
        self.close_items(bag)
    }

    fn open_members(
        &mut self,
        tag: Tag,
        constraints: &Constraints,
        count: usize,
        identifier: Identifier,
    ) -> Result<(Frame<A>, usize), EncodeError> {
        encoder::Encoder::open_set_of(self, tag, constraints, count, identifier)
    }

    fn next_member_in_turn(&mut self, bag: &mut (Frame<A>, usize)) -> Result<(), EncodeError> {
        encoder::Encoder::next_member(self, bag)
    }

    fn close_members(&mut self, bag: (Frame<A>, usize)) -> Result<(), EncodeError> {
        encoder::Encoder::close_set_of(self, bag)
    }

    fn fail(&mut self) {
        self.failed = true;
    }

    ghost lawful = { presents_well };

    ghost sets = { sets_written };
}
