//! The canonical encoder of the packed encoding rules (ITU-T X.691), and what it writes of the types' values by a
//! `Writer`: numbers under constraints, enumerations, identifiers, times, dates, the alternatives of a choice, and the
//! members of a SET OF.
#![tactic(auto)]

ghost use Rattle.std.specs.Prelude.{◌≡◌, true, false};
ghost use Rattle.rasn_traits.specs.Calls.{Writes};
ghost use Rattle.per_enc.specs.Rules.{encoding_rules};
ghost use Rattle.per_pieces.specs.Turns.{is_complete, uncounted};

use crate::bags::OpenBag;
use crate::choices::{OutsideChoice, checked_place, close_choice, open_choice};
use crate::dates::put_date;
use crate::enumerated::put_enumerated;
use crate::identifiers::put_object_identifier;
use crate::placed::close_placed;
use crate::times::{put_generalized_time, put_utc_time};
pub use options::EncoderOptions;
pub use per_write::error;
pub use per_write::error::{EncodeError, EncodeError as Error, EncodeErrorKind};
use per_write::lists::{UnwrittenElements, close_list, next_element, open_list};
use per_write::{EnclosingSet, Frame, OutsideAddition, OutsideUnplaced, Writer};
use rasn_schema::choices::Choice;
use rasn_schema::enumerated::Enumerated;
use rasn_schema::fields::{AdditionGroup, Constructed};
use rasn_schema::items::Place;
use rasn_schema::schema::{Constraints, IntegerType};
use rasn_strings::civil::{CivilDate, GeneralizedMoment, UtcMoment};
use rasn_strings::strings::StaticPermittedAlphabet;
use rasn_traits::counted::alternative_counts;
use rasn_traits::encoder;
use rasn_types::bit_string::BitString;
use rasn_types::octet_strings::{Any, GeneralString, GraphicString, TeletexString};
use rasn_types::types::{Codec, Identifier, Tag};
use scopes::{added_count, addition_count};
use std::alloc::Allocator;
use std::marker::Model;

pub mod bags;
mod bit_fields;
pub mod choices;
pub mod counted;
pub mod dates;
pub mod enumerated;
pub mod identifiers;
mod integer_calls;
pub mod integers;
pub mod member_order;
pub mod members;
mod options;
mod outputs;
pub mod placed;
mod scopes;
pub mod times;

type Result<T> = std::result::Result<T, EncodeError>;

/// Writes values, one after another, in their canonical bits.
#[derive(Drop)]
pub struct Encoder<A: Allocator + Clone> {
    writer: Writer<A>,
    /// What encloses what is written next: a scope that counts its components, or a SET that gathers them.
    set: EnclosingSet<A>,
}

impl<A: Allocator + Clone> Model for Encoder<A> {
    ghost use Rattle.per_write.specs.Components.{Encoding};

    ghost Value = { Encoding };

    ghost view = { λ a. record { writer = a.writer; set = a.set } };
}

impl<A: Allocator + Clone> encoder::Encoder for Encoder<A> {
    ghost use Rattle.per_enc.specs.Laws.Relations.{presents_well};
    ghost use Rattle.per_enc.specs.Laws.Sets.{sets_written};
    ghost use Rattle.per_enc.specs.PlacedChoices.{OpensPlaced};
    ghost use Rattle.per_enc.specs.Scopes.{AwaitsValues, IsOpenBag, IsOpenElements, IsOpenList, IsOpenMembers, Opens};
    ghost use Rattle.per_enc.specs.Scopes.{OpensChoice, OpensContents, OpensFields, OpensOpenType};

    type Error = EncodeError;

    type Scope = (Frame<A>, EnclosingSet<A>);

    type Addition = (OutsideAddition<A>, EnclosingSet<A>);

    type Alternative = (OutsideChoice<A>, EnclosingSet<A>);

    type Contents = (OutsideUnplaced<A>, EnclosingSet<A>);

    type List = ((UnwrittenElements, Option<Frame<A>>), EnclosingSet<A>);

    type Bag = ((OpenBag<A>, Option<Frame<A>>), EnclosingSet<A>);

    ghost rules = { encoding_rules };

    ghost opens = { Opens };

    ghost opens_fields = { OpensFields };

    ghost opens_addition = { OpensOpenType };

    ghost opens_choice = { OpensChoice };

    ghost opens_alternative = { OpensPlaced };

    ghost opens_contents = { OpensContents };

    ghost amid = { IsOpenList };

    ghost amid_elements = { IsOpenElements };

    ghost amid_bag = { IsOpenBag };

    ghost amid_members = { IsOpenMembers };

    ghost awaits_values = { AwaitsValues };

    fn codec(&self) -> Codec {
        Encoder::codec(self)
    }

    #[inline(always)]
    fn encode_bool(&mut self, _tag: Tag, value: bool, _name: Identifier) -> Result<()> {
        self.begin_value()?;
        self.writer.put_bit(value)
    }

    #[inline(always)]
    fn encode_integer<I: IntegerType>(
        &mut self,
        _tag: Tag,
        constraints: &Constraints,
        value: &I,
        _name: Identifier,
    ) -> Result<()> {
        match self.put_short_integer(constraints, value) {
            Some(true) => Ok(()),
            short => self.put_any_integer(short.is_some(), constraints, value),
        }
    }

    fn encode_real(
        &mut self,
        _tag: Tag,
        _constraints: &Constraints,
        _name: Identifier,
    ) -> Result<()> {
        self.writer.check_unfailed()?;
        self.writer.refuse_real()
    }

    fn encode_absent(&mut self, _tag: Tag, _name: Identifier) -> Result<()> {
        self.writer.check_unfailed()?;
        self.writer.refuse_absent()
    }

    #[inline(always)]
    fn encode_null(&mut self, _tag: Tag, _name: Identifier) -> Result<()> {
        self.begin_value()
    }

    #[inline(always)]
    fn encode_enumerated<E: Enumerated>(
        &mut self,
        _tag: Tag,
        value: &E,
        _name: Identifier,
    ) -> Result<()> {
        self.begin_value()?;
        put_enumerated(&mut self.writer, value)
    }

    fn encode_any(&mut self, _tag: Tag, value: &Any, _name: Identifier) -> Result<()> {
        self.begin_value()?;
        self.writer.put_octets(value.as_bytes())
    }

    #[inline(always)]
    fn encode_octet_string(
        &mut self,
        _tag: Tag,
        constraints: &Constraints,
        value: &[u8],
        _name: Identifier,
    ) -> Result<()> {
        self.begin_value()?;
        self.writer.put_octet_string(constraints, value)
    }

    #[inline(always)]
    fn encode_bit_string(
        &mut self,
        _tag: Tag,
        constraints: &Constraints,
        value: &BitString,
        _name: Identifier,
    ) -> Result<()> {
        self.begin_value()?;
        self.writer.put_bit_string(constraints, value)
    }

    fn encode_named_bits(
        &mut self,
        _tag: Tag,
        constraints: &Constraints,
        value: &BitString,
        _name: Identifier,
    ) -> Result<()> {
        self.begin_value()?;
        self.writer.put_named_bits(constraints, value)
    }

    #[inline(always)]
    fn encode_known_multiplier_string<S: StaticPermittedAlphabet>(
        &mut self,
        _tag: Tag,
        constraints: &Constraints,
        value: &S,
        _name: Identifier,
    ) -> Result<()> {
        self.begin_value()?;
        self.writer.put_characters(constraints, value)
    }

    fn encode_utf8_string(
        &mut self,
        _tag: Tag,
        _constraints: &Constraints,
        value: &str,
        _name: Identifier,
    ) -> Result<()> {
        self.begin_value()?;
        self.writer.put_octets(value.as_bytes())
    }

    fn encode_general_string(
        &mut self,
        _tag: Tag,
        _constraints: &Constraints,
        value: &GeneralString,
        _name: Identifier,
    ) -> Result<()> {
        self.begin_value()?;
        self.writer.put_octets(value.as_bytes())
    }

    fn encode_graphic_string(
        &mut self,
        _tag: Tag,
        _constraints: &Constraints,
        value: &GraphicString,
        _name: Identifier,
    ) -> Result<()> {
        self.begin_value()?;
        self.writer.put_octets(value.as_bytes())
    }

    fn encode_teletex_string(
        &mut self,
        _tag: Tag,
        _constraints: &Constraints,
        value: &TeletexString,
        _name: Identifier,
    ) -> Result<()> {
        self.begin_value()?;
        self.writer.put_octets(value.as_bytes())
    }

    fn encode_object_identifier(
        &mut self,
        _tag: Tag,
        value: &[u32],
        _name: Identifier,
    ) -> Result<()> {
        self.begin_value()?;
        put_object_identifier(&mut self.writer, value)
    }

    fn encode_utc_time<M: UtcMoment>(
        &mut self,
        _tag: Tag,
        value: &M,
        _name: Identifier,
    ) -> Result<()> {
        self.begin_value()?;
        put_utc_time(&mut self.writer, value)
    }

    fn encode_generalized_time<M: GeneralizedMoment>(
        &mut self,
        _tag: Tag,
        value: &M,
        _name: Identifier,
    ) -> Result<()> {
        self.begin_value()?;
        put_generalized_time(&mut self.writer, value)
    }

    fn encode_date<D: CivilDate>(&mut self, _tag: Tag, value: &D, _name: Identifier) -> Result<()> {
        self.begin_value()?;
        put_date(&mut self.writer, value)
    }

    fn open_sequence<C: Constructed>(
        &mut self,
        _tag: Tag,
        _name: Identifier,
    ) -> Result<Self::Scope> {
        let set = self.begin_outer_value()?;
        let fields = C::FIELDS;
        let count = fields.number_of_optional_and_default_fields();
        let scope = self.writer.open_record(count, addition_count::<C>())?;
        self.set = EnclosingSet::awaiting(fields.len());
        Ok((scope, set))
    }

    fn close_sequence<C: Constructed>(&mut self, outside: Self::Scope) -> Result<()> {
        self.check_scope()?;
        let (scope, set) = outside;
        self.set = set;
        self.writer.close_record(scope)
    }

    fn open_fields<C: Constructed>(&mut self, _tag: Tag, _name: Identifier) -> Result<Self::Scope> {
        let set = self.begin_outer_value()?;
        let optional = C::FIELDS.number_of_optional_and_default_fields();
        let fields = self.writer.open_record(optional, addition_count::<C>())?;
        Ok((fields, set))
    }

    fn close_fields<C: Constructed>(&mut self, outside: Self::Scope) -> Result<()> {
        self.writer.check_unfailed()?;
        let (fields, set) = outside;
        self.set = set;
        self.writer.close_record(fields)
    }

    fn open_components<C: Constructed>(
        &mut self,
        _tag: Tag,
        _name: Identifier,
    ) -> Result<Self::Scope> {
        let outer = self.begin_outer_value()?;
        let scope = self.writer.open_record(0, addition_count::<C>())?;
        let set = self.writer.open_components(C::FIELDS.len())?;
        self.set = set;
        Ok((scope, outer))
    }

    fn close_components<C: Constructed>(&mut self, outside: Self::Scope) -> Result<()> {
        self.writer.check_unfailed()?;
        let Some(set) = self.set.take_open() else {
            return Err(self.writer.refuse(EncodeErrorKind::OutOfTurn));
        };
        self.writer.put_components(set, &C::FIELDS)?;
        let (record, outer) = outside;
        self.set = outer;
        self.writer.close_record(record)
    }

    fn open_set<C: Constructed>(&mut self, _tag: Tag, _name: Identifier) -> Result<Self::Scope> {
        let set = self.begin_outer_value()?;
        let fields = C::FIELDS;
        let bits = fields.number_of_optional_and_default_fields();
        let added = addition_count::<C>();
        let scope = self.writer.open_record(bits, added)?;
        self.set = EnclosingSet::awaiting(fields.len());
        Ok((scope, set))
    }

    fn close_set<C: Constructed>(&mut self, outside: Self::Scope) -> Result<()> {
        self.check_scope()?;
        let (ordered, set) = outside;
        self.set = set;
        self.writer.close_record(ordered)
    }

    fn open_choice<C: Choice>(
        &mut self,
        _tag: Tag,
        _name: Identifier,
    ) -> Result<Self::Alternative> {
        let set = self.begin_outer_value()?;
        let choice = open_choice(&mut self.writer, C::VARIANTS.len(), added_count::<C>())?;
        self.set = EnclosingSet::awaiting(1);
        Ok((choice, set))
    }

    fn close_choice<C: Choice>(&mut self, outside: Self::Alternative, chosen: Tag) -> Result<()> {
        self.writer.check_unfailed()?;
        let variants = C::VARIANTS;
        let added = C::EXTENDED_VARIANTS;
        let found = variants.place_of(&added, chosen);
        let place = checked_place(&mut self.writer, found)?;
        if !self.set.is_complete() {
            return Err(self.writer.refuse(EncodeErrorKind::OutOfTurn));
        }
        let (choice, set) = outside;
        self.set = set;
        let marker = added.is_some();
        close_choice(&mut self.writer, marker, variants.len(), place, choice)
    }

    #[inline(always)]
    fn open_alternative<C: Choice>(
        &mut self,
        _tag: Tag,
        place: Place,
        _name: Identifier,
    ) -> Result<Self::Alternative> {
        self.enter_alternative(alternative_counts::<C>(), place)
    }

    #[inline(always)]
    fn close_alternative(&mut self, outside: Self::Alternative) -> Result<()> {
        self.check_scope()?;
        let (placed, set) = outside;
        self.set = set;
        close_placed(&mut self.writer, placed)
    }

    fn open_contents(&mut self, _tag: Tag, _name: Identifier) -> Result<Self::Contents> {
        let set = self.begin_outer_value()?;
        let waiting = self.writer.open_unplaced()?;
        self.set = EnclosingSet::awaiting(1);
        Ok((waiting, set))
    }

    fn close_contents(&mut self, outside: Self::Contents) -> Result<()> {
        self.check_scope()?;
        let (waiting, set) = outside;
        self.set = set;
        let contents = self.writer.close_unplaced(waiting);
        self.writer.put_open_pieces(contents)
    }

    #[inline(always)]
    fn set_presence(&mut self, is_there: bool) -> Result<()> {
        self.writer.check_unfailed()?;
        if self.set.is_uncounted() {
            return self.writer.set_presence(is_there);
        }
        self.set_presence_within(is_there)
    }

    fn skip_addition(&mut self) -> Result<()> {
        self.writer.check_unfailed()?;
        self.writer.skip_addition()
    }

    fn open_addition(&mut self) -> Result<Self::Addition> {
        self.writer.check_unfailed()?;
        let open_type = self.writer.open_addition()?;
        let set = self.set.take();
        self.set = EnclosingSet::awaiting(1);
        Ok((open_type, set))
    }

    fn close_addition(&mut self, addition: Self::Addition) -> Result<()> {
        self.check_scope()?;
        let (open_type, set) = addition;
        self.set = set;
        self.writer.close_addition(open_type)
    }

    fn close_group<C: AdditionGroup>(&mut self, addition: Self::Addition) -> Result<()> {
        self.check_scope()?;
        let fields = C::FIELDS;
        let has_required = fields.number_of_optional_and_default_fields() < fields.len();
        let (open_type, set) = addition;
        self.set = set;
        self.writer.close_group(open_type, has_required)
    }

    fn open_list(
        &mut self,
        _tag: Tag,
        constraints: &Constraints,
        count: usize,
        _name: Identifier,
    ) -> Result<Self::List> {
        let set = self.begin_outer_value()?;
        let scope = self.writer.enter_alternative();
        let rest = open_list(&mut self.writer, constraints, count)?;
        self.set = EnclosingSet::in_list(0);
        Ok(((rest, Some(scope)), set))
    }

    fn next_element(&mut self, list: &mut Self::List) -> Result<()> {
        self.check_between()?;
        next_element(&mut self.writer, &mut list.0.0)?;
        self.set = EnclosingSet::in_list(1);
        Ok(())
    }

    fn close_list(&mut self, list: Self::List) -> Result<()> {
        self.check_between()?;
        let ((rest, scope), set) = list;
        let closed = close_list(&mut self.writer, rest);
        if let Some(scope) = scope {
            self.writer.leave(scope);
        }
        self.set = set;
        closed
    }

    fn open_elements(
        &mut self,
        _tag: Tag,
        constraints: &Constraints,
        count: usize,
        _name: Identifier,
    ) -> Result<Self::List> {
        let set = self.begin_outer_value()?;
        let list = open_list(&mut self.writer, constraints, count)?;
        Ok(((list, None), set))
    }

    #[inline(always)]
    fn next_element_in_turn(&mut self, list: &mut Self::List) -> Result<()> {
        self.writer.check_unfailed()?;
        let elements = &mut list.0.0;
        next_element(&mut self.writer, elements)
    }

    fn close_elements(&mut self, list: Self::List) -> Result<()> {
        self.writer.check_unfailed()?;
        let ((elements, _), set) = list;
        self.set = set;
        close_list(&mut self.writer, elements)
    }

    fn open_set_of(
        &mut self,
        _tag: Tag,
        constraints: &Constraints,
        count: usize,
        _name: Identifier,
    ) -> Result<Self::Bag> {
        let set = self.begin_outer_value()?;
        let scope = self.writer.enter_alternative();
        let kept = OpenBag::open(&mut self.writer, constraints, count)?;
        self.set = EnclosingSet::in_list(0);
        Ok(((kept, Some(scope)), set))
    }

    fn next_member(&mut self, bag: &mut Self::Bag) -> Result<()> {
        self.check_between()?;
        bag.0.0.next_member(&mut self.writer)?;
        self.set = EnclosingSet::in_list(1);
        Ok(())
    }

    fn close_set_of(&mut self, bag: Self::Bag) -> Result<()> {
        self.check_between()?;
        let ((kept, scope), set) = bag;
        let closed = kept.close(&mut self.writer);
        if let Some(scope) = scope {
            self.writer.leave(scope);
        }
        self.set = set;
        closed
    }

    fn open_members(
        &mut self,
        _tag: Tag,
        constraints: &Constraints,
        count: usize,
        _name: Identifier,
    ) -> Result<Self::Bag> {
        let set = self.begin_outer_value()?;
        let bag = OpenBag::open(&mut self.writer, constraints, count)?;
        Ok(((bag, None), set))
    }

    fn next_member_in_turn(&mut self, bag: &mut Self::Bag) -> Result<()> {
        self.writer.check_unfailed()?;
        let open = &mut bag.0.0;
        open.next_member(&mut self.writer)
    }

    fn close_members(&mut self, bag: Self::Bag) -> Result<()> {
        self.writer.check_unfailed()?;
        let (opened, set) = bag;
        let (open, _) = opened;
        self.set = set;
        open.close(&mut self.writer)
    }

    fn fail(&mut self) {
        self.writer.fail();
    }

    ghost lawful = { presents_well };

    ghost sets = { sets_written };
}
