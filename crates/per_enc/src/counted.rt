//! The encoder of types that are data: records by counts, items and alternatives by counts and places.

ghost use Rattle.std.specs.Prelude.{◌≡◌, true};
ghost use Rattle.rasn_traits.specs.Counted.{OpensPlaced, stands_in};
ghost use Rattle.per_enc.specs.PlacedChoices.{OpensPlaced as OpensPlacedWithin};
ghost use Rattle.per_enc.specs.Rules.{encoding_rules};

use crate::Encoder;
use crate::choices::OutsideChoice;
use crate::placed::{open_placed, put_item};
use per_write::error::{EncodeError, EncodeErrorKind};
use per_write::{EnclosingSet, Frame, OutsideAddition};
use rasn_schema::items::{ItemCounts, Place};
use rasn_traits::counted::CountedEncoder;
use rasn_types::types::{Identifier, Tag};
use std::alloc::Allocator;

impl<A: Allocator + Clone> CountedEncoder for Encoder<A> {
    #[inline(always)]
    fn encode_item(
        &mut self,
        _tag: Tag,
        items: ItemCounts,
        place: Place,
        _identifier: Identifier,
    ) -> Result<(), EncodeError> {
        self.begin_value()?;
        put_item(&mut self.writer, items, place)
    }

    fn open_record(
        &mut self,
        _tag: Tag,
        components: usize,
        presence_bits: usize,
        additions: Option<usize>,
        _identifier: Identifier,
    ) -> Result<(Frame<A>, EnclosingSet<A>), EncodeError> {
        let set = self.begin_outer_value()?;
        let scope = self.writer.open_record(presence_bits, additions)?;
        self.set = EnclosingSet::awaiting(components);
        Ok((scope, set))
    }

    fn close_record(&mut self, outside: (Frame<A>, EnclosingSet<A>)) -> Result<(), EncodeError> {
        self.check_scope()?;
        let (scope, set) = outside;
        self.set = set;
        self.writer.close_record(scope)
    }

    fn open_fields_of(
        &mut self,
        _tag: Tag,
        presence_bits: usize,
        additions: Option<usize>,
        _identifier: Identifier,
    ) -> Result<(Frame<A>, EnclosingSet<A>), EncodeError> {
        let set = self.begin_outer_value()?;
        let fields = self.writer.open_record(presence_bits, additions)?;
        Ok((fields, set))
    }

    fn close_fields_of(&mut self, outside: (Frame<A>, EnclosingSet<A>)) -> Result<(), EncodeError> {
        self.writer.check_unfailed()?;
        let (fields, set) = outside;
        self.set = set;
        self.writer.close_record(fields)
    }

    fn open_alternative_of(
        &mut self,
        _tag: Tag,
        alternatives: ItemCounts,
        place: Place,
        _identifier: Identifier,
    ) -> Result<(OutsideChoice<A>, EnclosingSet<A>), EncodeError> {
        self.enter_alternative(alternatives, place)
    }

    fn close_group_of(
        &mut self,
        addition: (OutsideAddition<A>, EnclosingSet<A>),
        has_required: bool,
    ) -> Result<(), EncodeError> {
        self.check_scope()?;
        let (open_type, set) = addition;
        self.set = set;
        self.writer.close_group(open_type, has_required)
    }

    fn refuse_other(&mut self) -> Result<(), EncodeError> {
        self.writer.check_unfailed()?;
        self.writer.refuse_other()
    }

    fn refuse_out_of_memory(&mut self) -> Result<(), EncodeError> {
        self.writer.check_unfailed()?;
        Err(self.writer.refuse(EncodeErrorKind::OutOfMemory))
    }
}

impl<A: Allocator + Clone> Encoder<A> {
    /// Opens a CHOICE of so many alternatives to write the one at a place, in which one value is to come.
    #[inline(always)]
    pub(crate) fn enter_alternative(
        &mut self,
        alternatives: ItemCounts,
        place: Place,
    ) -> Result<(OutsideChoice<A>, EnclosingSet<A>), EncodeError>
        requires { stands_in alternatives place ≡ true }
        ensures { OpensPlaced encoding_rules OpensPlacedWithin alternatives place self.old result self.new }
    {
        let set = self.begin_outer_value()?;
        let choice = open_placed(&mut self.writer, alternatives, place)?;
        self.set = EnclosingSet::awaiting(1);
        Ok((choice, set))
    }
}
