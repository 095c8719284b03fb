//! The calls of an encoder that knows at which component it refused, for types that are data.

use crate::encoder::Located;
use per_ways::Step;
use per_ways::trail::{Frame, RecordFrame};
use per_ways::turns::place_among;
use rasn_schema::items::{ItemCounts, Place};
use rasn_traits::counted::CountedEncoder;
use rasn_types::types::{Identifier, Tag};

impl<E: CountedEncoder + Drop> CountedEncoder for Located<E> {
    fn encode_item(
        &mut self,
        tag: Tag,
        items: ItemCounts,
        place: Place,
        identifier: Identifier,
    ) -> Result<(), E::Error> {
        let answer = self.inner.encode_item(tag, items, place, identifier);
        self.begun(tag, answer)
    }

    fn open_record(
        &mut self,
        tag: Tag,
        components: usize,
        presence_bits: usize,
        additions: Option<usize>,
        identifier: Identifier,
    ) -> Result<E::Scope, E::Error> {
        let answer = self
            .inner
            .open_record(tag, components, presence_bits, additions, identifier);
        self.opened(tag, answer, Frame::Record(RecordFrame::counted(false)))
    }

    fn close_record(&mut self, scope: E::Scope) -> Result<(), E::Error> {
        self.trail.pause();
        let answer = self.inner.close_record(scope);
        self.closed(answer)
    }

    fn open_fields_of(
        &mut self,
        tag: Tag,
        presence_bits: usize,
        additions: Option<usize>,
        identifier: Identifier,
    ) -> Result<E::Scope, E::Error> {
        let answer = self
            .inner
            .open_fields_of(tag, presence_bits, additions, identifier);
        self.opened(tag, answer, Frame::Record(RecordFrame::counted(false)))
    }

    fn close_fields_of(&mut self, scope: E::Scope) -> Result<(), E::Error> {
        self.trail.pause();
        let answer = self.inner.close_fields_of(scope);
        self.closed(answer)
    }

    fn open_alternative_of(
        &mut self,
        tag: Tag,
        alternatives: ItemCounts,
        place: Place,
        identifier: Identifier,
    ) -> Result<E::Alternative, E::Error> {
        let answer = self
            .inner
            .open_alternative_of(tag, alternatives, place, identifier);
        let step = Step::Placed(place_among(alternatives, place));
        self.opened(tag, answer, Frame::Alternative(step, None))
    }

    fn close_group_of(
        &mut self,
        addition: E::Addition,
        has_required: bool,
    ) -> Result<(), E::Error> {
        let answer = self.inner.close_group_of(addition, has_required);
        self.closed_addition(answer)
    }

    fn refuse_other(&mut self) -> Result<(), E::Error> {
        let answer = self.inner.refuse_other();
        self.seen(answer)
    }

    fn refuse_out_of_memory(&mut self) -> Result<(), E::Error> {
        let answer = self.inner.refuse_out_of_memory();
        self.seen(answer)
    }
}
