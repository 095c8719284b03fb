//! The calls of a decoder that knows where it was when it refused, for types that are data.

use crate::decoder::{Located, Positioned};
use per_ways::Step;
use per_ways::trail::{Frame, RecordFrame};
use per_ways::turns::place_among;
use rasn_schema::items::{ItemCounts, Place};
use rasn_traits::counted::CountedDecoder;
use rasn_types::types::Tag;

impl<D: Positioned + CountedDecoder> CountedDecoder for Located<D> {
    fn decode_item(&mut self, tag: Tag, items: ItemCounts) -> Result<Place, D::Error> {
        let answer = self.inner.decode_item(tag, items);
        self.begun(answer)
    }

    fn open_record(
        &mut self,
        tag: Tag,
        components: usize,
        presence_bits: usize,
        additions: Option<usize>,
    ) -> Result<D::Scope, D::Error> {
        let extended = additions.is_some() && self.inner.is_extended();
        let answer = self
            .inner
            .open_record(tag, components, presence_bits, additions);
        self.opened(answer, Frame::Record(RecordFrame::counted(extended)))
    }

    fn open_fields_of(
        &mut self,
        tag: Tag,
        presence_bits: usize,
        additions: Option<usize>,
    ) -> Result<D::Scope, D::Error> {
        let extended = additions.is_some() && self.inner.is_extended();
        let answer = self.inner.open_fields_of(tag, presence_bits, additions);
        self.opened(answer, Frame::Record(RecordFrame::counted(extended)))
    }

    fn close_fields_of(&mut self, scope: D::Scope) -> Result<(), D::Error> {
        self.trail.pause();
        let answer = self.inner.close_fields_of(scope);
        self.closed(answer)
    }

    fn open_alternative_of(
        &mut self,
        tag: Tag,
        alternatives: ItemCounts,
    ) -> Result<(Place, D::Alternative), D::Error> {
        self.trail.begin();
        let open = self.inner.alternative_ahead(alternatives);
        let answer = self.inner.open_alternative_of(tag, alternatives);
        if let Ok(opened) = &answer {
            let place = opened.0;
            let step = Step::Placed(place_among(alternatives, place));
            self.enter_alternative(step, Some(place), open);
        }
        self.seen(answer)
    }
}
