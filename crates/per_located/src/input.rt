//! Where a decoder of the packed encoding rules is in a message.

use crate::decoder::Positioned;
use per_de::Decoder;
use per_decoding::choices::take_choice_index;
use per_read::bitmaps::take_bitmap;
use per_read::open_types::{Contents, take_open};
use per_read::{Reader, ReaderOptions};
use per_ways::extents::OpenAhead;
use rasn_schema::items::ItemCounts;
use rasn_traits::decoder;

impl<'input> Positioned for Decoder<'input> {
    fn left(&self) -> u128 {
        self.input().len()
    }

    fn is_extended(&self) -> bool {
        let input = self.input();
        !input.is_empty() && input.first_bits(1) == 1
    }

    fn open_ahead(&self) -> OpenAhead {
        open_ahead(reader_of(self))
    }

    fn addition_ahead(&self, bitmap: bool) -> OpenAhead {
        let mut reader = reader_of(self);
        if bitmap {
            let _ = take_bitmap(&mut reader);
        }
        open_ahead(reader)
    }

    fn alternative_ahead(&self, alternatives: ItemCounts) -> OpenAhead {
        let mut reader = reader_of(self);
        let _ = take_choice_index(&mut reader, alternatives.roots, alternatives.addeds);
        open_ahead(reader)
    }
}

/// The open type that a reader has next.
fn open_ahead(mut reader: Reader<'_>) -> OpenAhead {
    let left = reader.bits().len();
    match take_open(&mut reader) {
        Ok(Contents::InPlace(_)) => OpenAhead::InPlace(reader.bits().len()),
        _ => OpenAhead::Gathered(left),
    }
}

/// A reader of the bits that a decoder has left.
fn reader_of<'bits>(decoder: &'bits Decoder<'_>) -> Reader<'bits> {
    let options = ReaderOptions {
        codec: decoder.codec(),
        zero_padding: false,
    };
    Reader::new(decoder::Decoder::alloc(decoder), decoder.input(), options)
}
