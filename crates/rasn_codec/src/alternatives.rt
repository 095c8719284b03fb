//! How CHOICE types that are stated by one list of their alternatives are written and read.

ghost use Rattle.rasn_schema.specs.Choices.{choices_of};
ghost use Rattle.rasn_schema.specs.Components.{added_parts, chosen_value, root_parts};
ghost use Rattle.rasn_traits.specs.Choices.{IsPlaceOf, StandsAtPlace, TakesAt, WritesChosen};

use crate::codec::{Decoder, Encoder, FromTag};
use crate::kinds::{DecodeKind, EncodeKind};
use rasn_schema::alternatives::{Alternatives, ChoiceKind};
use rasn_schema::choices::Choice;
use rasn_schema::items::Place;
use rasn_schema::kinds::OfKind;
use rasn_types::types::{Identifier, Tag};

/// The alternatives of a CHOICE that can be encoded and decoded.
pub trait CodedAlternatives: Alternatives + Sized + Drop {
    /// Where the alternative stands.
    fn place(&self) -> Place
        ensures { StandsAtPlace Self.ALTERNATIVES.before Self.ALTERNATIVES.behind (Self.chosen self.now) result };

    /// Writes the value of the alternative.
    fn encode_alternative<E: Encoder>(&self, encoder: &mut E) -> Result<(), E::Error>
        ensures { WritesChosen E.rules
            (choices_of (root_parts Self.alternatives.0) Self.ALTERNATIVES.behind (added_parts Self.alternatives.0))
            (Self.chosen self.now) (Self.depth self.now) encoder.old result encoder.new };

    /// Reads the alternative at a place.
    fn decode_alternative<D: Decoder>(decoder: &mut D, place: Place) -> Result<Self, D::Error>
        requires { IsPlaceOf Self.ALTERNATIVES.before Self.ALTERNATIVES.behind place }
        ensures { TakesAt D.rules
            (choices_of (root_parts Self.alternatives.0) Self.ALTERNATIVES.behind (added_parts Self.alternatives.0))
            place (λ x. chosen_value (Self.chosen x)) decoder.old result decoder.new };
}

impl<T: CodedAlternatives + OfKind<Kind = ChoiceKind>> FromTag for T {
    fn from_tag<D: Decoder>(decoder: &mut D, tag: Tag) -> Result<T, D::Error> {
        let added = T::EXTENDED_VARIANTS;
        match T::VARIANTS.place_of(&added, tag) {
            Some(place) => T::decode_alternative(decoder, place),
            None => {
                decoder.decode_null(tag)?;
                Err(decoder.required_extension_not_present(tag))
            }
        }
    }
}

impl<T: CodedAlternatives + OfKind<Kind = ChoiceKind>> EncodeKind<T> for ChoiceKind {
    fn encode_value<E: Encoder>(
        value: &T,
        encoder: &mut E,
        tag: Tag,
        identifier: Identifier,
    ) -> Result<(), E::Error> {
        let place = value.place();
        let outside = encoder.open_alternative::<T>(tag, place, identifier)?;
        value.encode_alternative(encoder)?;
        encoder.close_alternative(outside)
    }
}

impl<T: CodedAlternatives + OfKind<Kind = ChoiceKind>> DecodeKind<T> for ChoiceKind {
    fn decode_value<D: Decoder>(decoder: &mut D, _: Tag) -> Result<T, D::Error> {
        let (place, outside) = decoder.open_alternative::<T>()?;
        let decoded = T::decode_alternative(decoder, place);
        if decoded.is_err() {
            return decoded;
        }
        decoder.close_choice(outside)?;
        decoded
    }
}
