//! Optional truth values in an array as the additions of a record, which are given and read in turn.

ghost use Rattle.std.specs.Prelude.{◌≡◌, ◌≤◌, ◌+◌, ◌-◌, length, map, take, drop, IfOk};
ghost use Rattle.rasn_below.specs.Values.{truth, slot_of};
ghost use Rattle.rasn_below.specs.Components.{at, parts_of};
ghost use Rattle.rasn_below.specs.Types.{tagged};
ghost use Rattle.rasn_below.specs.Calls.{WritesAdditions, TakesAdditions};
ghost use Rattle.per_samples_b.specs.Many.{truths_from};

use rasn_below::additions::Added;
use rasn_below::codec::{DecodeAdditions, EncodeAdditions};
use rasn_below::components::{DecodeComponent, EncodeComponent, Optional};
use rasn_below::{AsnType, Class, Decoder, Encoder, Tag};
use std::marker::PhantomData;

/// The additions to write.
#[derive(Clone, Copy)]
pub struct TruthsToWrite {
    /// What they are.
    pub options: [Option<bool>; 65],
}

/// The additions to read.
#[derive(Clone, Copy)]
pub struct TruthsToRead;

/// The tag of an addition by its place (X.680 25.7, AUTOMATIC TAGS).
fn context(place: u32) -> Tag
    ensures { tagged result ≡ at place }
{
    Tag {
        class: Class::Context,
        value: place,
    }
}

/// Gives optional truth values in turn, the first under a place as its tag.
fn encode_from<E: Encoder>(
    options: &[Option<bool>],
    place: u32,
    encoder: &mut E,
) -> Result<(), E::Error>
    requires { place + length options.now ≤ 65 }
    ensures { WritesAdditions E.rules (parts_of (truths_from place (length options.now))) 0
        (map (slot_of truth) options.now) encoder.old result encoder.new }
{
    match options.split_first() {
        Some((first, behind)) => {
            EncodeComponent::<Added>::encode_component(
                &Optional(first),
                encoder,
                context(place),
                &<bool as AsnType>::CONSTRAINTS,
            )?;
            encode_from(behind, place + 1, encoder)
        }
        None => Ok(()),
    }
}

/// Reads the additions from a place on, and keeps those before it.
fn decode_from<D: Decoder>(
    options: [Option<bool>; 65],
    place: usize,
    decoder: &mut D,
) -> Result<[Option<bool>; 65], D::Error>
    requires count { length options ≡ 65 }
    requires place { place ≤ 65 }
    ensures kept { IfOk result (λ xs. take place xs ≡ take place options) }
    ensures read { TakesAdditions D.rules (parts_of (truths_from place (65 - place)))
        (λ xs. map (slot_of truth) (drop place xs)) decoder.old result decoder.new }
{
    if place >= 65 {
        return Ok(options);
    }
    let addition = Optional(PhantomData::<Option<bool>>);
    let option = DecodeComponent::<Added>::decode_component(
        &addition,
        decoder,
        context(place as u32),
        &<bool as AsnType>::CONSTRAINTS,
    )?;
    let mut further = options;
    further[place] = option;
    decode_from(further, place + 1, decoder)
}

impl EncodeAdditions for TruthsToWrite {
    ghost additions = { λ p. parts_of (truths_from 0 65) };

    ghost contents = { λ p. map (slot_of truth) p.options };

    ghost levels = { λ p. 0 };

    fn encode_additions<E: Encoder>(&self, encoder: &mut E) -> Result<(), E::Error> {
        let additions = *self;
        encode_from(&additions.options, 0, encoder)
    }
}

impl DecodeAdditions for TruthsToRead {
    type Values = [Option<bool>; 65];

    ghost additions = { λ p. parts_of (truths_from 0 65) };

    ghost contents = { map (slot_of truth) };

    fn decode_additions<D: Decoder>(
        &self,
        decoder: &mut D,
    ) -> Result<[Option<bool>; 65], D::Error> {
        decode_from([None; 65], 0, decoder)
    }
}
