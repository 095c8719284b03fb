//! Where octets are refused by a type of a table.

ghost use Rattle.std.specs.Prelude.{◌≡◌, ◌≤◌, ◌*◌, length, IfOk};

use per_bits::BitReader;
use per_de::{Decoder, DecoderOptions};
use per_located::decoder::Located;
use per_located::{Path, Step};
use rasn_dynamic::types::{Component, Kind, Record, Types, kind_within};
use rasn_dynamic_codec::read::decode_value;
use rasn_types::types::Codec;
use std::alloc::{AllocError, Global};
use std::fmt;

/// Where octets are refused. Where memory ran out on the way there, path and bit are those where that happened; where
/// it ran out for the path's steps, that is empty.
#[derive(Debug, Drop, PartialEq, Eq)]
pub struct RefusedAt {
    /// The identifiers and the numbers of elements from the whole message to the innermost component that had begun,
    /// with a full stop between two of them (X.680 15); empty for the message itself.
    pub path: String,
    /// How many bits are in front of where the reader stood, as `per_located::Refusal` says.
    pub bit: u128,
    /// How many bits the octets have.
    pub bits: u128,
}

/// Prints the place, such as `protocolIEs.3.value, bit 40 of 96`.
impl fmt::Display for RefusedAt {
    fn fmt<W: fmt::Write>(&self, f: &mut fmt::Formatter<W>) -> fmt::Result {
        let (bit, bits) = (self.bit, self.bits);
        if !self.path.as_str().is_empty() {
            write!(f, "{}, ", self.path)?;
        }
        write!(f, "bit {bit} of {bits}")
    }
}

/// Where octets are refused, in the variant of a codec, by the type at a place of a table; of octets that aren't, where
/// a value of it ends. The only error is want of memory for the path's text.
pub fn refused_at(
    alloc: Global,
    codec: Codec,
    types: &Types,
    place: usize,
    octets: &[u8],
) -> Result<RefusedAt, AllocError>
    ensures bits { IfOk result (λ at. at.bits ≡ 8 * length octets.now) }
    ensures within { IfOk result (λ at. at.bit ≤ at.bits) }
{
    let options = match codec {
        Codec::Aper => DecoderOptions::aligned(),
        Codec::Uper => DecoderOptions::unaligned(),
    };
    let bits = BitReader::from_octets(octets).len();
    let mut decoder = Located::new(Decoder::from_octets(alloc, octets, options), bits);
    let _ = decode_value(&mut decoder, &types.kinds, place);
    let (path, bit) = decoder.into_place();
    Ok(RefusedAt {
        path: path_text(alloc, &types.kinds, place, &path)?,
        bit: bit.min(bits),
        bits,
    })
}

/// The text of a path from a value of the type at a place.
fn path_text(
    alloc: Global,
    kinds: &[Kind],
    place: usize,
    path: &Path,
) -> Result<String, AllocError> {
    let mut text = String::new(alloc);
    let mut from = Some(place);
    for step in &path.steps {
        if !text.as_str().is_empty() {
            text.push('.')?;
        }
        from = push_step(&mut text, alloc, kinds, from, *step)?;
    }
    Ok(text)
}

/// Appends a step from a value of the type at a place, where that is known. Answers the place of the type it leads to.
fn push_step(
    text: &mut String,
    alloc: Global,
    kinds: &[Kind],
    from: Option<usize>,
    step: Step,
) -> Result<Option<usize>, AllocError> {
    let part = match from {
        Some(place) => part_of(kinds, place, step),
        None => None,
    };
    match part {
        Some((name, of)) if !name.is_empty() => {
            text.push_str(name)?;
            Ok(Some(of))
        }
        _ => {
            let own = format!(in alloc; "{step}")?;
            text.push_str(own.as_str())?;
            Ok(match part {
                Some((_, of)) => Some(of),
                None => None,
            })
        }
    }
}

/// The name of the part of a value of the type at a place to which a step leads, empty where it has none, and the place
/// of its type.
fn part_of(kinds: &[Kind], place: usize, step: Step) -> Option<(&str, usize)> {
    match (kind_within(kinds, place)?, step) {
        (Kind::Record(record), Step::Placed(index)) => component_of(record, index),
        (Kind::Choice(choice), Step::Placed(index)) => match choice.roots.get(index) {
            Some(root) => Some((root.name.as_str(), root.of)),
            None => {
                let added = choice.behind().get(index.checked_sub(choice.roots.len())?)?;
                Some((added.name.as_str(), added.of))
            }
        },
        (Kind::List(of, _), Step::Element(_)) => Some(("", *of)),
        (Kind::SetOf(of, _), Step::Element(_)) => Some(("", *of)),
        _ => None,
    }
}

/// The name and the place of the type of the component at an index, those after the extension marker last.
fn component_of(record: &Record, index: usize) -> Option<(&str, usize)> {
    let root = record.root();
    let component: &Component = match root.get(index) {
        Some(component) => component,
        None => record.behind().get(index.checked_sub(root.len())?)?,
    };
    Some((component.name.as_str(), component.of))
}
