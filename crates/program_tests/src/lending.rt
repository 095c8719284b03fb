//! Which octets a `Decoder` lends, and which it copies.

use rasn_below::Constraints;
use rasn_below::codec::Decoder as AnyDecoder;
use rasn_below::types::Tag;
use rasn_per::bits::BitReader;
use rasn_per::per::de::error::DecodeError;
use rasn_per::per::de::taken_octets::TakenOctets;
use rasn_per::per::de::{Decoder, DecoderOptions};
use std::alloc::Global;
use std::borrow::CowSlice;
use std::test::Fail;

/// Reads an OCTET STRING without constraints, of any decoder, after a BOOLEAN where there is one.
fn take_octets<D: AnyDecoder>(decoder: &mut D, has_boolean: bool) -> Result<D::Octets, D::Error> {
    if has_boolean {
        decoder.decode_bool(Tag::BOOL)?;
    }
    decoder.decode_octet_string(Tag::OCTET_STRING, &Constraints::NONE)
}

/// Whether these octets are read and lent, where they have to be, else copied.
fn is_taken(octets: Option<CowSlice<'_, u8>>, is_lent: bool, expected: &[u8]) -> bool {
    match octets {
        Some(CowSlice::Borrowed(octets)) => is_lent && octets == expected,
        Some(CowSlice::Owned(octets)) => !is_lent && octets.as_slice() == expected,
        None => false,
    }
}

/// The octets of an OCTET STRING in the UNALIGNED variant, after a BOOLEAN where there is one.
fn octets_of<'input>(
    alloc: Global,
    reader: BitReader<'input>,
    has_boolean: bool,
) -> Option<CowSlice<'input, u8>> {
    let mut decoder = Decoder::from_reader(alloc, reader, DecoderOptions::unaligned());
    take_octets(&mut decoder, has_boolean).ok()
}

/// Octets, how many bits are left out in front of the OCTET STRING, whether a BOOLEAN is there too, and whether the
/// three octets are lent.
const ROWS: &[(&[u8], u128, bool, bool)] = &[
    (&[0x03, 0xaa, 0xbb, 0xcc], 0, false, true),
    (&[0xff, 0x03, 0xaa, 0xbb, 0xcc], 8, false, true),
    (&[0xf0, 0x3a, 0xab, 0xbc, 0xc0], 4, false, false),
    (&[0x81, 0xd5, 0x5d, 0xe6, 0x00], 0, true, false),
];

#[test]
fn lends_octets_with_one_count_alone_that_stand_on_octets(rt: HostRuntime) {
    for (input, count, has_boolean, is_lent) in ROWS {
        let mut reader = BitReader::from_octets(input);
        assert!(rt; reader.take(*count).is_ok());
        let octets = octets_of(rt.alloc(), reader, *has_boolean);
        assert!(rt;
            is_taken(octets, *is_lent, &[0xaa, 0xbb, 0xcc]),
            "{input:?}"
        );
    }
}

/// Whether the octets of an OCTET STRING in the ALIGNED variant are lent.
fn is_lent_of_octets(alloc: Global, input: &[u8], expected: &[u8]) -> bool {
    let mut decoder = Decoder::from_octets(alloc, input, DecoderOptions::aligned());
    is_taken(take_octets(&mut decoder, false).ok(), true, expected)
}

#[test]
fn lends_octets_of_the_aligned_variant(rt: HostRuntime) {
    let input = [0x03, 0xaa, 0xbb, 0xcc];
    assert!(rt; is_lent_of_octets(rt.alloc(), &input, &[0xaa, 0xbb, 0xcc]));
}

#[test]
fn copies_octets_in_fragments(rt: HostRuntime) -> Result<(), Fail> {
    let mut input = Vec::from_slice(rt.alloc(), &[0xc1])?;
    input.extend_from_slice(&[0x55; 16384])?;
    input.push(0x00)?;
    let reader = BitReader::from_octets(input.as_slice());
    let octets = octets_of(rt.alloc(), reader, false);
    assert!(rt; is_taken(octets, false, &[0x55; 16384]));
    Ok(())
}

/// Whether the octets of an OCTET STRING that an open type contains are these, and lent.
fn are_lent_of_contents(alloc: Global, input: &[u8], expected: &[u8]) -> Result<bool, DecodeError> {
    let mut decoder = Decoder::from_octets(alloc, input, DecoderOptions::aligned());
    let contents = decoder.open_contents(Tag::OCTET_STRING)?;
    let taken = decoder.take_octet_string(Tag::OCTET_STRING, &Constraints::NONE)?;
    let TakenOctets::InFront(count) = taken else {
        return Ok(false);
    };
    let are_lent = decoder.octets_in_front(count).unwrap_or(&[]) == expected;
    decoder.close_contents(contents)?;
    Ok(are_lent)
}

#[test]
fn lends_octets_of_an_open_type_in_fragments(rt: HostRuntime) -> Result<(), Fail> {
    let mut input = Vec::from_slice(rt.alloc(), &[0xc1, 0xbf, 0xfe])?;
    input.extend_from_slice(&[0x55; 16382])?;
    input.push(0x00)?;
    let are_lent = are_lent_of_contents(rt.alloc(), input.as_slice(), &[0x55; 16382]);
    assert!(rt; are_lent.ok() == Some(true));
    Ok(())
}
