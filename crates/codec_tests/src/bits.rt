//! Bits by words, against the same bits pushed one by one: at each place of an octet and each width.

use crate::expected::expect_octets;
use per_bits::{BitList, BitReader};
use std::alloc::{AllocError, Global};
use std::test::Fail;

/// Bits of which no two runs of eight are alike, and the same bits turned.
const NUMBERS: [u128; 2] = [
    0x8123_4567_89ab_cdef_fedc_ba98_7654_3211,
    0x7edc_ba98_7654_3210_0123_4567_89ab_cdee,
];

const OCTETS: [u8; 20] = [
    0x01, 0x23, 0x45, 0x67, 0x89, 0xab, 0xcd, 0xef, 0xfe, 0xdc, 0xba, 0x98, 0x76, 0x54, 0x32, 0x10,
    0xff, 0x80, 0x7f, 0xe5,
];

/// A list of ones.
fn ones(alloc: Global, count: usize) -> Result<BitList<Global>, AllocError> {
    let mut list = BitList::new(alloc);
    for _ in 0..count {
        list.push(true)?;
    }
    Ok(list)
}

/// The bit at an index of octets, the highest bit of the first octet at 0.
fn bit_at(octets: &[u8], index: usize) -> bool {
    match octets.get(index / 8) {
        Some(octet) => *octet >> (7 - index % 8) & 1 == 1,
        None => false,
    }
}

/// The bit of a number at a place, the lowest at 0.
fn bit_of(number: u128, place: usize) -> bool {
    place < 128 && number >> place & 1 == 1
}

/// So many ones, and after them the low bits of a number, pushed one by one.
fn ones_and_number(
    alloc: Global,
    start: usize,
    width: usize,
    number: u128,
) -> Result<BitList<Global>, AllocError> {
    let mut list = ones(alloc, start)?;
    for place in (0..width).rev() {
        list.push(bit_of(number, place))?;
    }
    Ok(list)
}

/// Whether two lists have the same bits in the same octets, spare bits too.
fn are_same(one: &BitList<Global>, other: &BitList<Global>) -> bool {
    one.len() == other.len() && one.as_octets() == other.as_octets()
}

/// Whether a number that is pushed after ones is there as its bits pushed one by one.
fn pushes_alike(
    alloc: Global,
    start: usize,
    width: usize,
    number: u128,
) -> Result<bool, AllocError> {
    let mut list = ones(alloc, start)?;
    if 128 < width {
        return Ok(false);
    }
    list.push_bits(number, width as u128)?;
    let expected = ones_and_number(alloc, start, width, number)?;
    Ok(are_same(&list, &expected))
}

#[test]
fn pushes_each_width_at_each_place(rt: HostRuntime) -> Result<(), AllocError> {
    for start in 0..8usize {
        for width in 0..129usize {
            for number in NUMBERS {
                let alike = pushes_alike(rt.alloc(), start, width, number)?;
                assert!(rt; alike, "{width} behind {start}");
            }
        }
    }
    Ok(())
}

/// The first bits of a reader.
fn first_of(reader: &BitReader<'_>, count: u128) -> Option<u128> {
    if 128 < count || reader.len() < count {
        return None;
    }
    Some(reader.first_bits(count))
}

/// The number of bits of octets, taken one by one.
fn number_at(start: usize, width: usize) -> u128 {
    let mut number = 0u128;
    for index in 0..width {
        number = number << 1 | u128::from(bit_at(&OCTETS, start.saturating_add(index)));
    }
    number
}

/// Whether a number that is read after some bits is that of its bits one by one.
fn reads_alike(start: usize, width: usize) -> bool {
    let mut reader = BitReader::from_octets(&OCTETS);
    let is_there = reader.take(start as u128).is_ok();
    is_there && first_of(&reader, width as u128) == Some(number_at(start, width))
}

#[test]
fn reads_each_width_at_each_place(rt: HostRuntime) {
    for start in 0..8usize {
        for width in 0..129usize {
            assert!(rt; reads_alike(start, width), "{width} behind {start}");
        }
    }
}

/// The octets of a bit, of others' bits and of octets after it.
fn appended(alloc: Global) -> Result<Vec<u8>, AllocError> {
    let other = BitList::from_octets(alloc, &[0xa5])?;
    let mut list = ones(alloc, 1)?;
    list.push_reader(&BitReader::new(&other))?;
    list.push_octets(&[0x80, 0x01])?;
    let mut octets = Vec::new(alloc);
    BitReader::new(&list).append_octets(&mut octets)?;
    Ok(octets)
}

#[test]
fn appends_octets_and_readers(rt: HostRuntime) -> Result<(), Fail> {
    let octets = appended(rt.alloc())?;
    expect_octets(&rt, octets.as_slice(), &[0xd2, 0xc0, 0x00, 0x80]);
    Ok(())
}

/// The octets of `count` bits of a reader after the first `begin`, where they are octets.
fn octets_after<'input>(
    reader: &BitReader<'input>,
    begin: u128,
    count: u128,
) -> Option<&'input [u8]> {
    let mut rest = reader.clone().unwrap();
    rest.take(begin).ok()?;
    rest.take(count).ok()?.aligned_octets()
}

/// The place of the first bit behind so many of a reader's.
fn place_after(reader: &BitReader<'_>, begin: u128) -> Option<u32> {
    let mut rest = reader.clone().unwrap();
    rest.take(begin).ok()?;
    Some(rest.place())
}

/// What is lent of three octets, by how many bits are left out in front and how many follow.
const LENT: [(u128, u128, Option<&[u8]>); 9] = [
    (0, 24, Some(&[0xa5, 0x3c, 0xff])),
    (0, 0, Some(&[])),
    (0, 8, Some(&[0xa5])),
    (8, 16, Some(&[0x3c, 0xff])),
    (24, 0, Some(&[])),
    (0, 23, None),
    (1, 8, None),
    (4, 16, None),
    (9, 0, None),
];

#[test]
fn lends_octets_that_stand_on_octets(rt: HostRuntime) {
    let reader = BitReader::from_octets(&[0xa5, 0x3c, 0xff]);
    for (begin, count, octets) in LENT {
        assert!(rt;
            octets_after(&reader, begin, count) == octets,
            "{count} behind {begin}"
        );
    }
}

#[test]
fn tells_the_place_of_its_first_bit(rt: HostRuntime) {
    let reader = BitReader::from_octets(&[0xa5, 0x3c]);
    for (begin, place) in [(0, 0), (1, 1), (7, 7), (8, 0), (11, 3), (16, 0)] {
        assert!(rt;
            place_after(&reader, begin) == Some(place),
            "behind {begin}"
        );
    }
}
