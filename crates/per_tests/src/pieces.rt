//! What is written before its place is known, and put at each of the eight places of an octet.

use per_pieces::Pieces;
use per_write::Writer;
use per_write::error::EncodeError;
use rasn_below::types::Codec;
use std::alloc::Global;
use std::process::Abort;
use std::test::Fail;

/// A bit 1 and an octet a5 after a length, from each place of an octet on, in the aligned variant: the greatest number
/// of so many bits as stand before, then the bit, zeros up to the next octet, and 01 a5.
const PLACES: &[(u8, &[u8])] = &[
    (0, &[0x80, 0x01, 0xa5]),
    (0b1, &[0x40, 0x01, 0xa5]),
    (0b11, &[0x20, 0x01, 0xa5]),
    (0b111, &[0x10, 0x01, 0xa5]),
    (0b1111, &[0x08, 0x01, 0xa5]),
    (0b1_1111, &[0x04, 0x01, 0xa5]),
    (0b11_1111, &[0x02, 0x01, 0xa5]),
    (0b111_1111, &[0x01, 0x01, 0xa5]),
];

/// Writes the bit and the octet.
fn put_contents(writer: &mut Writer<Global>) -> Result<(), EncodeError> {
    writer.check_unfailed()?;
    writer.put_bit(true)?;
    writer.put_octets(&[0xa5])
}

/// The bit and the octet, written before their place is known.
fn contents_of(writer: &mut Writer<Global>) -> Result<Pieces<Global>, EncodeError> {
    writer.check_unfailed()?;
    let waiting = writer.open_unplaced()?;
    let written = put_contents(writer);
    let contents = writer.close_unplaced(waiting);
    written?;
    Ok(contents)
}

/// Writes zeros: as many as the bits of a number.
fn put_zeros(writer: &mut Writer<Global>, greatest: u8) -> Result<(), EncodeError> {
    writer.check_unfailed()?;
    writer.put_number(Some(0), Some(i128::from(greatest)), 0)
}

/// What is written with the contents after what is there.
fn put_after(
    writer: &mut Writer<Global>,
    contents: &Pieces<Global>,
) -> Result<Vec<u8>, EncodeError> {
    writer.check_unfailed()?;
    writer.put_pieces(contents)?;
    writer.output()
}

/// What is written with the contents in an open type.
fn put_opened(
    writer: &mut Writer<Global>,
    contents: Pieces<Global>,
) -> Result<Vec<u8>, EncodeError> {
    writer.check_unfailed()?;
    writer.put_open_pieces(contents)?;
    writer.output()
}

/// The octets of contents after what is there, and in an open type.
type Octets = (Vec<u8>, Vec<u8>);

/// What is written with the contents after the zeros of a number, and then in an open type.
fn put_both(
    writer: &mut Writer<Global>,
    contents: Pieces<Global>,
    greatest: u8,
) -> Result<Octets, EncodeError> {
    put_zeros(writer, greatest)?;
    let behind = put_after(writer, &contents)?;
    let opened = put_opened(writer, contents)?;
    Ok((behind, opened))
}

/// The contents after the zeros of a number, written before these, and in an open type.
fn written_before(alloc: Global, codec: Codec, greatest: u8) -> Result<Octets, EncodeError> {
    let mut writer = Writer::new(alloc, codec);
    let contents = contents_of(&mut writer)?;
    put_both(&mut writer, contents, greatest)
}

/// The contents are these after the zeros of a number, and in an open type these.
fn expect_written(
    rt: &(impl Abort + AllocGlobal),
    codec: Codec,
    greatest: u8,
    expected: (&[u8], &[u8]),
) -> Result<(), Fail> {
    let (behind, opened) = written_before(rt.alloc(), codec, greatest)?;
    let found = (behind.as_slice(), opened.as_slice());
    assert!(rt; found == expected, "{greatest}");
    Ok(())
}

#[test]
fn settles_at_each_place(rt: HostRuntime) -> Result<(), Fail> {
    for (greatest, octets) in PLACES {
        let opened = &[0x03, 0x80, 0x01, 0xa5];
        expect_written(&rt, Codec::Aper, *greatest, (octets, opened))?;
    }
    Ok(())
}

#[test]
fn has_no_padding_in_the_other_variant(rt: HostRuntime) -> Result<(), Fail> {
    let (octets, opened) = (&[0x10, 0x1a, 0x50], &[0x03, 0x80, 0xd2, 0x80]);
    expect_written(&rt, Codec::Uper, 0b111, (octets, opened))
}
