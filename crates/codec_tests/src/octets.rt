//! The types that hold octets and bits: that they take a bit, and how they are printed.

use crate::expected::expect_text;
use rasn_types::bit_string::BitString;
use rasn_types::octet_strings::OctetString;
use std::test::Fail;

#[test]
fn prints_octets_and_bits(rt: HostRuntime) -> Result<(), Fail> {
    let mut bits = BitString::from_octets(rt.alloc(), &[0xff], 3)?;
    bits.push(true)?;
    let octets = OctetString::new(Vec::from_slice(rt.alloc(), &[0x00, 0xff])?);
    let printed = format!(in rt.alloc(); "{bits:?}, {octets:?}")?;
    expect_text(
        &rt,
        printed.as_str(),
        "BitString { octets: [240], len: 4 }, OctetString { octets: [0, 255] }",
    );
    Ok(())
}
