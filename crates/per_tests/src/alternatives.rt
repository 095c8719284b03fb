//! An alternative that is read by its tag, and a choice that is read whole, of any type that is a `DecodeChoice`.

use crate::calls::unaligned;
use crate::expected::expect_equal;
use per_samples_a::alternative::{Alternative, ZeroTo7};
use rasn_below::codec::{DecodeChoice, Decoder};
use rasn_below::context_tag;
use rasn_below::types::Tag;
use std::test::Fail;

fn by_tag<C: DecodeChoice, D: Decoder>(decoder: &mut D, tag: Tag) -> Result<C, D::Error> {
    C::from_tag(decoder, tag)
}

fn whole<C: DecodeChoice, D: Decoder>(decoder: &mut D) -> Result<C, D::Error> {
    C::decode(decoder)
}

#[test]
fn alternative_is_read_by_its_tag(rt: HostRuntime) -> Result<(), Fail> {
    let mut decoder = unaligned(rt.alloc(), &[0xa0]);
    let five: Alternative = by_tag(&mut decoder, context_tag!(1))?;
    expect_equal(&rt, &five, &Alternative::Y(ZeroTo7::new(5)));
    Ok(())
}

#[test]
fn choice_is_read_by_its_index(rt: HostRuntime) -> Result<(), Fail> {
    let mut decoder = unaligned(rt.alloc(), &[0xd0]);
    let five: Alternative = whole(&mut decoder)?;
    expect_equal(&rt, &five, &Alternative::Y(ZeroTo7::new(5)));
    Ok(())
}
