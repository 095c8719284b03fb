//! Rows of ENUMERATED, CHOICE and SET.

use crate::each_row::{Rows, is_any_row_refused};
use per_samples_b::alt1::Alt1;
use per_samples_b::alt2::Alt2;
use per_samples_b::two_alternatives::TwoAlternatives;
use per_samples_c::choice::Outer;
use per_samples_c::colors::TwoColors;
use per_samples_c::one_color::OneColor;
use per_samples_sets::set::Set;
use per_samples_sets::set_choice::SetChoice;
use per_samples_sets::set_optional::SetOptional;
use rasn_below::types::Codec::{Aper, Uper};
use std::alloc::Global;
use std::process::Abort;

const ONE_COLOR: Rows = &[(Uper, &[0x00]), (Aper, &[0x00])];

const TWO_COLORS: Rows = &[(Uper, &[0x80]), (Uper, &[0x00]), (Aper, &[0x80])];

const OUTER: Rows = &[
    (Uper, &[0x20]),
    (Uper, &[0x50]),
    (Uper, &[0x60]),
    (Uper, &[0x80]),
    (Aper, &[0x50]),
];

const ALT_1: Rows = &[(Uper, &[0x00]), (Uper, &[0x40]), (Aper, &[0x40])];

const ALT_2: Rows = &[
    (Uper, &[0x80, 0x01, 0x80]),
    (Uper, &[0x40]),
    (Aper, &[0x80, 0x01, 0x80]),
    (Aper, &[0x40]),
];

const TWO_ALTERNATIVES: Rows = &[
    (
        Uper,
        &[
            0xb0, 0x10, 0x20, 0x38, 0x00, 0x48, 0x08, 0x10, 0x18, 0x0a, 0xb0,
        ],
    ),
    (
        Aper,
        &[
            0xb0, 0x01, 0x02, 0x03, 0x80, 0x04, 0x80, 0x01, 0x02, 0x03, 0xab,
        ],
    ),
];

const SET: Rows = &[
    (Uper, &[0x82, 0x80]),
    (Uper, &[0xd2, 0xa0]),
    (Aper, &[0x80, 0x05]),
    (Aper, &[0x92, 0xfe]),
];

const SET_OPTIONAL: Rows = &[
    (Uper, &[0x30]),
    (Uper, &[0xa8]),
    (Uper, &[0xfa]),
    (Aper, &[0x30]),
    (Aper, &[0xa8]),
    (Aper, &[0xf5]),
];

const SET_CHOICE: Rows = &[
    (Uper, &[0x80]),
    (Uper, &[0x20]),
    (Uper, &[0xdd]),
    (Aper, &[0x80]),
    (Aper, &[0x20]),
];

/// Whether a call for one of the rows was refused.
fn is_one_refused(rt: &impl Abort, alloc: Global) -> bool {
    is_any_row_refused::<OneColor>(rt, alloc, ONE_COLOR)
        || is_any_row_refused::<TwoColors>(rt, alloc, TWO_COLORS)
        || is_any_row_refused::<Outer>(rt, alloc, OUTER)
        || is_any_row_refused::<Alt1>(rt, alloc, ALT_1)
        || is_any_row_refused::<Alt2>(rt, alloc, ALT_2)
        || is_any_row_refused::<TwoAlternatives>(rt, alloc, TWO_ALTERNATIVES)
        || is_any_row_refused::<Set>(rt, alloc, SET)
        || is_any_row_refused::<SetOptional>(rt, alloc, SET_OPTIONAL)
        || is_any_row_refused::<SetChoice>(rt, alloc, SET_CHOICE)
}

#[test]
fn answers_where_there_is_memory(rt: HostRuntime) {
    assert!(rt;
        !is_one_refused(&rt, rt.alloc()),
        "refused for want of memory"
    );
}
