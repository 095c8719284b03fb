//! Rows of NULL and SEQUENCE.

use crate::each_row::{Rows, is_any_row_refused};
use its_header::message::Message;
use per_samples_a::absent::OneDefault;
use per_samples_a::carrier::Carrier;
use per_samples_a::four::Four;
use per_samples_a::seven::Seven;
use per_samples_c::byte::Byte;
use per_samples_c::empty::MaybeEmpty;
use per_samples_c::items::WithItem;
use rasn_below::types::Codec::{Aper, Uper};
use std::alloc::Global;
use std::process::Abort;

const NULL: Rows = &[(Uper, &[0x00]), (Aper, &[0x00])];

const FOUR: Rows = &[
    (Uper, &[0x82, 0x85, 0x12, 0x05, 0x46, 0x8f, 0x80, 0x20]),
    (
        Aper,
        &[0x80, 0x05, 0x0a, 0x24, 0x0a, 0x8d, 0x1f, 0x00, 0x00, 0x01],
    ),
];

const SEVEN: Rows = &[(Uper, &[0x00]), (Aper, &[0x00])];

const ONE_DEFAULT: Rows = &[
    (Uper, &[0x00]),
    (Uper, &[0xd0]),
    (Uper, &[0xb0]),
    (Aper, &[0xd0]),
    (Aper, &[0xb0]),
];

const WITH_ITEM: Rows = &[
    (Uper, &[0xff, 0x80]),
    (Uper, &[0x00, 0x7f]),
    (Aper, &[0x80, 0xff]),
];

const BYTE: Rows = &[(Uper, &[0xa1]), (Uper, &[0xff]), (Aper, &[0xa1])];

const MAYBE_EMPTY: Rows = &[
    (Uper, &[0x90]),
    (Uper, &[0xa0, 0xf0]),
    (Aper, &[0x90]),
    (Aper, &[0xa0, 0x07, 0x80]),
];

const MESSAGE: Rows = &[(
    Uper,
    &[
        0x02, 0x02, 0x12, 0x34, 0x56, 0x78, 0xa5, 0x1a, 0xd8, 0x80, 0xe1, 0x4e, 0x39, 0x00, 0x70,
        0x89, 0x0b, 0xaf, 0x34, 0x0d, 0xc0, 0xf7, 0xab, 0x6f, 0x80,
    ],
)];

const CARRIER: Rows = &[
    (
        Aper,
        &[
            0x01, 0x03, 0x80, 0x01, 0x05, 0x03, 0x80, 0x01, 0x05, 0x80, 0x80, 0x01, 0x05,
        ],
    ),
    (
        Uper,
        &[
            0x01, 0x03, 0x80, 0x82, 0x80, 0x03, 0x80, 0x82, 0x80, 0xa0, 0x20, 0xa0, 0x00,
        ],
    ),
];

/// Whether a call for one of the rows was refused.
fn is_one_refused(rt: &impl Abort, alloc: Global) -> bool {
    is_any_row_refused::<()>(rt, alloc, NULL)
        || is_any_row_refused::<Four>(rt, alloc, FOUR)
        || is_any_row_refused::<Seven>(rt, alloc, SEVEN)
        || is_any_row_refused::<OneDefault>(rt, alloc, ONE_DEFAULT)
        || is_any_row_refused::<WithItem>(rt, alloc, WITH_ITEM)
        || is_any_row_refused::<Byte>(rt, alloc, BYTE)
        || is_any_row_refused::<MaybeEmpty>(rt, alloc, MAYBE_EMPTY)
        || is_any_row_refused::<Message>(rt, alloc, MESSAGE)
        || is_any_row_refused::<Carrier>(rt, alloc, CARRIER)
}

#[test]
fn answers_where_there_is_memory(rt: HostRuntime) {
    assert!(rt;
        !is_one_refused(&rt, rt.alloc()),
        "refused for want of memory"
    );
}
