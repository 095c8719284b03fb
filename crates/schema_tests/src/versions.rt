//! Which types of schema files are newer versions of which.

use crate::example::{EXAMPLE, HOLDERS, with_line};
use lawful_types::newer::is_newer;
use lawful_types::not_newer::{NotNewer, Reason};
use schema_file::load::load;
use std::test::Fail;

/// The record of additions of the example, which holds itself through a list, with one more after its marker.
const MORE: &str = "sequence 3 2 id c0 r 1 note c1 o 2 more c2 d 3 list 0 [[ c3 4 size c4 o 1";

/// The items of the example, with one more after the marker.
const REJECT: &str = "enumerated 2 1 call answer reject";

#[test]
fn more_additions(rt: HostRuntime) -> Result<(), Fail> {
    let older = load(rt.alloc(), EXAMPLE.as_bytes())?;
    let text = with_line(rt.alloc(), 3, MORE)?;
    let newer = load(rt.alloc(), text.as_bytes())?;
    assert_eq!(rt; is_newer(&newer, 0, &older, 0, rt.alloc()), Ok(()));
    assert_eq!(rt; is_newer(&newer, 3, &older, 3, rt.alloc()), Ok(()));
    let left_out = NotNewer {
        newer: 0,
        older: 0,
        reason: Reason::LeftOut,
    };
    assert_eq!(rt; is_newer(&older, 3, &newer, 3, rt.alloc()), Err(left_out));
    Ok(())
}

#[test]
fn more_items(rt: HostRuntime) -> Result<(), Fail> {
    let older = load(rt.alloc(), EXAMPLE.as_bytes())?;
    let text = with_line(rt.alloc(), 8, REJECT)?;
    let newer = load(rt.alloc(), text.as_bytes())?;
    assert_eq!(rt; is_newer(&newer, 0, &older, 0, rt.alloc()), Ok(()));
    let items = NotNewer {
        newer: 5,
        older: 5,
        reason: Reason::Items,
    };
    assert_eq!(rt; is_newer(&older, 0, &newer, 0, rt.alloc()), Err(items));
    Ok(())
}

/// Defaults that hold values have to be the same in both versions.
#[test]
fn defaults_that_hold_values(rt: HostRuntime) -> Result<(), Fail> {
    let older = load(rt.alloc(), HOLDERS.as_bytes())?;
    assert_eq!(rt; is_newer(&older, 0, &older, 0, rt.alloc()), Ok(()));
    let text = String::from_str(rt.alloc(), HOLDERS)?;
    let text = text.replace(rt.alloc(), "list 2 int 1 int 2", "list 2 int 1 int 3")?;
    let other = load(rt.alloc(), text.as_bytes())?;
    let default = NotNewer {
        newer: 0,
        older: 0,
        reason: Reason::Default,
    };
    assert_eq!(rt; is_newer(&other, 0, &older, 0, rt.alloc()), Err(default));
    Ok(())
}

#[test]
fn other_bounds(rt: HostRuntime) -> Result<(), Fail> {
    let older = load(rt.alloc(), EXAMPLE.as_bytes())?;
    let text = with_line(rt.alloc(), 4, "integer 0 65534 -")?;
    let other = load(rt.alloc(), text.as_bytes())?;
    let bounds = NotNewer {
        newer: 1,
        older: 1,
        reason: Reason::Bounds,
    };
    assert_eq!(rt; is_newer(&other, 3, &older, 3, rt.alloc()), Err(bounds));
    Ok(())
}

#[test]
fn said_in_words(rt: HostRuntime) -> Result<(), Fail> {
    let tag = NotNewer {
        newer: 2,
        older: 1,
        reason: Reason::Tag,
    };
    let text = format!(in rt.alloc(); "{tag}")?;
    assert_eq!(rt;
        text.as_str(),
        "type 2 is no newer version of type 1: a tag is another"
    );
    Ok(())
}
