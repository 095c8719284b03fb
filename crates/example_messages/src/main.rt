//! Three examples, one after the other: a road side unit's CAM is made, written and read; an NGAP message is shown and
//! changed by a schema file; two versions of a message talk to each other.
#![tactic(auto)]

mod error_indication;
mod first_report;
mod road_side_unit;
mod second_report;
mod two_versions;

use anyhow::Result;

fn main(rt: HostRuntime) -> Result<()> {
    road_side_unit::run(&rt)?;
    error_indication::run(&rt)?;
    two_versions::run(&rt)?;
    Ok(())
}
