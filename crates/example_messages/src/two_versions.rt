//! Two versions of a message talk to each other: the second has an addition after the extension marker.

ghost use Rattle.per_core.specs.Versions.{NewerType};

use crate::first_report::FirstReport;
use crate::second_report::SecondReport;
use anyhow::Result;
use per_laws::computed::is_newer_version;
use rasn_below::AsnType;
use rasn_per::uper;

const OLDER: FirstReport = FirstReport {
    station: 4660,
    speed: 50,
};

const NEWER: SecondReport = SecondReport {
    station: 4660,
    speed: 50,
    heading: Some(90),
};

/// Each version's readers read what the other's writers write (X.680, 52): else the check refuses this, and says why.
fn second_adds_to_first()
    ensures { let newer = ⟦<SecondReport as AsnType>⟧ in let older = ⟦<FirstReport as AsnType>⟧ in
        NewerType (newer.schema newer.CONSTRAINTS) (older.schema older.CONSTRAINTS) }
{
    is_newer_version::<SecondReport, FirstReport>();
}

/// Prints what each version's reader answers to the octets of the other's writer.
pub fn run(rt: &(impl Print + AllocGlobal)) -> Result<()> {
    second_adds_to_first();
    let newer = uper::encode(rt.alloc(), &NEWER)?;
    let read: FirstReport = uper::decode(rt.alloc(), newer.as_slice())?;
    println!(rt;
        "{} is {read:?}",
        hex::encode(rt.alloc(), newer.as_slice())?
    )?;
    let older = uper::encode(rt.alloc(), &OLDER)?;
    let read: SecondReport = uper::decode(rt.alloc(), older.as_slice())?;
    println!(rt;
        "{} is {read:?}",
        hex::encode(rt.alloc(), older.as_slice())?
    )?;
    Ok(())
}
