//! The pairs of types that are compared.

ghost use Rattle.std.specs.Prelude.{IfOk};
ghost use Rattle.lawful_types.specs.OneLevel.{IsFront, IsListed};

use crate::not_newer::Reason;

/// A type of the newer table, and the one of the older table in its place.
#[derive(Clone, Copy, Debug, PartialEq, Eq)]
pub struct Pair {
    /// Its place in the newer table.
    pub newer: usize,
    /// Its place in the older table.
    pub older: usize,
}

/// Lists a pair, where it isn't listed yet.
pub(crate) fn list(pairs: &mut Vec<Pair>, newer: usize, older: usize) -> Result<(), Reason>
    ensures listed { IfOk result (λ done. IsListed pairs.new.items newer older) }
    ensures front { IsFront pairs.old.items pairs.new.items }
{
    let pair = Pair { newer, older };
    if pairs.contains(&pair) {
        return Ok(());
    }
    if pairs.push(pair).is_err() {
        return Err(Reason::OutOfMemory);
    }
    Ok(())
}
