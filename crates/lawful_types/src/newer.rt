//! Whether a type of one table is a newer version of a type of another.

ghost use Rattle.std.specs.Prelude.{◌≡◌, IfOk, slice_get};
ghost use Rattle.rasn_dynamic.specs.Types.{schema_at};
ghost use Rattle.per_core.specs.Versions.{NewerType};
ghost use Rattle.lawful_types.specs.OneLevel.{AreClosed, IsFront, IsNewerPair};

use crate::kinds::compare_at;
use crate::not_newer::{NotNewer, Reason};
use crate::pairs::{Pair, list};
use rasn_dynamic::types::{Kind, Types};
use std::alloc::Global;

/// Judges whether the type at a place of the one table is a newer version of the type at a place of the other (X.680
/// 52), at every depth: more additions, alternatives or items after an extension marker, and nothing else. Then the
/// laws of versions hold of the two (`per_dynamic::versions`).
///
/// Each pair of types that are in one another's place is compared once, so it takes time with the number of pairs and
/// the components of their types, and memory for the list of pairs. Names aren't compared: no encoding has them.
pub fn is_newer(
    newer: &Types,
    place: usize,
    older: &Types,
    old_place: usize,
    alloc: Global,
) -> Result<(), NotNewer>
    ensures { IfOk result (λ done.
        NewerType (schema_at newer.now.kinds.items place) (schema_at older.now.kinds.items old_place)) }
{
    let mut pairs = Vec::new(alloc);
    if let Err(reason) = list(&mut pairs, place, old_place) {
        return Err(NotNewer {
            newer: place,
            older: old_place,
            reason,
        });
    }
    compare_all(&newer.kinds, &older.kinds, &mut pairs)
}

/// Compares each pair of a list, and each pair that is within one that is compared. The list with these is closed:
/// each pair of it is newer wherever all are.
fn compare_all(newer: &[Kind], older: &[Kind], pairs: &mut Vec<Pair>) -> Result<(), NotNewer>
    ensures front { IsFront pairs.old.items pairs.new.items }
    ensures closed { IfOk result (λ done. AreClosed newer.now older.now pairs.new.items) }
{
    for done in 0..usize::MAX {
        let Some(pair) = pair_at(pairs, done) else {
            return Ok(());
        };
        compare_pair(newer, older, pair, pairs)?;
    }
    Ok(())
}

/// The pair at an index of a list, where one is there.
fn pair_at(pairs: &[Pair], index: usize) -> Option<Pair>
    ensures { result ≡ slice_get pairs.now index }
{
    pairs.get(index).copied()
}

/// Compares the types of a pair, and lists the pairs that are within.
fn compare_pair(
    newer: &[Kind],
    older: &[Kind],
    pair: Pair,
    pairs: &mut Vec<Pair>,
) -> Result<(), NotNewer>
    ensures front { IsFront pairs.old.items pairs.new.items }
    ensures newer { IfOk result (λ done. IsNewerPair newer.now older.now pairs.new.items pair) }
{
    match compare_at(newer, older, pair, pairs) {
        Ok(()) => Ok(()),
        Err(reason) => Err(NotNewer {
            newer: pair.newer,
            older: pair.older,
            reason,
        }),
    }
}
