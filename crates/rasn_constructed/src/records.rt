//! Defaults of SEQUENCE (X.680 25), by those of its components.

ghost use Rattle.std.specs.Prelude.{◌≡◌, ◌≤◌, suc, []};
ghost use Rattle.rasn_schema.specs.Components.{added_parts, root_parts, sequence_at};
ghost use Rattle.rasn_schema.specs.Structures.{record_value};
ghost use Rattle.rasn_record.specs.Lists.{AreWithin, deepest, deeper_of};
ghost use Rattle.rasn_codec.specs.AtDefault.{TellsSame};
ghost use Rattle.rasn_constructed.specs.Parts.{AreFilled, HaveForms};

use crate::parts::ComparedParts;
use rasn_record::cells::End;
use rasn_schema::components::Components;

/// Whether a record is that of a default, by its root components and its additions.
pub fn are_all<T: Components, P: ComparedParts, Q: ComparedParts>(
    of: &T,
    root: &P,
    additions: &Q,
) -> bool
    requires components { HaveForms (root_parts T.components.0) P.forms }
    requires additions { HaveForms (added_parts T.components.0) Q.forms }
    requires filled { AreFilled P.forms }
    requires groups { AreFilled Q.forms }
    requires values { T.contents of.now ≡ P.contents root.now }
    requires added { T.added of.now ≡ Q.contents additions.now }
    requires depth { deeper_of (deepest (P.levels root.now)) (deepest (Q.levels additions.now)) ≤ T.depth of.now }
    ensures { TellsSame (sequence_at T.components.0) (suc (T.depth of.now))
        (record_value (T.contents of.now) (T.added of.now))
        (record_value (P.defaults root.now) (Q.defaults additions.now)) result }
{
    let _ = of;
    if !root.are_defaults() {
        return false;
    }
    additions.are_defaults()
}

/// Whether a record without additions is that of a default, by its components. That the record states enough levels is
/// asked of each component by itself.
pub fn are_plain<T: Components, P: ComparedParts>(of: &T, root: &P) -> bool
    requires components { HaveForms (root_parts T.components.0) P.forms }
    requires additions { HaveForms (added_parts T.components.0) (λ _. []) }
    requires filled { AreFilled P.forms }
    requires values { T.contents of.now ≡ P.contents root.now }
    requires added { T.added of.now ≡ [] }
    requires depth { AreWithin (T.depth of.now) (P.levels root.now) }
    ensures { TellsSame (sequence_at T.components.0) (suc (T.depth of.now))
        (record_value (T.contents of.now) (T.added of.now)) (record_value (P.defaults root.now) []) result }
{
    are_all(of, root, &End {})
}
