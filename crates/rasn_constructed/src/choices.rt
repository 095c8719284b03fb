//! Defaults of CHOICE (X.680 29), by that of the alternative.

ghost use Rattle.std.specs.Prelude.{◌≡◌, ◌≤◌, suc, true, IfOk};
ghost use Rattle.rasn_types.specs.Values.{added, root};
ghost use Rattle.rasn_schema.specs.Components.{added_parts, alternatives_at, chosen, chosen_behind, chosen_value};
ghost use Rattle.rasn_schema.specs.Components.{root_parts};
ghost use Rattle.rasn_codec.specs.AtDefault.{TellsSame};
ghost use Rattle.rasn_constructed.specs.Alternatives.{HasType, is_another};

use rasn_codec::defaults::DefaultOf;
use rasn_schema::alternatives::Alternatives;
use rasn_schema::schema::AsnType;
use std::alloc::{AllocError, Global};
use std::marker::PhantomData;

/// Whether the alternative at a place before the extension marker, which is chosen, has the value of a default.
pub fn is_default<T: Alternatives, H: AsnType, K: DefaultOf<H>>(
    of: &T,
    place: usize,
    value: &H,
    default: &K,
) -> bool
    requires schema { HasType (root_parts T.alternatives.0) place (H.schema H.CONSTRAINTS) }
    requires value { T.chosen of.now ≡ chosen place (H.value value.now) }
    requires levels { H.levels value.now ≤ T.depth of.now }
    ensures { TellsSame (alternatives_at T.alternatives.0.before T.alternatives.0.behind)
        (suc (T.depth of.now)) (chosen_value (T.chosen of.now))
        (chosen_value (chosen place (K.default default.now))) result }
{
    let _ = of;
    let _ = place;
    default.stands_for(value, &H::CONSTRAINTS)
}

/// Whether a choice of another alternative is the one at a place before the extension marker: it isn't.
pub fn is_another<T: Alternatives, H: AsnType, K: DefaultOf<H>>(
    of: &T,
    place: usize,
    value: PhantomData<H>,
    default: &K,
) -> bool
    requires another { is_another root place (T.chosen of.now) ≡ true }
    ensures { TellsSame (alternatives_at T.alternatives.0.before T.alternatives.0.behind)
        (suc (T.depth of.now)) (chosen_value (T.chosen of.now))
        (chosen_value (chosen place (K.default default.now))) result }
{
    let _ = of;
    let _ = place;
    let _ = value;
    let _ = default;
    false
}

/// Whether the alternative at a place after the extension marker, which is chosen, has the value of a default.
pub fn is_default_after<T: Alternatives, H: AsnType, K: DefaultOf<H>>(
    of: &T,
    place: usize,
    value: &H,
    default: &K,
) -> bool
    requires schema { HasType (added_parts T.alternatives.0) place (H.schema H.CONSTRAINTS) }
    requires value { T.chosen of.now ≡ chosen_behind place (H.value value.now) }
    requires levels { H.levels value.now ≤ T.depth of.now }
    ensures { TellsSame (alternatives_at T.alternatives.0.before T.alternatives.0.behind)
        (suc (T.depth of.now)) (chosen_value (T.chosen of.now))
        (chosen_value (chosen_behind place (K.default default.now))) result }
{
    let _ = of;
    let _ = place;
    default.stands_for(value, &H::CONSTRAINTS)
}

/// Whether a choice of another alternative is the one at a place after the extension marker: it isn't.
pub fn is_another_after<T: Alternatives, H: AsnType, K: DefaultOf<H>>(
    of: &T,
    place: usize,
    value: PhantomData<H>,
    default: &K,
) -> bool
    requires another { is_another added place (T.chosen of.now) ≡ true }
    ensures { TellsSame (alternatives_at T.alternatives.0.before T.alternatives.0.behind)
        (suc (T.depth of.now)) (chosen_value (T.chosen of.now))
        (chosen_value (chosen_behind place (K.default default.now))) result }
{
    let _ = of;
    let _ = place;
    let _ = value;
    let _ = default;
    false
}

/// A value that a default stands for, in memory of `alloc`. The only error is want of memory.
pub fn value_of<H: AsnType, K: DefaultOf<H>>(default: &K, alloc: Global) -> Result<H, AllocError>
    ensures { IfOk result (λ x. H.value x ≡ K.default default.now) }
{
    default.made(alloc)
}
