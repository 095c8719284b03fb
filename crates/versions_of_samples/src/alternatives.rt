//! Which CHOICE and which ENUMERATED is a newer version of which (X.680, 52).
#![tactic(auto, unfolding(per_laws::specs::Judged::are_told_apart))]

ghost use Rattle.per_core.specs.Versions.{NewerType};

use per_laws::computed::is_newer_version;
use per_samples_b::alt1::Alt1;
use per_samples_b::alt2::Alt2;
use per_samples_c::colors::TwoColors;
use per_samples_c::one_color::OneColor;
use rasn_below::AsnType;

/// An alternative is added after the marker.
pub fn alternative_is_added()
    ensures { let newer = ⟦<Alt2 as AsnType>⟧ in let older = ⟦<Alt1 as AsnType>⟧ in
        NewerType (newer.schema newer.CONSTRAINTS) (older.schema older.CONSTRAINTS) }
{
    is_newer_version::<Alt2, Alt1>();
}

/// An item is added after the marker.
pub fn item_is_added()
    ensures { let newer = ⟦<TwoColors as AsnType>⟧ in let older = ⟦<OneColor as AsnType>⟧ in
        NewerType (newer.schema newer.CONSTRAINTS) (older.schema older.CONSTRAINTS) }
{
    is_newer_version::<TwoColors, OneColor>();
}
