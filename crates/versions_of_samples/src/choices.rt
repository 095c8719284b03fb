//! Choices, enumerations and sets are lawful (X.680, 20, 27, 29).
#![tactic(auto)]

ghost use Rattle.rasn_schema.specs.Lawful.{IsLawfulType};

use per_laws::computed::is_lawful;
use per_samples_b::alt1::Alt1;
use per_samples_b::alt2::Alt2;
use per_samples_b::two_alternatives::TwoAlternatives;
use per_samples_c::choice::Outer;
use per_samples_c::colors::TwoColors;
use per_samples_c::one_color::OneColor;
use per_samples_sets::connect::Connect;
use per_samples_sets::set::Set;
use per_samples_sets::set_choice::SetChoice;
use per_samples_sets::set_optional::SetOptional;
use rasn_below::AsnType;

/// ENUMERATED in two versions.
pub fn enumerations_are_lawful()
    ensures one { let own = ⟦<OneColor as AsnType>⟧ in IsLawfulType (own.schema own.CONSTRAINTS) }
    ensures two { let own = ⟦<TwoColors as AsnType>⟧ in IsLawfulType (own.schema own.CONSTRAINTS) }
{
    is_lawful::<OneColor>();
    is_lawful::<TwoColors>();
}

/// CHOICE, with an untagged one in it, in two versions, and within a record.
#[tactic(auto, unfolding(per_laws::specs::Judged::are_told_apart))]
pub fn choices_are_lawful()
    ensures nested { let own = ⟦<Outer as AsnType>⟧ in IsLawfulType (own.schema own.CONSTRAINTS) }
    ensures older { let own = ⟦<Alt1 as AsnType>⟧ in IsLawfulType (own.schema own.CONSTRAINTS) }
    ensures newer { let own = ⟦<Alt2 as AsnType>⟧ in IsLawfulType (own.schema own.CONSTRAINTS) }
    ensures several { let own = ⟦<TwoAlternatives as AsnType>⟧ in IsLawfulType (own.schema own.CONSTRAINTS) }
    ensures key { let own = ⟦<Connect as AsnType>⟧ in IsLawfulType (own.schema own.CONSTRAINTS) }
{
    is_lawful::<Outer>();
    is_lawful::<Alt1>();
    is_lawful::<Alt2>();
    is_lawful::<TwoAlternatives>();
    is_lawful::<Connect>();
}

/// SET, also with a CHOICE without a tag of its own.
#[tactic(auto, unfolding(per_laws::specs::Judged::are_told_apart))]
pub fn sets_are_lawful()
    ensures tagged { let own = ⟦<Set as AsnType>⟧ in IsLawfulType (own.schema own.CONSTRAINTS) }
    ensures optional { let own = ⟦<SetOptional as AsnType>⟧ in IsLawfulType (own.schema own.CONSTRAINTS) }
    ensures with_choice { let own = ⟦<SetChoice as AsnType>⟧ in IsLawfulType (own.schema own.CONSTRAINTS) }
{
    is_lawful::<Set>();
    is_lawful::<SetOptional>();
    is_lawful::<SetChoice>();
}
