//! Types that hold themselves are lawful, of which computing finds no end (X.680, 25): so is each of their trees, by
//! the number of its levels.
#![tactic(auto)]

ghost use Rattle.rasn_schema.specs.Lawful.{IsLawfulType};

use per_samples_c::added_nest::AddedNest;
use per_samples_c::deep::Deep;
use per_samples_c::nest::Nest;
use per_samples_c::ping::Ping;
use per_samples_c::pong::Pong;
use per_samples_sets::dnest::Dnest;
use rasn_below::AsnType;

/// A SEQUENCE that holds itself, with a date beside it, and two that hold one another.
pub fn recursive_records_are_lawful()
    ensures nest { let own = ⟦<Nest as AsnType>⟧ in IsLawfulType (own.schema own.CONSTRAINTS) }
    ensures dated { let own = ⟦<Dnest as AsnType>⟧ in IsLawfulType (own.schema own.CONSTRAINTS) }
    ensures ping { let own = ⟦<Ping as AsnType>⟧ in IsLawfulType (own.schema own.CONSTRAINTS) }
    ensures pong { let own = ⟦<Pong as AsnType>⟧ in IsLawfulType (own.schema own.CONSTRAINTS) }
{}

/// Records with such a component: an addition, and one whose default has 200 levels.
pub fn records_of_recursive_ones_are_lawful()
    ensures added { let own = ⟦<AddedNest as AsnType>⟧ in IsLawfulType (own.schema own.CONSTRAINTS) }
    ensures deep { let own = ⟦<Deep as AsnType>⟧ in IsLawfulType (own.schema own.CONSTRAINTS) }
{}
