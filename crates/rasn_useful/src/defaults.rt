//! Defaults of OBJECT IDENTIFIER (X.680 32).

ghost use Rattle.std.specs.Prelude.{◌≡◌};
ghost use Rattle.rasn_types.specs.Identifiers.{are_arcs};
ghost use Rattle.rasn_types.specs.Values.{same};
ghost use Rattle.rasn_traits.specs.Moments.{identifier_value};

use crate::object_identifier::ObjectIdentifier;
use rasn_codec::defaults::DefaultOf;
use rasn_schema::schema::Constraints;
use std::alloc::{AllocError, Global};

/// Arcs, as a default of OBJECT IDENTIFIER: `Arcs([1, 2, 840])`.
#[derive(Clone, Copy, Debug)]
pub struct Arcs<const N: usize>(pub [u32; N]);

impl<const N: usize> DefaultOf<ObjectIdentifier> for Arcs<N> {
    ghost default = { λ d. identifier_value d.0 };

    #[tactic(auto, unfolding(rasn_schema::specs::Normal::normal))]
    fn stands_for(&self, component: &ObjectIdentifier, _constraints: &Constraints) -> bool {
        are_of_one_object(component.as_arcs(), &self.0)
    }

    fn made(&self, alloc: Global) -> Result<ObjectIdentifier, AllocError> {
        ObjectIdentifier::from_slice(alloc, &self.0)
    }
}

/// Whether numbers are arcs of the object whose arcs others are, or both are those of none.
fn are_of_one_object(arcs: &[u32], others: &[u32]) -> bool
    ensures { result ≡ same (identifier_value arcs.now) (identifier_value others.now) }
{
    if are_of_an_object(arcs) {
        arcs == others
    } else {
        !are_of_an_object(others)
    }
}

/// Whether numbers are the arcs of an object (X.680 32.3).
fn are_of_an_object(arcs: &[u32]) -> bool
    ensures { result ≡ are_arcs arcs.now }
{
    match arcs {
        [first, second, ..] => *first == 2 || *first < 2 && *second < 40,
        _ => false,
    }
}
