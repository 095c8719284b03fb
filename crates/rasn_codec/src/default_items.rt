//! Defaults of ENUMERATED (X.680 20).

ghost use Rattle.rasn_schema.specs.Enumerations.{IsPlaced};

use crate::defaults::DefaultOf;
use rasn_schema::items::{EnumeratedKind, Items, Place};
use rasn_schema::kinds::OfKind;
use rasn_schema::schema::Constraints;
use std::alloc::{AllocError, Global};

/// An item, as a default of an ENUMERATED: `Item(DriveDirection::Forward)`.
#[derive(Clone, Copy, Debug)]
pub struct Item<T>(pub T);

impl<T: Items + OfKind<Kind = EnumeratedKind> + Copy> DefaultOf<T> for Item<T> {
    ghost default = { λ d. T.item d.0 };

    fn stands_for(&self, component: &T, _constraints: &Constraints) -> bool {
        match (component.place(), self.0.place()) {
            (Place::Root(own), Place::Root(other)) => own == other,
            (Place::Added(own), Place::Added(other)) => own == other,
            (Place::Root(_), Place::Added(_)) => false,
            (Place::Added(_), Place::Root(_)) => false,
        }
    }

    fn made(&self, _alloc: Global) -> Result<T, AllocError> {
        Ok(self.0)
    }
}
