//! Defaults of SEQUENCE OF (X.680 26).

ghost use Rattle.std.specs.Prelude.{[]};
ghost use Rattle.rasn_schema.specs.Structures.{list_value};

use crate::defaults::DefaultOf;
use rasn_schema::schema::{AsnType, Constraints};
use std::alloc::{AllocError, Global};

/// The list without elements, `{}`, as a default of SEQUENCE OF.
#[derive(Clone, Copy, Debug)]
pub struct EmptyList;

impl<T: AsnType> DefaultOf<Vec<T>> for EmptyList {
    ghost default = { λ _. list_value [] };

    fn stands_for(&self, component: &Vec<T>, _constraints: &Constraints) -> bool {
        component.as_slice().is_empty()
    }

    fn made(&self, alloc: Global) -> Result<Vec<T>, AllocError> {
        Ok(Vec::new(alloc))
    }
}
