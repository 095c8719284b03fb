//! The default of NULL (X.680 24).

ghost use Rattle.rasn_types.specs.Values.{nothing};

use rasn_codec::defaults::DefaultOf;
use rasn_schema::schema::Constraints;
use std::alloc::{AllocError, Global};

/// The value of NULL, as its default.
#[derive(Clone, Copy, Debug)]
pub struct Null;

impl DefaultOf<()> for Null {
    ghost default = { λ _. nothing };

    fn stands_for(&self, _: &(), _constraints: &Constraints) -> bool {
        true
    }

    fn made(&self, _: Global) -> Result<(), AllocError> {
        Ok(())
    }
}
