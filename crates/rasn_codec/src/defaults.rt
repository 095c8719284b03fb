//! What stands for a component of each type where it is absent (X.680 25.9, 27.4): a value of the type, or what such a
//! value is made of where that takes memory.

ghost use Rattle.std.specs.Prelude.{◌≡◌, IfOk};
ghost use Rattle.rasn_types.specs.Values.{Value};
ghost use Rattle.rasn_codec.specs.AtDefault.{TellsSame};

use rasn_schema::schema::{AsnType, Constraints};
use std::alloc::{AllocError, Global};

/// A default of a type: components are compared with it, and made of it.
pub trait DefaultOf<T: AsnType> {
    // The value that it is.
    ghost default: { Self → Value };

    /// Whether it stands for a component of the type under constraints.
    fn stands_for(&self, component: &T, constraints: &Constraints) -> bool
        ensures { TellsSame (T.schema constraints.now) (T.levels component.now) (T.value component.now)
            (default self.now) result };

    /// A component that it stands for, in memory of `alloc`. The only error is want of memory.
    fn made(&self, alloc: Global) -> Result<T, AllocError>
        ensures { IfOk result (λ x. T.value x ≡ default self.now) };
}
