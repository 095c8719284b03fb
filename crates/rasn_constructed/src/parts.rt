//! Defaults of the components of a record, one after another.

ghost use Rattle.std.specs.Prelude.{◌≡◌, ℕ, List, [], ◌∷◌, Option, IfOk};
ghost use Rattle.rasn_types.specs.Values.{Value};
ghost use Rattle.rasn_record.specs.Lists.{deepest};
ghost use Rattle.rasn_constructed.specs.Parts.{Form, TellsParts};

use crate::components::ComponentDefault;
use rasn_record::cells::End;
use std::alloc::{AllocError, Global};
use std::marker::PhantomData;

/// Components of a record beside their defaults.
pub trait ComparedParts {
    // The forms of the components, to a number of levels.
    ghost forms: { ℕ → List Form };

    // What they are.
    ghost contents: { Self → List (Option Value) };

    // How many levels each takes.
    ghost levels: { Self → List ℕ };

    // What their defaults are.
    ghost defaults: { Self → List (Option Value) };

    /// Whether they are at their defaults, one for one.
    fn are_defaults(&self) -> bool
        ensures { TellsParts forms (deepest (levels self.now)) (contents self.now) (defaults self.now) result };
}

/// Defaults of which components of a record are made.
pub trait MadeParts {
    /// What they are: a pair of the first and of those after it, and `()` at the end.
    type Values: Drop;

    // What values of them are.
    ghost contents: { Self.Values → List (Option Value) };

    // What the defaults are.
    ghost defaults: { Self → List (Option Value) };

    /// Components that are at their defaults, in memory of `alloc`. The only error is want of memory.
    fn made(&self, alloc: Global) -> Result<Self::Values, AllocError>
        ensures { IfOk result (λ x. contents x ≡ defaults self.now) };
}

/// A component and its default, and those after it.
#[derive(Clone, Copy)]
pub struct Part<F, K, N> {
    /// To compare, a reference to the field; to make, `PhantomData` of its type.
    pub field: F,
    /// What the component is in the default.
    pub default: K,
    /// Those after it.
    pub next: N,
}

impl ComparedParts for End {
    ghost forms = { λ _. [] };

    ghost contents = { λ _. [] };

    ghost levels = { λ _. [] };

    ghost defaults = { λ _. [] };

    fn are_defaults(&self) -> bool {
        true
    }
}

impl<'a, F, K: ComponentDefault<F>, N: ComparedParts> ComparedParts for Part<&'a F, K, N> {
    ghost forms = { λ n. K.form n ∷ N.forms n };

    ghost contents = { λ p. K.slot p.field.now ∷ N.contents p.next };

    ghost levels = { λ p. K.levels p.field.now ∷ N.levels p.next };

    ghost defaults = { λ p. K.default p.default ∷ N.defaults p.next };

    fn are_defaults(&self) -> bool {
        self.default.is_field(self.field) && self.next.are_defaults()
    }
}

impl MadeParts for End {
    type Values = ();

    ghost contents = { λ _. [] };

    ghost defaults = { λ _. [] };

    fn made(&self, _: Global) -> Result<(), AllocError> {
        Ok(())
    }
}

impl<F: Drop, K: ComponentDefault<F>, N: MadeParts> MadeParts for Part<PhantomData<F>, K, N> {
    type Values = (F, N::Values);

    ghost contents = { λ x. K.slot x.0 ∷ N.contents x.1 };

    ghost defaults = { λ p. K.default p.default ∷ N.defaults p.next };

    fn made(&self, alloc: Global) -> Result<(F, N::Values), AllocError> {
        let first = self.default.field(alloc)?;
        let next = self.next.made(alloc)?;
        Ok((first, next))
    }
}
