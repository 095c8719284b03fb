//! Types under constraints of their own.

ghost use Rattle.std.specs.Prelude.{◌≡◌};

use crate::fields::TypeTree;
use crate::schema::{AsnType, Constraints};
use rasn_types::types::Tag;
use std::marker::PhantomData;

/// The constraints of a type, for `Constrained`.
pub trait Limits {
    ghost use Rattle.rasn_constraints.specs.declared.constraints.Constraints.{Constraints};

    /// The constraints.
    const LIMITS: Constraints<'static>;

    ghost LIMITS: { Constraints };
}

/// A type under constraints of its own (X.680 49): `Constrained<Integer, UpTo65535>` for INTEGER (..65535), where
/// `UpTo65535` has the constraints as its `Limits`.
#[derive(Clone, Copy, Debug, Drop, PartialEq, Eq)]
pub struct Constrained<T, L> {
    /// The value, which may be any of the type.
    pub value: T,
    /// The constraints.
    pub limits: PhantomData<L>,
}

impl<T, L> Constrained<T, L> {
    /// The value, under the constraints of the type.
    pub fn new(value: T) -> Self
        ensures { result.value ≡ value }
    {
        Constrained {
            value,
            limits: PhantomData::<L>,
        }
    }
}

impl<T: AsnType, L: Limits> AsnType for Constrained<T, L> {
    const TAG: Tag = T::TAG;

    ghost TAG = { T.TAG };

    const TAG_TREE: TypeTree = T::TAG_TREE;

    ghost TAG_TREE = { T.TAG_TREE };

    const IS_CHOICE: bool = T::IS_CHOICE;

    ghost IS_CHOICE = { T.IS_CHOICE };

    const CONSTRAINTS: Constraints<'static> = L::LIMITS;

    ghost CONSTRAINTS = { L.LIMITS };

    ghost schema = { T.schema };

    ghost value = { λ x. T.value x.value };

    ghost levels = { λ x. T.levels x.value };

    ghost levelled = { T.levelled };

    ghost tag_fits = { T.tag_fits };

    ghost tree_fits = { T.tree_fits };
}
