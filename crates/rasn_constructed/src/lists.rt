//! Defaults of SEQUENCE OF with elements (X.680 26).

ghost use Rattle.std.specs.Prelude.{◌≡◌, List, [], ◌∷◌, ◌++◌, map, OnOk};
ghost use Rattle.rasn_types.specs.Values.{Value};
ghost use Rattle.rasn_schema.specs.Lists.{deepest};
ghost use Rattle.rasn_schema.specs.Structures.{list_value};
ghost use Rattle.rasn_constructed.specs.ListDefaults.{TellsElements};

use rasn_codec::defaults::DefaultOf;
use rasn_schema::schema::{AsnType, Constraints};
use std::alloc::{AllocError, Global};

/// Defaults of a list's elements, in their order.
pub trait ElementDefaults<T: AsnType> {
    // The values that they are.
    ghost defaults: { Self → List Value };

    /// Whether they stand for these elements, one for one.
    fn stand_for(&self, elements: &[T]) -> bool
        ensures { TellsElements (T.schema T.CONSTRAINTS) (deepest T.levels elements.now) (map T.value elements.now)
            (defaults self.now) result };

    /// Puts elements that they stand for after those of a list, in memory of `alloc`. The only error is want of
    /// memory, after which some elements may have been put.
    fn put_after(&self, elements: &mut Vec<T>, alloc: Global) -> Result<(), AllocError>
        ensures { OnOk result (map T.value elements.new.items ≡ map T.value elements.old.items ++ defaults self.now) };
}

/// No elements.
#[derive(Clone, Copy, Debug)]
pub struct NoElements {}

/// An element, and those after it.
#[derive(Clone, Copy, Debug)]
pub struct Element<K, N> {
    /// The default of the element.
    pub default: K,
    /// Those of the elements after it.
    pub next: N,
}

/// A list of these elements, as a default of SEQUENCE OF: `elements![1_u8, 2_u8]`.
#[derive(Clone, Copy, Debug)]
pub struct Elements<P>(pub P);

impl<T: AsnType> ElementDefaults<T> for NoElements {
    ghost defaults = { λ _. [] };

    fn stand_for(&self, elements: &[T]) -> bool {
        elements.is_empty()
    }

    fn put_after(&self, elements: &mut Vec<T>, _: Global) -> Result<(), AllocError> {
        let _ = elements;
        Ok(())
    }
}

impl<T: AsnType + Drop, K: DefaultOf<T>, N: ElementDefaults<T>> ElementDefaults<T>
    for Element<K, N> {
    ghost defaults = { λ d. K.default d.default ∷ N.defaults d.next };

    fn stand_for(&self, elements: &[T]) -> bool {
        match elements {
            [first, behind @ ..] => {
                self.default.stands_for(first, &T::CONSTRAINTS) && self.next.stand_for(behind)
            }
            [] => false,
        }
    }

    fn put_after(&self, elements: &mut Vec<T>, alloc: Global) -> Result<(), AllocError> {
        elements.push(self.default.made(alloc)?)?;
        self.next.put_after(elements, alloc)
    }
}

impl<T: AsnType + Drop, P: ElementDefaults<T>> DefaultOf<Vec<T>> for Elements<P> {
    ghost default = { λ d. list_value (P.defaults d.0) };

    fn stands_for(&self, component: &Vec<T>, _constraints: &Constraints) -> bool {
        self.0.stand_for(component.as_slice())
    }

    fn made(&self, alloc: Global) -> Result<Vec<T>, AllocError> {
        let mut elements = Vec::new(alloc);
        self.0.put_after(&mut elements, alloc)?;
        Ok(elements)
    }
}
