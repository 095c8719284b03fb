//! Defaults of one component of a record.

ghost use Rattle.std.specs.Prelude.{◌≡◌, ℕ, suc, Option, Some, None, IfOk};
ghost use Rattle.rasn_types.specs.Values.{Value};
ghost use Rattle.rasn_schema.specs.Components.{sequence_at};
ghost use Rattle.rasn_schema.specs.Structures.{record_value};
ghost use Rattle.rasn_traits.specs.Presences.{slot_of};
ghost use Rattle.rasn_record.specs.Slots.{slot_levels};
ghost use Rattle.rasn_constructed.specs.Parts.{Form, TellsPart, bare, grouped, plain};

use rasn_codec::defaults::DefaultOf;
use rasn_schema::components::Components;
use rasn_schema::schema::AsnType;
use std::alloc::{AllocError, Global};

/// What a component is in a default of its record, for fields of a type `F`.
pub trait ComponentDefault<F> {
    // The form of the component, to a number of levels.
    ghost form: { ℕ → Form };

    // What a field is.
    ghost slot: { F → Option Value };

    // How many levels it takes.
    ghost levels: { F → ℕ };

    // What the component is.
    ghost default: { Self → Option Value };

    /// Whether a field is that.
    fn is_field(&self, field: &F) -> bool
        ensures { TellsPart form (levels field.now) (slot field.now) (default self.now) result };

    /// A field that is that, in memory of `alloc`. The only error is want of memory.
    fn field(&self, alloc: Global) -> Result<F, AllocError>
        ensures { IfOk result (λ x. slot x ≡ default self.now) };
}

/// A component that is always there, required or with a default of its own.
#[derive(Clone, Copy, Debug)]
pub struct Always<K>(pub K);

/// An optional component that is there.
#[derive(Clone, Copy, Debug)]
pub struct Present<K>(pub K);

/// An optional component that is absent.
#[derive(Clone, Copy, Debug)]
pub struct Absent {}

/// An addition group that is there. It has a required component.
#[derive(Clone, Copy, Debug)]
pub struct PresentGroup<K>(pub K);

/// An addition group that is absent. It has a required component.
#[derive(Clone, Copy, Debug)]
pub struct AbsentGroup {}

impl<H: AsnType, K: DefaultOf<H>> ComponentDefault<H> for Always<K> {
    ghost form = { λ n. plain (bare (H.schema H.CONSTRAINTS n)) };

    ghost slot = { λ x. Some (H.value x) };

    ghost levels = { H.levels };

    ghost default = { λ d. Some (K.default d.0) };

    fn is_field(&self, field: &H) -> bool {
        self.0.stands_for(field, &H::CONSTRAINTS)
    }

    fn field(&self, alloc: Global) -> Result<H, AllocError> {
        self.0.made(alloc)
    }
}

impl<H: AsnType, K: DefaultOf<H>> ComponentDefault<Option<H>> for Present<K> {
    ghost form = { λ n. plain (bare (H.schema H.CONSTRAINTS n)) };

    ghost slot = { slot_of H.value };

    ghost levels = { slot_levels H.levels };

    ghost default = { λ d. Some (K.default d.0) };

    fn is_field(&self, field: &Option<H>) -> bool {
        match field {
            Some(value) => self.0.stands_for(value, &H::CONSTRAINTS),
            None => false,
        }
    }

    fn field(&self, alloc: Global) -> Result<Option<H>, AllocError> {
        Ok(Some(self.0.made(alloc)?))
    }
}

impl<H: AsnType> ComponentDefault<Option<H>> for Absent {
    ghost form = { λ n. plain (bare (H.schema H.CONSTRAINTS n)) };

    ghost slot = { slot_of H.value };

    ghost levels = { slot_levels H.levels };

    ghost default = { λ _. None };

    fn is_field(&self, field: &Option<H>) -> bool {
        field.is_none()
    }

    fn field(&self, _: Global) -> Result<Option<H>, AllocError> {
        Ok(None)
    }
}

impl<G: Components, K: DefaultOf<G>> ComponentDefault<Option<G>> for PresentGroup<K> {
    ghost form = { λ n. grouped (sequence_at G.components.0 n) };

    ghost slot = { slot_of (λ x. record_value (G.contents x) (G.added x)) };

    ghost levels = { slot_levels (λ x. suc (G.depth x)) };

    ghost default = { λ d. Some (K.default d.0) };

    fn is_field(&self, field: &Option<G>) -> bool {
        match field {
            Some(value) => self.0.stands_for(value, &G::CONSTRAINTS),
            None => false,
        }
    }

    fn field(&self, alloc: Global) -> Result<Option<G>, AllocError> {
        Ok(Some(self.0.made(alloc)?))
    }
}

impl<G: Components> ComponentDefault<Option<G>> for AbsentGroup {
    ghost form = { λ n. grouped (sequence_at G.components.0 n) };

    ghost slot = { slot_of (λ x. record_value (G.contents x) (G.added x)) };

    ghost levels = { slot_levels (λ x. suc (G.depth x)) };

    ghost default = { λ _. None };

    fn is_field(&self, field: &Option<G>) -> bool {
        field.is_none()
    }

    fn field(&self, _: Global) -> Result<Option<G>, AllocError> {
        Ok(None)
    }
}
