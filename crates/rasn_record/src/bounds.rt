//! The constraints of a record's components, root ones and additions.

use rasn_schema::constraints::Constraint;

/// The constraints of a record's components in their order: none where its type's own hold.
#[derive(Clone, Copy)]
pub struct BoundLists {
    /// Those of each root component.
    pub root: &'static [&'static [Constraint<'static>]],
    /// Those of each addition.
    pub added: &'static [&'static [Constraint<'static>]],
}

/// The constraints of a record's components, after one reference: a body that names a constant of them has one value
/// of it, of a short type.
#[derive(Clone, Copy)]
pub struct Bounds {
    /// The lists.
    pub lists: &'static BoundLists,
}
