//! What an ENUMERATED states of its items (X.680 20).

ghost use Rattle.std.specs.Prelude.{◌≡◌, ℕ, Bool, true, ◌||◌, ◌==◌};
ghost use Rattle.rasn_types.specs.Values.{root, added};
ghost use Rattle.rasn_schema.specs.Schemas.{Schema};
ghost use Rattle.rasn_schema.specs.Forms.{always};
ghost use Rattle.rasn_schema.specs.Enumerations.{Finds, IsItemAt, is_added};

use crate::schema::AsnType;

/// An ENUMERATED (X.680 20): the items before its extension marker, and those after it.
pub trait Enumerated: AsnType + Sized + Drop {
    ghost use Rattle.rasn_constraints.specs.declared.constraints.Constraints.{Constraints};

    /// Whether the type has an extension marker (X.680 20.1).
    const EXTENSIBLE: bool;

    ghost EXTENSIBLE: { Bool };

    /// The identifier of each item (X.680 20.1): those before the extension marker, and after them those after it;
    /// none, where the type names none. No clause ties them to the items.
    const IDENTIFIERS: &'static [&'static str] = &[];

    // How many items are before the extension marker.
    ghost roots: { ℕ };

    // How many items are after the extension marker.
    ghost addeds: { ℕ };

    /// How many items are before the extension marker.
    fn variance() -> usize
        ensures { result ≡ roots };

    /// How many items are after the extension marker.
    fn extended_variance() -> usize
        ensures { result ≡ addeds };

    /// The place of the item in its own list, from 0 (X.691 14.1).
    fn enumeration_index(&self) -> usize
        ensures { IsItemAt roots addeds (Self.value self.now) result };

    /// Whether the item is after the extension marker.
    fn is_extended_variant(&self) -> bool
        ensures { result ≡ is_added (Self.value self.now) };

    /// The item at a place before the extension marker, from 0; none from `variance` on.
    fn from_enumeration_index(index: usize) -> Option<Self>
        ensures { Finds Self.value roots root index result };

    /// The item at a place after the extension marker, from 0; none from `extended_variance` on.
    fn from_extended_enumeration_index(index: usize) -> Option<Self>
        ensures { Finds Self.value addeds added index result };

    // Items stand after an extension marker alone.
    ghost marked: { (EXTENSIBLE || (addeds == 0)) ≡ true };

    // The schema is that of the items.
    ghost is_enumerated: { (c : Constraints) → Self.schema c ≡ always (Schema.items roots addeds EXTENSIBLE) };
}
