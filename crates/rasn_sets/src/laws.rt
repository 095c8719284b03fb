//! Which SETs stand as they are written.

ghost use Rattle.std.specs.Prelude.{◌≡◌, List, Option};
ghost use Rattle.rasn_types.specs.Values.{Value};
ghost use Rattle.rasn_schema.specs.Orders.{canonised, canonised_slots};
ghost use Rattle.rasn_schema.specs.Schemas.{Parts, tags};
ghost use Rattle.rasn_sets.specs.SetRecords.{AreAscending};

/// Components in ascending order of their smallest tags are written as they are listed (X.691 21.1).
pub fn ascending_components_are_in_order()
    ensures parts { (ps : Parts) → AreAscending (tags ps) → canonised ps ≡ ps }
    ensures slots { (ps : Parts) (rs : List (Option Value)) → AreAscending (tags ps) → canonised_slots ps rs ≡ rs }
{}
