//! The fields of a record, as it states them.

ghost use Rattle.std.specs.Prelude.{◌≡◌, map};
ghost use Rattle.rasn_schema.specs.Extensions.{fields_after};
ghost use Rattle.rasn_schema.specs.Fields.{shape_of};

use rasn_schema::components::Components;
use rasn_schema::fields::Field;

/// The fields of its root components.
pub fn root<T: Components>() -> &'static [Field]
    ensures { map shape_of result.now ≡ T.COMPONENTS.before }
{
    T::COMPONENTS.root
}

/// The fields of its additions, of which there are none without an extension marker.
pub fn added<T: Components>() -> &'static [Field]
    ensures { map shape_of result.now ≡ fields_after T.COMPONENTS.behind }
{
    match T::COMPONENTS.added {
        Some(list) => list,
        None => &[],
    }
}
