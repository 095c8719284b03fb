//! A reader that looks ahead.

ghost use Rattle.std.specs.Prelude.{◌≡◌};

use crate::Reader;

/// A reader that goes ahead of another one, from where this stands.
pub(crate) fn ahead_of<'input>(reader: &Reader<'input>) -> Reader<'input>
    ensures { result ≡ reader.now }
{
    reader.clone().unwrap()
}
