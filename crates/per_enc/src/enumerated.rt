//! ENUMERATED (X.691 14).

ghost use Rattle.std.specs.Prelude.{◌≡◌, false};
ghost use Rattle.rasn_schema.specs.Schemas.{Schema};
ghost use Rattle.per_core.specs.Canon.{canon};
ghost use Rattle.per_write.specs.Faults.{IsMemory};
ghost use Rattle.per_write.specs.WriterState.{PutsIn};

use per_write::Writer;
use per_write::error::EncodeError;
use rasn_schema::enumerated::Enumerated;
use std::alloc::Allocator;

/// Writes an item of an ENUMERATED (X.691 14): after the extension bit its place in its list, before the extension
/// marker as a constrained whole number, after it as a normally small one.
pub fn put_enumerated<A: Allocator + Clone, E: Enumerated>(
    writer: &mut Writer<A>,
    value: &E,
) -> Result<(), EncodeError>
    requires { writer.old.failed ≡ false }
    ensures { let items = Schema.items E.roots E.addeds E.EXTENSIBLE in
        PutsIn IsMemory (λ a. canon a items (E.value value.now)) writer.old result writer.new }
{
    let index = value.enumeration_index();
    if value.is_extended_variant() {
        writer.put_extension_bit(E::EXTENSIBLE, true)?;
        writer.put_small(index)
    } else {
        writer.put_extension_bit(E::EXTENSIBLE, false)?;
        writer.put_constrained_whole((E::variance() - 1) as u128, index as u128)
    }
}
