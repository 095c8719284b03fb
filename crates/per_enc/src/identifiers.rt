//! OBJECT IDENTIFIER (X.691 24).

ghost use Rattle.std.specs.Prelude.{◌≡◌, false};
ghost use Rattle.rasn_traits.specs.Calls.{Writes};
ghost use Rattle.rasn_traits.specs.Moments.{identifier_value};
ghost use Rattle.rasn_schema.specs.Schemas.{Schema};
ghost use Rattle.per_write.specs.Rules.{encoder_rules};

use per_write::Writer;
use per_write::error::{EncodeError, EncodeErrorKind};
use rasn_types::ber::{BerError, object_identifier_as_bytes};
use std::alloc::Allocator;

/// Writes an OBJECT IDENTIFIER by its arcs (X.691 24): its contents octets after an unconstrained length. Arcs
/// that name no object are refused.
pub fn put_object_identifier<A: Allocator + Clone>(
    writer: &mut Writer<A>,
    arcs: &[u32],
) -> Result<(), EncodeError>
    requires { writer.old.failed ≡ false }
    ensures { Writes encoder_rules Schema.identifier (identifier_value arcs.now) writer.old result writer.new }
{
    let mut octets = Vec::new(writer.allocator()?);
    match object_identifier_as_bytes(arcs, &mut octets) {
        Ok(()) => writer.put_octets(&octets),
        Err(BerError::InvalidObjectIdentifier) => Err(writer.refuse(EncodeErrorKind::Below)),
        Err(BerError::OutOfMemory) => Err(writer.refuse(EncodeErrorKind::OutOfMemory)),
    }
}
