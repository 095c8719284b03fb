//! OBJECT IDENTIFIER (X.691 24).

ghost use Rattle.std.specs.Prelude.{◌≡◌};
ghost use Rattle.rasn_types.specs.Identifiers.{contents};
ghost use Rattle.per_core.specs.TimeFaults.{IsOfIdentifier};
ghost use Rattle.per_decoding.specs.Times.{identifier_form};
ghost use Rattle.per_read.specs.Takes.{Takes, memory_or};

use per_read::Reader;
use per_read::error::DecodeErrorKind;
use rasn_types::ber::{BerError, object_identifier_from_bytes};

/// Takes an OBJECT IDENTIFIER (X.691 24), and answers its arcs.
pub fn take_object_identifier(reader: &mut Reader<'_>) -> Result<Vec<u32>, DecodeErrorKind>
    ensures { Takes (memory_or IsOfIdentifier) identifier_form (λ P arcs. P (contents arcs.items))
        reader.old result reader.new }
{
    let octets = reader.take_octets()?;
    match object_identifier_from_bytes(reader.alloc(), &octets) {
        Ok(arcs) => Ok(arcs),
        Err(BerError::InvalidObjectIdentifier) => Err(DecodeErrorKind::Below),
        Err(BerError::OutOfMemory) => Err(DecodeErrorKind::OutOfMemory),
    }
}
