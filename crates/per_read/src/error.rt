//! Why a decoder refuses.

ghost use Rattle.std.specs.Prelude.{◌≡◌};
ghost use Rattle.rasn_constraints.specs.Bounds.{count_of};
ghost use Rattle.per_core.specs.declared.decode_error.DecodeErrorKind.TheVariants.{Incomplete};

pub use per_core::decode_error::{DecodeError, DecodeErrorKind, ParserFailCause};
use rasn_constraints::count::Count;

/// The kind of a refusal where so many bits of a field are missing.
#[inline(always)]
pub(crate) fn missing(bits: u128) -> DecodeErrorKind
    ensures { result ≡ Incomplete (count_of bits) }
{
    DecodeErrorKind::Incomplete(Count::new(bits))
}
