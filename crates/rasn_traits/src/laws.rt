//! What the clauses of calls around a function say that is lent a codec. Each law is the contract of a function that
//! does
//! nothing.

ghost use Rattle.std.specs.Prelude.{◌≡◌, true, Result, IsErr};
ghost use Rattle.std.specs.Fn.{FnOnceReturnsAtMut};
ghost use Rattle.rasn_traits.specs.Scopes.{Ends};

use crate::decoder::Decoder;
use crate::encoder::Encoder;

/// A call around a function that is lent an encoder answers an error, where the function leaves the encoder failed in
/// whatever way it returns: also where it answers Ok.
pub fn failed_encoder_is_refused<E: Encoder, T, F: FnOnce(&mut E) -> Result<T, E::Error>, A>()
    ensures { (scope : F) (result : Result A E.Error)
        → ((i : E) (r : Result T E.Error) (j : E) → FnOnceReturnsAtMut F.FnOnce scope i r j → E.rules.failed j ≡ true)
        → Ends E.rules.already E.rules.failed (FnOnceReturnsAtMut F.FnOnce scope) result → IsErr result }
{}

/// A call around a function that is lent a decoder answers an error, where the function leaves the decoder failed in
/// whatever way it returns: also where it answers Ok.
pub fn failed_decoder_is_refused<D: Decoder, T, F: FnOnce(&mut D) -> Result<T, D::Error>, A>()
    ensures { (scope : F) (result : Result A D.Error)
        → ((i : D) (r : Result T D.Error) (j : D) → FnOnceReturnsAtMut F.FnOnce scope i r j → D.rules.failed j ≡ true)
        → Ends D.rules.already D.rules.failed (FnOnceReturnsAtMut F.FnOnce scope) result → IsErr result }
{}
