//! How many items what is decoded has: laws of any call that answers as those of `uper` and `aper` do.

ghost use Rattle.std.specs.Prelude.{ℕ, Bool, List, Result};
ghost use Rattle.std.specs.Borrow.{Bor};
ghost use Rattle.rasn_types.specs.declared.types.Codec.{Codec};
ghost use Rattle.rasn_constraints.specs.declared.constraints.Constraints.{Constraints};
ghost use Rattle.per_core.specs.declared.decode_error.DecodeError.{DecodeError};
ghost use Rattle.rasn_per.specs.Calls.{DecodedBy, DecodedFront, AnswersFew, AnswersFewInFront};

use rasn_codec::codec::Decode;

/// What is decoded has at most 65535 items, and 8192 for each bit of the octets; and so has each value within it, but
/// for a default that stands for an absent part (X.691, 11.9, 19.5).
pub fn decoded_items_are_few<T: Decode>()
    ensures { (strict : Bool) (codec : Codec) (constraints : Constraints) (octets : List ℕ)
        (result : Result T DecodeError) → DecodedBy strict codec (T.schema constraints) T.value octets result →
        AnswersFew (T.schema constraints) T.value octets result }
{}

/// What is decoded of the octets that others begin with has at most 65535 items, and 8192 for each bit of the octets in
/// front of the remainder; and so has each value within it, but for a default that stands for an absent part (X.691,
/// 11.9, 19.5).
pub fn decoded_items_in_front_are_few<T: Decode>()
    ensures { (codec : Codec) (octets : List ℕ) (result : Result (T × Bor (List ℕ)) DecodeError)
        → DecodedFront codec (T.schema T.CONSTRAINTS) T.value octets result →
        AnswersFewInFront (T.schema T.CONSTRAINTS) T.value octets result }
{}
