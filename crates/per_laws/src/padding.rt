//! The law of padding that must be zero.

ghost use Rattle.std.specs.Prelude.{ℕ, List, false};
ghost use Rattle.rasn_types.specs.Values.{Value};
ghost use Rattle.rasn_schema.specs.Schemas.{Schema};
ghost use Rattle.per_core.specs.Basic.{fills};
ghost use Rattle.per_core.specs.Spellings.{Settings};

/// What is read where padding must be zero is read, as the same value, where it may be anything (X.691, 11.1).
pub fn zero_padded_encoding_is_decoded()
    ensures { (a : Settings) (s : Schema) (v : Value) (octets : List ℕ) →
        fills a s v octets → fills (record { variant = a.variant; strict = false }) s v octets }
{}
