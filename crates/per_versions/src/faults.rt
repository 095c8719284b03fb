//! The laws of what was read and is written again: no fault for which an encoder refuses a value is in it. Each law
//! is the contract of a function that does nothing.

ghost use Rattle.std.specs.Prelude.{◌≡◌, List, ℕ, Bool, Option, true, false};
ghost use Rattle.rasn_types.specs.Values.{Value};
ghost use Rattle.rasn_constraints.specs.Bounds.{Bounds, Size};
ghost use Rattle.rasn_schema.specs.Choices.{VariantShape, choice_at};
ghost use Rattle.rasn_schema.specs.Depth.{meets_cut};
ghost use Rattle.rasn_schema.specs.Lawful.{IsLawful};
ghost use Rattle.rasn_schema.specs.Lists.{list_at};
ghost use Rattle.rasn_schema.specs.Normal.{normal};
ghost use Rattle.rasn_schema.specs.Records.{record_at};
ghost use Rattle.rasn_schema.specs.Schemas.{Order, Parts, Schema};
ghost use Rattle.per_laws.specs.Judged.{judgement};
ghost use Rattle.per_laws.specs.Verdicts.{allowed};
ghost use Rattle.per_core.specs.Basic.{fills};
ghost use Rattle.per_core.specs.Spellings.{Settings};
ghost use Rattle.per_core.specs.WritingFaults.{IsInValue};
ghost use Rattle.per_core.specs.declared.encode_error.EncodeErrorKind.{EncodeErrorKind};
ghost use Rattle.per_core.specs.declared.encode_error.EncodeErrorKind.TheVariants.{IntegerTypeConversionFailed};
ghost use Rattle.per_versions.specs.NumbersKept.{
  KeepsToI128,
  ends_in_i128,
  keep_to_i128,
  keeps_to_i128,
  starts_in_i128,
};

use rasn_schema::schema::AsnType;

/// Of what a lawful schema reads, in a tree that holds it, an encoder refuses the normal form for one fault alone: a
/// number past an `i128` that is within the bounds of an extensible constraint. After an extension bit it is read,
/// and in root form it can't be written.
pub fn what_was_read_has_one_fault_at_most()
    ensures { (a : Settings) (s : Schema) (v : Value) (octets : List ℕ) (kind : EncodeErrorKind) → IsLawful s
        → meets_cut s v ≡ false → fills a s v octets → IsInValue kind s (normal s v)
        → kind ≡ IntegerTypeConversionFailed }
{}

/// Of what a lawful schema reads that keeps to the numbers of an `i128`, in a tree that holds it, an encoder refuses
/// the normal form for no fault.
pub fn what_was_read_has_no_fault()
    ensures { (a : Settings) (s : Schema) (v : Value) (octets : List ℕ) (kind : EncodeErrorKind) → IsLawful s
        → keeps_to_i128 s ≡ true → meets_cut s v ≡ false → fills a s v octets
        → IsInValue kind s (normal s v) → ⊥ }
{}

/// An INTEGER that a number type holds of which each number is an `i128`, keeps to these, whatever its constraint; and
/// so does one under two bounds that are.
pub fn numbers_of_an_i128_are_kept()
    ensures held { (bounds range : Bounds) (mark : Bool) → starts_in_i128 range.low ≡ true
        → ends_in_i128 range.high ≡ true → keeps_to_i128 (Schema.number bounds mark range) ≡ true }
    ensures bounded { (bounds range : Bounds) (mark : Bool) → starts_in_i128 bounds.low ≡ true
        → ends_in_i128 bounds.high ≡ true → keeps_to_i128 (Schema.number bounds mark range) ≡ true }
{}

/// A type of any depth keeps to the numbers of an `i128` where what is in it does: the components and additions of
/// a record, the elements of a list, the alternatives of a choice.
pub fn types_of_kept_parts_are_kept()
    ensures record_of { (o : Order) (parts additions : ℕ → Parts) (extensible : Bool)
        → ((n : ℕ) → keep_to_i128 (parts n) ≡ true) → ((n : ℕ) → keep_to_i128 (additions n) ≡ true)
        → KeepsToI128 (record_at o parts extensible additions) }
    ensures list_of { (element : ℕ → Schema) (size : Size) (mark : Bool) → KeepsToI128 element
        → KeepsToI128 (list_at element size mark) }
    ensures choice_of { (alternatives behind : ℕ → Parts) (extensible : Option (List VariantShape))
        → ((n : ℕ) → keep_to_i128 (alternatives n) ≡ true) → ((n : ℕ) → keep_to_i128 (behind n) ≡ true)
        → KeepsToI128 (choice_at alternatives extensible behind) }
{}

/// A type keeps to the numbers of an `i128` where its tree of 128 levels does, and the judgement of it finds nothing
/// unlawful: both are found by computing. A call in an empty body is refused where it isn't so (X.691, 13).
pub fn keeps_to_i128<T: AsnType>()
    requires lawful { judgement (T.schema T.CONSTRAINTS) ≡ allowed }
    requires kept { keeps_to_i128 (T.schema T.CONSTRAINTS 128) ≡ true }
    ensures { KeepsToI128 (T.schema T.CONSTRAINTS) }
{}
