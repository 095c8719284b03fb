//! What the laws of `versions` and of `chains` say of `decode`, of `decode_with_constraints`: each type is written and
//! read under constraints in place of its own.

ghost use Rattle.std.specs.Prelude.{Bool, List, Result, Ok, ℕ};
ghost use Rattle.rasn_types.specs.Variants.{variant_of};
ghost use Rattle.rasn_types.specs.declared.types.Codec.{Codec};
ghost use Rattle.rasn_constraints.specs.declared.constraints.Constraints.{Constraints};
ghost use Rattle.per_core.specs.Versions.{NewerType};
ghost use Rattle.per_core.specs.declared.decode_error.DecodeError.{DecodeError};
ghost use Rattle.rasn_per.specs.Calls.{DecodedBy, AreBytes};
ghost use Rattle.per_versions.specs.Answers.{Answers, AreKnown};
ghost use Rattle.per_versions.specs.Readings.{IsProjection, IsReadByNewer, IsReadByOlder, IsWidening};

use rasn_codec::codec::{Decode, Encode};

/// Of the octets that a newer type's `encode_with_constraints` answers, an older type's `decode_with_constraints`
/// answers the projection of the value's normal form. It refuses, memory aside, exactly where there is none, or where
/// something that is written lies deeper than 128 levels, outside the additions that it doesn't know (X.680, 52;
/// X.691, 19.9).
pub fn older_reader_answers_the_projection_under_constraints<New: Encode, Old: Decode>()
    ensures { (c d : Constraints) → let newer = New.schema c in let older = Old.schema d in NewerType newer older
        → (strict : Bool) (codec : Codec) (x : New) (octets : List ℕ) (answer : Result Old DecodeError)
        → AreBytes (variant_of codec) newer (New.levels x) (New.value x) octets
        → DecodedBy strict codec older Old.value octets answer
        → Answers Old.value (IsReadByOlder newer older (New.value x)) answer }
{}

/// Of the octets that an older type's `encode_with_constraints` answers, a newer type's `decode_with_constraints`
/// answers the widening of the value's normal form. It refuses, memory aside, exactly where there is none, or where
/// something that is written lies deeper than 128 levels (X.680, 52; X.691, 19.5, 19.8).
pub fn newer_reader_answers_the_widening_under_constraints<New: Decode, Old: Encode>()
    ensures { (c d : Constraints) → let newer = New.schema c in let older = Old.schema d in NewerType newer older
        → (strict : Bool) (codec : Codec) (x : Old) (octets : List ℕ) (answer : Result New DecodeError)
        → AreBytes (variant_of codec) older (Old.levels x) (Old.value x) octets
        → DecodedBy strict codec newer New.value octets answer
        → Answers New.value (IsReadByNewer newer older (Old.value x)) answer }
{}

/// Of any octets, canonical or not, that a newer type's `decode_with_constraints` answers with a value, an older type's
/// answers the projection of that value. It refuses, memory aside, exactly where there is none.
pub fn older_reader_projects_what_the_newer_reads_under_constraints<New: Decode, Old: Decode>()
    ensures { (c d : Constraints) → let newer = New.schema c in let older = Old.schema d in NewerType newer older
        → (strict : Bool) (codec : Codec) (octets : List ℕ) (x : New) (answer : Result Old DecodeError)
        → DecodedBy strict codec newer New.value octets (Ok x) → DecodedBy strict codec older Old.value octets answer
        → Answers Old.value (IsProjection newer older (New.value x)) answer }
{}

/// Of any octets, canonical or not, that an older type's `decode_with_constraints` answers with a value, no additions
/// being present that it doesn't know, a newer type's answers the widening of that value. It refuses, memory aside,
/// exactly where there is none. Nor are there additions then that the newer type doesn't know, and the older value is
/// the projection of the newer one.
pub fn newer_reader_widens_what_the_older_reads_under_constraints<New: Decode, Old: Decode>()
    ensures answers { (c d : Constraints) → let newer = New.schema c in let older = Old.schema d in
        NewerType newer older
        → (strict : Bool) (codec : Codec) (octets : List ℕ) (x : Old) (answer : Result New DecodeError)
        → AreKnown strict codec older (Old.value x) octets → DecodedBy strict codec newer New.value octets answer
        → Answers New.value (IsWidening newer older (Old.value x)) answer }
    ensures known { (c d : Constraints) → let newer = New.schema c in let older = Old.schema d in
        NewerType newer older → (strict : Bool) (codec : Codec) (octets : List ℕ) (x : Old) (y : New)
        → AreKnown strict codec older (Old.value x) octets → IsWidening newer older (Old.value x) (New.value y)
        → AreKnown strict codec newer (New.value y) octets }
    ensures projects_back { (c d : Constraints) → let newer = New.schema c in let older = Old.schema d in
        NewerType newer older → (strict : Bool) (codec : Codec) (octets : List ℕ) (x : Old) (y : New)
        → AreKnown strict codec older (Old.value x) octets → DecodedBy strict codec newer New.value octets (Ok y)
        → IsProjection newer older (New.value y) (Old.value x) }
{}

/// In the octets that `encode_with_constraints` answers no additions are present that the type doesn't know, where they
/// are read within 128 levels (X.691, 19.9).
pub fn octets_encoded_under_constraints_are_known<T: Encode + Decode>()
    ensures { (c : Constraints) → let type = T.schema c in (strict : Bool) (codec : Codec) (x y : T) (octets : List ℕ)
        → AreBytes (variant_of codec) type (T.levels x) (T.value x) octets
        → DecodedBy strict codec type T.value octets (Ok y)
        → AreKnown strict codec type (T.value y) octets }
{}

/// Of any octets that the newest type's `decode_with_constraints` answers with one value and the middle type's with
/// another, the oldest type's answers the projection of the first, which is that of the second. It refuses, memory
/// aside, exactly where there is none.
pub fn oldest_reader_answers_the_same_under_constraints<
    Newest: Decode,
    Middle: Decode,
    Oldest: Decode,
>()
    ensures { (c m d : Constraints) → let newest = Newest.schema c in let middle = Middle.schema m in
        let oldest = Oldest.schema d in NewerType newest middle → NewerType middle oldest
        → (strict : Bool) (codec : Codec) (octets : List ℕ) (x : Newest) (y : Middle)
        (answer : Result Oldest DecodeError)
        → DecodedBy strict codec newest Newest.value octets (Ok x)
        → DecodedBy strict codec middle Middle.value octets (Ok y)
        → DecodedBy strict codec oldest Oldest.value octets answer →
        Answers Oldest.value (IsProjection newest oldest (Newest.value x)) answer
        × Answers Oldest.value (IsProjection middle oldest (Middle.value y)) answer }
{}

/// Of any octets that the oldest type's `decode_with_constraints` answers with one value and the middle type's with
/// another, no additions being present that the oldest doesn't know, the newest type's answers the widening of the
/// first, which is that of the second. It refuses, memory aside, exactly where there is none.
pub fn newest_reader_answers_the_same_under_constraints<
    Newest: Decode,
    Middle: Decode,
    Oldest: Decode,
>()
    ensures { (c m d : Constraints) → let newest = Newest.schema c in let middle = Middle.schema m in
        let oldest = Oldest.schema d in NewerType newest middle → NewerType middle oldest
        → (strict : Bool) (codec : Codec) (octets : List ℕ) (x : Oldest) (y : Middle)
        (answer : Result Newest DecodeError)
        → AreKnown strict codec oldest (Oldest.value x) octets
        → DecodedBy strict codec middle Middle.value octets (Ok y)
        → DecodedBy strict codec newest Newest.value octets answer →
        Answers Newest.value (IsWidening newest oldest (Oldest.value x)) answer
        × Answers Newest.value (IsWidening newest middle (Middle.value y)) answer }
{}
