//! Chains of three versions: by way of the middle one or not, a reader answers the same (X.680, 52).

ghost use Rattle.std.specs.Prelude.{◌≡◌, ◌↔◌, ℕ, Bool, List, Result, Ok};
ghost use Rattle.rasn_types.specs.Values.{Value};
ghost use Rattle.rasn_types.specs.declared.types.Codec.{Codec};
ghost use Rattle.per_core.specs.Versions.{NewerType};
ghost use Rattle.per_core.specs.declared.decode_error.DecodeError.{DecodeError};
ghost use Rattle.rasn_per.specs.Calls.{DecodedBy};
ghost use Rattle.per_versions.specs.Answers.{Answers, AreKnown};
ghost use Rattle.per_versions.specs.Readings.{IsProjection, IsWidening};

use rasn_codec::codec::Decode;
use rasn_schema::schema::AsnType;

/// A newer version of a newer version is a newer version.
pub fn newest_is_newer_than_the_oldest<Newest: AsnType, Middle: AsnType, Oldest: AsnType>()
    ensures { let newest = Newest.schema Newest.CONSTRAINTS in let middle = Middle.schema Middle.CONSTRAINTS in
        let oldest = Oldest.schema Oldest.CONSTRAINTS in
        NewerType newest middle → NewerType middle oldest → NewerType newest oldest }
{}

/// Where a value has a projection to the middle version, the projection of that to the oldest is the projection at
/// once, or neither is there.
pub fn projecting_by_way_of_the_middle_is_projecting_at_once<
    Newest: AsnType,
    Middle: AsnType,
    Oldest: AsnType,
>()
    ensures { let newest = Newest.schema Newest.CONSTRAINTS in let middle = Middle.schema Middle.CONSTRAINTS in
        let oldest = Oldest.schema Oldest.CONSTRAINTS in NewerType newest middle → NewerType middle oldest
        → (v w u : Value) → IsProjection newest middle v w →
        IsProjection middle oldest w u ↔ IsProjection newest oldest v u }
{}

/// Of any octets that the newest type's `decode` answers with one value and the middle type's with another, the oldest
/// type's answers the projection of the first, which is that of the second. It refuses, memory aside, exactly where
/// there is none.
pub fn oldest_reader_answers_the_same_by_way_of_the_middle<
    Newest: Decode,
    Middle: Decode,
    Oldest: Decode,
>()
    ensures { let newest = Newest.schema Newest.CONSTRAINTS in let middle = Middle.schema Middle.CONSTRAINTS in
        let oldest = Oldest.schema Oldest.CONSTRAINTS in NewerType newest middle → NewerType middle oldest
        → (strict : Bool) (codec : Codec) (octets : List ℕ) (x : Newest) (y : Middle)
        (answer : Result Oldest DecodeError)
        → DecodedBy strict codec newest Newest.value octets (Ok x)
        → DecodedBy strict codec middle Middle.value octets (Ok y)
        → DecodedBy strict codec oldest Oldest.value octets answer →
        Answers Oldest.value (IsProjection newest oldest (Newest.value x)) answer
        × Answers Oldest.value (IsProjection middle oldest (Middle.value y)) answer }
{}

/// Of any octets that the oldest type's `decode` answers with one value and the middle type's with another, no
/// additions being present that the oldest doesn't know, the newest type's answers the widening of the first, which is
/// that of the second. It refuses, memory aside, exactly where there is none.
pub fn newest_reader_answers_the_same_by_way_of_the_middle<
    Newest: Decode,
    Middle: Decode,
    Oldest: Decode,
>()
    ensures { let newest = Newest.schema Newest.CONSTRAINTS in let middle = Middle.schema Middle.CONSTRAINTS in
        let oldest = Oldest.schema Oldest.CONSTRAINTS in NewerType newest middle → NewerType middle oldest
        → (strict : Bool) (codec : Codec) (octets : List ℕ) (x : Oldest) (y : Middle)
        (answer : Result Newest DecodeError)
        → AreKnown strict codec oldest (Oldest.value x) octets
        → DecodedBy strict codec middle Middle.value octets (Ok y)
        → DecodedBy strict codec newest Newest.value octets answer →
        Answers Newest.value (IsWidening newest oldest (Oldest.value x)) answer
        × Answers Newest.value (IsWidening newest middle (Middle.value y)) answer }
{}
