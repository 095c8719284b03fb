//! What `decode_with_remainder` of a type's own, of an older and of a newer version answers to octets that go on after
//! a value: what `decode` answers to the front of them, and the rest (X.680, 52).

ghost use Rattle.std.specs.Prelude.{◌≡◌, ◌++◌, ◌≤◌, ℕ, false, List, Result, Ok};
ghost use Rattle.std.specs.Borrow.{Bor};
ghost use Rattle.rasn_types.specs.Variants.{variant_of};
ghost use Rattle.rasn_types.specs.Values.{Value};
ghost use Rattle.rasn_types.specs.declared.types.Codec.{Codec};
ghost use Rattle.per_core.specs.Versions.{NewerType};
ghost use Rattle.per_laws.specs.Levels.{levels_of};
ghost use Rattle.per_core.specs.declared.decode_error.DecodeError.{DecodeError};
ghost use Rattle.rasn_per.specs.Calls.{Decoded, DecodedFront, AreBytes};
ghost use Rattle.per_versions.specs.Answers.{Answers, AnswersFront, AreKnown, BeginKnown};
ghost use Rattle.per_versions.specs.Readings.{
  IsProjection,
  IsReadBack,
  IsReadByNewer,
  IsReadByOlder,
  IsWidening,
  normal_form,
};

use rasn_codec::codec::{Decode, Encode};

/// What `decode` answers to octets, `decode_with_remainder` answers to the same with any octets after them, and leaves
/// just these; it refuses for want of memory alone.
pub fn what_is_decoded_is_decoded_in_front<T: Decode>()
    ensures { let type = T.schema T.CONSTRAINTS in
        (codec : Codec) (octets rest : List ℕ) (x : T) (answer : Result (T × Bor (List ℕ)) DecodeError)
        → Decoded codec type T.value octets (Ok x) → DecodedFront codec type T.value (octets ++ rest) answer
        → AnswersFront T.value (λ (w : Value). w ≡ T.value x) rest answer }
{}

/// What `decode_with_remainder` answers to octets, `decode` answers to the octets before those that it left; it refuses
/// for want of memory alone.
pub fn what_is_decoded_in_front_is_decoded<T: Decode>()
    ensures { let type = T.schema T.CONSTRAINTS in
        (codec : Codec) (octets rest : List ℕ) (x : T × Bor (List ℕ)) (answer : Result T DecodeError)
        → DecodedFront codec type T.value (octets ++ rest) (Ok x) → x.1.now ≡ rest
        → Decoded codec type T.value octets answer → Answers T.value (λ (w : Value). w ≡ T.value x.0) answer }
{}

/// Of octets that begin with those that `encode` answers, `decode_with_remainder` answers the value's normal form, and
/// the rest. It refuses, memory aside, exactly where something that is written lies deeper than 128 levels.
pub fn reader_answers_the_normal_form_and_the_rest<T: Encode + Decode>()
    ensures { let type = T.schema T.CONSTRAINTS in
        (codec : Codec) (x : T) (octets rest : List ℕ) (answer : Result (T × Bor (List ℕ)) DecodeError)
        → AreBytes (variant_of codec) type (T.levels x) (T.value x) octets
        → DecodedFront codec type T.value (octets ++ rest) answer
        → AnswersFront T.value (IsReadBack type (T.value x)) rest answer }
{}

/// Of octets that begin with those that a newer type's `encode` answers, an older type's `decode_with_remainder`
/// answers the projection of the value's normal form, and the rest. It refuses, memory aside, exactly where there is no
/// projection, or where something that is written lies deeper than 128 levels, outside the additions that it doesn't
/// know (X.680, 52; X.691, 19.9).
pub fn older_reader_answers_the_projection_and_the_rest<New: Encode, Old: Decode>()
    ensures { let newer = New.schema New.CONSTRAINTS in let older = Old.schema Old.CONSTRAINTS in NewerType newer older
        → (codec : Codec) (x : New) (octets rest : List ℕ) (answer : Result (Old × Bor (List ℕ)) DecodeError)
        → AreBytes (variant_of codec) newer (New.levels x) (New.value x) octets
        → DecodedFront codec older Old.value (octets ++ rest) answer
        → AnswersFront Old.value (IsReadByOlder newer older (New.value x)) rest answer }
{}

/// Of octets that begin with those that an older type's `encode` answers, a newer type's `decode_with_remainder`
/// answers the widening of the value's normal form, and the rest. It refuses, memory aside, exactly where there is no
/// widening, or where something that is written lies deeper than 128 levels (X.680, 52; X.691, 19.5, 19.8).
pub fn newer_reader_answers_the_widening_and_the_rest<New: Decode, Old: Encode>()
    ensures { let newer = New.schema New.CONSTRAINTS in let older = Old.schema Old.CONSTRAINTS in NewerType newer older
        → (codec : Codec) (x : Old) (octets rest : List ℕ) (answer : Result (New × Bor (List ℕ)) DecodeError)
        → AreBytes (variant_of codec) older (Old.levels x) (Old.value x) octets
        → DecodedFront codec newer New.value (octets ++ rest) answer
        → AnswersFront New.value (IsReadByNewer newer older (Old.value x)) rest answer }
{}

/// Of any octets, canonical or not, of which a newer type's `decode_with_remainder` answers a value and a rest, an
/// older type's answers the projection of that value and the same rest. It refuses, memory aside, exactly where there
/// is no projection.
pub fn older_reader_projects_the_front_that_the_newer_reads<New: Decode, Old: Decode>()
    ensures { let newer = New.schema New.CONSTRAINTS in let older = Old.schema Old.CONSTRAINTS in NewerType newer older
        → (codec : Codec) (octets : List ℕ) (x : New × Bor (List ℕ)) (answer : Result (Old × Bor (List ℕ)) DecodeError)
        → DecodedFront codec newer New.value octets (Ok x) → DecodedFront codec older Old.value octets answer
        → AnswersFront Old.value (IsProjection newer older (New.value x.0)) x.1.now answer }
{}

/// Of any octets, canonical or not, that begin with an older type's value, no additions being present in it that the
/// type doesn't know, a newer type's `decode_with_remainder` answers the widening of that value and the rest. It
/// refuses, memory aside, exactly where there is no widening. The older value is the projection of the newer one.
pub fn newer_reader_widens_the_front_that_the_older_reads<New: Decode, Old: Decode>()
    ensures answers { let newer = New.schema New.CONSTRAINTS in let older = Old.schema Old.CONSTRAINTS in
        NewerType newer older → (codec : Codec) (octets rest : List ℕ) (x : Old)
        (answer : Result (New × Bor (List ℕ)) DecodeError)
        → BeginKnown codec older (Old.value x) octets rest → DecodedFront codec newer New.value octets answer
        → AnswersFront New.value (IsWidening newer older (Old.value x)) rest answer }
    ensures projects_back { let newer = New.schema New.CONSTRAINTS in let older = Old.schema Old.CONSTRAINTS in
        NewerType newer older → (codec : Codec) (octets rest : List ℕ) (x : Old) (y : New × Bor (List ℕ))
        → BeginKnown codec older (Old.value x) octets rest → DecodedFront codec newer New.value octets (Ok y)
        → IsProjection newer older (New.value y.0) (Old.value x) }
{}

/// Of any octets of which the newest type's `decode_with_remainder` answers one value and a rest, and the middle type's
/// another value, the oldest type's answers the projection of the first, which is that of the second, and the same
/// rest. It refuses, memory aside, exactly where there is none.
pub fn oldest_reader_answers_the_same_front_by_way_of_the_middle<
    Newest: Decode,
    Middle: Decode,
    Oldest: Decode,
>()
    ensures { let newest = Newest.schema Newest.CONSTRAINTS in let middle = Middle.schema Middle.CONSTRAINTS in
        let oldest = Oldest.schema Oldest.CONSTRAINTS in NewerType newest middle → NewerType middle oldest
        → (codec : Codec) (octets : List ℕ) (x : Newest × Bor (List ℕ)) (y : Middle × Bor (List ℕ))
        (answer : Result (Oldest × Bor (List ℕ)) DecodeError)
        → DecodedFront codec newest Newest.value octets (Ok x) → DecodedFront codec middle Middle.value octets (Ok y)
        → DecodedFront codec oldest Oldest.value octets answer →
        AnswersFront Oldest.value (IsProjection newest oldest (Newest.value x.0)) x.1.now answer
        × AnswersFront Oldest.value (IsProjection middle oldest (Middle.value y.0)) y.1.now answer }
{}

/// Of any octets that begin with the oldest type's value, no additions being present in it that the type doesn't know,
/// and of which the middle type's `decode_with_remainder` answers another value and a rest, the newest type's answers
/// the widening of the first, which is that of the second, and the same rest. It refuses, memory aside, exactly where
/// there is none.
pub fn newest_reader_answers_the_same_front_by_way_of_the_middle<
    Newest: Decode,
    Middle: Decode,
    Oldest: Decode,
>()
    ensures { let newest = Newest.schema Newest.CONSTRAINTS in let middle = Middle.schema Middle.CONSTRAINTS in
        let oldest = Oldest.schema Oldest.CONSTRAINTS in NewerType newest middle → NewerType middle oldest
        → (codec : Codec) (octets rest : List ℕ) (x : Oldest) (y : Middle × Bor (List ℕ))
        (answer : Result (Newest × Bor (List ℕ)) DecodeError) → BeginKnown codec oldest (Oldest.value x) octets rest
        → DecodedFront codec middle Middle.value octets (Ok y) → DecodedFront codec newest Newest.value octets answer →
        AnswersFront Newest.value (IsWidening newest oldest (Oldest.value x)) rest answer
        × AnswersFront Newest.value (IsWidening newest middle (Middle.value y.0)) rest answer }
{}

/// Of octets that begin with those that `encode` answers of a value whose normal form has at most 128 levels,
/// `decode_with_remainder` answers that and the rest, and refuses for want of memory alone.
pub fn few_levels_are_read_back_in_front<T: Encode + Decode>()
    ensures { let type = T.schema T.CONSTRAINTS in
        (codec : Codec) (x : T) (octets rest : List ℕ) (answer : Result (T × Bor (List ℕ)) DecodeError)
        → AreBytes (variant_of codec) type (T.levels x) (T.value x) octets
        → levels_of (normal_form type (T.value x)) ≤ 128 → DecodedFront codec type T.value (octets ++ rest) answer
        → AnswersFront T.value (λ (w : Value). w ≡ normal_form type (T.value x)) rest answer }
{}

/// Of the bytes of a newer type's value whose normal form has 128 levels or fewer, with any octets after them, an
/// older type's `decode_with_remainder` answers the projection and the rest, and refuses, memory aside, exactly where
/// there is no projection (X.680, 52).
pub fn few_levels_are_projected_in_front<New: Encode, Old: Decode>()
    ensures { let newer = New.schema New.CONSTRAINTS in let older = Old.schema Old.CONSTRAINTS in NewerType newer older
        → (codec : Codec) (x : New) (octets rest : List ℕ) (answer : Result (Old × Bor (List ℕ)) DecodeError)
        → AreBytes (variant_of codec) newer (New.levels x) (New.value x) octets
        → levels_of (normal_form newer (New.value x)) ≤ 128
        → DecodedFront codec older Old.value (octets ++ rest) answer
        → AnswersFront Old.value (IsProjection newer older (normal_form newer (New.value x))) rest answer }
{}

/// Of the bytes of an older type's value whose normal form has 128 levels or fewer, with any octets after them, a
/// newer type's `decode_with_remainder` answers the widening and the rest, and refuses, memory aside, exactly where
/// there is no widening (X.680, 52).
pub fn few_levels_are_widened_in_front<New: Decode, Old: Encode>()
    ensures { let newer = New.schema New.CONSTRAINTS in let older = Old.schema Old.CONSTRAINTS in NewerType newer older
        → (codec : Codec) (x : Old) (octets rest : List ℕ) (answer : Result (New × Bor (List ℕ)) DecodeError)
        → AreBytes (variant_of codec) older (Old.levels x) (Old.value x) octets
        → levels_of (normal_form older (Old.value x)) ≤ 128
        → DecodedFront codec newer New.value (octets ++ rest) answer
        → AnswersFront New.value (IsWidening newer older (normal_form older (Old.value x))) rest answer }
{}
