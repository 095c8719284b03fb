//! What an older and a newer type's `decode` answer to the same octets where bits have names in either alone (X.680,
//! 22, 52). Of what is encoded again there are no such laws, since zero bits at the end of bits that have names then
//! go.

ghost use Rattle.std.specs.Prelude.{Bool, List, ℕ, Result, Ok};
ghost use Rattle.rasn_types.specs.declared.types.Codec.{Codec};
ghost use Rattle.per_laws.specs.NamedBits.{NewerTypeButForNames};
ghost use Rattle.per_core.specs.declared.decode_error.DecodeError.{DecodeError};
ghost use Rattle.rasn_per.specs.Calls.{DecodedBy};
ghost use Rattle.per_versions.specs.Answers.{Answers, AreKnown};
ghost use Rattle.per_versions.specs.Readings.{IsProjection, IsWidening};

use rasn_codec::codec::Decode;

/// Of any octets, canonical or not, that a newer type's `decode` answers with a value, an older type's answers the
/// projection of that value, whichever bits have names in the one or the other. It refuses, memory aside, exactly where
/// there is none.
pub fn older_reader_projects_whichever_bits_have_names<New: Decode, Old: Decode>()
    ensures { let newer = New.schema New.CONSTRAINTS in let older = Old.schema Old.CONSTRAINTS in
        NewerTypeButForNames newer older
        → (strict : Bool) (codec : Codec) (octets : List ℕ) (x : New) (answer : Result Old DecodeError)
        → DecodedBy strict codec newer New.value octets (Ok x) → DecodedBy strict codec older Old.value octets answer
        → Answers Old.value (IsProjection newer older (New.value x)) answer }
{}

/// Of any octets, canonical or not, that an older type's `decode` answers with a value, no additions being present that
/// it doesn't know, a newer type's answers the widening of that value, whichever bits have names in the one or the
/// other. It refuses, memory aside, exactly where there is none.
pub fn newer_reader_widens_whichever_bits_have_names<New: Decode, Old: Decode>()
    ensures { let newer = New.schema New.CONSTRAINTS in let older = Old.schema Old.CONSTRAINTS in
        NewerTypeButForNames newer older
        → (strict : Bool) (codec : Codec) (octets : List ℕ) (x : Old) (answer : Result New DecodeError)
        → AreKnown strict codec older (Old.value x) octets → DecodedBy strict codec newer New.value octets answer
        → Answers New.value (IsWidening newer older (Old.value x)) answer }
{}
