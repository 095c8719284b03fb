//! Which type is a newer version of which (X.680, 52), and which is lawful, found by computing. A user writes no proof:
//! a call of `is_newer_version` or of `is_lawful` in an empty body is refused where it isn't so, and the prover then
//! prints what isn't allowed and its place.

ghost use Rattle.std.specs.Prelude.{◌≡◌, ℕ};
ghost use Rattle.rasn_schema.specs.Lawful.{IsLawfulType};
ghost use Rattle.rasn_schema.specs.Levels.{Levelled};
ghost use Rattle.rasn_schema.specs.Schemas.{Schema};
ghost use Rattle.per_core.specs.Versions.{NewerType};
ghost use Rattle.per_laws.specs.Compared.{comparison};
ghost use Rattle.per_laws.specs.Judged.{judgement};
ghost use Rattle.per_laws.specs.Verdicts.{allowed};

use rasn_schema::schema::AsnType;

/// A type of which the comparison with an older, lawful one finds nothing that isn't allowed is a newer version of it,
/// at each number of levels: more additions, alternatives or items after an extension marker, at any depth, and
/// nothing else (X.680, 52).
pub fn compared_type_is_newer()
    ensures { (newer older : ℕ → Schema) → Levelled newer → Levelled older → IsLawfulType older
        → comparison newer older ≡ allowed → NewerType newer older }
{}

/// A type of which the judgement finds nothing unlawful is lawful, at each number of levels (X.680, 25, 27, 29, 51).
pub fn judged_type_is_lawful()
    ensures { (family : ℕ → Schema) → Levelled family → judgement family ≡ allowed → IsLawfulType family }
{}

/// The first type is a newer version of the second, where the comparison of the two finds nothing that isn't allowed
/// and the second one is lawful (X.680, 52).
pub fn is_newer_version<New: AsnType, Old: AsnType>()
    requires allowed { comparison (New.schema New.CONSTRAINTS) (Old.schema Old.CONSTRAINTS) ≡ allowed }
    requires lawful { judgement (Old.schema Old.CONSTRAINTS) ≡ allowed }
    ensures { NewerType (New.schema New.CONSTRAINTS) (Old.schema Old.CONSTRAINTS) }
{}

/// A type is lawful, where the judgement of it finds nothing unlawful (X.680, 25, 27, 29, 51).
pub fn is_lawful<T: AsnType>()
    requires { judgement (T.schema T.CONSTRAINTS) ≡ allowed }
    ensures { IsLawfulType (T.schema T.CONSTRAINTS) }
{}
