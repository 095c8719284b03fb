//! Judges a table of types.

ghost use Rattle.std.specs.Prelude.{◌≡◌, ℕ, MatchResult, false, true};
ghost use Rattle.rasn_schema.specs.Lawful.{all_pass, IsLawfulType};
ghost use Rattle.rasn_dynamic.specs.Types.{schema_at};
ghost use Rattle.lawful_types.specs.TypeRules.{IsFaultOf, is_lawful_kind, keeps};

use crate::fault::{Fault, Reason};
use crate::rules::{keeps_bounds, keeps_defaults, keeps_presence_bits, keeps_size, keeps_tags};
use rasn_dynamic::types::{Kind, Types};

/// Judges whether each type of a table is lawful (X.680 25, 29, 51), at every depth. A fault is that of the first type
/// that isn't lawful: its schema to three levels more than its deepest default takes isn't, as it breaks the rule that
/// the fault names.
///
/// It takes no memory. Two alternatives of each CHOICE are compared with one another, so it takes time with the square
/// of their number.
pub fn judge(types: &Types) -> Result<(), Fault>
    ensures { MatchResult result
        (λ done. (place : ℕ) → IsLawfulType (schema_at types.now.kinds.items place))
        (λ fault. IsFaultOf types.now.kinds.items fault) }
{
    judge_kinds(&types.kinds)
}

/// Judges whether each type of a table keeps each rule.
fn judge_kinds(kinds: &[Kind]) -> Result<(), Fault>
    ensures { MatchResult result
        (λ done. all_pass (is_lawful_kind kinds.now) kinds.now ≡ true)
        (λ fault. IsFaultOf kinds.now fault) }
{
    for (place, kind) in kinds.iter().enumerate() {
        if let Err(reason) = judge_kind(kinds, kind) {
            return Err(Fault { place, reason });
        }
    }
    Ok(())
}

/// Judges whether a type of a table keeps each rule.
fn judge_kind(kinds: &[Kind], kind: &Kind) -> Result<(), Reason>
    ensures { MatchResult result
        (λ done. is_lawful_kind kinds.now kind.now ≡ true)
        (λ reason. keeps reason kinds.now kind.now ≡ false) }
{
    if !keeps_bounds(kind) {
        return Err(Reason::Bounds);
    }
    if !keeps_size(kind) {
        return Err(Reason::Size);
    }
    if !keeps_presence_bits(kind) {
        return Err(Reason::PresenceBits);
    }
    if !keeps_tags(kind) {
        return Err(Reason::Tags);
    }
    if !keeps_defaults(kinds, kind) {
        return Err(Reason::Default);
    }
    Ok(())
}
