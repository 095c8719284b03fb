//! Newer versions by what was added to them, and lawful types by their parts, also where a type that holds itself
//! is in them, of which computing finds no end (X.680, 52). Each law is the contract of a function that does
//! nothing.

ghost use Rattle.std.specs.Prelude.{◌≡◌, ℕ, ◌+◌, ◌++◌, Bool, true, false, List, Some};
ghost use Rattle.rasn_constraints.specs.Bounds.{Size};
ghost use Rattle.rasn_constraints.specs.LawfulConstraints.{is_lawful_size};
ghost use Rattle.rasn_schema.specs.Bags.{set_at};
ghost use Rattle.rasn_schema.specs.Components.{Component, alternatives_at, parts_of};
ghost use Rattle.rasn_schema.specs.Forms.{always};
ghost use Rattle.rasn_schema.specs.Lawful.{IsLawfulType};
ghost use Rattle.rasn_schema.specs.Levels.{Levelled};
ghost use Rattle.rasn_schema.specs.Lists.{list_at};
ghost use Rattle.rasn_schema.specs.Records.{record_at};
ghost use Rattle.rasn_schema.specs.Schemas.{Order, Schema};
ghost use Rattle.per_core.specs.Versions.{NewerType};
ghost use Rattle.per_laws.specs.Components.{AreLawfulComponents, AreNewer};
ghost use Rattle.per_laws.specs.Judged.{judge_choice, judge_record};
ghost use Rattle.per_laws.specs.Verdicts.{allowed};

/// A lawful SEQUENCE or SET with more additions at the end of those after its marker is a newer version.
pub fn more_additions_make_a_newer_version()
    ensures { (o : Order) (roots adds more : List Component) →
        let older = record_at o (parts_of roots) true (parts_of adds) in IsLawfulType older
        → NewerType (record_at o (parts_of roots) true (parts_of (adds ++ more))) older }
{}

/// A lawful CHOICE with more alternatives at the end of those after its marker is a newer version.
pub fn more_alternatives_make_a_newer_version()
    ensures { (roots adds more : List Component) → let older = alternatives_at roots (Some adds) in IsLawfulType older
        → NewerType (alternatives_at roots (Some (adds ++ more))) older }
{}

/// An ENUMERATED with more items after its marker is a newer version.
pub fn more_items_make_a_newer_version()
    ensures { (roots adds more : ℕ) →
        NewerType (always (Schema.items roots (adds + more) true)) (always (Schema.items roots adds true)) }
{}

/// A SEQUENCE OF elements of a newer type is a newer version, under the same size.
pub fn list_of_a_newer_type_is_newer()
    ensures { (newer older : ℕ → Schema) (size : Size) (mark : Bool) → NewerType newer older
        → NewerType (list_at newer size mark) (list_at older size mark) }
{}

/// A SET OF members of a newer type is a newer version, under the same size.
pub fn set_of_a_newer_type_is_newer()
    ensures { (newer older : ℕ → Schema) (size : Size) (mark : Bool) → NewerType newer older
        → NewerType (set_at newer size mark) (set_at older size mark) }
{}

/// Octets that contain a value of a newer type are a newer version (X.682, 11).
pub fn contents_of_a_newer_type_are_newer()
    ensures { (newer older : ℕ → Schema) → NewerType newer older
        → NewerType (λ n. Schema.containing (newer n)) (λ n. Schema.containing (older n)) }
{}

/// A SEQUENCE or SET whose components are newer ones is a newer version: the root has as many, and after the marker
/// there may be more.
pub fn record_of_newer_components_is_newer()
    ensures { (o : Order) (extensible : Bool) (new_roots roots new_adds adds : List Component)
        → AreNewer false new_roots roots → AreNewer extensible new_adds adds
        → NewerType (record_at o (parts_of new_roots) extensible (parts_of new_adds))
        (record_at o (parts_of roots) extensible (parts_of adds)) }
{}

/// A CHOICE whose alternatives are newer ones is a newer version, and after the marker there may be more.
pub fn choice_of_newer_alternatives_is_newer()
    ensures { (new_roots roots new_adds adds : List Component) → AreNewer false new_roots roots
        → AreNewer true new_adds adds
        → NewerType (alternatives_at new_roots (Some new_adds)) (alternatives_at roots (Some adds)) }
{}

/// Components of lawful types are newer versions of themselves, so that only those that differ are to be shown.
pub fn lawful_components_stay()
    ensures { (may : Bool) (cs : List Component) → AreLawfulComponents cs → AreNewer may cs cs }
{}

/// A SEQUENCE or SET of components of lawful types is lawful, where its tags and presence bits are.
pub fn record_of_lawful_components_is_lawful()
    ensures { (o : Order) (extensible : Bool) (roots adds : List Component)
        → judge_record o (parts_of roots 0) (parts_of adds 0) ≡ allowed → AreLawfulComponents roots
        → AreLawfulComponents adds → IsLawfulType (record_at o (parts_of roots) extensible (parts_of adds)) }
{}

/// A CHOICE of alternatives of lawful types is lawful, where its tags are.
pub fn choice_of_lawful_alternatives_is_lawful()
    ensures { (roots adds : List Component) → judge_choice (parts_of roots 0) (parts_of adds 0) ≡ allowed
        → AreLawfulComponents roots → AreLawfulComponents adds → IsLawfulType (alternatives_at roots (Some adds)) }
{}

/// A SEQUENCE OF elements of a lawful type is lawful under a size that is in order.
pub fn list_of_a_lawful_type_is_lawful()
    ensures { (element : ℕ → Schema) (size : Size) (mark : Bool) → Levelled element → IsLawfulType element
        → is_lawful_size size.least size.most ≡ true → IsLawfulType (list_at element size mark) }
{}

/// A SET OF members of a lawful type is lawful under a size that is in order.
pub fn set_of_a_lawful_type_is_lawful()
    ensures { (member : ℕ → Schema) (size : Size) (mark : Bool) → Levelled member → IsLawfulType member
        → is_lawful_size size.least size.most ≡ true → IsLawfulType (set_at member size mark) }
{}

/// Octets that contain a value of a lawful type are lawful (X.682, 11).
pub fn contents_of_a_lawful_type_are_lawful()
    ensures { (contents : ℕ → Schema) → Levelled contents → IsLawfulType contents
        → IsLawfulType (λ n. Schema.containing (contents n)) }
{}
