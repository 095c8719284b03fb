//! Which schemas are lawful, and which demand refuses those that aren't.
#![tactic(auto, unfolding(
// Words that these schemas unfold.
rasn_schema::specs::Lawful::IsLawful, rasn_schema::specs::Depth::meets_cut,
// More words.
rasn_schema::specs::Lawful::is_value, rasn_schema::specs::Normal::normal))]

ghost use Rattle.std.specs.Prelude.{◌^◌, ◌-◌, [], ◌∷◌, false, true, Some, None, pos};
ghost use Rattle.rasn_types.specs.Values.{whole, truth, bits};
ghost use Rattle.rasn_constraints.specs.Ranges.{unsigned_range};
ghost use Rattle.rasn_schema.specs.Forms.{always};
ghost use Rattle.rasn_schema.specs.Lawful.{IsLawful, IsLawfulType};
ghost use Rattle.rasn_constraints.specs.Bounds.{any_size, between};
ghost use Rattle.rasn_schema.specs.Schemas.{Schema, one_of, tree, no_trees, required, optional, group, default, listed};
ghost use Rattle.rasn_schema.specs.Schemas.{no_parts};
ghost use Rattle.per_rows.specs.Build.{integer, integer_in, sized, octet_string, bit_string, named_bits};
ghost use Rattle.per_rows.specs.Build.{sequence_with, extensible_sequence};
ghost use Rattle.per_rows.specs.Build.{members, set, context, extended_with, record_with};
ghost use Rattle.per_rows.specs.Samples.{with_default, b_before_a, untagged_member, x_y_or_z, outer3, with_group, nest};
ghost use Rattle.per_rows.specs.Samples.{deep};

/// BOOLEAN, NULL, INTEGER and OCTET STRING (SIZE (3)) are lawful.
pub fn plain_types_are_lawful()
    ensures of_boolean { IsLawful Schema.boolean }
    ensures of_null { IsLawful Schema.null }
    ensures of_integer { IsLawful integer }
    ensures of_octets { IsLawful (octet_string (sized 3 3)) }
{}

/// Between bounds lie at most `i128::MAX` numbers: from 1 to it are that many, from 0 one too many.
pub fn bounds_hold_at_most_i128_max_numbers()
    ensures most { IsLawful (integer_in (between (pos 1) (pos (2 ^ 127 - 1)))) }
    ensures too_many { ¬ (IsLawful (integer_in (between (pos 0) (pos (2 ^ 127 - 1))))) }
{}

/// Bounds and sizes are in order (X.680, 51.4, 51.5): not INTEGER (5..4), nor OCTET STRING (SIZE (3..2)).
pub fn bounds_are_in_order()
    ensures of_a_number { ¬ (IsLawful (integer_in (between (pos 5) (pos 4)))) }
    ensures of_a_size { ¬ (IsLawful (octet_string (sized 3 2))) }
{}

/// The tags of a SET differ, with each one of an untagged choice; those of a SEQUENCE may repeat (X.680, 25.6, 27.3).
pub fn tags_of_a_set_differ()
    ensures distinct { IsLawful b_before_a }
    ensures with_a_choice { IsLawful untagged_member }
    ensures twice { ¬ (IsLawful (set ((context 0, required, Schema.boolean) ∷ (context 0, required, Schema.boolean)
        ∷ []))) }
    ensures in_a_sequence { IsLawful (Schema.sequence listed (members ((context 0, required, Schema.boolean)
        ∷ (context 0, required, Schema.boolean) ∷ [])) false no_parts) }
{}

/// The tags of alternatives differ, with each one of an untagged choice: not CHOICE { x [0] BOOLEAN, y CHOICE { p [1]
/// BOOLEAN, q [0] NULL } }; and no alternative is optional (X.680, 29.1, 29.3).
pub fn tags_of_alternatives_differ()
    ensures distinct { IsLawful x_y_or_z }
    ensures twice { ¬ (IsLawful (Schema.choice (members ((context 0, required, Schema.boolean)
        ∷ (one_of (context 1) (tree (context 0) no_trees), required, Schema.boolean) ∷ [])) no_parts false)) }
    ensures an_optional_one { ¬ (IsLawful (Schema.choice (members ((context 0, optional, Schema.boolean) ∷ []))
        no_parts false)) }
{}

/// A default is a value of its part's kind and number type, whatever its constraints: INTEGER (0..7) DEFAULT 3 and
/// DEFAULT 9, but neither BOOLEAN DEFAULT 3 nor 300 of a number type of eight bits (X.680, 25.9).
pub fn default_is_a_value()
    ensures within { IsLawful with_default }
    ensures past_the_constraint { IsLawful (sequence_with ((
      default (whole (pos 9)),
      integer_in
          (between (pos 0) (pos 7)),
    ) ∷ [])) }
    ensures of_another_kind { ¬ (IsLawful (sequence_with ((default (whole (pos 3)), Schema.boolean) ∷ []))) }
    ensures past_its_type { ¬ (IsLawful (sequence_with ((
      default (whole (pos 300)),
      Schema.number
          (between (pos 0) (pos 7)) false (unsigned_range 8),
    ) ∷ []))) }
{}

/// A default is in normal form: not the value in which the group of SEQUENCE { first BOOLEAN, ..., [[ x BOOLEAN
/// OPTIONAL ]] } is there with x absent (X.691, 19.9).
pub fn default_is_in_normal_form()
    ensures absent_group { IsLawful (sequence_with ((
      default (extended_with (Some (truth true) ∷ []) (None ∷ [])),
      with_group,
    ) ∷ [])) }
    ensures empty_group { ¬ (IsLawful (sequence_with ((
      default
          (extended_with (Some (truth true) ∷ []) (Some (record_with (None ∷ [])) ∷ [])),
      with_group,
    ) ∷ []))) }
{}

/// A default is in normal form: 01 of BIT STRING { a(0), b(1) }, and not 010, which only bits without names may have.
pub fn default_of_named_bits_ends_with_a_one()
    ensures shortest { IsLawful (sequence_with ((default (bits (false ∷ true ∷ [])), named_bits any_size) ∷ [])) }
    ensures longer { ¬ (IsLawful (sequence_with ((
      default (bits (false ∷ true ∷ false
          ∷ [])),
      named_bits any_size,
    ) ∷ []))) }
    ensures without_names { IsLawful (sequence_with ((default (bits (false ∷ true ∷ false ∷ [])), bit_string any_size)
        ∷ [])) }
{}

/// An addition group is a SEQUENCE, and is among the additions (X.680, 25.1).
pub fn groups_are_sequences_among_additions()
    ensures among { IsLawful outer3 }
    ensures in_the_root { ¬ (IsLawful (sequence_with ((group, sequence_with []) ∷ []))) }
    ensures no_sequence { ¬ (IsLawful (extensible_sequence [] ((group, Schema.boolean) ∷ []))) }
{}

/// Lawful types of any depth: BOOLEAN, Nest ::= SEQUENCE { inner Nest OPTIONAL }, and SEQUENCE { d Nest DEFAULT a
/// value of 200 levels }.
pub fn types_of_any_depth_are_lawful()
    ensures one_kind { IsLawfulType (always Schema.boolean) }
    ensures recursive { IsLawfulType nest }
    ensures deep_default { IsLawfulType deep }
{}
