//! How values are written by a table of types.

ghost use Rattle.std.specs.Prelude.{◌≡◌, ℕ, suc, max, true, false, is_some, map, slice_get, Some};
ghost use Rattle.rasn_types.specs.Values.{alternative, bag_of};
ghost use Rattle.rasn_schema.specs.Bags.{set_at};
ghost use Rattle.rasn_schema.specs.Choices.{one_level_in};
ghost use Rattle.rasn_schema.specs.Forms.{is_size_marked, size_of};
ghost use Rattle.rasn_schema.specs.Lists.{deepest, list_at};
ghost use Rattle.rasn_schema.specs.Structures.{list_value, record_value};
ghost use Rattle.rasn_schema.specs.Schemas.{default, optional, Schema};
ghost use Rattle.rasn_traits.specs.Additions.{WritesAdditions, WrittenAddition};
ghost use Rattle.rasn_traits.specs.Calls.{Encodes};
ghost use Rattle.rasn_traits.specs.Counted.{index_in, IsGroupOf, side_of};
ghost use Rattle.rasn_traits.specs.Scopes.{WritesParts, WrittenPart};
ghost use Rattle.rasn_dynamic.specs.declared.types.Presence.TheVariants.{Group};
ghost use Rattle.rasn_dynamic.specs.Types.{choice_of, contained_at, tree_value, grouped, in_root, of_size};
ghost use Rattle.rasn_dynamic.specs.Types.{parts_at, plain_at, presence_of, record_schema, required_in, schema_at};
ghost use Rattle.rasn_dynamic.specs.Values.{levels_of, slot_of, value_of};
ghost use Rattle.rasn_dynamic_codec.specs.Writes.{fit, may_stand, GivesOpen, GivesSettled, OpensChosen, WritesOne};

use crate::write_simple::{encode_any, encode_date, encode_leaf, encode_simple};
use rasn_constraints::constraints::{Constraint, Constraints};
use rasn_dynamic::types::{
    Choice, Component, DefaultTree, Kind, Presence, Record, SizeBounds, kind_at,
    presence_bit_count, required_in,
};
use rasn_dynamic::values::Value;
use rasn_schema::items::Place;
use rasn_traits::counted::CountedEncoder;
use rasn_types::types::{Identifier, Tag};

/// Writes a value of the type at a place of a table. A component with a default always has a value, also where that is
/// the default, which isn't written. One that is absent has no encoding, and is refused as for want of memory, since
/// `CountedEncoder` has no other refusal for it.
#[cycle(writing)]
#[inline(always)]
pub fn encode_value<E: CountedEncoder>(
    encoder: &mut E,
    kinds: &[Kind],
    place: usize,
    value: &Value,
) -> Result<(), E::Error>
    ensures { Encodes E.rules (schema_at kinds.now place) (levels_of value.now) (value_of value.now)
        encoder.old result encoder.new }
{
    match kind_at(kinds, place) {
        None => encoder.refuse_other(),
        Some(kind) => encode_kind(encoder, kinds, place, kind, value),
    }
}

/// Writes a value of what is at a place of a table.
#[cycle(writing)]
#[inline(always)]
fn encode_kind<E: CountedEncoder>(
    encoder: &mut E,
    kinds: &[Kind],
    place: usize,
    kind: &Kind,
    value: &Value,
) -> Result<(), E::Error>
    requires { slice_get kinds.now place ≡ Some kind.now }
    ensures { Encodes E.rules (schema_at kinds.now place) (levels_of value.now) (value_of value.now)
        encoder.old result encoder.new }
{
    match kind {
        Kind::Simple(simple) => encode_leaf(encoder, simple, value),
        Kind::Containing(of) => encode_containing(encoder, kinds, *of, value),
        _ => encode_plain(encoder, kinds, kind, value),
    }
}

/// Writes octets that contain a value: that value, by itself.
#[cycle(writing)]
#[inline(never)]
fn encode_containing<E: CountedEncoder>(
    encoder: &mut E,
    kinds: &[Kind],
    of: usize,
    value: &Value,
) -> Result<(), E::Error>
    ensures { Encodes E.rules (λ n. Schema.containing (contained_at kinds.now of n)) (levels_of value.now)
        (value_of value.now) encoder.old result encoder.new }
{
    let outside = encoder.open_contents(Tag::OCTET_STRING, Identifier::EMPTY)?;
    encode_contained(encoder, kinds, of, value)?;
    encoder.close_contents(outside)
}

/// Writes the value that is within octets which contain it.
#[cycle(writing)]
fn encode_contained<E: CountedEncoder>(
    encoder: &mut E,
    kinds: &[Kind],
    place: usize,
    value: &Value,
) -> Result<(), E::Error>
    ensures { Encodes E.rules (contained_at kinds.now place) (levels_of value.now) (value_of value.now)
        encoder.old result encoder.new }
{
    match kind_at(kinds, place) {
        None => encoder.refuse_other(),
        Some(kind) => encode_plain(encoder, kinds, kind, value),
    }
}

/// Writes a value of a type that isn't octets which contain one.
#[cycle(writing)]
#[inline(never)]
fn encode_plain<E: CountedEncoder>(
    encoder: &mut E,
    kinds: &[Kind],
    kind: &Kind,
    value: &Value,
) -> Result<(), E::Error>
    ensures { Encodes E.rules (plain_at kinds.now kind.now) (levels_of value.now) (value_of value.now)
        encoder.old result encoder.new }
{
    match kind {
        Kind::Simple(simple) => encode_simple(encoder, simple, value),
        Kind::Date => encode_date(encoder, value),
        Kind::List(of, size) => encode_list(encoder, kinds, *of, size, value),
        Kind::SetOf(of, size) => encode_set_of(encoder, kinds, *of, size, value),
        Kind::Record(record) => encode_record(encoder, kinds, record, value),
        Kind::Choice(choice) => encode_choice(encoder, kinds, choice, value),
        Kind::Containing(_) => encoder.refuse_other(),
        Kind::Open(_) => encode_any(encoder, value),
    }
}

/// Writes a SEQUENCE OF.
#[cycle(writing)]
#[inline(never)]
fn encode_list<E: CountedEncoder>(
    encoder: &mut E,
    kinds: &[Kind],
    of: usize,
    size: &SizeBounds,
    value: &Value,
) -> Result<(), E::Error>
    ensures { let constraints = of_size size.now in
        Encodes E.rules (list_at (schema_at kinds.now of) (size_of constraints) (is_size_marked constraints))
        (levels_of value.now) (value_of value.now) encoder.old result encoder.new }
{
    match value {
        Value::Elements(values) => encode_elements(encoder, kinds, of, size, values),
        _ => encoder.refuse_other(),
    }
}

/// Writes the elements of a SEQUENCE OF.
#[cycle(writing)]
fn encode_elements<E: CountedEncoder>(
    encoder: &mut E,
    kinds: &[Kind],
    of: usize,
    size: &SizeBounds,
    values: &[Value],
) -> Result<(), E::Error>
    ensures { let constraints = of_size size.now in
        Encodes E.rules (list_at (schema_at kinds.now of) (size_of constraints) (is_size_marked constraints))
        (suc (deepest levels_of values.now)) (list_value (map value_of values.now)) encoder.old result encoder.new }
{
    let stated = [Constraint::Size(*size)];
    let constraints = Constraints::new(&stated);
    let mut list = encoder.open_elements(
        Tag::SEQUENCE,
        &constraints,
        values.len(),
        Identifier::EMPTY,
    )?;
    for value in values {
        encoder.next_element_in_turn(&mut list)?;
        encode_value(encoder, kinds, of, value)?;
    }
    encoder.close_elements(list)
}

/// Writes a SET OF.
#[cycle(writing)]
#[inline(never)]
fn encode_set_of<E: CountedEncoder>(
    encoder: &mut E,
    kinds: &[Kind],
    of: usize,
    size: &SizeBounds,
    value: &Value,
) -> Result<(), E::Error>
    ensures { let constraints = of_size size.now in
        Encodes E.rules (set_at (schema_at kinds.now of) (size_of constraints) (is_size_marked constraints))
        (levels_of value.now) (value_of value.now) encoder.old result encoder.new }
{
    match value {
        Value::Bag(values) => encode_members(encoder, kinds, of, size, values),
        _ => encoder.refuse_other(),
    }
}

/// Writes the members of a SET OF.
#[cycle(writing)]
fn encode_members<E: CountedEncoder>(
    encoder: &mut E,
    kinds: &[Kind],
    of: usize,
    size: &SizeBounds,
    values: &[Value],
) -> Result<(), E::Error>
    ensures { let constraints = of_size size.now in
        Encodes E.rules (set_at (schema_at kinds.now of) (size_of constraints) (is_size_marked constraints))
        (suc (deepest levels_of values.now)) (bag_of (map value_of values.now)) encoder.old result encoder.new }
{
    let stated = [Constraint::Size(*size)];
    let constraints = Constraints::new(&stated);
    let mut bag = encoder.open_members(Tag::SET, &constraints, values.len(), Identifier::EMPTY)?;
    for value in values {
        encoder.next_member_in_turn(&mut bag)?;
        encode_value(encoder, kinds, of, value)?;
    }
    encoder.close_members(bag)
}

/// Writes a SEQUENCE.
#[cycle(writing)]
#[inline(never)]
fn encode_record<E: CountedEncoder>(
    encoder: &mut E,
    kinds: &[Kind],
    sequence: &Record,
    value: &Value,
) -> Result<(), E::Error>
    ensures { Encodes E.rules (record_schema kinds.now sequence.now) (levels_of value.now) (value_of value.now)
        encoder.old result encoder.new }
{
    let Value::Fields(root, added) = value else {
        return encoder.refuse_other();
    };
    let root_values: &[Value] = root;
    let added_values: &[Value] = added;
    encode_fields(encoder, kinds, sequence, root_values, added_values)
}

/// Writes a SEQUENCE by its root components and its additions, where these are as many as they have to be, and there
/// where they have to be. One with a default that isn't told has no encoding.
#[cycle(writing)]
#[inline(always)]
fn encode_fields<E: CountedEncoder>(
    encoder: &mut E,
    kinds: &[Kind],
    sequence: &Record,
    root_values: &[Value],
    added_values: &[Value],
) -> Result<(), E::Error>
    ensures { Encodes E.rules (record_schema kinds.now sequence.now)
        (suc (max (deepest levels_of root_values.now) (deepest levels_of added_values.now)))
        (record_value (map slot_of root_values.now) (map slot_of added_values.now)) encoder.old result encoder.new }
{
    let components = sequence.root();
    let additions = sequence.behind();
    let root_told = fit(components, root_values, true);
    if !root_told {
        return refuse_fields(encoder, kinds, sequence, root_values, added_values);
    }
    let added_told = fit(additions, added_values, true);
    if !added_told {
        return refuse_fields(encoder, kinds, sequence, root_values, added_values);
    }
    let bits = presence_bit_count(components);
    let count = sequence.added_count();
    let outside = encoder.open_fields_of(Tag::SEQUENCE, bits, count, Identifier::EMPTY)?;
    encode_components(encoder, kinds, components, root_values)?;
    encode_additions(encoder, kinds, additions, added_values)?;
    encoder.close_fields_of(outside)
}

/// Refuses components that aren't those of a SEQUENCE, or of which one with a default isn't told.
#[inline(never)]
fn refuse_fields<E: CountedEncoder>(
    encoder: &mut E,
    kinds: &[Kind],
    sequence: &Record,
    root_values: &[Value],
    added_values: &[Value],
) -> Result<(), E::Error>
    ensures { Encodes E.rules (record_schema kinds.now sequence.now)
        (suc (max (deepest levels_of root_values.now) (deepest levels_of added_values.now)))
        (record_value (map slot_of root_values.now) (map slot_of added_values.now)) encoder.old result encoder.new }
{
    let components = sequence.root();
    let additions = sequence.behind();
    let root_fits = fit(components, root_values, false);
    if !root_fits {
        return encoder.refuse_other();
    }
    let added_fits = fit(additions, added_values, false);
    if !added_fits {
        return encoder.refuse_other();
    }
    encoder.refuse_out_of_memory()
}

/// Writes the root components of a SEQUENCE in turn.
#[cycle(writing)]
#[inline(always)]
fn encode_components<E: CountedEncoder>(
    encoder: &mut E,
    kinds: &[Kind],
    components: &[Component],
    values: &[Value],
) -> Result<(), E::Error>
    requires { fit true components.now (map slot_of values.now) ≡ true }
    ensures { WritesParts E.rules (parts_at in_root kinds.now components.now) (deepest levels_of values.now)
        (map slot_of values.now) encoder.old result encoder.new }
{
    for (index, value) in values.iter().enumerate() {
        encode_component(encoder, kinds, &components[index], value)?;
    }
    Ok(())
}

/// Writes a root component: one that may be absent by its presence bit.
#[cycle(writing)]
#[inline(always)]
fn encode_component<E: CountedEncoder>(
    encoder: &mut E,
    kinds: &[Kind],
    component: &Component,
    value: &Value,
) -> Result<(), E::Error>
    ensures { may_stand true component.now.presence (slot_of value.now) ≡ true →
        WritesOne E.rules (WrittenPart E.rules) (presence_of false component.now.presence)
        (schema_at kinds.now component.now.of) (levels_of value.now) (slot_of value.now)
        encoder.old result encoder.new }
{
    match &component.presence {
        Presence::Required => encode_value(encoder, kinds, component.of, value),
        Presence::Optional => encode_optional(encoder, kinds, component.of, value),
        Presence::Group => encode_optional(encoder, kinds, component.of, value),
        Presence::Default(otherwise) => {
            encode_default(encoder, kinds, component.of, otherwise, value)
        },
    }
}

/// Writes a component that may be absent: its presence bit, and its value after a bit 1.
#[cycle(writing)]
#[inline(always)]
fn encode_optional<E: CountedEncoder>(
    encoder: &mut E,
    kinds: &[Kind],
    place: usize,
    value: &Value,
) -> Result<(), E::Error>
    ensures { WritesOne E.rules (WrittenPart E.rules) optional (schema_at kinds.now place) (levels_of value.now)
        (slot_of value.now) encoder.old result encoder.new }
{
    let there = value.is_there();
    encoder.set_presence(there)?;
    if !there {
        return Ok(());
    }
    encode_value(encoder, kinds, place, value)
}

/// Writes a component with a default: the presence bit 0 where it is the default, and else its value after a bit 1.
#[cycle(writing)]
#[inline(never)]
fn encode_default<E: CountedEncoder>(
    encoder: &mut E,
    kinds: &[Kind],
    place: usize,
    otherwise: &DefaultTree,
    value: &Value,
) -> Result<(), E::Error>
    ensures { is_some (slot_of value.now) ≡ true →
        WritesOne E.rules (WrittenPart E.rules) (default (tree_value otherwise.now)) (schema_at kinds.now place)
        (levels_of value.now) (slot_of value.now) encoder.old result encoder.new }
{
    let differs = !value.is_default_tree_at(kinds, place, otherwise);
    encoder.set_presence(differs)?;
    if !differs {
        return Ok(());
    }
    encode_value(encoder, kinds, place, value)
}

/// Writes a CHOICE.
#[cycle(writing)]
#[inline(never)]
fn encode_choice<E: CountedEncoder>(
    encoder: &mut E,
    kinds: &[Kind],
    choice: &Choice,
    value: &Value,
) -> Result<(), E::Error>
    ensures { Encodes E.rules (one_level_in (choice_of kinds.now choice.now)) (levels_of value.now)
        (value_of value.now) encoder.old result encoder.new }
{
    match value {
        Value::Alternative(place, chosen) => encode_chosen(encoder, kinds, choice, *place, chosen),
        _ => encoder.refuse_other(),
    }
}

/// Writes a CHOICE by the value of its alternative at a place.
#[cycle(writing)]
fn encode_chosen<E: CountedEncoder>(
    encoder: &mut E,
    kinds: &[Kind],
    choice: &Choice,
    place: Place,
    value: &Value,
) -> Result<(), E::Error>
    ensures { Encodes E.rules (one_level_in (choice_of kinds.now choice.now)) (suc (levels_of value.now))
        (alternative (side_of place) (index_in place) (value_of value.now)) encoder.old result encoder.new }
{
    let Some((at, outside)) = open_chosen(encoder, choice, place)? else {
        return encoder.refuse_other();
    };
    encode_value(encoder, kinds, at, value)?;
    encoder.close_alternative(outside)
}

/// Opens a CHOICE to write its alternative at a place, and answers the place of the type of that. Where no alternative
/// is at the place it answers none, and changes nothing.
fn open_chosen<E: CountedEncoder>(
    encoder: &mut E,
    choice: &Choice,
    place: Place,
) -> Result<Option<(usize, E::Alternative)>, E::Error>
    ensures { OpensChosen E.rules E.opens_alternative choice.now place encoder.old result encoder.new }
{
    let Some(alternative) = choice.at(place) else {
        return Ok(None);
    };
    let counts = choice.counts();
    let outside = encoder.open_alternative_of(Tag::EOC, counts, place, Identifier::EMPTY)?;
    Ok(Some((alternative.of, outside)))
}

/// Gives the additions of a SEQUENCE in turn.
#[cycle(writing)]
#[inline(never)]
fn encode_additions<E: CountedEncoder>(
    encoder: &mut E,
    kinds: &[Kind],
    components: &[Component],
    values: &[Value],
) -> Result<(), E::Error>
    requires { fit true components.now (map slot_of values.now) ≡ true }
    ensures { WritesAdditions E.rules (parts_at (grouped kinds.now) kinds.now components.now)
        (deepest levels_of values.now) (map slot_of values.now) encoder.old result encoder.new }
{
    for (index, value) in values.iter().enumerate() {
        encode_addition(encoder, kinds, &components[index], value)?;
    }
    Ok(())
}

/// Gives an addition: its value in an open type, or as absent.
#[cycle(writing)]
#[inline(never)]
fn encode_addition<E: CountedEncoder>(
    encoder: &mut E,
    kinds: &[Kind],
    component: &Component,
    value: &Value,
) -> Result<(), E::Error>
    ensures { may_stand true component.now.presence (slot_of value.now) ≡ true →
        WritesOne E.rules (WrittenAddition E.rules)
        (presence_of (grouped kinds.now component.now) component.now.presence)
        (schema_at kinds.now component.now.of) (levels_of value.now) (slot_of value.now)
        encoder.old result encoder.new }
{
    if !value.is_there() {
        return encoder.skip_addition();
    }
    match &component.presence {
        Presence::Group => encode_group(encoder, kinds, component.of, value),
        Presence::Default(otherwise) => {
            encode_differing(encoder, kinds, component.of, otherwise, value)
        },
        _ => encode_open(encoder, kinds, component.of, value),
    }
}

/// Gives an addition with a default: as absent where it is the default, and else as its value in an open type.
#[cycle(writing)]
#[inline(never)]
fn encode_differing<E: CountedEncoder>(
    encoder: &mut E,
    kinds: &[Kind],
    place: usize,
    otherwise: &DefaultTree,
    value: &Value,
) -> Result<(), E::Error>
    ensures { is_some (slot_of value.now) ≡ true →
        WritesOne E.rules (WrittenAddition E.rules) (default (tree_value otherwise.now)) (schema_at kinds.now place)
        (levels_of value.now) (slot_of value.now) encoder.old result encoder.new }
{
    if value.is_default_tree_at(kinds, place, otherwise) {
        return encoder.skip_addition();
    }
    encode_open(encoder, kinds, place, value)
}

/// Gives an addition as an addition group, where its type is a SEQUENCE.
#[cycle(writing)]
#[inline(never)]
fn encode_group<E: CountedEncoder>(
    encoder: &mut E,
    kinds: &[Kind],
    place: usize,
    value: &Value,
) -> Result<(), E::Error>
    ensures { is_some (slot_of value.now) ≡ true →
        WritesOne E.rules (WrittenAddition E.rules)
        (presence_of (is_some (required_in (slice_get kinds.now place))) Group)
        (schema_at kinds.now place) (levels_of value.now) (slot_of value.now) encoder.old result encoder.new }
{
    match required_in(kinds, place) {
        Some(has_required) => encode_group_of(encoder, kinds, place, has_required, value),
        None => encode_open(encoder, kinds, place, value),
    }
}

/// Gives an addition group, of which a root component has to be there or none has to be.
#[cycle(writing)]
#[inline(never)]
fn encode_group_of<E: CountedEncoder>(
    encoder: &mut E,
    kinds: &[Kind],
    place: usize,
    has_required: bool,
    value: &Value,
) -> Result<(), E::Error>
    ensures { ((n : ℕ) → IsGroupOf has_required (schema_at kinds.now place n)) →
        GivesSettled E.rules (schema_at kinds.now place) (levels_of value.now) (value_of value.now)
        encoder.old result encoder.new }
{
    let outside = encoder.open_addition()?;
    encode_value(encoder, kinds, place, value)?;
    encoder.close_group_of(outside, has_required)
}

/// Gives an addition as its value in an open type.
#[cycle(writing)]
#[inline(never)]
fn encode_open<E: CountedEncoder>(
    encoder: &mut E,
    kinds: &[Kind],
    place: usize,
    value: &Value,
) -> Result<(), E::Error>
    ensures { GivesOpen E.rules (schema_at kinds.now place) (levels_of value.now) (value_of value.now)
        encoder.old result encoder.new }
{
    let outside = encoder.open_addition()?;
    encode_value(encoder, kinds, place, value)?;
    encoder.close_addition(outside)
}

/// Whether values are as many as components, and there where they have to be: with a default too, or not.
fn fit(components: &[Component], values: &[Value], defaults: bool) -> bool
    ensures { result ≡ fit defaults components.now (map slot_of values.now) }
{
    match components {
        [] => values.is_empty(),
        [component, others @ ..] => match values {
            [] => false,
            [value, behind @ ..] => {
                may_stand(&component.presence, value, defaults) && fit(others, behind, defaults)
            }
        },
    }
}

/// Whether a component may be absent, or there, as it is.
fn may_stand(presence: &Presence, value: &Value, defaults: bool) -> bool
    ensures { result ≡ may_stand defaults presence.now (slot_of value.now) }
{
    match presence {
        Presence::Required => value.is_there(),
        Presence::Optional => true,
        Presence::Group => true,
        Presence::Default(_) => value.is_there() || !defaults,
    }
}
