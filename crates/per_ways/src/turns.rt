//! What comes in turn, the components of a record and the elements of a list; and which alternative comes of a choice.

ghost use Rattle.std.specs.Prelude.{◌≡◌, None, [], count_by, false, map, option_copied, slice_get, unwrap_or, List, ℕ};
ghost use Rattle.rasn_schema.specs.Choices.{variant_shape, variants_after};
ghost use Rattle.rasn_schema.specs.Fields.{shape_of, shapes_from};
ghost use Rattle.rasn_schema.specs.Orders.{by_tags};
ghost use Rattle.rasn_schema.specs.Schemas.{Parts};
ghost use Rattle.rasn_schema.specs.declared.fields.Field.{Field};
ghost use Rattle.rasn_schema.specs.Structures.{tag_of};

use crate::path::Step;
use rasn_schema::choices::{Choice, Variants};
use rasn_schema::fields::{Constructed, Field, TagTree};
use rasn_schema::items::{ItemCounts, Place};
use rasn_types::types::Tag;

/// Components that are read or written in turn.
#[derive(Clone, Copy)]
pub struct Components {
    /// What they are; none, of a type that is data.
    pub fields: Option<&'static [Field]>,
    /// Whether they are in ascending order of their smallest tags (X.691 21.1), and not as they are listed.
    pub in_tag_order: bool,
    /// How many of them have begun, or are absent.
    pub taken: usize,
}

impl Components {
    ghost use Rattle.per_ways.specs.Turns.{AreOf, counted, next_step, one_taken};

    /// The root components of a record, of which none has begun.
    pub fn of_root<C: Constructed>(in_tag_order: bool) -> Self
        ensures { AreOf C.FIELDS in_tag_order result }
    {
        let fields = C::FIELDS;
        Components {
            fields: Some(fields.list),
            in_tag_order,
            taken: 0,
        }
    }

    /// The additions of a record, of which none has begun.
    pub fn of_additions<C: Constructed>() -> Self
        ensures { AreOf (unwrap_or C.EXTENDED_FIELDS []) false result }
    {
        let list: &'static [Field] = match C::EXTENDED_FIELDS {
            Some(fields) => fields.list,
            None => &[],
        };
        Components {
            fields: Some(list),
            in_tag_order: false,
            taken: 0,
        }
    }

    /// The components of a type that is data, of which none has begun.
    pub fn counted() -> Self
        ensures { result ≡ counted }
    {
        Components {
            fields: None,
            in_tag_order: false,
            taken: 0,
        }
    }

    /// The step to the next one, which is then no longer the next.
    pub fn take(&mut self) -> Option<Step>
        ensures step { result ≡ next_step self.old }
        ensures taken { self.new ≡ one_taken self.old }
    {
        let place = self.taken;
        self.taken = self.taken.saturating_add(1);
        let Some(list) = self.fields else {
            return Some(Step::Placed(place));
        };
        let field = if self.in_tag_order {
            field_in_tag_order(list, place)
        } else {
            list.get(place)
        };
        match field {
            Some(field) => Some(Step::Named(field.name)),
            None => None,
        }
    }
}

ghost use Rattle.per_ways.specs.Turns.{alternative_place, alternative_step, field_in_order, is_before, overall_place};

/// Whether a field stands before another in ascending order of their smallest tags; those of one tag stay as they are
/// listed.
pub fn is_before(one: &Field, other: &Field) -> bool
    ensures { result ≡ is_before one.now other.now }
{
    one.tag < other.tag || (!(other.tag < one.tag) && one.index < other.index)
}

/// How many of some fields stand before one in ascending order of their smallest tags.
pub fn fields_before(list: &[Field], field: &Field) -> usize
    ensures { result ≡ count_by (λ other. is_before other field.now) list.now }
{
    let mut count = 0;
    for other in list {
        if is_before(other, field) {
            count += 1;
        }
    }
    count
}

/// The field at a place among the fields in ascending order of their smallest tags; those of one tag stay as they are
/// listed. It takes no memory.
pub fn field_in_tag_order(list: &'static [Field], place: usize) -> Option<&'static Field>
    ensures { option_copied result ≡ field_in_order list.now place }
{
    list.iter()
        .find(|field| fields_before(list, field) == place)
}

/// Of the fields of components the one that has so many before it stands at that place in ascending order of their
/// smallest tags (X.691 21.1).
pub fn set_comes_in_tag_order()
    ensures { (fields : List Field) (place : ℕ) (parts : Parts) → map shape_of fields ≡ shapes_from 0 parts →
        field_in_order fields place ≡ slice_get (by_tags (map (λ field. tag_of field.tag) fields) fields) place }
{}

/// The elements of a SEQUENCE OF or a SET OF that are read or written in turn.
#[derive(Clone, Copy)]
pub struct Elements {
    /// How many have begun.
    pub begun: usize,
    /// Whether the last of them is read or written.
    pub is_inside: bool,
}

impl Elements {
    ghost use Rattle.per_ways.specs.Turns.{element_begun, element_step};

    /// Elements of which none has begun.
    pub fn new() -> Self
        ensures { result ≡ record { begun = 0; is_inside = false } }
    {
        Elements {
            begun: 0,
            is_inside: false,
        }
    }

    /// The next one begins.
    pub fn begin(&mut self)
        ensures { self.new ≡ element_begun self.old }
    {
        self.begun = self.begun.saturating_add(1);
        self.is_inside = true;
    }

    /// None of them is read or written.
    pub fn pause(&mut self)
        ensures { self.new ≡ record self.old { is_inside = false } }
    {
        self.is_inside = false;
    }

    /// The step to the one that is read or written, if one is.
    pub fn step(&self) -> Option<Step>
        ensures { result ≡ element_step self.now }
    {
        if self.is_inside {
            Some(Step::Element(self.begun))
        } else {
            None
        }
    }
}

/// The alternatives of a CHOICE, of which one is written.
#[derive(Clone, Copy)]
pub struct Alternatives {
    /// The tags of each root alternative.
    pub root: &'static [TagTree],
    /// The tags of each alternative after the extension marker.
    pub added: &'static [TagTree],
    /// The identifier of each alternative, those after the marker last.
    pub identifiers: &'static [&'static str],
    /// The step to the one that is written, if one is.
    pub current: Option<Step>,
}

impl Alternatives {
    ghost use Rattle.per_ways.specs.Turns.{alternative_begun};

    /// The alternatives of a choice with these identifiers, of which none is written.
    pub fn new<C: Choice>(identifiers: &'static [&'static str]) -> Self
        ensures root { map variant_shape result.root.now ≡ C.VARIANTS }
        ensures added { map variant_shape result.added.now ≡ variants_after C.EXTENDED_VARIANTS }
        ensures identifiers { result.identifiers ≡ identifiers.entry }
        ensures current { result.current ≡ None }
    {
        let root = C::VARIANTS;
        let added: &'static [TagTree] = match C::EXTENDED_VARIANTS {
            Some(variants) => variants.list,
            None => &[],
        };
        Alternatives {
            root: root.list,
            added,
            identifiers,
            current: None,
        }
    }

    /// The one that goes by a tag begins.
    pub fn begin(&mut self, tag: Tag)
        ensures { self.new ≡ alternative_begun (tag_of tag) self.old }
    {
        let place = place_under(self.root, self.added, tag);
        self.current = Some(step_among(self.identifiers, place));
    }

    /// None of them is written.
    pub fn pause(&mut self)
        ensures { self.new ≡ record self.old { current = None } }
    {
        self.current = None;
    }

    /// The step to the one that is written, if one is.
    pub fn step(&self) -> Option<Step>
        ensures { result ≡ self.now.current }
    {
        self.current
    }
}

/// The place of the alternative that goes by a tag among all of a choice, those after the extension marker last.
pub fn place_under(root: &'static [TagTree], added: &'static [TagTree], tag: Tag) -> Option<usize>
    ensures { result ≡ alternative_place (tag_of tag) root.now added.now }
{
    let behind = root.len();
    let (root, added) = (Variants { list: root }, Variants { list: added });
    if let Some(index) = root.index_of(tag) {
        return Some(index);
    }
    match added.index_of(tag) {
        Some(index) => Some(behind.saturating_add(index)),
        None => None,
    }
}

/// The place of an alternative among all of them, those after the extension marker last.
pub fn place_among(alternatives: ItemCounts, place: Place) -> usize
    ensures { result ≡ overall_place alternatives place }
{
    match place {
        Place::Root(index) => index,
        Place::Added(index) => alternatives.roots.saturating_add(index),
    }
}

/// The step to the alternative at a place among identifiers; one without a name, where they have none.
pub fn step_among(identifiers: &'static [&'static str], place: Option<usize>) -> Step
    ensures { result ≡ alternative_step identifiers.now place }
{
    match place {
        Some(place) => match identifiers.get(place) {
            Some(name) => Step::Named(*name),
            None => Step::Nameless,
        },
        None => Step::Nameless,
    }
}
