//! Defaults that are records, in the order of their types' components.

use crate::order::{part_count, part_type};
use crate::values::MOST_LEVELS;
use rasn_dynamic::default_trees::chosen_place;
use rasn_dynamic::types::{Component, DefaultTree, Kind, Presence, Record};
use rasn_types::types::Tag;
use std::alloc::{AllocError, Global};
use std::mem;

/// What a default says of a component.
#[derive(Drop)]
struct Slot {
    /// The component's tag.
    tag: Tag,
    /// What it is.
    told: DefaultTree,
}

/// Parts what each default says of a record into its root and its additions, and puts those of a SET's root in the
/// order of their tags (X.691 21.1). The components of the types are in the order of the text, with their tags; the
/// SETs stand at some ascending places. What isn't of its type stays. The only error is want of memory.
pub fn arrange(alloc: Global, kinds: &mut [Kind], sets: &[usize]) -> Result<(), AllocError> {
    for place in 0..kinds.len() {
        arrange_components(alloc, kinds, sets, place)?;
    }
    Ok(())
}

/// Arranges the defaults of the record at a place.
fn arrange_components(
    alloc: Global,
    kinds: &mut [Kind],
    sets: &[usize],
    place: usize,
) -> Result<(), AllocError> {
    for index in 0..part_count(kinds, place) {
        if let Some(of) = part_type(kinds, place, index) {
            if let Some(mut told) = take_default(kinds, place, index) {
                arrange_told(alloc, kinds, sets, of, &mut told, MOST_LEVELS)?;
                put_default(kinds, place, index, told);
            }
        }
    }
    Ok(())
}

/// Takes the default of a component out of the record at a place, where it has one.
fn take_default(kinds: &mut [Kind], place: usize, index: usize) -> Option<DefaultTree> {
    let component = part_mut(kinds, place, index)?;
    match &mut component.presence {
        Presence::Default(told) => Some(mem::replace(told, DefaultTree::Absent)),
        _ => None,
    }
}

/// Puts a default back to a component of the record at a place.
fn put_default(kinds: &mut [Kind], place: usize, index: usize, told: DefaultTree) {
    if let Some(component) = part_mut(kinds, place, index) {
        component.presence = Presence::Default(told);
    }
}

/// A component of the record at a place, by its index in the root and then the additions.
fn part_mut(kinds: &mut [Kind], place: usize, index: usize) -> Option<&mut Component> {
    let Kind::Record(record) = kinds.get_mut(place)? else {
        return None;
    };
    match index.checked_sub(record.root.len()) {
        Some(added) => match &mut record.additions {
            Some(additions) => additions.get_mut(added),
            None => None,
        },
        None => record.root.get_mut(index),
    }
}

/// The place of the type of what octets at a place contain, or that place.
fn place_within(kinds: &[Kind], place: usize) -> usize {
    match kinds.get(place) {
        Some(Kind::Containing(of)) => *of,
        _ => place,
    }
}

/// Arranges a default of the type at a place, where it stands, so that little waits at each level.
#[cycle(arranging)]
fn arrange_told(
    alloc: Global,
    kinds: &[Kind],
    sets: &[usize],
    place: usize,
    told: &mut DefaultTree,
    levels: usize,
) -> Result<(), AllocError> {
    let Some(below) = levels.checked_sub(1) else {
        return Ok(());
    };
    let place = place_within(kinds, place);
    match told {
        DefaultTree::Elements(tolds) => match kinds.get(place) {
            Some(Kind::List(of, _)) => arrange_elements(alloc, kinds, sets, *of, tolds, below),
            _ => Ok(()),
        },
        DefaultTree::Fields(slots, additions) => {
            arrange_record(alloc, kinds, sets, place, slots, additions, below)
        }
        DefaultTree::Alternative(at, chosen) => {
            let of = chosen_place(kinds, place, *at);
            arrange_told(alloc, kinds, sets, of, &mut *chosen, below)
        }
        _ => Ok(()),
    }
}

/// Arranges defaults of the type at a place.
#[cycle(arranging)]
fn arrange_elements(
    alloc: Global,
    kinds: &[Kind],
    sets: &[usize],
    of: usize,
    tolds: &mut [DefaultTree],
    levels: usize,
) -> Result<(), AllocError> {
    for told in tolds.iter_mut() {
        arrange_told(alloc, kinds, sets, of, told, levels)?;
    }
    Ok(())
}

/// Arranges what a default says of the record at a place. It stays where it says more or less, or where no record is.
#[cycle(arranging)]
fn arrange_record(
    alloc: Global,
    kinds: &[Kind],
    sets: &[usize],
    place: usize,
    slots: &mut Vec<DefaultTree>,
    additions: &mut Vec<DefaultTree>,
    levels: usize,
) -> Result<(), AllocError> {
    let Some(Kind::Record(record)) = kinds.get(place) else {
        return Ok(());
    };
    let roots = record.root.len();
    if roots.checked_add(record.behind().len()) != Some(slots.len()) {
        return Ok(());
    }
    arrange_slots(alloc, kinds, sets, &record.root, 0, slots, levels)?;
    arrange_slots(alloc, kinds, sets, record.behind(), roots, slots, levels)?;
    let is_set = sets.binary_search(&place).is_ok();
    part(alloc, record, is_set, slots, additions)
}

/// Arranges what is said of components, from an index on.
#[cycle(arranging)]
fn arrange_slots(
    alloc: Global,
    kinds: &[Kind],
    sets: &[usize],
    components: &[Component],
    first: usize,
    slots: &mut [DefaultTree],
    levels: usize,
) -> Result<(), AllocError> {
    for (index, component) in components.iter().enumerate() {
        if let Some(slot) = slots.get_mut(first.saturating_add(index)) {
            arrange_told(alloc, kinds, sets, component.of, slot, levels)?;
        }
    }
    Ok(())
}

/// Parts what is said of a record's components into its root, that of a SET in the order of the tags, and its
/// additions.
#[inline(never)]
fn part(
    alloc: Global,
    record: &Record,
    is_set: bool,
    slots: &mut Vec<DefaultTree>,
    additions: &mut Vec<DefaultTree>,
) -> Result<(), AllocError> {
    let mut root = take_slots(alloc, &record.root, 0, slots)?;
    let added = take_slots(alloc, record.behind(), record.root.len(), slots)?;
    if is_set {
        root.sort_by_key(|slot| slot.tag)?;
    }
    *slots = told_of(alloc, root)?;
    *additions = told_of(alloc, added)?;
    Ok(())
}

/// Takes what is said of components, from an index on.
fn take_slots(
    alloc: Global,
    components: &[Component],
    first: usize,
    slots: &mut [DefaultTree],
) -> Result<Vec<Slot>, AllocError> {
    let mut taken = Vec::new(alloc);
    for (index, component) in components.iter().enumerate() {
        if let Some(slot) = slots.get_mut(first.saturating_add(index)) {
            let told = mem::replace(slot, DefaultTree::Absent);
            let tag = component.tag;
            taken.push(Slot { tag, told })?;
        }
    }
    Ok(taken)
}

/// What is said of components, without their tags.
fn told_of(alloc: Global, slots: Vec<Slot>) -> Result<Vec<DefaultTree>, AllocError> {
    let mut slots = slots;
    let mut tolds = Vec::new(alloc);
    for slot in slots.iter_mut() {
        tolds.push(mem::replace(&mut slot.told, DefaultTree::Absent))?;
    }
    Ok(tolds)
}
