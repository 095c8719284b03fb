//! Tags of CHOICEs that have none of their own, and the order of a SET's components.

use crate::arrange::arrange;
use rasn_dynamic::types::{Alternative, Component, Kind, Simple};
use rasn_types::types::Tag;
use std::alloc::{AllocError, Global};

/// How deep CHOICEs without tags are in one another at most.
const MOST_CHOICES: usize = 255;

/// Gives each component and alternative without a tag, which has that of no type, the smallest of the CHOICE that it
/// is, and puts the root components of the SETs, which are at some ascending places, in the order of their tags
/// (X.691 21.1), and those of defaults.
/// Which type an open type in a SET is isn't known then, since its component was told by the other order. The only
/// error is want of memory.
pub fn order(alloc: Global, kinds: &mut [Kind], sets: &[usize]) -> Result<(), AllocError> {
    let tags = tags(alloc, kinds)?;
    for kind in kinds.iter_mut() {
        tag_kind(kind, tags.as_slice());
    }
    arrange(alloc, kinds, sets)?;
    for place in sets {
        forget_choosers(kinds, *place);
        if let Some(Kind::Record(record)) = kinds.get_mut(*place) {
            record.root.sort_by_key(|component| component.tag)?;
        }
    }
    Ok(())
}

/// Forgets which type each open type in the record at a place is.
fn forget_choosers(kinds: &mut [Kind], place: usize) {
    for index in 0..part_count(kinds, place) {
        if let Some(of) = part_type(kinds, place, index) {
            forget_chooser(kinds, of);
        }
    }
}

/// How many components the record at a place has.
pub fn part_count(kinds: &[Kind], place: usize) -> usize {
    match kinds.get(place) {
        Some(Kind::Record(record)) => record.root.len().saturating_add(record.behind().len()),
        _ => 0,
    }
}

/// The place of the type of a component of the record at a place, by its index in the root and then the additions.
pub fn part_type(kinds: &[Kind], place: usize, index: usize) -> Option<usize> {
    let Kind::Record(record) = kinds.get(place)? else {
        return None;
    };
    let component = match index.checked_sub(record.root.len()) {
        Some(added) => record.behind().get(added)?,
        None => record.root.get(index)?,
    };
    Some(component.of)
}

/// Forgets which type the open type at a place is, where one is there.
fn forget_chooser(kinds: &mut [Kind], place: usize) {
    if let Some(kind) = kinds.get_mut(place) {
        if matches!(kind, Kind::Open(_)) {
            *kind = Kind::Simple(Simple::Open);
        }
    }
}

/// For each type the tag that it has where none is written: of a CHOICE the smallest of its root alternatives, else
/// that of no type.
fn tags(alloc: Global, kinds: &[Kind]) -> Result<Vec<Tag>, AllocError> {
    let mut tags = Vec::new(alloc);
    for place in 0..kinds.len() {
        tags.push(smallest_tag(kinds, place))?;
    }
    Ok(tags)
}

/// The smallest tag of the root alternatives of the CHOICE at a place, which is that of the first; that of no type,
/// where no CHOICE is there or CHOICEs without tags are in one another too deep.
fn smallest_tag(kinds: &[Kind], place: usize) -> Tag {
    let mut place = place;
    for _ in 0..=MOST_CHOICES {
        let Some(Kind::Choice(choice)) = kinds.get(place) else {
            return Tag::EOC;
        };
        let Some(first) = choice.roots.first() else {
            return Tag::EOC;
        };
        if first.tag != Tag::EOC {
            return first.tag;
        }
        place = first.of;
    }
    Tag::EOC
}

/// Gives tags to the components or alternatives of a type.
fn tag_kind(kind: &mut Kind, tags: &[Tag]) {
    match kind {
        Kind::Record(record) => {
            tag_components(&mut record.root, tags);
            if let Some(additions) = &mut record.additions {
                tag_components(additions, tags);
            }
        }
        Kind::Choice(choice) => {
            tag_alternatives(&mut choice.roots, tags);
            if let Some(addeds) = &mut choice.addeds {
                tag_alternatives(addeds, tags);
            }
        }
        Kind::Simple(_) | Kind::Date | Kind::List(_, _) | Kind::SetOf(_, _) => {}
        Kind::Containing(_) | Kind::Open(_) => {}
    }
}

/// Gives tags to the components that have none.
fn tag_components(components: &mut Vec<Component>, tags: &[Tag]) {
    for component in components.iter_mut() {
        if component.tag == Tag::EOC {
            component.tag = tag_at(tags, component.of);
        }
    }
}

/// Gives tags to the alternatives that have none.
fn tag_alternatives(alternatives: &mut Vec<Alternative>, tags: &[Tag]) {
    for alternative in alternatives.iter_mut() {
        if alternative.tag == Tag::EOC {
            alternative.tag = tag_at(tags, alternative.of);
        }
    }
}

/// The tag of the type at a place where none is written.
fn tag_at(tags: &[Tag], place: usize) -> Tag {
    tags.get(place).copied().unwrap_or(Tag::EOC)
}
