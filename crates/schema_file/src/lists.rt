//! Names and tags that have to differ.

use crate::error::Reason;
use rasn_dynamic::types::Component;
use rasn_types::types::Tag;

/// Puts the names of a group's parts after those of others, where so many may still be looked at.
pub fn push_names<'a>(
    found: &mut Vec<&'a str>,
    parts: &'a [Component],
    names: &mut usize,
) -> Result<(), Reason> {
    for part in parts {
        let Some(left) = names.checked_sub(1) else {
            return Err(Reason::ManyGroups);
        };
        *names = left;
        found.push(part.name.as_str())?;
    }
    Ok(())
}

/// Refuses names of which two are the same.
pub fn names_differ(names: Vec<&str>) -> Result<(), Reason> {
    let mut sorted = names;
    sorted.sort()?;
    let mut before = None;
    for name in sorted.iter() {
        if before == Some(*name) {
            return Err(Reason::NameTwice);
        }
        before = Some(*name);
    }
    Ok(())
}

/// Refuses tags of which two are the same.
pub fn tags_differ(tags: Vec<Tag>) -> Result<(), Reason> {
    let mut sorted = tags;
    sorted.sort()?;
    tags_ascend(&sorted)
}

/// Refuses tags of which one isn't above the one before it.
pub fn tags_ascend(tags: &[Tag]) -> Result<(), Reason> {
    let mut before = None;
    for tag in tags {
        if before.is_some_and(|before| before >= *tag) {
            return Err(Reason::UnorderedTags);
        }
        before = Some(*tag);
    }
    Ok(())
}
