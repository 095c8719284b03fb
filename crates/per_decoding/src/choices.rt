//! The index of a CHOICE (X.691 23.5 to 23.8).

ghost use Rattle.std.specs.Prelude.{◌≡◌, None, Ok, IfErr, IfOk, IfSome};
ghost use Rattle.rasn_schema.specs.Enumerations.{addeds_of, is_extensible};
ghost use Rattle.per_decoding.specs.ChoiceIndexes.{IsKnown, IsUnknown, index_of};
ghost use Rattle.per_core.specs.IndexFaults.{IsOfIndex, index_form, count_of};
ghost use Rattle.per_decoding.specs.Enumerations.{root_in_field};
ghost use Rattle.per_core.specs.Spellings.{NoneIn};
ghost use Rattle.per_read.specs.ReaderState.{settings_of};
ghost use Rattle.per_read.specs.Takes.{Takes, telling};

use crate::enumerated::{take_extension_bit, take_place, take_short_place};
use per_read::Reader;
use per_read::error::DecodeErrorKind;
use rasn_schema::items::Place;

/// Takes the index of a CHOICE, and answers the place of its alternative: `roots` stand before the extension
/// marker, and `addeds` after it, where there is one. The extension bit tells the list (X.691 23.5).
pub fn take_choice_index(
    reader: &mut Reader<'_>,
    roots: usize,
    addeds: Option<usize>,
) -> Result<Place, DecodeErrorKind>
    ensures { Takes (telling (λ a. IsOfIndex a roots (addeds_of addeds) (is_extensible addeds)))
        (λ a. index_form a roots (addeds_of addeds) (is_extensible addeds)) (λ P place. P (index_of place))
        reader.old result reader.new }
{
    let extended = take_extension_bit(reader, has_marker(addeds))?;
    let count = place_count(roots, addeds, extended);
    let place = take_place(reader, count, extended)?;
    place_at_index(place, count, extended)
}

/// Takes the index of a root alternative as `take_choice_index` does, where it is written in one field. After `None`,
/// which says that none is there so, the reader is of no further use. No error is made, and so none needs room.
#[inline(always)]
pub fn take_root_index(
    reader: &mut Reader<'_>,
    roots: usize,
    addeds: Option<usize>,
) -> Option<Place>
    ensures took { let addeds_count = addeds_of addeds in let ext = is_extensible addeds in
        IfSome result (λ place. Takes (telling (λ a. IsOfIndex a roots addeds_count ext))
        (λ a. index_form a roots addeds_count ext) (λ P place. P (index_of place))
        reader.old (Ok place) reader.new) }
    ensures none { let form = root_in_field (settings_of reader.old) roots (addeds_of addeds) (is_extensible addeds) in
        result ≡ None → NoneIn form reader.old.bits }
{
    let Ok(false) = take_extension_bit(reader, has_marker(addeds)) else {
        return None;
    };
    let place = take_short_place(reader, roots)?;
    place_at_index(Some(place), roots, false).ok()
}

/// Whether a CHOICE, or an ENUMERATED, has an extension marker.
pub(crate) fn has_marker(addeds: Option<usize>) -> bool
    ensures { result ≡ is_extensible addeds }
{
    addeds.is_some()
}

/// How many alternatives, or items, a list has, that before the extension marker or that after it.
pub(crate) fn place_count(roots: usize, addeds: Option<usize>, extended: bool) -> usize
    ensures { result ≡ count_of roots (addeds_of addeds) extended }
{
    if extended { addeds.unwrap_or(0) } else { roots }
}

/// The place of the alternative that is at an index of a list of `count`, where one does.
fn place_at_index(
    place: Option<usize>,
    count: usize,
    extended: bool,
) -> Result<Place, DecodeErrorKind>
    ensures ok { IfOk result (λ x. IsKnown count extended place (index_of x)) }
    ensures err { IfErr result (IsUnknown count place) }
{
    let Some(index) = place else {
        return Err(DecodeErrorKind::ChoiceIndexExceedsPlatformWidth);
    };
    if index >= count {
        return Err(DecodeErrorKind::ChoiceIndexNotFound(index));
    }
    if extended {
        return Ok(Place::Added(index));
    }
    Ok(Place::Root(index))
}
