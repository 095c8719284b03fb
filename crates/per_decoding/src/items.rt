//! Items of an ENUMERATED by how many there are (X.691 14).

ghost use Rattle.std.specs.Prelude.{◌≡◌, None, Ok, IfErr, IfOk, IfSome};
ghost use Rattle.rasn_schema.specs.Enumerations.{addeds_of, is_extensible};
ghost use Rattle.per_core.specs.Spellings.{NoneIn};
ghost use Rattle.per_read.specs.ReaderState.{settings_of};
ghost use Rattle.per_read.specs.Takes.{Takes, telling};
ghost use Rattle.per_decoding.specs.Enumerations.{IsMissing, IsThere, item_form, placed_item, root_in_field};
ghost use Rattle.per_core.specs.IndexFaults.{IsOfItem};

use crate::choices::{has_marker, place_count};
use crate::enumerated::{take_extension_bit, take_place, take_short_place};
use per_read::Reader;
use per_read::error::DecodeErrorKind;
use rasn_schema::items::Place;

/// Takes an item of an ENUMERATED, and answers where it stands: `roots` stand before the extension marker, and `addeds`
/// after it, where there is one. The extension bit tells the list (X.691 14).
pub fn take_item(
    reader: &mut Reader<'_>,
    roots: usize,
    addeds: Option<usize>,
) -> Result<Place, DecodeErrorKind>
    ensures { Takes (telling (λ a. IsOfItem a roots (addeds_of addeds) (is_extensible addeds)))
        (λ a. item_form a roots (addeds_of addeds) (is_extensible addeds)) (λ P place. P (placed_item place))
        reader.old result reader.new }
{
    let extended = take_extension_bit(reader, has_marker(addeds))?;
    let count = place_count(roots, addeds, extended);
    let place = take_place(reader, count, extended)?;
    place_in(place, count, extended)
}

/// Takes an item as `take_item` does, where it is before the extension marker and is written in one field. After
/// `None`, which says that none is there so, the reader is of no further use. No error is made, and so none needs
/// room.
#[inline(always)]
pub fn take_short_item(
    reader: &mut Reader<'_>,
    roots: usize,
    addeds: Option<usize>,
) -> Option<Place>
    ensures took { let e = addeds_of addeds in let ext = is_extensible addeds in
        IfSome result (λ place. Takes (telling (λ a. IsOfItem a roots e ext))
        (λ a. item_form a roots e ext) (λ P place. P (placed_item place)) reader.old (Ok place) reader.new) }
    ensures none { let form = root_in_field (settings_of reader.old) roots (addeds_of addeds) (is_extensible addeds) in
        result ≡ None → NoneIn form reader.old.bits }
{
    let Ok(false) = take_extension_bit(reader, has_marker(addeds)) else {
        return None;
    };
    let place = take_short_place(reader, roots)?;
    place_in(Some(place), roots, false).ok()
}

/// The place of the item that is at an index of a list of `count`, where one does.
fn place_in(place: Option<usize>, count: usize, extended: bool) -> Result<Place, DecodeErrorKind>
    ensures ok { IfOk result (λ x. IsThere placed_item count extended place x) }
    ensures err { IfErr result (IsMissing count extended place) }
{
    let Some(index) = place else {
        return Err(DecodeErrorKind::IntegerOverflow(usize::BITS));
    };
    if index >= count {
        return Err(DecodeErrorKind::EnumerationIndexNotFound(index, extended));
    }
    if extended {
        return Ok(Place::Added(index));
    }
    Ok(Place::Root(index))
}
