//! ENUMERATED (X.691 14).

ghost use Rattle.std.specs.Prelude.{◌≡◌, ◌<◌, ℕ, Ok, Some, None, IfErr, IfOk, IfSome};
ghost use Rattle.per_core.specs.Basic.{ExtensionBit, constrained_form};
ghost use Rattle.per_core.specs.Spellings.{Settings, When, NoneIn};
ghost use Rattle.per_decoding.specs.Enumerations.{IsMissing, IsOfPlace, IsThere, item_form, root_in_field};
ghost use Rattle.per_core.specs.IndexFaults.{IsOfExtension, IsOfItem, count_of, place_form};
ghost use Rattle.per_core.specs.NumberFaults.{IsOfConstrained};
ghost use Rattle.per_read.specs.Numbers.{in_one_field};
ghost use Rattle.per_read.specs.SmallNumbers.{OfIndex};
ghost use Rattle.per_read.specs.ReaderState.{settings_of};
ghost use Rattle.per_read.specs.Takes.{Takes, itself, telling, tested};

use per_read::Reader;
use per_read::error::DecodeErrorKind;
use per_read::small_numbers::take_small;
use rasn_schema::enumerated::Enumerated;

/// Takes an item of an ENUMERATED (X.691 14): the extension bit, and the place in the list that it tells.
pub fn take_enumerated<E: Enumerated>(reader: &mut Reader<'_>) -> Result<E, DecodeErrorKind>
    ensures { Takes (telling (λ a. IsOfItem a E.roots E.addeds E.EXTENSIBLE))
        (λ a. item_form a E.roots E.addeds E.EXTENSIBLE) (λ P x. P (E.value x)) reader.old result reader.new }
{
    let extended = take_extension_bit(reader, E::EXTENSIBLE)?;
    let place = take_place(reader, item_count::<E>(extended), extended)?;
    item_at(place, extended)
}

/// Takes an item as `take_enumerated` does, where it is before the extension marker and is written in one field.
/// After `None`, which says that none is there so, the reader is of no further use. No error is made, and so none
/// needs room.
#[inline(always)]
pub fn take_root_item<E: Enumerated>(reader: &mut Reader<'_>) -> Option<E>
    ensures took { IfSome result (λ x. Takes (telling (λ a. IsOfItem a E.roots E.addeds E.EXTENSIBLE))
        (λ a. item_form a E.roots E.addeds E.EXTENSIBLE) (λ P x. P (E.value x)) reader.old (Ok x) reader.new) }
    ensures none { let form = root_in_field (settings_of reader.old) E.roots E.addeds E.EXTENSIBLE in
        result ≡ None → NoneIn form reader.old.bits }
{
    let Ok(false) = take_extension_bit(reader, E::EXTENSIBLE) else {
        return None;
    };
    let place = take_short_place(reader, item_count::<E>(false))?;
    item_at(Some(place), false).ok()
}

/// Takes the extension bit of a type with an extension marker, whether what follows is after the marker (X.691
/// 14.3). In another type nothing does.
#[inline(always)]
pub(crate) fn take_extension_bit(
    reader: &mut Reader<'_>,
    extensible: bool,
) -> Result<bool, DecodeErrorKind>
    ensures { let why = telling (λ (a : Settings). IsOfExtension extensible) in
        Takes why (λ a. ExtensionBit extensible) itself reader.old result reader.new }
{
    if !extensible {
        return Ok(false);
    }
    reader.take_bit()
}

/// Takes a place in a list of `count` items: before the extension marker as a constrained whole number, after it as
/// a normally small one. `None` is a place that no `usize` holds.
pub(crate) fn take_place(
    reader: &mut Reader<'_>,
    count: usize,
    extended: bool,
) -> Result<Option<usize>, DecodeErrorKind>
    ensures { Takes (telling (λ a. IsOfPlace a count extended)) (λ a. place_form a count extended) OfIndex
        reader.old result reader.new }
{
    if extended {
        take_small(reader)
    } else {
        take_root_place(reader, count)
    }
}

/// Takes a place among `count` items before the extension marker (X.691 14.2). A code past the last place is
/// answered as it stands.
pub(crate) fn take_root_place(
    reader: &mut Reader<'_>,
    count: usize,
) -> Result<Option<usize>, DecodeErrorKind>
    ensures { Takes (telling (λ a. IsOfConstrained a count)) (λ a. constrained_form a count) OfIndex
        reader.old result reader.new }
{
    let code = reader.take_constrained_whole(count.saturating_sub(1) as u128)?;
    Ok(usize::try_from(code).ok())
}

/// Takes a place among `count` items before the extension marker, as `take_place` does, where it is written in one
/// field. After `None`, which says that none is there so, the reader is of no further use.
#[inline(always)]
pub(crate) fn take_short_place(reader: &mut Reader<'_>, count: usize) -> Option<usize>
    ensures took { let form = λ (a : Settings). constrained_form a count in
        IfSome result (λ place. Takes tested form OfIndex reader.old (Ok (Some place)) reader.new) }
    ensures none { let form = λ (i : ℕ). When (i < count) (in_one_field (settings_of reader.old) count i) in
        result ≡ None → NoneIn form reader.old.bits }
{
    let code = reader.take_short_whole(count.saturating_sub(1) as u128)?;
    usize::try_from(code).ok()
}

/// How many items a list has, that before the extension marker or that after it.
fn item_count<E: Enumerated>(extended: bool) -> usize
    ensures { result ≡ count_of E.roots E.addeds extended }
{
    if extended {
        E::extended_variance()
    } else {
        E::variance()
    }
}

/// The item at a place of a list, where it has one.
fn item_at<E: Enumerated>(place: Option<usize>, extended: bool) -> Result<E, DecodeErrorKind>
    ensures ok { IfOk result (λ x. IsThere E.value (count_of E.roots E.addeds extended) extended place x) }
    ensures err { IfErr result (IsMissing (count_of E.roots E.addeds extended) extended place) }
{
    let Some(index) = place else {
        return Err(DecodeErrorKind::IntegerOverflow(usize::BITS));
    };
    let found = if extended {
        E::from_extended_enumeration_index(index)
    } else {
        E::from_enumeration_index(index)
    };
    found.ok_or(DecodeErrorKind::EnumerationIndexNotFound(index, extended))
}
