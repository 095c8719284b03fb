//! The components of a SET in turn: each is read, and its item kept after those that were read before.

ghost use Rattle.rasn_sets.specs.Components.{GivesItem};
ghost use Rattle.rasn_sets.specs.Turns.{KeepsItem, TakesAfter, TakesField, TakesFieldAfter, TakesRoot};

use rasn_schema::fields::{Field, Presence};
use rasn_traits::decoder::Decoder;
use rasn_types::types::Tag;

/// Reads the item of a component, and keeps it.
fn read_item<D: Decoder, I: Drop, F: Fn(&mut D, usize, Tag) -> Result<I, D::Error>>(
    decoder: &mut D,
    index: usize,
    tag: Tag,
    decode: &F,
    items: &mut Vec<I>,
) -> Result<(), D::Error>
    requires { F.IsAlwaysCallable decode.now }
    ensures { KeepsItem D.rules (GivesItem F.Fn decode.now) index tag decoder.old items.old.items result
        decoder.new items.new.items }
{
    let item = decode(decoder, index, tag)?;
    if items.push(item).is_err() {
        return Err(decoder.out_of_memory());
    }
    Ok(())
}

/// Reads the component of a field: its presence bit, where it has one, and its item, where it is there.
fn read_component<D: Decoder, I: Drop, F: Fn(&mut D, usize, Tag) -> Result<I, D::Error>>(
    decoder: &mut D,
    field: &Field,
    decode: &F,
    items: &mut Vec<I>,
) -> Result<(), D::Error>
    requires { F.IsAlwaysCallable decode.now }
    ensures { TakesField D.rules (GivesItem F.Fn decode.now) field.now decoder.old items.old.items result
        decoder.new items.new.items }
{
    if field.presence == Presence::Required {
        return read_item(decoder, field.index, field.tag, decode, items);
    }
    if !decoder.next_presence()? {
        return Ok(());
    }
    read_item(decoder, field.index, field.tag, decode, items)
}

/// Reads the root components of fields in turn.
pub(crate) fn read_components<
    D: Decoder,
    I: Drop,
    F: Fn(&mut D, usize, Tag) -> Result<I, D::Error>,
>(decoder: &mut D, fields: &[Field], decode: &F, items: &mut Vec<I>) -> Result<(), D::Error>
    requires { F.IsAlwaysCallable decode.now }
    ensures { TakesRoot D.rules (GivesItem F.Fn decode.now) fields.now decoder.old items.old.items result
        decoder.new items.new.items }
{
    for field in fields {
        read_component(decoder, field, decode, items)?;
    }
    Ok(())
}

/// Reads the addition of a field, whose index is counted on from `first`.
fn read_addition<D: Decoder, I: Drop, F: Fn(&mut D, usize, Tag) -> Result<I, D::Error>>(
    decoder: &mut D,
    first: usize,
    field: &Field,
    decode: &F,
    items: &mut Vec<I>,
) -> Result<(), D::Error>
    requires { F.IsAlwaysCallable decode.now }
    ensures { TakesFieldAfter D.rules (GivesItem F.Fn decode.now) first field.now decoder.old items.old.items result
        decoder.new items.new.items }
{
    let Some(index) = first.checked_add(field.index) else {
        return Err(decoder.out_of_memory());
    };
    read_item(decoder, index, field.tag, decode, items)
}

/// Reads the additions of fields in turn, whose indices are counted on from `first`.
pub(crate) fn read_additions<D: Decoder, I: Drop, F: Fn(&mut D, usize, Tag) -> Result<I, D::Error>>(
    decoder: &mut D,
    first: usize,
    fields: &[Field],
    decode: &F,
    items: &mut Vec<I>,
) -> Result<(), D::Error>
    requires { F.IsAlwaysCallable decode.now }
    ensures { TakesAfter D.rules (GivesItem F.Fn decode.now) first fields.now decoder.old items.old.items result
        decoder.new items.new.items }
{
    for field in fields {
        read_addition(decoder, first, field, decode, items)?;
    }
    Ok(())
}
