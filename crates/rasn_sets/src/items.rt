//! The items of a SET: those of the root components that are there, and those of all additions.

ghost use Rattle.std.specs.Prelude.{length};
ghost use Rattle.rasn_schema.specs.Extensions.{fields_after};
ghost use Rattle.rasn_schema.specs.Fields.{in_tag_order};
ghost use Rattle.rasn_sets.specs.Components.{GivesItem, GivesSet};
ghost use Rattle.rasn_sets.specs.SetsRead.{TakesAfterOf, TakesItems, TakesRootOf, TakesSet, listing};

use crate::steps::{read_additions, read_components};
use rasn_schema::fields::Constructed;
use rasn_traits::decoder::Decoder;
use rasn_types::types::Tag;

/// Reads the root components, in ascending order of their smallest tags.
fn read_root<D: Decoder, I: Drop, C: Constructed, F: Fn(&mut D, usize, Tag) -> Result<I, D::Error>>(
    decoder: &mut D,
    decode: &F,
    items: &mut Vec<I>,
) -> Result<(), D::Error>
    requires { F.IsAlwaysCallable decode.now }
    ensures { TakesRootOf D.rules (GivesItem F.Fn decode.now) (in_tag_order C.FIELDS) decoder.old items.old.items result
        decoder.new items.new.items }
{
    let Ok(fields) = C::FIELDS.canonised(decoder.alloc()) else {
        return Err(decoder.out_of_memory());
    };
    read_components(decoder, &fields, decode, items)
}

/// Reads all additions, in the order of the type.
fn read_after<
    D: Decoder,
    I: Drop,
    C: Constructed,
    F: Fn(&mut D, usize, Tag) -> Result<I, D::Error>,
>(decoder: &mut D, decode: &F, items: &mut Vec<I>) -> Result<(), D::Error>
    requires { F.IsAlwaysCallable decode.now }
    ensures { TakesAfterOf D.rules (GivesItem F.Fn decode.now) (length C.FIELDS) (fields_after C.EXTENDED_FIELDS)
        decoder.old items.old.items result decoder.new items.new.items }
{
    match C::EXTENDED_FIELDS {
        Some(fields) => read_additions(decoder, C::FIELDS.len(), fields.list, decode, items),
        None => Ok(()),
    }
}

/// Reads all items.
fn read_items<
    D: Decoder,
    I: Drop,
    C: Constructed,
    F: Fn(&mut D, usize, Tag) -> Result<I, D::Error>,
>(decoder: &mut D, decode: &F) -> Result<Vec<I>, D::Error>
    requires { F.IsAlwaysCallable decode.now }
    ensures { TakesItems D.rules C.FIELDS (fields_after C.EXTENDED_FIELDS) (GivesItem F.Fn decode.now) decoder.old
        (listing (λ xs. xs.items) result) decoder.new }
{
    let mut items = Vec::new(decoder.alloc());
    read_root::<D, I, C, F>(decoder, decode, &mut items)?;
    read_after::<D, I, C, F>(decoder, decode, &mut items)?;
    Ok(items)
}

/// Reads all items, and makes the SET of them.
pub(crate) fn read_set<
    D: Decoder,
    I: Drop,
    C: Constructed + Drop,
    F: Fn(&mut D, usize, Tag) -> Result<I, D::Error>,
    G: FnOnce(Vec<I>) -> Result<C, D::Error>,
>(decoder: &mut D, decode: &F, make: G) -> Result<C, D::Error>
    requires decode { F.IsAlwaysCallable decode.now }
    requires make { G.IsAlwaysCallable make }
    ensures { TakesSet D.rules C.FIELDS (fields_after C.EXTENDED_FIELDS) C.contents C.added
        (GivesItem F.Fn decode.now) (GivesSet G.FnOnce (λ xs. xs.items) make)
        decoder.old result decoder.new }
{
    let items = read_items::<D, I, C, F>(decoder, decode)?;
    make(items)
}
