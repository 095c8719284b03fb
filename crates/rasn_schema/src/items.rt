//! ENUMERATED types that are stated by one list of their items.

ghost use Rattle.std.specs.Prelude.{refl, Some};
ghost use Rattle.rasn_types.specs.Values.{Value};
ghost use Rattle.rasn_types.specs.declared.types.TheConstants.Tag.{ENUMERATED};
ghost use Rattle.rasn_schema.specs.Fields.{tagged};
ghost use Rattle.rasn_schema.specs.Enumerations.{IsPlaced, FindsPlaced, items_of, addeds_of, is_extensible};
ghost use Rattle.rasn_schema.specs.Enumerations.{addeds_marked};
ghost use Rattle.rasn_schema.specs.Forms.{always};
ghost use Rattle.rasn_schema.specs.Levels.{simple_levelled};

use crate::enumerated::Enumerated;
use crate::fields::{TagTree, TypeTree};
use crate::kinds::{Kind, OfKind};
use rasn_types::types::Tag;
use std::marker::Model;

/// How many items an ENUMERATED has (X.680 20).
#[derive(Clone, Copy, Debug, PartialEq, Eq)]
pub struct ItemCounts {
    /// How many are before the extension marker.
    pub roots: usize,
    /// How many are after it, where there is one.
    pub addeds: Option<usize>,
}

/// The items of an ENUMERATED as its type lists them (X.680 20).
#[derive(Drop)]
pub struct ItemLists {
    /// How many they are.
    pub counts: ItemCounts,
    /// The identifier of each item, in the order of the lists: those before the extension marker, and after them those
    /// after it.
    pub identifiers: &'static [&'static str],
}

impl Model for ItemLists {
    ghost use Rattle.rasn_schema.specs.declared.items.ItemCounts.{ItemCounts};

    ghost Value = { ItemCounts };

    ghost view = { λ items. items.counts };
}

/// Where an item of an ENUMERATED stands, or an alternative of a CHOICE: its list, and its place there, from 0 (X.691
/// 14.1, 23.5).
#[derive(Clone, Copy, Debug, PartialEq, Eq)]
pub enum Place {
    /// Before the extension marker.
    Root(usize),
    /// After the extension marker.
    Added(usize),
}

/// The items of an ENUMERATED (X.680 20).
pub trait Items: Sized + Drop {
    /// How many they are, and their identifiers, of which no clause says more.
    const ITEMS: ItemLists;

    ghost use Rattle.rasn_schema.specs.declared.items.ItemCounts.{ItemCounts};

    ghost ITEMS: { ItemCounts };

    // The item that a value is.
    ghost item: { Self → Value };

    /// Where the item stands.
    fn place(&self) -> Place
        ensures { IsPlaced ITEMS (item self.now) result };

    /// The item at a place, or none.
    fn at(place: Place) -> Option<Self>
        ensures { FindsPlaced item ITEMS place result };
}

/// The kind of an ENUMERATED (X.680 20).
pub struct EnumeratedKind {}

impl<T: Items> Kind<T> for EnumeratedKind {
    const TAG: Tag = Tag::ENUMERATED;

    ghost TAG = { ENUMERATED };

    const TAG_TREE: TypeTree = TypeTree(TagTree::Leaf(Tag::ENUMERATED));

    ghost TAG_TREE = { Some (tagged ENUMERATED) };

    const IS_CHOICE: bool = false;

    ghost schema = { always (items_of T.ITEMS) };

    ghost value = { T.item };

    ghost levels = { λ _. 0 };

    ghost levelled = { simple_levelled (items_of T.ITEMS) tt };

    ghost tag_fits = { λ _. refl };

    ghost tree_fits = { λ _. (refl, refl) };
}

impl<T: Items + OfKind<Kind = EnumeratedKind>> Enumerated for T {
    const EXTENSIBLE: bool = match T::ITEMS.counts.addeds {
        Some(_) => true,
        None => false,
    };

    ghost EXTENSIBLE = { is_extensible T.ITEMS.addeds };

    const IDENTIFIERS: &'static [&'static str] = T::ITEMS.identifiers;

    ghost roots = { T.ITEMS.roots };

    ghost addeds = { addeds_of T.ITEMS.addeds };

    fn variance() -> usize {
        T::ITEMS.counts.roots
    }

    fn extended_variance() -> usize {
        T::ITEMS.counts.addeds.unwrap_or(0)
    }

    fn enumeration_index(&self) -> usize {
        match self.place() {
            Place::Root(index) => index,
            Place::Added(index) => index,
        }
    }

    fn is_extended_variant(&self) -> bool {
        match self.place() {
            Place::Root(_) => false,
            Place::Added(_) => true,
        }
    }

    fn from_enumeration_index(index: usize) -> Option<T> {
        T::at(Place::Root(index))
    }

    fn from_extended_enumeration_index(index: usize) -> Option<T> {
        T::at(Place::Added(index))
    }

    ghost marked = { addeds_marked T.ITEMS.addeds };

    ghost is_enumerated = { λ _. refl };
}
