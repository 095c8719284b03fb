//! What an author's list of items is handed to.
//!
//! The list is a macro of the author's file, which hands itself on. It has a line for each item, its name and its
//! variant, in the order of the items (X.680 20), at most 256 on either side: those before the extension marker, and
//! behind `...;` those after it.
//!
//! ```text
//! macro_rules! items {
//!     ($to:ident $($with:ident)*) => { $to! { [$($with)*] "red" Red; "green" Green; ...; "blue" Blue; } };
//! }
//! ```
//!
//! `item_lists`, `place_of_item` and `item_at` are for authors. What the others write is part of these.

/// The items of a list, as `ItemLists`.
#[macro_export]
macro_rules! item_lists {
    ([] $($name:literal $root:ident;)*) => {
        $crate::ItemLists {
            counts: $crate::ItemCounts { roots: 0 $(+ $crate::one!($root))*, addeds: None },
            identifiers: &[$($name),*],
        }
    };
    ([] $($name:literal $root:ident;)* ...; $($added_name:literal $added:ident;)*) => {
        $crate::ItemLists {
            counts: $crate::ItemCounts {
                roots: 0 $(+ $crate::one!($root))*,
                addeds: Some(0 $(+ $crate::one!($added))*),
            },
            identifiers: &[$($name,)* $($added_name),*],
        }
    };
    ([] $($list:tt)*) => { $crate::wrong_item!($($list)*) };
}

/// Says which line of a list of items is the first that isn't in its form.
#[macro_export]
macro_rules! wrong_item {
    () => { compile_error!("a list of items has one marker `...;` at most") };
    (...; $($rest:tt)*) => { $crate::wrong_item!($($rest)*) };
    ($name:literal $item:ident; $($rest:tt)*) => { $crate::wrong_item!($($rest)*) };
    ($name:literal $($rest:tt)*) => {
        compile_error!(concat!("the line of `", $name, "` isn't `\"name\" Variant;`"))
    };
    ($first:tt $($rest:tt)*) => {
        compile_error!(concat!(
            "a line of items is `\"name\" Variant;` or `...;`, where one begins with `", stringify!($first), "`"
        ))
    };
}

/// 1, for a name.
#[macro_export]
macro_rules! one {
    ($name:ident) => { 1 };
}

/// Where an item is in its list, as `Place`.
#[macro_export]
macro_rules! place_of_item {
    ([$of:ident] $($list:tt)*) => { $crate::with_places!(placed_items Root [$of]; $($list)*) };
}

/// The item at a place in its list, or none.
#[macro_export]
macro_rules! item_at {
    ([$place:ident] $($list:tt)*) => { $crate::with_places!(items_placed Root [$place]; $($list)*) };
}

/// The places of items, after those that are done.
#[macro_export]
macro_rules! placed_items {
    ($places:tt $side:ident [$of:ident $($done:tt)*];) => { match $of { $($done)* } };
    ($places:tt $side:ident $done:tt; ...; $($rest:tt)*) => {
        $crate::with_places!(placed_items Added $done; $($rest)*)
    };
    ([] $side:ident $done:tt; $($rest:tt)+) => {
        compile_error!("a list has at most 256 items on either side of its marker")
    };
    ([$a:literal $b:literal $c:literal $d:literal $($places:tt)*] $side:ident [$($done:tt)*];
        $first_name:literal $first:ident; $second_name:literal $second:ident;
        $third_name:literal $third:ident; $fourth_name:literal $fourth:ident; $($rest:tt)*
    ) => {
        $crate::placed_items!([$($places)*] $side [
            $($done)*
            Self::$first => $crate::Place::$side($a),
            Self::$second => $crate::Place::$side($b),
            Self::$third => $crate::Place::$side($c),
            Self::$fourth => $crate::Place::$side($d),
        ]; $($rest)*)
    };
    ([$place:literal $($places:tt)*] $side:ident [$($done:tt)*];
        $name:literal $item:ident; $($rest:tt)*
    ) => {
        $crate::placed_items!([$($places)*] $side [
            $($done)* Self::$item => $crate::Place::$side($place),
        ]; $($rest)*)
    };
}

/// The items at places, after those that are done.
#[macro_export]
macro_rules! items_placed {
    ($places:tt $side:ident [$of:ident $($done:tt)*];) => { match $of { $($done)* _ => None } };
    ($places:tt $side:ident $done:tt; ...; $($rest:tt)*) => {
        $crate::with_places!(items_placed Added $done; $($rest)*)
    };
    ([$a:literal $b:literal $c:literal $d:literal $($places:tt)*] $side:ident [$($done:tt)*];
        $first_name:literal $first:ident; $second_name:literal $second:ident;
        $third_name:literal $third:ident; $fourth_name:literal $fourth:ident; $($rest:tt)*
    ) => {
        $crate::items_placed!([$($places)*] $side [
            $($done)*
            $crate::Place::$side($a) => Some(Self::$first),
            $crate::Place::$side($b) => Some(Self::$second),
            $crate::Place::$side($c) => Some(Self::$third),
            $crate::Place::$side($d) => Some(Self::$fourth),
        ]; $($rest)*)
    };
    ([$place:literal $($places:tt)*] $side:ident [$($done:tt)*];
        $name:literal $item:ident; $($rest:tt)*
    ) => {
        $crate::items_placed!([$($places)*] $side [
            $($done)* $crate::Place::$side($place) => Some(Self::$item),
        ]; $($rest)*)
    };
}
