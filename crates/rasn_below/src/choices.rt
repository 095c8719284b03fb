//! What an author's list of alternatives is handed to.
//!
//! The list is a macro of the author's file, which hands itself on. It has a line for each alternative, at most 32:
//! its context-specific tag, its name, its variant and the type of the value in it, and its constraints in brackets. A
//! variant without a value, which has no type, is NULL. Those before the extension marker are in ascending order of
//! their tags (X.691 23.5).
//!
//! ```text
//! macro_rules! alternatives {
//!     ($to:ident $($with:ident)*) => {
//!         $to! { [$($with)*]
//!             0 "radius" Radius: u16 [1..=1000];
//!             1 "corner" Corner: ReferencePositionLite [];
//!             2 "everywhere" Everywhere;
//!         }
//!     };
//! }
//! ```
//!
//! After the marker `...;` stand the alternatives after it, at most 32 of them, or none:
//!
//! ```text
//! 0 "a" A: bool [];
//! ...;
//! 1 "b" B: bool [];
//! ```
//!
//! `variants`, `tags_of_choice`, `alternative_bounds`, `place_of_alternative`, `encode_alternative` and
//! `decode_alternative` are for authors. What the others write is part of these.

/// The tags and names of the alternatives of a list, as `VariantLists`.
#[macro_export]
macro_rules! variants {
    ([] $($tag:literal $name:literal $variant:ident $(: $type:ty [$($bounds:tt)*])?;)*) => {
        $crate::VariantLists {
            root: &[$($crate::TagTree::Leaf($crate::context_tag!($tag))),*],
            added: None,
            identifiers: &[$($name),*],
        }
    };
    ([] $($tag:literal $name:literal $variant:ident $(: $type:ty [$($bounds:tt)*])?;)* ...; $(
        $added_tag:literal $added_name:literal $added:ident $(: $added_type:ty [$($added_bounds:tt)*])?;
    )*) => {
        $crate::VariantLists {
            root: &[$($crate::TagTree::Leaf($crate::context_tag!($tag))),*],
            added: Some(&[$($crate::TagTree::Leaf($crate::context_tag!($added_tag))),*]),
            identifiers: &[$($name,)* $($added_name),*],
        }
    };
    ([] $($list:tt)*) => { $crate::wrong_alternative!($($list)*) };
}

/// Says which line of a list of alternatives is the first that isn't in its form.
#[macro_export]
macro_rules! wrong_alternative {
    () => { compile_error!("a list of alternatives has one marker `...;` at most") };
    (...; $($rest:tt)*) => { $crate::wrong_alternative!($($rest)*) };
    ($tag:literal $name:literal $variant:ident $(: $type:ty [$($bounds:tt)*])?; $($rest:tt)*) => {
        $crate::wrong_alternative!($($rest)*)
    };
    ($tag:literal $name:literal $($rest:tt)*) => {
        compile_error!(concat!(
            "the line of `", $name, "` isn't `tag \"name\" Variant: Type [constraints];` or `tag \"name\" Variant;`"
        ))
    };
    ($first:tt $($rest:tt)*) => {
        compile_error!(concat!(
            "a line is `tag \"name\" Variant: Type [constraints];`, where one begins with `", stringify!($first), "`"
        ))
    };
}

/// The tags of the root alternatives of a list, as the `TagTree` of an untagged choice.
#[macro_export]
macro_rules! tags_of_choice {
    ([] $($tag:literal $name:literal $variant:ident $(: $type:ty [$($bounds:tt)*])?;)*) => {
        $crate::TagTree::Choice(&[$($crate::TagTree::Leaf($crate::context_tag!($tag))),*])
    };
    ([] $(
        $tag:literal $name:literal $variant:ident $(: $type:ty [$($bounds:tt)*])?;
    )* ...; $($behind:tt)*) => {
        $crate::tags_of_choice!([] $($tag $name $variant $(: $type [$($bounds)*])?;)*)
    };
}

/// The constraints of the alternatives of a list, as `Bounds`.
#[macro_export]
macro_rules! alternative_bounds {
    ([] $($list:tt)*) => { $crate::alternative_bounds_in_turn!([] [] $($list)*) };
}

/// The constraints of alternatives in turn, in the second brackets after those that are done; in the first ones stand
/// those before the marker, once it is passed.
#[macro_export]
macro_rules! alternative_bounds_in_turn {
    ([] $done:tt) => { $crate::alternative_bounds_in_turn!([$done] []) };
    ([[$($root:tt)*]] [$($done:tt)*]) => {
        $crate::Bounds { lists: &$crate::BoundLists { root: &[$($root)*], added: &[$($done)*] } }
    };
    ([] $done:tt ...; $($rest:tt)*) => { $crate::alternative_bounds_in_turn!([$done] [] $($rest)*) };
    ($root:tt [$($done:tt)*] $tag:literal $name:literal $variant:ident; $($rest:tt)*) => {
        $crate::alternative_bounds_in_turn!($root [$($done)* &[],] $($rest)*)
    };
    ($root:tt [$($done:tt)*]
        $tag:literal $name:literal $variant:ident: $type:tt [$($bounds:tt)*]; $($rest:tt)*
    ) => {
        $crate::alternative_bounds_in_turn!($root [
            $($done)* $crate::bounds_of_type!($name $type $($bounds)*),
        ] $($rest)*)
    };
    ($root:tt [$($done:tt)*]
        $tag:literal $name:literal $variant:ident: $type:ty [$($bounds:tt)*]; $($rest:tt)*
    ) => {
        $crate::alternative_bounds_in_turn!($root [
            $($done)* $crate::before_default!($name [] $($bounds)*),
        ] $($rest)*)
    };
    ($root:tt $done:tt $($list:tt)*) => { $crate::wrong_alternative!($($list)*) };
}

/// Where the alternative of a list stands that is chosen.
#[macro_export]
macro_rules! place_of_alternative {
    ([$of:ident] $($list:tt)*) => { $crate::with_places!(places_of_alternatives Root [$of]; $($list)*) };
}

/// The alternatives of a list and where each stands, after those that are done.
#[macro_export]
macro_rules! places_of_alternatives {
    ($places:tt $side:ident [$of:ident $($done:tt)*];) => { match $of { $($done)* } };
    ($places:tt $side:ident $done:tt; ...; $($rest:tt)*) => {
        $crate::with_places!(places_of_alternatives Added $done; $($rest)*)
    };
    ([$place:literal $($places:tt)*] $side:ident [$of:ident $($done:tt)*];
        $tag:tt $(of $tree:ident)? $name:literal $variant:ident; $($rest:tt)*
    ) => {
        $crate::places_of_alternatives!([$($places)*] $side [$of $($done)*
            Self::$variant => $crate::Place::$side($place),
        ]; $($rest)*)
    };
    ([$place:literal $($places:tt)*] $side:ident [$of:ident $($done:tt)*];
        $tag:tt $(of $tree:ident)? $name:literal $variant:ident: $type:ty [$($bounds:tt)*]; $($rest:tt)*
    ) => {
        $crate::places_of_alternatives!([$($places)*] $side [$of $($done)*
            Self::$variant(_) => $crate::Place::$side($place),
        ]; $($rest)*)
    };
}

/// Writes the value of the alternative of a list that is chosen. Their constraints are in the constant `BOUNDS`.
#[macro_export]
macro_rules! encode_alternative {
    ([$of:ident $encoder:ident] $($list:tt)*) => {{
        $crate::own_tags::stand_in_order::<Self>();
        let limits = BOUNDS;
        $crate::with_places!(alternatives_to_write write [$of $encoder limits]; $($list)*)
    }};
}

/// Reads the alternative of a list that is at a place. Their constraints are in the constant `BOUNDS`.
#[macro_export]
macro_rules! decode_alternative {
    ([$decoder:ident $place:ident] $($list:tt)*) => {{
        let limits = BOUNDS;
        $crate::alternatives_on_sides!([$decoder $place limits] []; $($list)*)
    }};
}

/// The alternatives of a list to write, after those that are done.
#[macro_export]
macro_rules! alternatives_to_write {
    ($places:tt $write:ident [$of:ident $encoder:ident $limits:ident $($done:tt)*];) => {
        match $of { $($done)* }
    };
    ($places:tt $write:ident $done:tt; ...; $($rest:tt)*) => {
        $crate::with_places!(alternatives_to_write write_after $done; $($rest)*)
    };
    ([32 $($places:tt)*] $write:ident $done:tt; $($rest:tt)+) => {
        compile_error!("a list has at most 32 alternatives on either side of its marker")
    };
    ([$place:literal $($places:tt)*] $write:ident [$of:ident $encoder:ident $limits:ident $($done:tt)*];
        $tag:literal $name:literal $variant:ident; $($rest:tt)*
    ) => {
        $crate::alternatives_to_write!([$($places)*] $write [$of $encoder $limits
            $($done)*
            Self::$variant => $crate::by_place::$write(
                $of, $place, $crate::context_tag!($tag), $limits, &(), $encoder,
            ),
        ]; $($rest)*)
    };
    ([$place:literal $($places:tt)*] $write:ident [$of:ident $encoder:ident $limits:ident $($done:tt)*];
        $tag:literal $name:literal $variant:ident: $type:ty [$($bounds:tt)*]; $($rest:tt)*
    ) => {
        $crate::alternatives_to_write!([$($places)*] $write [$of $encoder $limits
            $($done)*
            Self::$variant(value) => $crate::by_place::$write::<Self, $type, _>(
                $of, $place, $crate::context_tag!($tag), $limits, value, $encoder,
            ),
        ]; $($rest)*)
    };
}

/// The alternatives to read of a list, by the side of the marker on which one stands, after those before it.
#[macro_export]
macro_rules! alternatives_on_sides {
    ([$decoder:ident $place:ident $limits:ident] [$($root:tt)+]; $(...;)?) => {{
        let index = $crate::by_place::index_before::<Self>($place);
        $crate::with_places!(alternatives_to_read read [$decoder $limits index]; $($root)+)
    }};
    ([$decoder:ident $place:ident $limits:ident] [$($root:tt)+]; ...; $($added:tt)+) => {
        match $place {
            $crate::Place::Root(index) => {
                $crate::with_places!(alternatives_to_read read [$decoder $limits index]; $($root)+)
            }
            $crate::Place::Added(index) => {
                $crate::with_places!(alternatives_to_read read_after [$decoder $limits index]; $($added)+)
            }
        }
    };
    ($with:tt [$($root:tt)*];
        $tag:tt $(of $tree:ident)? $name:literal $variant:ident $(: $type:ty [$($bounds:tt)*])?; $($rest:tt)*
    ) => {
        $crate::alternatives_on_sides!($with [
            $($root)* $tag $(of $tree)? $name $variant $(: $type [$($bounds)*])?;
        ]; $($rest)*)
    };
}

/// The alternatives to read of one side of a marker, or of a list without one, after those that are done.
#[macro_export]
macro_rules! alternatives_to_read {
    ([$last:literal $($places:tt)*] $read:ident [$decoder:ident $limits:ident $index:ident $($done:tt)*];
        $tag:tt $(of $tree:ident)? $name:literal $variant:ident $(: $type:ty [$($bounds:tt)*])?;
    ) => {
        match $index {
            $($done)*
            _ => {
                $crate::by_place::is_last($index, $last);
                $crate::alternative_to_read!($decoder $tag $limits $read $last $variant $($type)?)
            }
        }
    };
    ([$next:literal $($places:tt)*] $read:ident [$decoder:ident $limits:ident $index:ident $($done:tt)*];
        $tag:tt $(of $tree:ident)? $name:literal $variant:ident $(: $type:ty [$($bounds:tt)*])?; $($rest:tt)+
    ) => {
        $crate::alternatives_to_read!([$($places)*] $read [$decoder $limits $index
            $($done)*
            $next => $crate::alternative_to_read!($decoder $tag $limits $read $next $variant $($type)?),
        ]; $($rest)+)
    };
}

/// The alternative at a place, to read, by a function for those before the marker or after it.
#[macro_export]
macro_rules! alternative_to_read {
    ($decoder:ident $tag:tt $limits:ident $read:ident $place:literal $variant:ident) => {{
        $crate::by_place::$read::<(), _>($decoder, $crate::own_tag!($tag), $limits, $place)?;
        Ok(Self::$variant)
    }};
    ($decoder:ident $tag:tt $limits:ident $read:ident $place:literal $variant:ident $type:ty) => {{
        let value = $crate::by_place::$read::<$type, _>($decoder, $crate::own_tag!($tag), $limits, $place)?;
        Ok(Self::$variant(value))
    }};
}
