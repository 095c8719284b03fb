//! What an author's list of alternatives is handed to whose tags are written, or are their types' own (X.680 29).
//!
//! The list is as one with automatic tags, but a line begins with the tag of its alternative: the number of a
//! context-specific one, `[APPLICATION 1]` or `[PRIVATE 1]`, or the name of a constant of `Tag`, for an alternative
//! under its type's own. One that is an untagged CHOICE has the smallest of its tags, and behind `of` a constant of all
//! of them, as `own_tags_of_choice` or `tags_of_choice` gives it. Those before the extension marker are in ascending
//! order of these tags (X.691 23.5).
//!
//! ```text
//! macro_rules! alternatives {
//!     ($to:ident $($with:ident)*) => {
//!         $to! { [$($with)*]
//!             SEQUENCE "record" Record: Pair [];
//!             0 of INNER_TAGS "inner" Inner: Inner [];
//!             2 "last" Last;
//!         }
//!     };
//! }
//! ```
//!
//! `own_variants`, `own_tags_of_choice`, `own_alternative_bounds` and `encode_own_alternative` are for authors, beside
//! `place_of_alternative` and `decode_own_alternative`. What the others write is part of these.

ghost use Rattle.std.specs.Prelude.{◌≡◌, true};
ghost use Rattle.rasn_schema.specs.Choices.{go_by};
ghost use Rattle.rasn_below.specs.OwnTags.{ascend};

use rasn_schema::alternatives::Alternatives;

/// The alternatives before the extension marker are in ascending order of the tags by which they go, which is that of
/// their indexes (X.691 23.5).
#[inline(always)]
pub fn stand_in_order<T: Alternatives>()
    requires { ascend (go_by T.ALTERNATIVES.before) ≡ true }
{}

/// The tags and names of the alternatives of a list, as `VariantLists`.
#[macro_export]
macro_rules! own_variants {
    ([] $($list:tt)*) => { $crate::own_trees!(own_variant_lists [] [] [] $($list)*) };
}

/// The tags of the root alternatives of a list, as the `TagTree` of an untagged choice.
#[macro_export]
macro_rules! own_tags_of_choice {
    ([] $($list:tt)*) => { $crate::own_trees!(own_choice_tree [] [] [] $($list)*) };
}

/// The constraints of the alternatives of a list, as `Bounds`.
#[macro_export]
macro_rules! own_alternative_bounds {
    ([] $($list:tt)*) => { $crate::without_tags!(alternative_bounds [] []; $($list)*) };
}

/// Writes the alternative of a list that is chosen. Their constraints are in the constant `BOUNDS`.
#[macro_export]
macro_rules! encode_own_alternative {
    ([$of:ident $encoder:ident] $($list:tt)*) => {{
        $crate::own_tags::stand_in_order::<Self>();
        let limits = BOUNDS;
        $crate::with_places!(own_alternatives_to_write write [$of $encoder limits]; $($list)*)
    }};
}

/// Reads the alternative of a list that is at a place. Their constraints are in the constant `BOUNDS`.
#[macro_export]
macro_rules! decode_own_alternative {
    ($with:tt $($list:tt)*) => { $crate::decode_alternative!($with $($list)*) };
}

/// A tag: a context-specific one by its number, one of another class as ASN.1 writes it, as `[APPLICATION 1]`, or one
/// of a constant of `Tag` (X.680 8.4, 31.2).
#[macro_export]
macro_rules! own_tag {
    ($number:literal) => { $crate::context_tag!($number) };
    ([APPLICATION $number:literal]) => { $crate::Tag { class: $crate::Class::Application, value: $number } };
    ([PRIVATE $number:literal]) => { $crate::Tag { class: $crate::Class::Private, value: $number } };
    ($kind:ident) => { $crate::Tag::$kind };
}

/// The names and the trees of the alternatives of a list, in the first and the third brackets after those that are
/// done, for a callback; in the second ones stand the trees before the marker, once it is passed.
#[macro_export]
macro_rules! own_trees {
    ($to:ident $names:tt $root:tt $done:tt) => { $crate::$to!($names $root $done) };
    ($to:ident $names:tt [] $done:tt ...; $($rest:tt)*) => {
        $crate::own_trees!($to $names [$done] [] $($rest)*)
    };
    ($to:ident [$($names:tt)*] $root:tt [$($done:tt)*]
        $tag:tt $(of $tree:ident)? $name:literal $variant:ident $(: $type:ty [$($bounds:tt)*])?; $($rest:tt)*
    ) => {
        $crate::own_trees!($to [$($names)* $name,] $root [$($done)* $crate::tag_tree!($tag $($tree)?),] $($rest)*)
    };
    ($to:ident $names:tt $root:tt $done:tt $($list:tt)*) => { $crate::wrong_own_alternative!($($list)*) };
}

/// The names of alternatives and their tags, before a marker and after it, as `VariantLists`.
#[macro_export]
macro_rules! own_variant_lists {
    ([$($names:tt)*] [] [$($done:tt)*]) => {
        $crate::VariantLists { root: &[$($done)*], added: None, identifiers: &[$($names)*] }
    };
    ([$($names:tt)*] [[$($root:tt)*]] [$($done:tt)*]) => {
        $crate::VariantLists { root: &[$($root)*], added: Some(&[$($done)*]), identifiers: &[$($names)*] }
    };
}

/// The tags of alternatives before a marker, as those of an untagged choice.
#[macro_export]
macro_rules! own_choice_tree {
    ($names:tt [] [$($done:tt)*]) => { $crate::TagTree::Choice(&[$($done)*]) };
    ($names:tt [[$($root:tt)*]] $behind:tt) => { $crate::TagTree::Choice(&[$($root)*]) };
}

/// Says which line of a list of alternatives is the first that isn't in its form.
#[macro_export]
macro_rules! wrong_own_alternative {
    ($tag:tt $(of $tree:ident)? $name:literal $($rest:tt)*) => {
        compile_error!(concat!(
            "the line of `", $name, "` isn't `tag \"name\" Variant: Type [constraints];` or `tag \"name\" Variant;`"
        ))
    };
    ($first:tt $($rest:tt)*) => {
        compile_error!(concat!(
            "a line is `tag \"name\" Variant: Type [constraints];`, where one begins with `", stringify!($first),
            "`, and a list has one marker `...;` at most"
        ))
    };
}

/// Hands the lines of a list on with 0 in the place of each tag, after those that are done.
#[macro_export]
macro_rules! without_tags {
    ($to:ident $with:tt [$($done:tt)*];) => { $crate::$to!($with $($done)*) };
    ($to:ident $with:tt [$($done:tt)*]; ...; $($rest:tt)*) => {
        $crate::without_tags!($to $with [$($done)* ...;]; $($rest)*)
    };
    ($to:ident $with:tt [$($done:tt)*]; $tag:tt $(of $tree:ident)? $name:literal $variant:ident; $($rest:tt)*) => {
        $crate::without_tags!($to $with [$($done)* 0 $name $variant;]; $($rest)*)
    };
    ($to:ident $with:tt [$($done:tt)*];
        $tag:tt $(of $tree:ident)? $name:literal $variant:ident: $type:tt $bounds:tt; $($rest:tt)*
    ) => {
        $crate::without_tags!($to $with [$($done)* 0 $name $variant: $type $bounds;]; $($rest)*)
    };
    ($to:ident $with:tt [$($done:tt)*];
        $tag:tt $(of $tree:ident)? $name:literal $variant:ident: $type:ty [$($bounds:tt)*]; $($rest:tt)*
    ) => {
        $crate::without_tags!($to $with [$($done)* 0 $name $variant: $type [$($bounds)*];]; $($rest)*)
    };
    ($to:ident $with:tt $done:tt; $($list:tt)*) => { $crate::wrong_own_alternative!($($list)*) };
}

/// The alternatives of a list to write, after those that are done.
#[macro_export]
macro_rules! own_alternatives_to_write {
    ($places:tt $write:ident [$of:ident $encoder:ident $limits:ident $($done:tt)*];) => {
        match $of { $($done)* }
    };
    ($places:tt $write:ident $done:tt; ...; $($rest:tt)*) => {
        $crate::with_places!(own_alternatives_to_write write_after $done; $($rest)*)
    };
    ([32 $($places:tt)*] $write:ident $done:tt; $($rest:tt)+) => {
        compile_error!("a list has at most 32 alternatives on either side of its marker")
    };
    ([$place:literal $($places:tt)*] $write:ident [$of:ident $encoder:ident $limits:ident $($done:tt)*];
        $tag:tt $(of $tree:ident)? $name:literal $variant:ident; $($rest:tt)*
    ) => {
        $crate::own_alternatives_to_write!([$($places)*] $write [$of $encoder $limits
            $($done)*
            Self::$variant => $crate::by_place::$write(
                $of, $place, $crate::own_tag!($tag), $limits, &(), $encoder,
            ),
        ]; $($rest)*)
    };
    ([$place:literal $($places:tt)*] $write:ident [$of:ident $encoder:ident $limits:ident $($done:tt)*];
        $tag:tt $(of $tree:ident)? $name:literal $variant:ident: $type:ty [$($bounds:tt)*]; $($rest:tt)*
    ) => {
        $crate::own_alternatives_to_write!([$($places)*] $write [$of $encoder $limits
            $($done)*
            Self::$variant(value) => $crate::by_place::$write::<Self, $type, _>(
                $of, $place, $crate::own_tag!($tag), $limits, value, $encoder,
            ),
        ]; $($rest)*)
    };
}
