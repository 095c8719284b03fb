//! What an author's list of the defaults of a record's components is handed to, and a list's elements.
//!
//! A component has a line with the word of the record's own list, its field, the field's type, and in brackets its
//! default, or `ABSENT`; additions are behind `...;`.
//!
//! ```text
//! macro_rules! somewhere {
//!     ($to:ident $($with:ident)*) => {
//!         $to! { [$($with)*]
//!             required latitude: i32 [0];
//!             optional altitude: Option<u16> [ABSENT];
//!         }
//!     };
//! }
//! ```
//!
//! Of a CHOICE it is the alternative's place, its variant with the type of its value, and its default in brackets,
//! none of these where it has no value; and the patterns of the other variants.
//!
//! ```text
//! macro_rules! at_corner {
//!     ($to:ident $($with:ident)*) => {
//!         $to! { [$($with)*]
//!             1 Corner: ReferencePositionLite [Origin];
//!             Radius(_) | Everywhere
//!         }
//!     };
//! }
//! ```
//!
//! `elements`, `stands_for_record`, `made_record`, `alternative_stands_for`, `alternative_behind_stands_for` and
//! `alternative_made` are for authors. What the others write is part of these.

/// The list of these defaults of its elements, as a default of SEQUENCE OF.
#[macro_export]
macro_rules! elements {
    ($($element:expr),+ $(,)?) => { $crate::lists::Elements($crate::element_defaults!([$($element)+])) };
}

/// Defaults of elements, one after another.
#[macro_export]
macro_rules! element_defaults {
    ([]) => { $crate::lists::NoElements {} };
    ([$first:tt $($behind:tt)*]) => {
        $crate::lists::Element { default: $first, next: $crate::element_defaults!([$($behind)*]) }
    };
}

/// Whether a record is that of a list of defaults: the body of `stands_for`.
#[macro_export]
macro_rules! stands_for_record {
    ([$of:ident] $($presence:ident $field:ident: $type:ty [$($default:tt)+];)*) => {
        $crate::records::are_plain($of, &$crate::compared_parts!($of $([$presence $field [$($default)+]])*))
    };
    ([$of:ident] $($presence:ident $field:ident: $type:ty [$($default:tt)+];)*
        ...; $($added:ident $added_field:ident: $added_type:ty [$($added_default:tt)+];)*
    ) => {
        $crate::records::are_all(
            $of,
            &$crate::compared_parts!($of $([$presence $field [$($default)+]])*),
            &$crate::compared_parts!($of $([$added $added_field [$($added_default)+]])*),
        )
    };
}

/// Components beside their defaults.
#[macro_export]
macro_rules! compared_parts {
    ($of:ident) => { rasn_below::cells::End {} };
    ($of:ident [$presence:ident $field:ident $default:tt] $($rest:tt)*) => {
        $crate::parts::Part {
            field: &$of.$field,
            default: $crate::component_default!($presence $default),
            next: $crate::compared_parts!($of $($rest)*),
        }
    };
}

/// A record of a list of defaults, in memory of an allocator: the body of `made`.
#[macro_export]
macro_rules! made_record {
    ([$alloc:ident $of:ident] $($presence:ident $field:ident: $type:ty [$($default:tt)+];)*) => {{
        let root = $crate::made_parts!($([$presence [$type] [$($default)+]])*);
        let rasn_below::pairs!($($field)*) = $crate::parts::MadeParts::made(&root, $alloc)?;
        Ok($of { $($field),* })
    }};
    ([$alloc:ident $of:ident] $($presence:ident $field:ident: $type:ty [$($default:tt)+];)*
        ...; $($added:ident $added_field:ident: $added_type:ty [$($added_default:tt)+];)*
    ) => {{
        let root = $crate::made_parts!($([$presence [$type] [$($default)+]])*);
        let additions = $crate::made_parts!($([$added [$added_type] [$($added_default)+]])*);
        let rasn_below::pairs!($($field)*) = $crate::parts::MadeParts::made(&root, $alloc)?;
        let rasn_below::pairs!($($added_field)*) = $crate::parts::MadeParts::made(&additions, $alloc)?;
        Ok($of { $($field,)* $($added_field,)* })
    }};
}

/// Defaults of which components are made.
#[macro_export]
macro_rules! made_parts {
    () => { rasn_below::cells::End {} };
    ([$presence:ident [$type:ty] $default:tt] $($rest:tt)*) => {
        $crate::parts::Part {
            field: std::marker::PhantomData::<$type>,
            default: $crate::component_default!($presence $default),
            next: $crate::made_parts!($($rest)*),
        }
    };
}

/// What a component is in a default of its record.
#[macro_export]
macro_rules! component_default {
    (required [$default:expr]) => { $crate::components::Always($default) };
    (default [$default:expr]) => { $crate::components::Always($default) };
    (optional [ABSENT]) => { $crate::components::Absent {} };
    (optional [$default:expr]) => { $crate::components::Present($default) };
    (group [ABSENT]) => { $crate::components::AbsentGroup {} };
    (group [$default:expr]) => { $crate::components::PresentGroup($default) };
    ($other:ident $default:tt) => {
        compile_error!(concat!(
            "a component is `required`, `optional`, `default` or, behind `...;`, `group`, not `",
            stringify!($other), "`"
        ))
    };
}

/// Whether a choice is the alternative of a default, before the extension marker: the body of `stands_for`.
#[macro_export]
macro_rules! alternative_stands_for {
    ([$component:ident $of:ident] $place:literal $variant:ident: $type:ty [$default:expr];
        $($other:ident $(($any:tt))?)|+
    ) => {
        match $component {
            $of::$variant(value) => $crate::choices::is_default($component, $place, value, &$default),
            $($of::$other $(($any))? => $crate::choices::is_another(
                $component, $place, std::marker::PhantomData::<$type>, &$default,
            ),)+
        }
    };
    ([$component:ident $of:ident] $place:literal $variant:ident; $($other:ident $(($any:tt))?)|+) => {
        match $component {
            $of::$variant => $crate::choices::is_default($component, $place, &(), &$crate::nulls::Null),
            $($of::$other $(($any))? => $crate::choices::is_another(
                $component, $place, std::marker::PhantomData::<()>, &$crate::nulls::Null,
            ),)+
        }
    };
}

/// Whether a choice is the alternative of a default, after the extension marker: the body of `stands_for`.
#[macro_export]
macro_rules! alternative_behind_stands_for {
    ([$component:ident $of:ident] $place:literal $variant:ident: $type:ty [$default:expr];
        $($other:ident $(($any:tt))?)|+
    ) => {
        match $component {
            $of::$variant(value) => $crate::choices::is_default_after($component, $place, value, &$default),
            $($of::$other $(($any))? => $crate::choices::is_another_after(
                $component, $place, std::marker::PhantomData::<$type>, &$default,
            ),)+
        }
    };
}

/// The alternative of a default, in memory of an allocator: the body of `made`.
#[macro_export]
macro_rules! alternative_made {
    ([$alloc:ident $of:ident] $place:literal $variant:ident: $type:ty [$default:expr]; $($others:tt)+) => {
        Ok($of::$variant($crate::choices::value_of::<$type, _>(&$default, $alloc)?))
    };
    ([$alloc:ident $of:ident] $place:literal $variant:ident; $($others:tt)+) => {{
        let _ = $alloc;
        Ok($of::$variant)
    }};
}
