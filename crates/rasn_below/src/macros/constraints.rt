//! What a list of components says of constraints: `bounds` and `constraints`, and the macros that they are made of.

/// The constraints of a list of components, as `Bounds`.
#[macro_export]
macro_rules! bounds {
    ([] $($list:tt)*) => { $crate::bounds_in_turn!([] [] $($list)*) };
}

/// The constraints of components in turn, in the second brackets after those that are done; in the first ones stand
/// those before the marker, once it is passed.
#[macro_export]
macro_rules! bounds_in_turn {
    ([] $done:tt) => { $crate::bounds_in_turn!([$done] []) };
    ([[$($root:tt)*]] [$($done:tt)*]) => {
        $crate::Bounds { lists: &$crate::BoundLists { root: &[$($root)*], added: &[$($done)*] } }
    };
    ([] $done:tt ...; $($rest:tt)*) => { $crate::bounds_in_turn!([$done] [] $($rest)*) };
    ($root:tt [$($done:tt)*]
        $presence:ident $tag:tt $(of $tree:ident)? $name:literal
        $field:ident: $type:tt [$($bounds:tt)*]; $($rest:tt)*
    ) => {
        $crate::bounds_in_turn!($root [$($done)* $crate::bounds_of_type!($name $type $($bounds)*),] $($rest)*)
    };
    ($root:tt [$($done:tt)*]
        $presence:ident $tag:tt $(of $tree:ident)? $name:literal
        $field:ident: Option<$type:tt> [$($bounds:tt)*]; $($rest:tt)*
    ) => {
        $crate::bounds_in_turn!($root [$($done)* $crate::bounds_of_type!($name $type $($bounds)*),] $($rest)*)
    };
    ($root:tt [$($done:tt)*]
        $presence:ident $tag:tt $(of $tree:ident)? $name:literal
        $field:ident: $type:ty [$($bounds:tt)*]; $($rest:tt)*
    ) => {
        $crate::bounds_in_turn!($root [$($done)* $crate::before_default!($name [] $($bounds)*),] $($rest)*)
    };
    ($root:tt $done:tt $($list:tt)*) => { $crate::wrong_line!($($list)*) };
}

/// The constraints in the brackets of this name, of a type. After an extension marker a number may be any, so a number
/// type of the machine has none.
#[macro_export]
macro_rules! bounds_of_type {
    ($name:literal u8 $($bounds:tt)*) => { $crate::unmarked_bounds!($name [] $($bounds)*) };
    ($name:literal u16 $($bounds:tt)*) => { $crate::unmarked_bounds!($name [] $($bounds)*) };
    ($name:literal u32 $($bounds:tt)*) => { $crate::unmarked_bounds!($name [] $($bounds)*) };
    ($name:literal u64 $($bounds:tt)*) => { $crate::unmarked_bounds!($name [] $($bounds)*) };
    ($name:literal i8 $($bounds:tt)*) => { $crate::unmarked_bounds!($name [] $($bounds)*) };
    ($name:literal i16 $($bounds:tt)*) => { $crate::unmarked_bounds!($name [] $($bounds)*) };
    ($name:literal i32 $($bounds:tt)*) => { $crate::unmarked_bounds!($name [] $($bounds)*) };
    ($name:literal i64 $($bounds:tt)*) => { $crate::unmarked_bounds!($name [] $($bounds)*) };
    ($name:literal i128 $($bounds:tt)*) => { $crate::unmarked_bounds!($name [] $($bounds)*) };
    ($name:literal $type:tt $($bounds:tt)*) => { $crate::before_default!($name [] $($bounds)*) };
}

/// The constraints in the brackets of this name, which have no extension marker, after what is done of them.
#[macro_export]
macro_rules! unmarked_bounds {
    ($name:literal [$($done:tt)*]) => { $crate::before_default!($name [] $($done)*) };
    ($name:literal [$($done:tt)*], ... $($rest:tt)*) => {
        compile_error!(concat!(
            "`", $name, "` has an extension marker, so a newer peer may send any number: its type is `Integer`"
        ))
    };
    ($name:literal [$($done:tt)*] $next:tt $($rest:tt)*) => {
        $crate::unmarked_bounds!($name [$($done)* $next] $($rest)*)
    };
}

/// The constraints in brackets, as `&[Constraint]`: none; the bounds of a value (X.680 51.2, 51.4); SIZE and the bounds
/// of a size (X.680 51.5), and FROM and a constant of characters (X.680 51.7), alone or both.
#[macro_export]
macro_rules! constraints {
    ($($constraints:tt)*) => { $crate::before_default!("constraints" [] $($constraints)*) };
}

/// The constraints in the brackets of this name, before a default, after those that are done.
#[macro_export]
macro_rules! before_default {
    ($name:literal [$($done:tt)*]) => { $crate::constraint_list!($name $($done)*) };
    ($name:literal [$($done:tt)*] DEFAULT $($default:tt)+) => { $crate::constraint_list!($name $($done)*) };
    ($name:literal [$($done:tt)*] $next:tt $($rest:tt)*) => {
        $crate::before_default!($name [$($done)* $next] $($rest)*)
    };
}

/// The constraints in the brackets of this name, which have no default.
#[macro_export]
macro_rules! constraint_list {
    ($name:literal) => { &[] };
    ($name:literal RECURSIVE) => { &[] };
    ($name:literal RECURSIVE, $($bounds:tt)+) => { $crate::constraint_list!($name $($bounds)+) };
    ($name:literal FROM $alphabet:ident) => { &[$crate::permitted!($alphabet)] };
    ($name:literal FROM $alphabet:ident, ...) => {
        compile_error!(concat!("leave out the FROM of `", $name, "`: PER sees none with a marker (X.691 10.3.12)"))
    };
    ($name:literal FROM $alphabet:ident, SIZE $($size:tt)+) => {
        &[$crate::permitted!($alphabet), $crate::Constraint::Size($crate::bounded!($name $($size)+))]
    };
    ($name:literal SIZE $($size:tt)+) => { $crate::size_first!($name [] $($size)+) };
    ($name:literal $($bounds:tt)+) => { &[$crate::Constraint::Value($crate::bounded!($name $($bounds)+))] };
}

/// A size, alone or before a permitted alphabet, after what is done of it.
#[macro_export]
macro_rules! size_first {
    ($name:literal [$($size:tt)+]) => { &[$crate::Constraint::Size($crate::bounded!($name $($size)+))] };
    ($name:literal [$($size:tt)+], FROM $alphabet:ident) => {
        &[$crate::Constraint::Size($crate::bounded!($name $($size)+)), $crate::permitted!($alphabet)]
    };
    ($name:literal [$($size:tt)*] $next:tt $($rest:tt)*) => {
        $crate::size_first!($name [$($size)* $next] $($rest)*)
    };
}

/// The default after the constraints of a component.
#[macro_export]
macro_rules! default_of {
    () => { compile_error!("a component that is `default` has `DEFAULT value` in its brackets") };
    (DEFAULT $default:expr) => { $default };
    ($next:tt $($rest:tt)*) => { $crate::default_of!($($rest)*) };
}

/// The permitted alphabet of a constant of characters, `&[u32]` in ascending order.
#[macro_export]
macro_rules! permitted {
    ($alphabet:ident) => {
        $crate::Constraint::PermittedAlphabet($crate::Extensible {
            constraint: $alphabet,
            extensible: false,
        })
    };
}

/// Bounds in the brackets of this name: `low..=high`, `low..`, `..=high` or `value`, each with `, ...` where they are
/// extensible (X.680 52). MIN and MAX stand for no bound.
#[macro_export]
macro_rules! bounded {
    ($name:literal MIN ..= MAX $(, $mark:tt)?) => { $crate::bounded!(@ None, None, $($mark)?) };
    ($name:literal MIN ..= $high:literal $(, $mark:tt)?) => { $crate::bounded!(@ None, Some($high), $($mark)?) };
    ($name:literal $low:literal ..= MAX $(, $mark:tt)?) => { $crate::bounded!(@ Some($low), None, $($mark)?) };
    ($name:literal $low:literal ..= $high:literal $(, $mark:tt)?) => {
        $crate::bounded!(@ Some($low), Some($high), $($mark)?)
    };
    ($name:literal $low:literal .. $(, $mark:tt)?) => { $crate::bounded!(@ Some($low), None, $($mark)?) };
    ($name:literal ..= $high:literal $(, $mark:tt)?) => { $crate::bounded!(@ None, Some($high), $($mark)?) };
    ($name:literal $only:literal $(, $mark:tt)?) => { $crate::bounded!(@ Some($only), Some($only), $($mark)?) };
    (@ $low:expr, $high:expr, $($mark:tt)?) => {
        $crate::Extensible {
            constraint: $crate::Bounded::Range { start: $low, end: $high },
            extensible: $crate::is_marked!($($mark)?),
        }
    };
    ($name:literal $($other:tt)*) => {
        compile_error!(concat!(
            "the bounds of `", $name, "` are `low..=high`, `low..`, `..=high` or `value`, not `",
            stringify!($($other)*), "`"
        ))
    };
}

/// Whether there is a mark.
#[macro_export]
macro_rules! is_marked {
    () => { false };
    (...) => { true };
}
