//! What an author's list of components or alternatives is handed to, where the type holds itself.
//!
//! A component or an alternative that holds the type itself, or another type that holds it, has the word `RECURSIVE` in
//! brackets, before its constraints, and is a box of that type, an `Option` of one, or a list.
//!
//! ```text
//! macro_rules! components {
//!     ($to:ident $($with:ident)*) => {
//!         $to! { [$($with)*]
//!             required 0 "value" value: u8 [0..=255];
//!             required 1 "children" children: Vec<Tree> [RECURSIVE];
//!         }
//!     };
//! }
//! ```
//!
//! `decode_record`, `encode_record`, `encode_holding_record`, `tags_of_alternatives`, `names_of_alternatives` and
//! `decode_recursive_alternative` are for authors. What the others write is part of these.

/// Writes a record of these components, whose type holds itself, under a tag and a name: the body of its `Encode`.
#[macro_export]
macro_rules! encode_record {
    ([$of:ident $encoder:ident $tag:ident $identifier:ident] $($list:tt)*) => {
        $encoder.encode_record::<Self, _, _, _>(
            $tag,
            &rasn_below::cells::Listed {
                fields: FIELDS.root,
                constraints: BOUNDS.lists.root,
                cells: rasn_below::cells_to_write!($of $($list)*),
            },
            &rasn_below::NoAdditions,
            $identifier,
        )
    };
}

/// Writes a record of these components, of which one is `required` and holds the type itself, under a tag and a name:
/// the body of its `Encode`. Where those that hold it are all `optional`, that is `encode_record`.
#[macro_export]
macro_rules! encode_holding_record {
    ([$of:ident $encoder:ident $tag:ident $identifier:ident] $(
        $presence:ident $number:literal $name:literal $field:ident: $type:ty [$($bounds:tt)*];
    )*) => {
        $crate::write::write_record::<Self, _, _, _, _>(
            &$crate::cells_beside_held!($of $([$presence $field [$($bounds)*]])*),
            $crate::held_component!($of $([$presence $field [$($bounds)*]])*),
            &BOUNDS,
            $encoder,
            $tag,
            $identifier,
        )
    };
}

/// Components as cells to write beside the one that holds the type.
#[macro_export]
macro_rules! cells_beside_held {
    ($of:ident) => { rasn_below::cells::End {} };
    ($of:ident [required $field:ident [RECURSIVE $($bounds:tt)*]] $($rest:tt)*) => {
        rasn_below::cells::Cell {
            component: $crate::write::Held {},
            next: $crate::cells_beside_held!($of $($rest)*),
        }
    };
    ($of:ident [$presence:ident $field:ident $bounds:tt] $($rest:tt)*) => {
        rasn_below::cells::Cell {
            component: $crate::read::Plain(rasn_below::component!($presence $bounds, &$of.$field)),
            next: $crate::cells_beside_held!($of $($rest)*),
        }
    };
}

/// The component that holds the type.
#[macro_export]
macro_rules! held_component {
    ($of:ident [required $field:ident [RECURSIVE $($bounds:tt)*]] $($rest:tt)*) => { &$of.$field };
    ($of:ident $first:tt $($rest:tt)*) => { $crate::held_component!($of $($rest)*) };
}

/// Reads a record of these components, which holds values of a type that `held` reads: the body of its `Holds`.
#[macro_export]
macro_rules! decode_record {
    ([$decoder:ident $tag:ident $held:ident $of:ident] $(
        $presence:ident $number:literal $name:literal $field:ident: $type:ty [$($bounds:tt)*];
    )*) => {{
        let cells = rasn_below::with_places!(holding_cells in $crate $([$presence $number [$type] [$($bounds)*]])*);
        let rasn_below::pairs!($($field)*) =
            $crate::read::record::<Self, $of, _, H, D, F>(&cells, $decoder, $tag, $held)?;
        Ok(Self { $($field),* })
    }};
}

/// Components as cells to read, each its presence, its tag, its type and its constraints in brackets, which are those
/// of its place in the constant `BOUNDS`.
#[macro_export]
macro_rules! holding_cells {
    ($places:tt) => { rasn_below::cells::End {} };
    ([$place:literal $($places:tt)*] [$presence:ident $number:literal [$type:ty] $bounds:tt] $($rest:tt)*) => {
        rasn_below::cells::Cell {
            component: $crate::read::Tagged {
                tag: rasn_below::context_tag!($number),
                constraints: BOUNDS.lists.root[$place],
                component: $crate::holding_component!($presence [$type] $bounds),
            },
            next: $crate::holding_cells!([$($places)*] $($rest)*),
        }
    };
}

/// One component to read.
#[macro_export]
macro_rules! holding_component {
    ($presence:ident [$type:ty] [RECURSIVE $($bounds:tt)*]) => {
        $crate::read::Holding(rasn_below::component!($presence [], std::marker::PhantomData::<$type>))
    };
    ($presence:ident [$type:ty] $bounds:tt) => {
        $crate::read::Plain(rasn_below::component!($presence $bounds, std::marker::PhantomData::<$type>))
    };
}

/// The tags of the alternatives of a list, of a CHOICE that holds itself.
#[macro_export]
macro_rules! tags_of_alternatives {
    ([] $($tag:literal $name:literal $variant:ident $(: $type:ty [$($bounds:tt)*])?;)*) => {
        &[$(rasn_below::TagTree::Leaf(rasn_below::context_tag!($tag))),*]
    };
    ([] $($list:tt)*) => { rasn_below::wrong_alternative!($($list)*) };
}

/// The names of the alternatives of a list, of a CHOICE that holds itself.
#[macro_export]
macro_rules! names_of_alternatives {
    ([] $($tag:literal $name:literal $variant:ident $(: $type:ty [$($bounds:tt)*])?;)*) => { &[$($name),*] };
    ([] $($list:tt)*) => { rasn_below::wrong_alternative!($($list)*) };
}

/// Reads the alternative of a list that goes by a tag, of a CHOICE which holds values of a type that `held` reads. The
/// constraints are in the constant `BOUNDS`.
#[macro_export]
macro_rules! decode_recursive_alternative {
    ([$decoder:ident $by:ident $held:ident $of:ident] $($list:tt)*) => {
        rasn_below::with_places!(recursive_alternatives in $crate [$decoder $by $held $of]; $($list)*)
    };
}

/// The alternatives to read, after those that are done.
#[macro_export]
macro_rules! recursive_alternatives {
    ([$place:literal $($places:tt)*] [$decoder:ident $by:ident $held:ident $of:ident $($done:tt)*];
        $tag:literal $name:literal $variant:ident $(: $type:ty [$($bounds:tt)*])?;
    ) => {
        match <Self as rasn_below::schema::Choice>::VARIANTS.index_of($by) {
            $($done)*
            _ => $crate::recursive_alternative!(
                $decoder $by $held $of $place $variant $([$type] [$($bounds)*])?
            ),
        }
    };
    ([$place:literal $($places:tt)*] [$decoder:ident $by:ident $held:ident $of:ident $($done:tt)*];
        $tag:literal $name:literal $variant:ident $(: $type:ty [$($bounds:tt)*])?; $($rest:tt)+
    ) => {
        $crate::recursive_alternatives!([$($places)*] [$decoder $by $held $of
            $($done)*
            Some($place) => $crate::recursive_alternative!(
                $decoder $by $held $of $place $variant $([$type] [$($bounds)*])?
            ),
        ]; $($rest)+)
    };
}

/// The alternative at a place, to read.
#[macro_export]
macro_rules! recursive_alternative {
    ($decoder:ident $by:ident $held:ident $of:ident $place:literal $variant:ident
        [$type:ty] [RECURSIVE]
    ) => {{
        let value = $crate::read::alternative::<$type, $of, H, D, F>($decoder, $by, $held)?;
        Ok(Self::$variant(value))
    }};
    ($decoder:ident $by:ident $held:ident $of:ident $place:literal $variant:ident) => {{
        rasn_below::by_place::read::<(), _>($decoder, $by, BOUNDS, $place)?;
        Ok(Self::$variant)
    }};
    ($decoder:ident $by:ident $held:ident $of:ident $place:literal $variant:ident [$type:ty] $bounds:tt) => {{
        let value = rasn_below::by_place::read::<$type, _>($decoder, $by, BOUNDS, $place)?;
        Ok(Self::$variant(value))
    }};
}
