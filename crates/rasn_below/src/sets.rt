//! What an author's list of the components of a SET is handed to, beside `fields` and `bounds`. Its lines are those of
//! a SEQUENCE's list, and those of the root stand in ascending order of the components' smallest tags (X.680 8.6): the
//! order in which they are written (X.691 21.1).

/// Root components as cells, with the lists that state them.
#[macro_export]
macro_rules! listed {
    ($cells:expr) => {
        $crate::cells::Listed {
            fields: FIELDS.root,
            constraints: BOUNDS.lists.root,
            cells: $cells,
        }
    };
}

/// Additions as cells, with the lists that state them.
#[macro_export]
macro_rules! listed_additions {
    ($cells:expr) => {
        $crate::added::ListedAdditions {
            fields: FIELDS,
            constraints: BOUNDS.lists.added,
            cells: $cells,
        }
    };
}

/// Writes the root components of a list in turn, and then gives its additions. Their fields are in the constant
/// `FIELDS`, their constraints in `BOUNDS`.
#[macro_export]
macro_rules! encode_set_components {
    ([$of:ident $encoder:ident] $(
        $presence:ident $tag:tt $(of $tree:ident)? $name:literal
        $field:ident: $type:ty [$($bounds:tt)*];
    )* $(...; $($behind:tt)*)?) => {
        $crate::ordered::write_all(
            $of,
            &$crate::listed!($crate::components_to_write!($of $([$presence $field [$($bounds)*]])*)),
            &$crate::listed_additions!($crate::additions_to_write!($of $($($behind)*)?)),
            $encoder,
        )
    };
}

/// Reads the root components of a list in turn, and then its additions. Their fields are in the constant `FIELDS`,
/// their constraints in `BOUNDS`.
#[macro_export]
macro_rules! decode_set_components {
    ([$decoder:ident] $(
        $presence:ident $tag:tt $(of $tree:ident)? $name:literal
        $field:ident: $type:ty [$($bounds:tt)*];
    )* $(...; $(
        $added:ident $added_tag:tt $(of $added_tree:ident)? $added_name:literal
        $added_field:ident: $added_type:ty [$($added_bounds:tt)*];
    )*)?) => {{
        let root = $crate::listed!($crate::cells_to_read!($($presence $type [$($bounds)*];)*));
        let behind = $crate::listed_additions!(
            $crate::additions_to_read!($($($added $added_type [$($added_bounds)*];)*)?)
        );
        let ($crate::fours!($($field)*), $crate::pairs!($($($added_field)*)?)) =
            $crate::ordered::read_all::<Self, _, _, _>(&root, &behind, $decoder)?;
        Ok(Self { $($field,)* $($($added_field,)*)? })
    }};
}
