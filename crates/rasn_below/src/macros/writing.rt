//! How the components of a list are written: `encode_components`, and the macros that it is made of.

/// Writes the components of a list in turn, and then gives its additions. Their fields are those that the record states
/// as its `COMPONENTS`, their constraints are in the constant `BOUNDS`.
#[macro_export]
macro_rules! encode_components {
    ([$of:ident $encoder:ident] $(
        $presence:ident $tag:tt $(of $tree:ident)? $name:literal
        $field:ident: $type:ty [$($bounds:tt)*];
    )* $(...;)?) => {
        $crate::write_components!([$of $encoder] $([$presence $field [$($bounds)*]])*)
    };
    ([$of:ident $encoder:ident] $(
        $presence:ident $tag:tt $(of $tree:ident)? $name:literal
        $field:ident: $type:ty [$($bounds:tt)*];
    )* ...; $($behind:tt)*) => {
        $crate::write::extended(
            $of,
            &$crate::of_record!($crate::components_to_write!($of $([$presence $field [$($bounds)*]])*)),
            &$crate::added_to!($crate::additions_to_write!($of $($behind)*)),
            $encoder,
        )
    };
}

/// Writes the components of a list as `encode_components` does, each also stated by itself: put it in the place of
/// `encode_components` where the check refuses that.
#[macro_export]
macro_rules! encode_each_component {
    ([$of:ident $encoder:ident] $($list:tt)*) => {{
        $crate::with_places!(stated_to_write [$of]; $($list)*);
        $crate::encode_components!([$of $encoder] $($list)*)
    }};
}

/// Writes components in turn, each its presence, its field and its constraints in brackets: four at most, or sixteen
/// that are required and then others, in one call.
#[macro_export]
macro_rules! write_components {
    ([$of:ident $encoder:ident] [$a:ident $a_field:ident $a_bounds:tt]) => {
        $crate::few::one_to_write(
            $of,
            $crate::component!($a $a_bounds, &$of.$a_field),
            BOUNDS,
            $encoder,
        )
    };
    ([$of:ident $encoder:ident] [$a:ident $a_field:ident $a_bounds:tt] [$b:ident $b_field:ident $b_bounds:tt]) => {
        $crate::few::two_to_write(
            $of,
            $crate::component!($a $a_bounds, &$of.$a_field),
            $crate::component!($b $b_bounds, &$of.$b_field),
            BOUNDS,
            $encoder,
        )
    };
    ([$of:ident $encoder:ident]
        [$a:ident $a_field:ident $a_bounds:tt] [$b:ident $b_field:ident $b_bounds:tt]
        [$c:ident $c_field:ident $c_bounds:tt]
    ) => {
        $crate::few::three_to_write(
            $of,
            $crate::component!($a $a_bounds, &$of.$a_field),
            $crate::component!($b $b_bounds, &$of.$b_field),
            $crate::component!($c $c_bounds, &$of.$c_field),
            BOUNDS,
            $encoder,
        )
    };
    ([$of:ident $encoder:ident]
        [$a:ident $a_field:ident $a_bounds:tt] [$b:ident $b_field:ident $b_bounds:tt]
        [$c:ident $c_field:ident $c_bounds:tt] [$d:ident $d_field:ident $d_bounds:tt]
    ) => {
        $crate::few::four_to_write(
            $of,
            $crate::component!($a $a_bounds, &$of.$a_field),
            $crate::component!($b $b_bounds, &$of.$b_field),
            $crate::component!($c $c_bounds, &$of.$c_field),
            $crate::component!($d $d_bounds, &$of.$d_field),
            BOUNDS,
            $encoder,
        )
    };
    ([$of:ident $encoder:ident]
        [required $a:ident $a_bounds:tt] [required $b:ident $b_bounds:tt] [required $c:ident $c_bounds:tt]
        [required $d:ident $d_bounds:tt] [required $e:ident $e_bounds:tt] [required $f:ident $f_bounds:tt]
        [required $g:ident $g_bounds:tt] [required $h:ident $h_bounds:tt] [required $i:ident $i_bounds:tt]
        [required $j:ident $j_bounds:tt] [required $k:ident $k_bounds:tt] [required $l:ident $l_bounds:tt]
        [required $m:ident $m_bounds:tt] [required $n:ident $n_bounds:tt] [required $o:ident $o_bounds:tt]
        [required $p:ident $p_bounds:tt]
        $($rest:tt)*
    ) => {
        $crate::sixteen::write(
            $of,
            &$of.$a, &$of.$b, &$of.$c, &$of.$d, &$of.$e, &$of.$f, &$of.$g, &$of.$h,
            &$of.$i, &$of.$j, &$of.$k, &$of.$l, &$of.$m, &$of.$n, &$of.$o, &$of.$p,
            &$crate::components_to_write!($of $($rest)*),
            &BOUNDS,
            $encoder,
        )
    };
    ([$of:ident $encoder:ident] $($list:tt)*) => {
        $crate::write::without_additions(
            $of,
            &$crate::of_record!($crate::components_to_write!($of $($list)*)),
            $encoder,
        )
    };
}

/// The components of a list as cells to write.
#[macro_export]
macro_rules! cells_to_write {
    ($of:ident $(
        $presence:ident $tag:tt $(of $tree:ident)? $name:literal
        $field:ident: $type:ty [$($bounds:tt)*];
    )*) => {
        $crate::components_to_write!($of $([$presence $field [$($bounds)*]])*)
    };
}

/// Components as cells to write, each its presence, its field and its constraints in brackets.
#[macro_export]
macro_rules! components_to_write {
    ($of:ident) => { $crate::cells::End {} };
    ($of:ident [$a:ident $a_field:ident $a_bounds:tt] [$b:ident $b_field:ident $b_bounds:tt]
        [$c:ident $c_field:ident $c_bounds:tt] [$d:ident $d_field:ident $d_bounds:tt] $($rest:tt)*
    ) => {
        $crate::fours::FourCells {
            first: $crate::component!($a $a_bounds, &$of.$a_field),
            second: $crate::component!($b $b_bounds, &$of.$b_field),
            third: $crate::component!($c $c_bounds, &$of.$c_field),
            fourth: $crate::component!($d $d_bounds, &$of.$d_field),
            next: $crate::components_to_write!($of $($rest)*),
        }
    };
    ($of:ident [$presence:ident $field:ident $bounds:tt] $($rest:tt)*) => {
        $crate::cell!($presence $bounds, &$of.$field, $crate::components_to_write!($of $($rest)*))
    };
}

/// The additions of a list as cells to write.
#[macro_export]
macro_rules! additions_to_write {
    ($of:ident) => { $crate::cells::End {} };
    ($of:ident
        $presence:ident $tag:tt $(of $tree:ident)? $name:literal
        $field:ident: $type:ty [$($bounds:tt)*]; $($rest:tt)*
    ) => {
        $crate::cell!(
            $presence [$($bounds)*],
            &$of.$field,
            $crate::additions_to_write!($of $($rest)*)
        )
    };
}

/// The components of a list to write, each that is required stated at its place.
#[macro_export]
macro_rules! stated_to_write {
    ($places:tt [$of:ident];) => { () };
    ($places:tt [$of:ident]; ...; $($behind:tt)*) => { () };
    ([$place:literal $($places:tt)*] [$of:ident];
        optional $tag:tt $(of $tree:ident)? $name:literal $field:ident: $type:ty [$($bounds:tt)*]; $($rest:tt)*
    ) => { $crate::stated_to_write!([$($places)*] [$of]; $($rest)*) };
    ([$place:literal $($places:tt)*] [$of:ident];
        default $tag:tt $(of $tree:ident)? $name:literal $field:ident: $type:ty [$($bounds:tt)*]; $($rest:tt)*
    ) => { $crate::stated_to_write!([$($places)*] [$of]; $($rest)*) };
    ([$place:literal $($places:tt)*] [$of:ident];
        required $tag:ident $(of $tree:ident)? $name:literal $field:ident: $type:ty [$($bounds:tt)*]; $($rest:tt)*
    ) => { $crate::stated_to_write!([$($places)*] [$of]; $($rest)*) };
    ([$place:literal $($places:tt)*] [$of:ident];
        required [$($tag:tt)*] $(of $tree:ident)? $name:literal
        $field:ident: $type:ty [$($bounds:tt)*]; $($rest:tt)*
    ) => { $crate::stated_to_write!([$($places)*] [$of]; $($rest)*) };
    ([$place:literal $($places:tt)*] [$of:ident];
        $presence:ident $tag:tt $(of $tree:ident)? $name:literal
        $field:ident: $type:ty [$($bounds:tt)*]; $($rest:tt)*
    ) => {{
        let $field = $crate::write::component::<Self, $type>($of, $place, $tag, BOUNDS.lists.root, &$of.$field);
        let _ = $field;
        $crate::stated_to_write!([$($places)*] [$of]; $($rest)*)
    }};
}
