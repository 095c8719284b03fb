//! How the components of a list are read: `decode_components`, and the macros that it is made of.

/// Reads the components of a list in turn, and then its additions. Their fields are those that the record states as its
/// `COMPONENTS`, their constraints are in the constant `BOUNDS`.
#[macro_export]
macro_rules! decode_components {
    ([$decoder:ident] $(
        $presence:ident $tag:tt $(of $tree:ident)? $name:literal
        $field:ident: $type:ty [$($bounds:tt)*];
    )*) => {
        $crate::read_components!([$decoder] $([$presence $field [$type] [$($bounds)*]])*)
    };
    ([$decoder:ident] $(
        $presence:ident $tag:tt $(of $tree:ident)? $name:literal
        $field:ident: $type:ty [$($bounds:tt)*];
    )* ...; $(
        $added:ident $added_tag:tt $(of $added_tree:ident)? $added_name:literal
        $added_field:ident: $added_type:ty [$($added_bounds:tt)*];
    )*) => {{
        let root = $crate::cells_to_read!($($presence $type [$($bounds)*];)*);
        let behind = $crate::added_to!($crate::additions_to_read!($($added $added_type [$($added_bounds)*];)*));
        let ($crate::fours!($($field)*), $crate::pairs!($($added_field)*)) =
            $crate::read::all::<Self, _, _, _>(&root, BOUNDS.lists.root, &behind, $decoder)?;
        Ok(Self { $($field,)* $($added_field,)* })
    }};
}

/// Reads the components of a list as `decode_components` does, each also stated by itself: put it in the place of
/// `decode_components` where the check refuses that.
#[macro_export]
macro_rules! decode_each_component {
    ([$decoder:ident] $($list:tt)*) => {{
        $crate::with_places!(stated_to_read []; $($list)*);
        let read: Result<Self, D::Error> = $crate::decode_components!([$decoder] $($list)*);
        let read = read?;
        $crate::with_places!(stated_as_read [read]; $($list)*);
        Ok(read)
    }};
}

/// Reads components in turn, each its presence, its field, its type and its constraints in brackets: four at most, or
/// sixteen that are required and then others, in one call.
#[macro_export]
macro_rules! read_components {
    ([$decoder:ident]
        [$a:ident $a_field:ident [$a_type:ty] $a_bounds:tt]
    ) => {
        match $crate::few::one_to_read::<Self, _, _>(
            $crate::component!($a $a_bounds, std::marker::PhantomData::<$a_type>),
            BOUNDS,
            $decoder,
        ) {
            Ok(read) => Ok(Self { $a_field: read }),
            Err(error) => Err(error),
        }
    };
    ([$decoder:ident]
        [$a:ident $a_field:ident [$a_type:ty] $a_bounds:tt]
        [$b:ident $b_field:ident [$b_type:ty] $b_bounds:tt]
    ) => {
        match $crate::few::two_to_read::<Self, _, _, _>(
            $crate::component!($a $a_bounds, std::marker::PhantomData::<$a_type>),
            $crate::component!($b $b_bounds, std::marker::PhantomData::<$b_type>),
            BOUNDS,
            $decoder,
        ) {
            Ok(read) => Ok(Self { $a_field: read.0, $b_field: read.1 }),
            Err(error) => Err(error),
        }
    };
    ([$decoder:ident]
        [$a:ident $a_field:ident [$a_type:ty] $a_bounds:tt]
        [$b:ident $b_field:ident [$b_type:ty] $b_bounds:tt]
        [$c:ident $c_field:ident [$c_type:ty] $c_bounds:tt]
    ) => {
        match $crate::few::three_to_read::<Self, _, _, _, _>(
            $crate::component!($a $a_bounds, std::marker::PhantomData::<$a_type>),
            $crate::component!($b $b_bounds, std::marker::PhantomData::<$b_type>),
            $crate::component!($c $c_bounds, std::marker::PhantomData::<$c_type>),
            BOUNDS,
            $decoder,
        ) {
            Ok(read) => Ok(Self { $a_field: read.0, $b_field: read.1, $c_field: read.2 }),
            Err(error) => Err(error),
        }
    };
    ([$decoder:ident]
        [$a:ident $a_field:ident [$a_type:ty] $a_bounds:tt]
        [$b:ident $b_field:ident [$b_type:ty] $b_bounds:tt]
        [$c:ident $c_field:ident [$c_type:ty] $c_bounds:tt]
        [$d:ident $d_field:ident [$d_type:ty] $d_bounds:tt]
    ) => {
        match $crate::few::four_to_read::<Self, _, _, _, _, _>(
            $crate::component!($a $a_bounds, std::marker::PhantomData::<$a_type>),
            $crate::component!($b $b_bounds, std::marker::PhantomData::<$b_type>),
            $crate::component!($c $c_bounds, std::marker::PhantomData::<$c_type>),
            $crate::component!($d $d_bounds, std::marker::PhantomData::<$d_type>),
            BOUNDS,
            $decoder,
        ) {
            Ok(read) => Ok(Self { $a_field: read.0, $b_field: read.1, $c_field: read.2, $d_field: read.3 }),
            Err(error) => Err(error),
        }
    };
    ([$decoder:ident]
        [required $a:ident [$a_type:ty] $a_bounds:tt] [required $b:ident [$b_type:ty] $b_bounds:tt]
        [required $c:ident [$c_type:ty] $c_bounds:tt] [required $d:ident [$d_type:ty] $d_bounds:tt]
        [required $e:ident [$e_type:ty] $e_bounds:tt] [required $f:ident [$f_type:ty] $f_bounds:tt]
        [required $g:ident [$g_type:ty] $g_bounds:tt] [required $h:ident [$h_type:ty] $h_bounds:tt]
        [required $i:ident [$i_type:ty] $i_bounds:tt] [required $j:ident [$j_type:ty] $j_bounds:tt]
        [required $k:ident [$k_type:ty] $k_bounds:tt] [required $l:ident [$l_type:ty] $l_bounds:tt]
        [required $m:ident [$m_type:ty] $m_bounds:tt] [required $n:ident [$n_type:ty] $n_bounds:tt]
        [required $o:ident [$o_type:ty] $o_bounds:tt] [required $p:ident [$p_type:ty] $p_bounds:tt]
        $([$presence:ident $field:ident [$type:ty] $bounds:tt])*
    ) => {
        match $crate::sixteen::read::<
            Self,
            $a_type, $b_type, $c_type, $d_type, $e_type, $f_type, $g_type, $h_type,
            $i_type, $j_type, $k_type, $l_type, $m_type, $n_type, $o_type, $p_type,
            _,
            _,
        >(BOUNDS, $crate::cells_to_read!($($presence $type $bounds;)*), $decoder) {
            Ok(read) => {
                let $crate::fours!($($field)*) = read.16;
                Ok(Self {
                    $a: read.0, $b: read.1, $c: read.2, $d: read.3, $e: read.4, $f: read.5, $g: read.6, $h: read.7,
                    $i: read.8, $j: read.9, $k: read.10, $l: read.11, $m: read.12, $n: read.13, $o: read.14,
                    $p: read.15, $($field),*
                })
            }
            Err(error) => Err(error),
        }
    };
    ([$decoder:ident] $([$presence:ident $field:ident [$type:ty] $bounds:tt])*) => {{
        let cells = $crate::cells_to_read!($($presence $type $bounds;)*);
        let $crate::fours!($($field)*) = $crate::read::plain::<Self, _, _>(cells, BOUNDS, $decoder)?;
        Ok(Self { $($field),* })
    }};
}

/// The components of a list as cells to read: the value of their type, where none has a default.
#[macro_export]
macro_rules! cells_to_read {
    ($($presence:ident $type:ty [$($bounds:tt)*];)*) => {
        $crate::read_by_type!(cells_in_fours values_in_fours [$([$presence [$type] [$($bounds)*]])*] [];
            $([$presence [$type]])*
        )
    };
}

/// The additions of a list as cells to read: the value of their type, where none has a default.
#[macro_export]
macro_rules! additions_to_read {
    ($($presence:ident $type:ty [$($bounds:tt)*];)*) => {
        $crate::read_by_type!(cells_in_turn values_in_turn [$([$presence [$type] [$($bounds)*]])*] [];
            $([$presence [$type]])*
        )
    };
}

/// The cells of a list by the types of its components, or by values where one has a default.
#[macro_export]
macro_rules! read_by_type {
    ($by_type:ident $by_value:ident $list:tt [$($done:tt)*];) => { $crate::$by_type!([] $($done)*) };
    ($by_type:ident $by_value:ident [$($list:tt)*] $done:tt; [default $type:tt] $($rest:tt)*) => {
        $crate::$by_value!($($list)*)
    };
    ($by_type:ident $by_value:ident $list:tt [$($done:tt)*]; [required [$type:ty]] $($rest:tt)*) => {
        $crate::read_by_type!($by_type $by_value $list [
            $($done)* [std::marker::PhantomData<$type>]
        ]; $($rest)*)
    };
    ($by_type:ident $by_value:ident $list:tt [$($done:tt)*]; [optional [$type:ty]] $($rest:tt)*) => {
        $crate::read_by_type!($by_type $by_value $list [
            $($done)* [$crate::components::Optional<std::marker::PhantomData<$type>>]
        ]; $($rest)*)
    };
    ($by_type:ident $by_value:ident $list:tt [$($done:tt)*]; [group [$type:ty]] $($rest:tt)*) => {
        $crate::read_by_type!($by_type $by_value $list [
            $($done)* [$crate::additions::Group<std::marker::PhantomData<$type>>]
        ]; $($rest)*)
    };
}

/// The value of cells of these types, four at a time, which are put in brackets, the last ones first.
#[macro_export]
macro_rules! cells_in_fours {
    ([$($done:tt)*] $first:tt $second:tt $third:tt $fourth:tt $($rest:tt)*) => {
        $crate::cells_in_fours!([[$first $second $third $fourth] $($done)*] $($rest)*)
    };
    ([$($done:tt)*] $first:tt $($rest:tt)*) => { $crate::cells_in_fours!([[$first] $($done)*] $($rest)*) };
    ([$($done:tt)*]) => { $crate::value_of_cells!([$crate::cells::End] $($done)*) };
}

/// The value of cells of these types, which are put in brackets, the last one first.
#[macro_export]
macro_rules! cells_in_turn {
    ([$($done:tt)*] $first:tt $($rest:tt)*) => { $crate::cells_in_turn!([[$first] $($done)*] $($rest)*) };
    ([$($done:tt)*]) => { $crate::value_of_cells!([$crate::cells::End] $($done)*) };
}

/// The value of cells of these types, the last ones first, in front of those that are done.
#[macro_export]
macro_rules! value_of_cells {
    ([$($cells:tt)*]) => { <$($cells)* as $crate::cells::ByType>::VALUE };
    ([$($cells:tt)*] [[$($only:tt)*]] $($rest:tt)*) => {
        $crate::value_of_cells!([$crate::cells::Cell<$($only)*, $($cells)*>] $($rest)*)
    };
    ([$($cells:tt)*] [[$($a:tt)*] [$($b:tt)*] [$($c:tt)*] [$($d:tt)*]] $($rest:tt)*) => {
        $crate::value_of_cells!([$crate::fours::FourCells<$($a)*, $($b)*, $($c)*, $($d)*, $($cells)*>] $($rest)*)
    };
}

/// Components, one with a default among them, as cells to read.
#[macro_export]
macro_rules! values_in_fours {
    () => { $crate::cells::End {} };
    ([$a:ident [$a_type:ty] $a_bounds:tt] [$b:ident [$b_type:ty] $b_bounds:tt]
        [$c:ident [$c_type:ty] $c_bounds:tt] [$d:ident [$d_type:ty] $d_bounds:tt] $($rest:tt)*
    ) => {
        $crate::fours::FourCells {
            first: $crate::component!($a $a_bounds, std::marker::PhantomData::<$a_type>),
            second: $crate::component!($b $b_bounds, std::marker::PhantomData::<$b_type>),
            third: $crate::component!($c $c_bounds, std::marker::PhantomData::<$c_type>),
            fourth: $crate::component!($d $d_bounds, std::marker::PhantomData::<$d_type>),
            next: $crate::values_in_fours!($($rest)*),
        }
    };
    ([$presence:ident [$type:ty] $bounds:tt] $($rest:tt)*) => {
        $crate::cell!(
            $presence $bounds,
            std::marker::PhantomData::<$type>,
            $crate::values_in_fours!($($rest)*)
        )
    };
}

/// Additions, one with a default among them, as cells to read.
#[macro_export]
macro_rules! values_in_turn {
    () => { $crate::cells::End {} };
    ([$presence:ident [$type:ty] $bounds:tt] $($rest:tt)*) => {
        $crate::cell!(
            $presence $bounds,
            std::marker::PhantomData::<$type>,
            $crate::values_in_turn!($($rest)*)
        )
    };
}

/// The fields of a record as they are read, four at a time.
#[macro_export]
macro_rules! fours {
    () => { () };
    ($first:ident $second:ident $third:ident $fourth:ident $($rest:ident)*) => {
        ($first, $second, $third, $fourth, $crate::fours!($($rest)*))
    };
    ($first:ident $($rest:ident)*) => { ($first, $crate::fours!($($rest)*)) };
}

/// The additions of a record as pairs of the first and of those after it.
#[macro_export]
macro_rules! pairs {
    () => { () };
    ($first:ident $($rest:ident)*) => { ($first, $crate::pairs!($($rest)*)) };
}

/// The components of a list to read, each that is required stated at its place.
#[macro_export]
macro_rules! stated_to_read {
    ($places:tt [];) => { () };
    ($places:tt []; ...; $($behind:tt)*) => { () };
    ([$place:literal $($places:tt)*] [];
        optional $tag:tt $(of $tree:ident)? $name:literal $field:ident: $type:ty [$($bounds:tt)*]; $($rest:tt)*
    ) => { $crate::stated_to_read!([$($places)*] []; $($rest)*) };
    ([$place:literal $($places:tt)*] [];
        default $tag:tt $(of $tree:ident)? $name:literal $field:ident: $type:ty [$($bounds:tt)*]; $($rest:tt)*
    ) => { $crate::stated_to_read!([$($places)*] []; $($rest)*) };
    ([$place:literal $($places:tt)*] [];
        required $tag:ident $(of $tree:ident)? $name:literal $field:ident: $type:ty [$($bounds:tt)*]; $($rest:tt)*
    ) => { $crate::stated_to_read!([$($places)*] []; $($rest)*) };
    ([$place:literal $($places:tt)*] [];
        required [$($tag:tt)*] $(of $tree:ident)? $name:literal
        $field:ident: $type:ty [$($bounds:tt)*]; $($rest:tt)*
    ) => { $crate::stated_to_read!([$($places)*] []; $($rest)*) };
    ([$place:literal $($places:tt)*] [];
        $presence:ident $tag:tt $(of $tree:ident)? $name:literal
        $field:ident: $type:ty [$($bounds:tt)*]; $($rest:tt)*
    ) => {{
        let $field = $crate::read::component::<Self, $type>($place, $tag, BOUNDS.lists.root);
        let _ = $field;
        $crate::stated_to_read!([$($places)*] []; $($rest)*)
    }};
}

/// The components of a list that were read, each that is required stated at its place.
#[macro_export]
macro_rules! stated_as_read {
    ($places:tt [$of:ident];) => { () };
    ($places:tt [$of:ident]; ...; $($behind:tt)*) => { () };
    ([$place:literal $($places:tt)*] [$of:ident];
        optional $tag:tt $(of $tree:ident)? $name:literal $field:ident: $type:ty [$($bounds:tt)*]; $($rest:tt)*
    ) => { $crate::stated_as_read!([$($places)*] [$of]; $($rest)*) };
    ([$place:literal $($places:tt)*] [$of:ident];
        default $tag:tt $(of $tree:ident)? $name:literal $field:ident: $type:ty [$($bounds:tt)*]; $($rest:tt)*
    ) => { $crate::stated_as_read!([$($places)*] [$of]; $($rest)*) };
    ([$place:literal $($places:tt)*] [$of:ident];
        $presence:ident $tag:tt $(of $tree:ident)? $name:literal
        $field:ident: $type:ty [$($bounds:tt)*]; $($rest:tt)*
    ) => {{
        let $field = $crate::read::value::<Self, $type>(&$of, $place, &$of.$field);
        let _ = $field;
        $crate::stated_as_read!([$($places)*] [$of]; $($rest)*)
    }};
}
