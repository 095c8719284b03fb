//! What an author's list of components is handed to.
//!
//! The list is a macro of the author's file, which hands itself on. It has a line for each component, at most 40:
//! whether it may be absent, its context-specific tag, its name, its field and the field's type, and its constraints in
//! brackets, after which a default stands.
//!
//! ```text
//! macro_rules! components {
//!     ($to:ident $($with:ident)*) => {
//!         $to! { [$($with)*]
//!             required 0 "protocolVersion" protocol_version: u8 [0..=255];
//!             required 1 "name" name: Ia5String [SIZE 1..=16];
//!             required 2 "payload" payload: OctetString [];
//!             optional 3 "lane" lane: Option<u8> [0..=7];
//!             default 4 "speed" speed: u8 [0..=200 DEFAULT 50_u8];
//!         }
//!     };
//! }
//! ```
//!
//! A component under its type's own tag has the name of a constant of `Tag` in the place of a number: `required BOOL
//! "flag" flag: bool [];`. One that is an untagged choice has the smallest of its tags, and behind `of` a constant of
//! all of them, as `tags_of_choice` gives it: `required 0 of AREA_TAGS "area" area: ActionArea [];`.
//!
//! After a marker `...;` stand the additions, at most 40, in the order of the type: `required`, `optional` and
//! `default` as before it, and `group` for an addition group, whose field is an `Option` of its SEQUENCE and whose
//! brackets are empty.
//!
//! ```text
//! required 0 "first" first: bool [];
//! ...;
//! group 1 "group" group: Option<Group> [];
//! optional 2 "after" after: Option<OctetString> [SIZE 3..=3];
//! ```
//!
//! `fields`, `bounds`, `constraints`, `encode_components` and `decode_components` are for authors, and so are
//! `encode_each_component` and `decode_each_component`, by which a mistake is found. What the others write is part of
//! these.

mod constraints;
mod reading;
mod writing;

/// The fields of a list of components, as `FieldLists`.
#[macro_export]
macro_rules! fields {
    ([] $(
        $presence:ident $tag:tt $(of $tree:ident)? $name:literal
        $field:ident: $type:ty [$($bounds:tt)*];
    )*) => {
        $crate::FieldLists {
            root: $crate::with_places!(placed_fields []; $([$presence $tag $($tree)?; $name])*),
            added: None,
        }
    };
    ([] $(
        $presence:ident $tag:tt $(of $tree:ident)? $name:literal
        $field:ident: $type:ty [$($bounds:tt)*];
    )* ...; $(
        $added:ident $added_tag:tt $(of $added_tree:ident)? $added_name:literal
        $added_field:ident: $added_type:ty [$($added_bounds:tt)*];
    )*) => {
        $crate::FieldLists {
            root: $crate::with_places!(placed_fields []; $([$presence $tag $($tree)?; $name])*),
            added: Some($crate::with_places!(placed_fields [];
                $([$added $added_tag $($added_tree)?; $added_name])*
            )),
        }
    };
    ([] $($list:tt)*) => { $crate::wrong_line!($($list)*) };
}

/// Says which line of a list of components is the first that isn't in its form.
#[macro_export]
macro_rules! wrong_line {
    () => { compile_error!("a list has one marker `...;` at most") };
    (...; $($rest:tt)*) => { $crate::wrong_line!($($rest)*) };
    ($presence:ident $tag:tt $(of $tree:ident)? $name:literal
        $field:ident: $type:ty [$($bounds:tt)*]; $($rest:tt)*
    ) => { $crate::wrong_line!($($rest)*) };
    ($presence:ident $tag:tt $(of $tree:ident)? $name:literal $($rest:tt)*) => {
        compile_error!(concat!(
            "the line of `", $name, "` isn't `presence tag \"name\" field: Type [constraints];`"
        ))
    };
    ($first:tt $($rest:tt)*) => {
        compile_error!(concat!(
            "a line is `presence tag \"name\" field: Type [constraints];`, where one begins with `",
            stringify!($first), "`"
        ))
    };
}

/// A callback's call with the places from 0 in brackets before its arguments. It is a macro of this crate, or of the
/// one that is named behind `in`.
#[macro_export]
macro_rules! with_places {
    ($name:ident in $of:tt $($arguments:tt)*) => {
        $of::$name!([
            0 1 2 3 4 5 6 7 8 9 10 11 12 13 14 15 16 17 18 19 20 21 22 23 24 25 26 27 28 29 30 31 32 33 34 35 36 37 38
            39 40 41 42 43 44 45 46 47 48 49 50 51 52 53 54 55 56 57 58 59 60 61 62 63 64 65 66 67 68 69 70 71 72 73 74
            75 76 77 78 79 80 81 82 83 84 85 86 87 88 89 90 91 92 93 94 95 96 97 98 99 100 101 102 103 104 105 106 107
            108 109 110 111 112 113 114 115 116 117 118 119 120 121 122 123 124 125 126 127 128 129 130 131 132 133 134
            135 136 137 138 139 140 141 142 143 144 145 146 147 148 149 150 151 152 153 154 155 156 157 158 159 160 161
            162 163 164 165 166 167 168 169 170 171 172 173 174 175 176 177 178 179 180 181 182 183 184 185 186 187 188
            189 190 191 192 193 194 195 196 197 198 199 200 201 202 203 204 205 206 207 208 209 210 211 212 213 214 215
            216 217 218 219 220 221 222 223 224 225 226 227 228 229 230 231 232 233 234 235 236 237 238 239 240 241 242
            243 244 245 246 247 248 249 250 251 252 253 254 255
        ] $($arguments)*)
    };
    ($name:ident $($arguments:tt)*) => { $crate::with_places!($name in $crate $($arguments)*) };
}

/// The context-specific tag of a number (X.680 25.7, AUTOMATIC TAGS).
#[macro_export]
macro_rules! context_tag {
    ($number:expr) => {
        $crate::Tag {
            class: $crate::Class::Context,
            value: $number,
        }
    };
}

/// The tags of a component, or of an alternative: its tag, or those of an untagged choice.
#[macro_export]
macro_rules! tag_tree {
    ($tag:tt) => { $crate::TagTree::Leaf($crate::own_tag!($tag)) };
    ($tag:tt $tree:ident) => { $tree };
}

/// Whether a component may be absent.
#[macro_export]
macro_rules! presence {
    (required) => { $crate::Presence::Required };
    (optional) => { $crate::Presence::Optional };
    (default) => { $crate::Presence::Default };
    (group) => { $crate::Presence::Optional };
    ($other:ident) => {
        compile_error!(concat!(
            "a component is `required`, `optional`, `default` or, behind `...;`, `group`, not `",
            stringify!($other), "`"
        ))
    };
}

/// The fields of components at their places, after those that are done.
#[macro_export]
macro_rules! placed_fields {
    ($places:tt [$([$place:literal $presence:ident $tag:tt $($tree:ident)?; $name:literal])*];) => {
        &[$($crate::Field {
            index: $place,
            tag: $crate::own_tag!($tag),
            tag_tree: $crate::tag_tree!($tag $($tree)?),
            presence: $crate::presence!($presence),
            name: $name,
        }),*]
    };
    ([40 $($places:tt)*] $done:tt; $($rest:tt)+) => {
        compile_error!("a list has at most 40 lines on either side of its marker")
    };
    ([$a:literal $b:literal $c:literal $d:literal $($places:tt)*] [$($done:tt)*];
        [$($first:tt)*] [$($second:tt)*] [$($third:tt)*] [$($fourth:tt)*] $($rest:tt)*
    ) => {
        $crate::placed_fields!([$($places)*] [
            $($done)* [$a $($first)*] [$b $($second)*] [$c $($third)*] [$d $($fourth)*]
        ]; $($rest)*)
    };
    ([$place:literal $($places:tt)*] [$($done:tt)*]; [$($field:tt)*] $($rest:tt)*) => {
        $crate::placed_fields!([$($places)*] [$($done)* [$place $($field)*]]; $($rest)*)
    };
}

/// Cells of a record, whose fields are its own, with the list of their constraints.
#[macro_export]
macro_rules! of_record {
    ($cells:expr) => {
        $crate::cells::OfRecord {
            of: std::marker::PhantomData::<Self>,
            constraints: BOUNDS.lists.root,
            cells: $cells,
        }
    };
}

/// Cells of additions of a record, whose fields are its own, with the list of their constraints.
#[macro_export]
macro_rules! added_to {
    ($cells:expr) => {
        $crate::added::AddedTo {
            of: std::marker::PhantomData::<Self>,
            constraints: BOUNDS.lists.added,
            cells: $cells,
        }
    };
}

/// A cell in front of others.
#[macro_export]
macro_rules! cell {
    ($presence:ident [$($bounds:tt)*], $value:expr, $next:expr) => {
        $crate::cells::Cell {
            component: $crate::component!($presence [$($bounds)*], $value),
            next: $next,
        }
    };
}

/// One component.
#[macro_export]
macro_rules! component {
    (required [$($bounds:tt)*], $value:expr) => { $value };
    (optional [$($bounds:tt)*], $value:expr) => { $crate::components::Optional($value) };
    (group [], $value:expr) => { $crate::additions::Group($value) };
    (default [$($bounds:tt)*], $value:expr) => {
        $crate::components::Default {
            value: $value,
            default: $crate::default_of!($($bounds)*),
        }
    };
}
