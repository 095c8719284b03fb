//! Pages of each form, and types that the program doesn't take: octets in both variants, by X.691 or as another encoder
//! wrote them, and the values that they spell, as JSON; and which refusal is named where several would do.

mod contents;
mod defaults;
mod expected;
mod forms;
mod plain;
mod sets;
