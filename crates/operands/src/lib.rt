// The fields of a statement: registers, numbers, labels' names, and the text of a string.
#![tactic(auto)]

mod cursors;
mod fields;

pub use cursors::{Text, Values, first_character, first_value};
pub use fields::{Immediate, is_name, read_constant, read_immediate, read_register};
