// The operations of a source: their names, their fields, and the words that each places.
#![tactic(auto)]

mod fields;
mod kinds;
mod mnemonics;
mod reading;

pub use kinds::{LineOperation, Operation, RegisterImmediate, RegistersNumber, StackRegisters};
pub use mnemonics::{Mnemonic, find_mnemonic};
pub use reading::read_operation;
