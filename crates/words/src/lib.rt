// The words of the poll core: registers, immediates, and the instructions that words stand for.
#![tactic(auto)]

mod file;
mod immediates;
mod instructions;
mod registers;

pub use file::RegisterFile;
pub use immediates::{Imm, Imm6, Imm8};
pub use instructions::{
    Function, Instruction, RegisterImm8, RegistersImm6, Test, ThreeRegisters, TwoRegisters, shift,
};
pub use registers::Register;
