// The operations, each with its own fields.
use operands::{Immediate, Text, Values};
use words::{Function, Register, Test, ThreeRegisters, TwoRegisters};

/// Operands of `addi`, `shf`, `lw` and `sw`.
// No `Imm6`: its ghost field leaves an enum that holds references unproved, and a fourth type parameter in every signature is no plainer.
#[derive(Clone, Copy, PartialEq, Eq, Debug)]
pub struct RegistersNumber {
    pub rd: Register,
    pub rs1: Register,
    /// The bit pattern of a 6-bit number.
    pub number: u16,
}

/// Operands of `lli`, `lui`, `lwi` and the branches.
// Not `RegisterImm8`: a label has no value here.
#[derive(Clone, Copy, PartialEq, Eq, Debug)]
pub struct RegisterImmediate<N> {
    pub rd: Register,
    pub imm: Immediate<N>,
}

/// Operands of `push` and `pop`: the stack pointer, and the register stored or loaded.
// Not `TwoRegisters`: the stack pointer is written first, and is the `rs1` of the store or load.
#[derive(Clone, Copy, PartialEq, Eq, Debug)]
pub struct StackRegisters {
    pub sp: Register,
    pub register: Register,
}

/// An operation with its fields. `N` is how a label is held, `V` how the values of a `.fill`, and `T` how the
/// characters of a `.cstr`: in the line that was read, or by themselves.
// Moved, never copied or compared.
#[derive(Drop)]
pub enum Operation<N, V, T> {
    Compute(Function, ThreeRegisters),
    Not(TwoRegisters),
    Jalr(TwoRegisters),
    In(Register),
    Out(Register),
    Addi(RegistersNumber),
    Shf(RegistersNumber),
    Lw(RegistersNumber),
    Sw(RegistersNumber),
    Lli(RegisterImmediate<N>),
    Lui(RegisterImmediate<N>),
    Branch(Test, RegisterImmediate<N>),
    Br(Immediate<N>),
    Halt,
    Jmp(Register),
    Mov(TwoRegisters),
    Lwi(RegisterImmediate<N>),
    Push(StackRegisters),
    Pop(StackRegisters),
    Fill(V),
    Cstr(T),
    Def(u16),
}

/// An operation as it is read: its labels, values and characters in parts of its line.
pub type LineOperation<'a> = Operation<&'a [u8], Values<'a>, Text<'a>>;
