// The instructions, the word of each, and the instruction that a word stands for.
ghost use Rattle.std.specs.Prelude.{◌≡◌, ℕ, ◌+◌, ◌/◌, ◌%◌, ◌<◌, Some};
ghost use Rattle.words.specs.Values.{computed, passes, shifted};
ghost use Rattle.words.specs.Coding.{encoded, decoded, cost_of, function_code, test_code, of_registers, of_imm6, of_imm8, three_of, two_of, with_imm6, with_imm8};
ghost use Rattle.words.specs.Unused.{unused, WordOf};

use super::immediates::{Imm6, Imm8};
use super::registers::Register;

const WORD_CYCLES: u32 = 1;

/// Operands of `add`, `sub`, `and` and `or`.
#[derive(Clone, Copy, PartialEq, Eq, Debug)]
pub struct ThreeRegisters {
    pub rd: Register,
    pub rs1: Register,
    pub rs2: Register,
}

/// Operands of `not` and `jalr`.
#[derive(Clone, Copy, PartialEq, Eq, Debug)]
pub struct TwoRegisters {
    pub rd: Register,
    pub rs1: Register,
}

/// Operands of `addi`, `shf`, `lw` and `sw`.
#[derive(Clone, Copy, PartialEq, Eq, Debug)]
pub struct RegistersImm6 {
    pub rd: Register,
    pub rs1: Register,
    pub imm: Imm6,
}

/// Operands of `lli`, `lui` and the branches.
#[derive(Clone, Copy, PartialEq, Eq, Debug)]
pub struct RegisterImm8 {
    pub rd: Register,
    pub imm: Imm8,
}

/// What opcode 0 computes of two registers, by the function code.
#[derive(Clone, Copy, PartialEq, Eq, Debug)]
pub enum Function {
    Add = 0,
    Sub = 1,
    And = 2,
    Or = 3,
}

/// A branch's signed test of a register against 0, by the opcode.
#[derive(Clone, Copy, PartialEq, Eq, Debug)]
pub enum Test {
    Equal = 10,
    NotEqual = 11,
    Greater = 12,
    GreaterEqual = 13,
    Less = 14,
    LessEqual = 15,
}

#[derive(Clone, Copy, PartialEq, Eq, Debug)]
pub enum Instruction {
    Compute(Function, ThreeRegisters),
    Not(TwoRegisters),
    Jalr(TwoRegisters),
    In(Register),
    /// Sends a register's word; of r0 it halts.
    Out(Register),
    Addi(RegistersImm6),
    Shf(RegistersImm6),
    Lw(RegistersImm6),
    Sw(RegistersImm6),
    Lli(RegisterImm8),
    Lui(RegisterImm8),
    Branch(Test, RegisterImm8),
}

// Of each kind of operands: `from_word` reads them from a word, and `fields` is what they are of one, without its opcode.
// No trait for the two, and no type for what is below 4096: nothing is written over all four kinds, and `pack` alone reads the bound.

impl ThreeRegisters {
    fn from_word(word: u16) -> Self
        ensures value { result ≡ three_of word }
        ensures word { of_registers (word / 4096) result.rd result.rs1 result.rs2 (word % 8) ≡ word }
    {
        ThreeRegisters {
            rd: Register::from_bits(word / 512),
            rs1: Register::from_bits(word / 64),
            rs2: Register::from_bits(word / 8),
        }
    }

    fn fields(self) -> u16
        ensures value { result ≡ of_registers 0 self.rd self.rs1 self.rs2 0 }
        ensures bound { result < 4096 }
    {
        self.rd.number() * 512 + self.rs1.number() * 64 + self.rs2.number() * 8
    }
}

impl TwoRegisters {
    fn from_word(word: u16) -> Self
        ensures { result ≡ two_of word }
    {
        TwoRegisters {
            rd: Register::from_bits(word / 512),
            rs1: Register::from_bits(word / 64),
        }
    }

    fn fields(self) -> u16
        ensures value { result ≡ of_registers 0 self.rd self.rs1 Register.R0 0 }
        ensures bound { result < 4096 }
    {
        self.rd.number() * 512 + self.rs1.number() * 64
    }
}

impl RegistersImm6 {
    fn from_word(word: u16) -> Self
        ensures { result ≡ with_imm6 word }
    {
        RegistersImm6 {
            rd: Register::from_bits(word / 512),
            rs1: Register::from_bits(word / 64),
            imm: Imm6::from_bits(word),
        }
    }

    fn fields(self) -> u16
        ensures value { result ≡ of_imm6 0 self }
        ensures bound { result < 4096 }
    {
        self.rd.number() * 512 + self.rs1.number() * 64 + u16::from(self.imm.bits)
    }
}

impl RegisterImm8 {
    fn from_word(word: u16) -> Self
        ensures { result ≡ with_imm8 word }
    {
        RegisterImm8 {
            rd: Register::from_bits(word / 512),
            imm: Imm8::from_bits(word),
        }
    }

    fn fields(self) -> u16
        ensures value { result ≡ of_imm8 0 self }
        ensures bound { result < 4096 }
    {
        self.rd.number() * 512 + u16::from(self.imm.bits)
    }
}

impl Function {
    pub fn apply(self, a: u16, b: u16) -> u16
        ensures { result ≡ computed self a b }
    {
        match self {
            Function::Add => a.wrapping_add(b),
            Function::Sub => a.wrapping_sub(b),
            Function::And => a & b,
            Function::Or => a | b,
        }
    }

    fn code(self) -> u16
        ensures value { result ≡ function_code self }
        ensures bound { result < 4 }
    {
        self as u16
    }
}

impl Test {
    pub fn passes(self, word: u16) -> bool
        ensures { result ≡ passes self word }
    {
        let signed = word.cast_signed();
        match self {
            Test::Equal => signed == 0,
            Test::NotEqual => signed != 0,
            Test::Greater => signed > 0,
            Test::GreaterEqual => signed >= 0,
            Test::Less => signed < 0,
            Test::LessEqual => signed <= 0,
        }
    }

    fn code(self) -> u16
        ensures value { result ≡ test_code self }
        ensures bound { result < 16 }
    {
        self as u16
    }
}

/// The word shifted left by a positive immediate, else right with zeros.
#[tactic(auto, using(crate::proofs::Shifts::product_gone, crate::proofs::Shifts::quotient_gone))]
pub fn shift(word: u16, by: Imm6) -> u16
    ensures { result ≡ shifted word by.bits }
{
    let places = u32::from(by.bits);
    if places < 32 {
        word.unbounded_shl(places)
    } else {
        word.unbounded_shr(64 - places)
    }
}

// Apart from `decode`, whose third clause would otherwise be proved at each of these returns.
fn read(word: u16) -> Option<Instruction>
    ensures value { result ≡ decoded word }
    ensures word { WordOf word result }
{
    match word / 4096 {
        0 => match word % 8 {
            0 => Some(Instruction::Compute(Function::Add, ThreeRegisters::from_word(word))),
            1 => Some(Instruction::Compute(Function::Sub, ThreeRegisters::from_word(word))),
            2 => Some(Instruction::Compute(Function::And, ThreeRegisters::from_word(word))),
            3 => Some(Instruction::Compute(Function::Or, ThreeRegisters::from_word(word))),
            4 => Some(Instruction::Not(TwoRegisters::from_word(word))),
            _ => None,
        },
        1 => Some(Instruction::Jalr(TwoRegisters::from_word(word))),
        2 => Some(Instruction::In(Register::from_bits(word / 512))),
        3 if word % 8 == 0 => Some(Instruction::Out(Register::from_bits(word / 512))),
        3 => None,
        4 => Some(Instruction::Addi(RegistersImm6::from_word(word))),
        5 => Some(Instruction::Shf(RegistersImm6::from_word(word))),
        6 => Some(Instruction::Lw(RegistersImm6::from_word(word))),
        7 => Some(Instruction::Sw(RegistersImm6::from_word(word))),
        8 => Some(Instruction::Lli(RegisterImm8::from_word(word))),
        9 => Some(Instruction::Lui(RegisterImm8::from_word(word))),
        10 => Some(Instruction::Branch(Test::Equal, RegisterImm8::from_word(word))),
        11 => Some(Instruction::Branch(Test::NotEqual, RegisterImm8::from_word(word))),
        12 => Some(Instruction::Branch(Test::Greater, RegisterImm8::from_word(word))),
        13 => Some(Instruction::Branch(Test::GreaterEqual, RegisterImm8::from_word(word))),
        14 => Some(Instruction::Branch(Test::Less, RegisterImm8::from_word(word))),
        _ => Some(Instruction::Branch(Test::LessEqual, RegisterImm8::from_word(word))),
    }
}

// Apart from `encode`, whose second clause would otherwise be proved at each of these returns.
fn pack(instruction: Instruction) -> u16
    ensures { result ≡ encoded instruction }
{
    match instruction {
        Instruction::Compute(f, o) => o.fields() + f.code(),
        Instruction::Not(o) => o.fields() + 4,
        Instruction::Jalr(o) => 4096 + o.fields(),
        Instruction::In(rd) => 2 * 4096 + rd.number() * 512,
        Instruction::Out(rd) => 3 * 4096 + rd.number() * 512,
        Instruction::Addi(o) => 4 * 4096 + o.fields(),
        Instruction::Shf(o) => 5 * 4096 + o.fields(),
        Instruction::Lw(o) => 6 * 4096 + o.fields(),
        Instruction::Sw(o) => 7 * 4096 + o.fields(),
        Instruction::Lli(o) => 8 * 4096 + o.fields(),
        Instruction::Lui(o) => 9 * 4096 + o.fields(),
        Instruction::Branch(t, o) => t.code() * 4096 + o.fields(),
    }
}

impl Instruction {
    // Not `TryFrom` and `From`: none stands for an unassigned word with no type of error, and the names say which way a call goes.
    /// The instruction that a word stands for; unassigned words have none.
    #[tactic(auto, using(crate::proofs::Codes::reads_back))]
    pub fn decode(word: u16) -> Option<Self>
        ensures value { result ≡ decoded word }
        ensures word { WordOf word result }
        ensures ignored { (i : Instruction) (bits : ℕ) → word ≡ encoded i + unused i bits → result ≡ Some i }
    {
        read(word)
    }

    /// The word that stands for the instruction, its unused bits zero.
    #[tactic(auto, using(crate::proofs::Codes::undone))]
    pub fn encode(self) -> u16
        ensures value { result ≡ encoded self }
        ensures undone { decoded result ≡ Some self }
    {
        pack(self)
    }

    /// The cycles that the instruction's word costs.
    pub fn cost(self) -> u32
        ensures { result ≡ cost_of self }
    {
        WORD_CYCLES
    }
}
