// The words that an operation stands for.
ghost use Rattle.std.specs.Prelude.{◌≡◌, ℕ};
ghost use Rattle.faults.specs.Chains.{then, gathered};
ghost use Rattle.operations.specs.Kinds.{seen_operation};
ghost use Rattle.placement.specs.Expansion.{with_six};
ghost use Rattle.placement.specs.Placing.{words_of, answers};

use super::labels::{Labels, Site, upper_of, word_of};
use faults::LabelFault;
use operands::{Text, Values};
use operations::{LineOperation, Operation, RegistersNumber};
use words::{
    Function, Imm6, Imm8, Instruction, Register, RegisterImm8, RegistersImm6, Test, ThreeRegisters,
    TwoRegisters,
};

/// Words by themselves, or in a part of a line.
// No chain of the library's: its type would differ for each kind of words. Never compared.
#[derive(Clone, Copy)]
pub(crate) enum Words<'a> {
    Nothing,
    One(u16),
    Two(u16, u16),
    Each(Values<'a>),
    /// The characters, and a zero.
    Characters(Text<'a>),
}

// Not a `From`: both types are of crates below.
fn with_six(o: RegistersNumber) -> RegistersImm6
    ensures { result ≡ with_six o }
{
    RegistersImm6 {
        rd: o.rd,
        rs1: o.rs1,
        imm: Imm6::from_bits(o.number),
    }
}

/// The words of an operation.
pub(crate) fn expand<'a, L: Labels>(
    operation: LineOperation<'a>,
    site: Site<'_, L>,
) -> Result<Words<'a>, LabelFault>
    ensures { then result (λ words. gathered (answers (L.valued site.entry.labels.now) words)) ≡ words_of (L.valued site.entry.labels.now) site.entry.address (seen_operation operation.entry) }
{
    let instruction = match operation {
        Operation::Compute(f, o) => Instruction::Compute(f, o),
        Operation::Not(o) => Instruction::Not(o),
        Operation::Jalr(o) => Instruction::Jalr(o),
        Operation::In(r) => Instruction::In(r),
        Operation::Out(r) => Instruction::Out(r),
        Operation::Addi(o) => Instruction::Addi(with_six(o)),
        Operation::Shf(o) => Instruction::Shf(with_six(o)),
        Operation::Lw(o) => Instruction::Lw(with_six(o)),
        Operation::Sw(o) => Instruction::Sw(with_six(o)),
        Operation::Lli(o) => {
            let imm = Imm8::from_bits(site.resolve_word(o.imm)?);
            Instruction::Lli(RegisterImm8 { rd: o.rd, imm })
        }
        Operation::Lui(o) => {
            let imm = upper_of(site.resolve(o.imm)?);
            Instruction::Lui(RegisterImm8 { rd: o.rd, imm })
        }
        Operation::Branch(t, o) => {
            let imm = site.resolve_distance(o.imm)?;
            Instruction::Branch(t, RegisterImm8 { rd: o.rd, imm })
        }
        Operation::Br(target) => {
            let imm = site.resolve_distance(target)?;
            let rd = Register::R0;
            Instruction::Branch(Test::Equal, RegisterImm8 { rd, imm })
        }
        Operation::Halt => Instruction::Out(Register::R0),
        Operation::Jmp(rd) => {
            let rs1 = Register::R0;
            Instruction::Jalr(TwoRegisters { rd, rs1 })
        }
        Operation::Mov(o) => {
            let fields = ThreeRegisters {
                rd: o.rd,
                rs1: o.rs1,
                rs2: Register::R0,
            };
            Instruction::Compute(Function::Add, fields)
        }
        Operation::Lwi(o) => {
            let word = word_of(site.resolve(o.imm)?);
            let lower = Instruction::Lli(RegisterImm8 {
                rd: o.rd,
                imm: Imm8::from_bits(word),
            });
            let upper = Instruction::Lui(RegisterImm8 {
                rd: o.rd,
                imm: Imm8::from_bits(word / 256),
            });
            return Ok(Words::Two(lower.encode(), upper.encode()));
        }
        Operation::Push(o) => {
            let store = Instruction::Sw(RegistersImm6 {
                rd: o.register,
                rs1: o.sp,
                imm: Imm6::from_bits(0),
            });
            let lower = Instruction::Addi(RegistersImm6 {
                rd: o.sp,
                rs1: o.sp,
                imm: Imm6::from_bits(63),
            });
            return Ok(Words::Two(store.encode(), lower.encode()));
        }
        Operation::Pop(o) => {
            let raise = Instruction::Addi(RegistersImm6 {
                rd: o.sp,
                rs1: o.sp,
                imm: Imm6::from_bits(1),
            });
            let load = Instruction::Lw(RegistersImm6 {
                rd: o.register,
                rs1: o.sp,
                imm: Imm6::from_bits(0),
            });
            return Ok(Words::Two(raise.encode(), load.encode()));
        }
        Operation::Fill(values) => return Ok(Words::Each(values)),
        Operation::Cstr(text) => return Ok(Words::Characters(text)),
        Operation::Def(_) => return Ok(Words::Nothing),
    };
    Ok(Words::One(instruction.encode()))
}
