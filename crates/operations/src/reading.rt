// An operation with its own fields, from the parts behind its name.
ghost use Rattle.std.specs.Prelude.{◌≡◌};
ghost use Rattle.numbers.specs.Reading.{bits_of};
ghost use Rattle.lines.specs.Places.{parts};
ghost use Rattle.faults.specs.Chains.{under};
ghost use Rattle.operations.specs.Kinds.{seen_operands, seen_operation, seen_sized, sized, mnemonic_of};
ghost use Rattle.operations.specs.Reading.{registers, three_registers, two_registers, stack_registers, one_register, registers_number, register_immediate, operation};

use super::fields::{check_fields, next_field, only_field, take_string, take_values};
use super::kinds::{LineOperation, Operation, RegisterImmediate, RegistersNumber, StackRegisters};
use super::mnemonics::Mnemonic;
use faults::StatementFault;
use lines::Parts;
use numbers::Width;
use operands::{read_constant, read_immediate, read_register};
use words::{Register, ThreeRegisters, TwoRegisters};

fn read_registers<const N: usize>(mut fields: Parts<'_>) -> Result<[Register; N], StatementFault>
    ensures { result ≡ registers N (parts fields.entry.rest.now) }
{
    check_fields(fields, N)?;
    let mut registers = [Register::R0; N];
    for register in &mut registers {
        *register = read_register(next_field(&mut fields)?)?;
    }
    Ok(registers)
}

fn read_three_registers(fields: Parts<'_>) -> Result<ThreeRegisters, StatementFault>
    ensures { result ≡ three_registers (parts fields.entry.rest.now) }
{
    let [rd, rs1, rs2] = read_registers::<3>(fields)?;
    Ok(ThreeRegisters { rd, rs1, rs2 })
}

fn read_two_registers(fields: Parts<'_>) -> Result<TwoRegisters, StatementFault>
    ensures { result ≡ two_registers (parts fields.entry.rest.now) }
{
    let [rd, rs1] = read_registers::<2>(fields)?;
    Ok(TwoRegisters { rd, rs1 })
}

fn read_stack_registers(fields: Parts<'_>) -> Result<StackRegisters, StatementFault>
    ensures { result ≡ stack_registers (parts fields.entry.rest.now) }
{
    let [sp, register] = read_registers::<2>(fields)?;
    Ok(StackRegisters { sp, register })
}

fn read_one_register(fields: Parts<'_>) -> Result<Register, StatementFault>
    ensures { result ≡ one_register (parts fields.entry.rest.now) }
{
    let [register] = read_registers::<1>(fields)?;
    Ok(register)
}

fn read_registers_number(mut fields: Parts<'_>) -> Result<RegistersNumber, StatementFault>
    ensures { result ≡ registers_number (parts fields.entry.rest.now) }
{
    check_fields(fields, 3)?;
    let rd = read_register(next_field(&mut fields)?)?;
    let rs1 = read_register(next_field(&mut fields)?)?;
    let number = read_constant(next_field(&mut fields)?, Width::Six)?;
    Ok(RegistersNumber { rd, rs1, number })
}

fn read_register_immediate<'a>(
    mut fields: Parts<'a>,
    width: Width,
) -> Result<RegisterImmediate<&'a [u8]>, StatementFault>
    ensures { under seen_operands result ≡ register_immediate (bits_of width) (parts fields.entry.rest.now) }
{
    check_fields(fields, 2)?;
    let rd = read_register(next_field(&mut fields)?)?;
    let imm = read_immediate(next_field(&mut fields)?, width)?;
    Ok(RegisterImmediate { rd, imm })
}

/// An operation with its fields, and the number of words that it places.
pub fn read_operation<'a>(
    mnemonic: Mnemonic,
    fields: Parts<'a>,
) -> Result<(LineOperation<'a>, usize), StatementFault>
    ensures { under seen_sized result ≡ under sized (operation mnemonic (parts fields.entry.rest.now)) }
{
    // The number stands beside each operation: from a text alone no bound is known for its characters and a zero.
    match mnemonic {
        Mnemonic::Compute(f) => Ok((Operation::Compute(f, read_three_registers(fields)?), 1)),
        Mnemonic::Not => Ok((Operation::Not(read_two_registers(fields)?), 1)),
        Mnemonic::Jalr => Ok((Operation::Jalr(read_two_registers(fields)?), 1)),
        Mnemonic::In => Ok((Operation::In(read_one_register(fields)?), 1)),
        Mnemonic::Out => Ok((Operation::Out(read_one_register(fields)?), 1)),
        Mnemonic::Addi => Ok((Operation::Addi(read_registers_number(fields)?), 1)),
        Mnemonic::Shf => Ok((Operation::Shf(read_registers_number(fields)?), 1)),
        Mnemonic::Lw => Ok((Operation::Lw(read_registers_number(fields)?), 1)),
        Mnemonic::Sw => Ok((Operation::Sw(read_registers_number(fields)?), 1)),
        Mnemonic::Lli => {
            Ok((
                Operation::Lli(read_register_immediate(fields, Width::Eight)?),
                1,
            ))
        }
        Mnemonic::Lui => {
            Ok((
                Operation::Lui(read_register_immediate(fields, Width::Eight)?),
                1,
            ))
        }
        Mnemonic::Branch(t) => {
            Ok((
                Operation::Branch(t, read_register_immediate(fields, Width::Eight)?),
                1,
            ))
        }
        Mnemonic::Br => Ok((
            Operation::Br(read_immediate(only_field(fields)?, Width::Eight)?),
            1,
        )),
        Mnemonic::Halt | Mnemonic::DotHalt => {
            check_fields(fields, 0)?;
            Ok((Operation::Halt, 1))
        }
        Mnemonic::Jmp => Ok((Operation::Jmp(read_one_register(fields)?), 1)),
        Mnemonic::Mov => Ok((Operation::Mov(read_two_registers(fields)?), 1)),
        Mnemonic::Lwi => {
            Ok((
                Operation::Lwi(read_register_immediate(fields, Width::Sixteen)?),
                2,
            ))
        }
        Mnemonic::Push => Ok((Operation::Push(read_stack_registers(fields)?), 2)),
        Mnemonic::Pop => Ok((Operation::Pop(read_stack_registers(fields)?), 2)),
        Mnemonic::Fill => {
            let (values, count) = take_values(fields)?;
            Ok((Operation::Fill(values), count))
        }
        Mnemonic::Cstr => {
            let (text, count) = take_string(fields)?;
            Ok((Operation::Cstr(text), count))
        }
        Mnemonic::Def => Ok((
            Operation::Def(read_constant(only_field(fields)?, Width::Sixteen)?),
            0,
        )),
    }
}

impl<'a> LineOperation<'a> {
    /// The name of the operation.
    pub fn mnemonic(&self) -> Mnemonic
        ensures { result ≡ mnemonic_of (seen_operation self.now) }
    {
        match self {
            Operation::Compute(f, _) => Mnemonic::Compute(*f),
            Operation::Not(_) => Mnemonic::Not,
            Operation::Jalr(_) => Mnemonic::Jalr,
            Operation::In(_) => Mnemonic::In,
            Operation::Out(_) => Mnemonic::Out,
            Operation::Addi(_) => Mnemonic::Addi,
            Operation::Shf(_) => Mnemonic::Shf,
            Operation::Lw(_) => Mnemonic::Lw,
            Operation::Sw(_) => Mnemonic::Sw,
            Operation::Lli(_) => Mnemonic::Lli,
            Operation::Lui(_) => Mnemonic::Lui,
            Operation::Branch(t, _) => Mnemonic::Branch(*t),
            Operation::Br(_) => Mnemonic::Br,
            Operation::Halt => Mnemonic::Halt,
            Operation::Jmp(_) => Mnemonic::Jmp,
            Operation::Mov(_) => Mnemonic::Mov,
            Operation::Lwi(_) => Mnemonic::Lwi,
            Operation::Push(_) => Mnemonic::Push,
            Operation::Pop(_) => Mnemonic::Pop,
            Operation::Fill(_) => Mnemonic::Fill,
            Operation::Cstr(_) => Mnemonic::Cstr,
            Operation::Def(_) => Mnemonic::Def,
        }
    }
}
