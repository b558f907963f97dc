// What one field stands for.
ghost use Rattle.std.specs.Prelude.{◌≡◌, ℕ};
ghost use Rattle.std.specs.List.{list_all};
ghost use Rattle.numbers.specs.Reading.{bits_of};
ghost use Rattle.faults.specs.Chains.{under};
ghost use Rattle.operands.specs.Names.{name_byte, is_name};
ghost use Rattle.operands.specs.declared.fields.Immediate.TheVariants.{Number};
ghost use Rattle.operands.specs.Operands.{register, constant, label, immediate, seen};

use faults::OperandFault;
use numbers::{Width, read_number};
use words::Register;

/// An immediate as it is written: a number's bit pattern, or the value of the label with this name.
#[derive(Clone, Copy, PartialEq, Eq, Debug)]
pub enum Immediate<N> {
    Number(u16),
    Label(N),
}

fn is_name_byte(b: u8) -> bool
    ensures { result ≡ name_byte b }
{
    b.is_ascii_alphanumeric() || b == b'_'
}

// By itself: its clause says what the chain finds.
fn are_name_bytes(text: &[u8]) -> bool
    ensures { result ≡ list_all name_byte text.now }
{
    text.iter().all(|b| is_name_byte(*b))
}

/// Whether a text is a label's name: 1 to 32 letters, digits and underscores.
pub fn is_name(text: &[u8]) -> bool
    ensures { result ≡ is_name text.now }
{
    matches!(text.len(), 1..=32) && are_name_bytes(text)
}

pub fn read_register(text: &[u8]) -> Result<Register, OperandFault>
    ensures { result ≡ register text.now }
{
    match text {
        [b'r', digit @ b'0'..=b'7'] => Ok(Register::from_bits(u16::from(*digit - b'0'))),
        _ => Err(OperandFault::UnknownRegister),
    }
}

/// A number of a width, as its bit pattern.
pub fn read_constant(text: &[u8], width: Width) -> Result<u16, OperandFault>
    ensures { result ≡ constant (bits_of width) text.now }
{
    read_number(text, width).ok_or(OperandFault::BadNumber)
}

// A label by its name, which stands behind an `&`.
fn read_label<'a>(name: &'a [u8]) -> Result<Immediate<&'a [u8]>, OperandFault>
    ensures { under seen result ≡ label name.now }
{
    if is_name(name) {
        Ok(Immediate::Label(name))
    } else {
        Err(OperandFault::BadNumber)
    }
}

/// A number of a width, or a label.
pub fn read_immediate<'a>(text: &'a [u8], width: Width) -> Result<Immediate<&'a [u8]>, OperandFault>
    ensures { under seen result ≡ immediate (bits_of width) text.now }
{
    match text {
        [b'&', name @ ..] => read_label(name),
        _ => Ok(Immediate::Number(read_constant(text, width)?)),
    }
}
