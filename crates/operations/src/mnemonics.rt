// The names of the operations.
ghost use Rattle.std.specs.Prelude.{◌≡◌};
ghost use Rattle.operations.specs.Mnemonics.{name_of, named, mnemonic};

use words::{Function, Test};

/// An operation by its name.
#[derive(Clone, Copy, PartialEq, Eq, Debug)]
pub enum Mnemonic {
    Compute(Function),
    Not,
    Jalr,
    In,
    Out,
    Addi,
    Shf,
    Lw,
    Sw,
    Lli,
    Lui,
    Branch(Test),
    Br,
    Halt,
    /// `halt` by its other name.
    DotHalt,
    Jmp,
    Mov,
    Lwi,
    Push,
    Pop,
    Fill,
    Cstr,
    Def,
}

// A list and not a `match` on the text: each name stands once.
const ALL: [Mnemonic; 31] = [
    Mnemonic::Compute(Function::Add),
    Mnemonic::Compute(Function::Sub),
    Mnemonic::Compute(Function::And),
    Mnemonic::Compute(Function::Or),
    Mnemonic::Not,
    Mnemonic::Jalr,
    Mnemonic::In,
    Mnemonic::Out,
    Mnemonic::Addi,
    Mnemonic::Shf,
    Mnemonic::Lw,
    Mnemonic::Sw,
    Mnemonic::Lli,
    Mnemonic::Lui,
    Mnemonic::Branch(Test::Equal),
    Mnemonic::Branch(Test::NotEqual),
    Mnemonic::Branch(Test::Greater),
    Mnemonic::Branch(Test::GreaterEqual),
    Mnemonic::Branch(Test::Less),
    Mnemonic::Branch(Test::LessEqual),
    Mnemonic::Br,
    Mnemonic::Halt,
    Mnemonic::DotHalt,
    Mnemonic::Jmp,
    Mnemonic::Mov,
    Mnemonic::Lwi,
    Mnemonic::Push,
    Mnemonic::Pop,
    Mnemonic::Fill,
    Mnemonic::Cstr,
    Mnemonic::Def,
];

impl Mnemonic {
    /// The name in a source.
    pub fn name(self) -> &'static [u8]
        ensures { result.now ≡ name_of self }
    {
        match self {
            Mnemonic::Compute(Function::Add) => b"add",
            Mnemonic::Compute(Function::Sub) => b"sub",
            Mnemonic::Compute(Function::And) => b"and",
            Mnemonic::Compute(Function::Or) => b"or",
            Mnemonic::Not => b"not",
            Mnemonic::Jalr => b"jalr",
            Mnemonic::In => b"in",
            Mnemonic::Out => b"out",
            Mnemonic::Addi => b"addi",
            Mnemonic::Shf => b"shf",
            Mnemonic::Lw => b"lw",
            Mnemonic::Sw => b"sw",
            Mnemonic::Lli => b"lli",
            Mnemonic::Lui => b"lui",
            Mnemonic::Branch(Test::Equal) => b"beq",
            Mnemonic::Branch(Test::NotEqual) => b"bne",
            Mnemonic::Branch(Test::Greater) => b"bgt",
            Mnemonic::Branch(Test::GreaterEqual) => b"bge",
            Mnemonic::Branch(Test::Less) => b"blt",
            Mnemonic::Branch(Test::LessEqual) => b"ble",
            Mnemonic::Br => b"br",
            Mnemonic::Halt => b"halt",
            Mnemonic::DotHalt => b".halt",
            Mnemonic::Jmp => b"jmp",
            Mnemonic::Mov => b"mov",
            Mnemonic::Lwi => b"lwi",
            Mnemonic::Push => b"push",
            Mnemonic::Pop => b"pop",
            Mnemonic::Fill => b".fill",
            Mnemonic::Cstr => b".cstr",
            Mnemonic::Def => b".def",
        }
    }
}

// The first of the operations that has the name.
fn first_named(operations: &[Mnemonic], name: &[u8]) -> Option<Mnemonic>
    ensures { result ≡ named name.now operations.now }
{
    operations.iter().copied().find(|m| name == m.name())
}

/// The operation that a name stands for.
pub fn find_mnemonic(name: &[u8]) -> Option<Mnemonic>
    ensures { result ≡ mnemonic name.now }
{
    first_named(&ALL, name)
}
