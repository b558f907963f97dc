// The faults of a source, in three layers: an operand's or a label's inside a statement's, and that inside the assembly's.
#![tactic(auto)]

ghost use Rattle.std.specs.Prelude.{◌≡◌};
ghost use Rattle.faults.specs.Faults.{told, of_statement, on_line};
ghost use Rattle.faults.specs.declared.StatementFault.TheVariants.{InOperand, InLabel};
ghost use Rattle.faults.specs.declared.AssemblyFault.TheVariants.{InStatement};

/// What is wrong with a field.
#[derive(Clone, Copy, PartialEq, Eq, Debug)]
pub enum OperandFault {
    UnknownRegister = 14,
    /// No number of the width, or a label's name that is malformed or may not stand there.
    BadNumber = 15,
}

/// What is wrong with a label that a field names.
#[derive(Clone, Copy, PartialEq, Eq, Debug)]
pub enum LabelFault {
    /// It was never defined.
    UnknownLabel = 16,
    /// A branch does not reach it.
    TooFar = 18,
}

/// What is wrong with a statement.
#[derive(Clone, Copy, PartialEq, Eq, Debug)]
pub enum StatementFault {
    TooManyLabels,
    TooManyWords,
    Malformed,
    UnknownOperation,
    /// Its name is an earlier statement's too.
    DefinedTwice,
    InOperand(OperandFault),
    InLabel(LabelFault),
}

/// A statement's fault with its line, counted from 1.
#[derive(Clone, Copy, PartialEq, Eq, Debug)]
pub struct OnLine {
    pub line: usize,
    pub fault: StatementFault,
}

/// Why a source is refused.
#[derive(Clone, Copy, PartialEq, Eq, Debug)]
pub enum AssemblyFault {
    /// It has more than 65,536 bytes.
    TooLong,
    /// On this line stands a byte that may not stand there.
    ForbiddenByte(usize),
    InStatement(OnLine),
}

/// Where a fault was found.
#[derive(Clone, Copy, PartialEq, Eq, Debug)]
pub enum Layer {
    Reading,
    Statement,
    Operand,
    Label,
}

// These are by hand: by `from_gives` a clause knows which variant `?` makes.
impl From<OperandFault> for StatementFault {
    ghost from_gives = { λ e r. r ≡ InOperand e };

    fn from(fault: OperandFault) -> StatementFault {
        StatementFault::InOperand(fault)
    }
}

impl From<LabelFault> for StatementFault {
    ghost from_gives = { λ e r. r ≡ InLabel e };

    fn from(fault: LabelFault) -> StatementFault {
        StatementFault::InLabel(fault)
    }
}

impl From<OnLine> for AssemblyFault {
    ghost from_gives = { λ e r. r ≡ InStatement e };

    fn from(fault: OnLine) -> AssemblyFault {
        AssemblyFault::InStatement(fault)
    }
}

impl StatementFault {
    // Not by discriminants: a variant that holds a fault has that fault's number.
    fn number(self) -> u8
        ensures { result ≡ (of_statement 0 self).number }
    {
        match self {
            StatementFault::TooManyLabels => 2,
            StatementFault::TooManyWords => 3,
            StatementFault::Malformed => 12,
            StatementFault::UnknownOperation => 13,
            StatementFault::DefinedTwice => 17,
            StatementFault::InOperand(fault) => fault as u8,
            StatementFault::InLabel(fault) => fault as u8,
        }
    }
}

impl AssemblyFault {
    /// The refusal's number.
    // Not by discriminants: a variant holds a value.
    pub fn number(self) -> u8
        ensures { result ≡ (told self).number }
    {
        match self {
            AssemblyFault::TooLong => 1,
            AssemblyFault::ForbiddenByte(_) => 10,
            AssemblyFault::InStatement(at) => at.fault.number(),
        }
    }

    /// The line, counted from 1; 0 where the whole source is refused.
    // A number and not an `Option`: each fault has a number, a line and a layer, and the line of a whole source is 0.
    pub fn line(self) -> usize
        ensures { result ≡ (told self).line }
    {
        match self {
            AssemblyFault::TooLong => 0,
            AssemblyFault::ForbiddenByte(line) => line,
            AssemblyFault::InStatement(at) => at.line,
        }
    }

    pub fn layer(self) -> Layer
        ensures { result ≡ (told self).layer }
    {
        match self {
            AssemblyFault::TooLong | AssemblyFault::ForbiddenByte(_) => Layer::Reading,
            AssemblyFault::InStatement(at) => match at.fault {
                StatementFault::InOperand(_) => Layer::Operand,
                StatementFault::InLabel(_) => Layer::Label,
                _ => Layer::Statement,
            },
        }
    }
}

/// A statement's answer, a fault with its line.
pub fn place_on_line<T>(line: usize, answer: Result<T, StatementFault>) -> Result<T, OnLine>
    ensures { result ≡ on_line line answer }
{
    answer.map_err(|fault| OnLine { line, fault })
}
