// The processor: registers, program counter and whether it has halted; one word done at a time.
#![tactic(auto)]

ghost use Rattle.std.specs.Prelude.{◌≡◌, false};
ghost use Rattle.words.specs.Registers.{zeros};
ghost use Rattle.cpu.specs.States.{state};
ghost use Rattle.cpu.specs.Steps.{step_of};
ghost use Rattle.cpu.specs.Stops.{stop_number};
ghost use Rattle.cpu.specs.declared.Stop.TheVariants.{Dry as stop_dry, Full as stop_full};

use port::{Dry, Full, Port};
use words::{Instruction, Register, RegisterFile, shift};

/// Why a run ended.
#[derive(Clone, Copy, PartialEq, Eq, Debug)]
pub enum Stop {
    /// The budget is done.
    Spent = 0,
    /// The halting word has been done.
    Halted = 30,
    /// No word waits at the port.
    Dry = 31,
    /// The port has no free place.
    Full = 32,
    /// The program counter or an address lies outside the memory.
    Outside = 33,
    /// The word stands for no instruction.
    Unassigned = 34,
}

impl Stop {
    /// The stop's number, as printed.
    pub fn number(self) -> u8
        ensures { result ≡ stop_number self }
    {
        self as u8
    }
}

// By hand, here and below: no derive writes `from_gives`, by which a clause knows the stop that a `?` makes.
impl From<Dry> for Stop {
    ghost from_gives = { λ _ s. s ≡ stop_dry };

    fn from(_: Dry) -> Stop {
        Stop::Dry
    }
}

impl From<Full> for Stop {
    ghost from_gives = { λ _ s. s ≡ stop_full };

    fn from(_: Full) -> Stop {
        Stop::Full
    }
}

/// Registers and program counter, and whether the halting word has been done.
#[derive(Clone, Copy, PartialEq, Eq, Debug)]
pub struct Cpu {
    pub pc: u16,
    // A flag alone: the other fields mean the same either way.
    pub halted: bool,
    // Last, so that a write to a register, by its number, is seen to leave the fields above alone.
    pub registers: RegisterFile,
}

impl Cpu {
    /// Registers and program counter zero, not halted.
    pub fn new() -> Cpu
        ensures registers { result.registers.words ≡ zeros }
        ensures place { result.pc ≡ 0 }
        ensures halted { result.halted ≡ false }
    {
        Cpu {
            pc: 0,
            halted: false,
            registers: RegisterFile::new(),
        }
    }

    /// Does one word and answers what it costs, or stops and alters nothing.
    pub fn step<P: Port>(&mut self, memory: &mut [u16], port: &mut P) -> Result<u32, Stop>
        ensures after { state self.new memory.new (P.meaning port.new) ≡ (step_of (state self.old memory.old (P.meaning port.old))).after }
        ensures answer { result ≡ (step_of (state self.old memory.old (P.meaning port.old))).answer }
    {
        if self.halted {
            return Err(Stop::Halted);
        }
        // A test and an index, here and below: read by `get`, four goals of the returns stay open.
        let at = self.pc as usize;
        if at >= memory.len() {
            return Err(Stop::Outside);
        }
        let instruction = Instruction::decode(memory[at]).ok_or(Stop::Unassigned)?;
        let next = self.pc.wrapping_add(1);
        self.pc = match instruction {
            Instruction::Compute(function, o) => {
                let word = function.apply(self.registers.get(o.rs1), self.registers.get(o.rs2));
                self.registers.set(o.rd, word);
                next
            }
            Instruction::Not(o) => {
                let word = !self.registers.get(o.rs1);
                self.registers.set(o.rd, word);
                next
            }
            Instruction::Jalr(o) => {
                let target = self.registers.get(o.rd);
                self.registers.set(o.rs1, next);
                target
            }
            Instruction::In(rd) => {
                let word = port.take()?;
                self.registers.set(rd, word);
                next
            }
            Instruction::Out(Register::R0) => {
                self.halted = true;
                self.pc
            }
            Instruction::Out(rd) => {
                port.send(self.registers.get(rd))?;
                next
            }
            Instruction::Addi(o) => {
                let word = self.registers.get(o.rs1).wrapping_add(o.imm.word());
                self.registers.set(o.rd, word);
                next
            }
            Instruction::Shf(o) => {
                let word = shift(self.registers.get(o.rs1), o.imm);
                self.registers.set(o.rd, word);
                next
            }
            Instruction::Lw(o) => {
                let from = self.registers.get(o.rs1).wrapping_add(o.imm.word()) as usize;
                if from >= memory.len() {
                    return Err(Stop::Outside);
                }
                self.registers.set(o.rd, memory[from]);
                next
            }
            Instruction::Sw(o) => {
                let to = self.registers.get(o.rs1).wrapping_add(o.imm.word()) as usize;
                if to >= memory.len() {
                    return Err(Stop::Outside);
                }
                memory[to] = self.registers.get(o.rd);
                next
            }
            Instruction::Lli(o) => {
                self.registers.set(o.rd, o.imm.word());
                next
            }
            Instruction::Lui(o) => {
                let word = u16::from(o.imm.bits) * 256 + self.registers.get(o.rd) % 256;
                self.registers.set(o.rd, word);
                next
            }
            Instruction::Branch(test, o) => {
                if test.passes(self.registers.get(o.rd)) {
                    next.wrapping_add(o.imm.word())
                } else {
                    next
                }
            }
        };
        Ok(instruction.cost())
    }
}
