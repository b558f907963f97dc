// The machine: load, run, look and peek, with the memory and the port beside it.
#![tactic(auto)]

ghost use Rattle.std.specs.Prelude.{◌≡◌, ℕ, ◌≤◌, List, length, Some, OnErr};
ghost use Rattle.buffers.specs.Buffers.{padded};
ghost use Rattle.port.specs.Meaning.{Meaning};
ghost use Rattle.cpu.specs.States.{state};
ghost use Rattle.machine.specs.declared.TheConstants.{MIN_WORDS, MAX_WORDS, MAX_CYCLES};
ghost use Rattle.machine.specs.Refusals.{refusal_number};
ghost use Rattle.machine.specs.Runs.{run_of, ran_as};

use cpu::{Cpu, Stop};
use port::Port;
use words::RegisterFile;

// How many words a memory may have.
const MIN_WORDS: usize = 64;

const MAX_WORDS: usize = 65_536;

// The most cycles that one run may be given.
const MAX_BUDGET: u32 = 1_000_000;

// The most cycles of all runs since a load.
const MAX_CYCLES: u32 = 100_000_000;

/// Why a call was refused. Each refusal leaves machine, memory and port as they were.
#[derive(Clone, Copy, PartialEq, Eq, Debug)]
pub enum Refusal {
    /// The memory has fewer than 64 or more than 65,536 words, or not as many as were loaded.
    Memory = 4,
    /// The image is longer than the memory.
    Image = 5,
    /// The budget is above 1,000,000 cycles.
    Budget = 8,
    /// The count and the budget are together above 100,000,000 cycles.
    Count = 9,
    /// The address is not below the memory's length.
    Address = 20,
}

/// How a run ended, and the cycles done.
#[derive(Clone, Copy, PartialEq, Eq, Debug)]
pub struct Report {
    pub stop: Stop,
    pub cycles: u32,
}

/// Registers, program counter, and the cycles done since the load.
#[derive(Clone, Copy, PartialEq, Eq, Debug)]
pub struct Look {
    pub registers: RegisterFile,
    pub pc: u16,
    pub count: u32,
}

// Memory and port are lent to each call, and not as one struct: `load`, `look` and `peek` take no port.
#[derive(Clone, Copy, PartialEq, Eq, Debug)]
pub struct Machine {
    // The words of the loaded memory, none before a first load; at most 65,536, and as a `u32` the `None` costs no room.
    size: Option<u32>,
    count: u32,
    cpu: Cpu,
    ghost fits: { (words : ℕ) → size ≡ Some words → (MIN_WORDS ≤ words) × (words ≤ MAX_WORDS) },
    ghost within: { count ≤ MAX_CYCLES },
}

impl Refusal {
    /// The refusal's number, as printed.
    pub fn number(self) -> u8
        ensures { result ≡ refusal_number self }
    {
        self as u8
    }
}

// Copies the image to the front of the memory, and zeroes the rest.
fn lay(image: &[u16], memory: &mut [u16])
    requires { length image.now ≤ length memory.old }
    ensures { memory.new ≡ padded image.now (length memory.old) }
{
    let (front, rest) = memory.split_at_mut(image.len());
    front.copy_from_slice(image);
    rest.fill(0);
}

// Does words until the budget is done or a stop comes.
fn work<P: Port>(cpu: &mut Cpu, budget: u32, memory: &mut [u16], port: &mut P) -> Report
    requires { budget ≤ MAX_BUDGET }
    ensures answer { ran_as result (state cpu.new memory.new (P.meaning port.new)) ≡ run_of budget (state cpu.old memory.old (P.meaning port.old)) }
    ensures bound { result.cycles ≤ budget }
{
    let mut cycles = 0;
    // The halt is looked for here too, which takes the same test of each step out of the compiled loop.
    while cycles < budget && !cpu.halted {
        match cpu.step(memory, port) {
            Ok(cost) => cycles += cost,
            Err(stop) => return Report { stop, cycles },
        }
    }
    let stop = if cpu.halted {
        Stop::Halted
    } else {
        Stop::Spent
    };
    Report { stop, cycles }
}

impl Machine {
    ghost use Rattle.machine.specs.Calls.{stands, unloaded, sized, loading, running, looking, shown, peeking};

    /// A machine before its first load.
    pub fn new() -> Machine
        ensures { (memory : List ℕ) (port : Meaning) → stands result memory port ≡ unloaded memory port }
    {
        Machine {
            size: None,
            count: 0,
            cpu: Cpu::new(),
        }
    }

    // Refuses a memory that has not as many words as were loaded.
    fn check_memory(&self, memory: &[u16]) -> Result<(), Refusal>
        ensures { result ≡ sized self.now.size (length memory.now) }
    {
        if self.size.map(|words| words as usize) != Some(memory.len()) {
            return Err(Refusal::Memory);
        }
        Ok(())
    }

    /// Makes the memory the image with zeros behind it, and starts from zero.
    pub fn load(&mut self, image: &[u16], memory: &mut [u16]) -> Result<(), Refusal>
        ensures after { (port : Meaning) → stands self.new memory.new port ≡ (loading image.now (stands self.old memory.old port)).after }
        ensures answer { (port : Meaning) → result ≡ (loading image.now (stands self.old memory.old port)).answer }
        ensures kept { OnErr result ((self.new ≡ self.old) × (memory.new ≡ memory.old)) }
    {
        if !(MIN_WORDS..=MAX_WORDS).contains(&memory.len()) {
            return Err(Refusal::Memory);
        }
        if image.len() > memory.len() {
            return Err(Refusal::Image);
        }
        lay(image, memory);
        self.cpu = Cpu::new();
        self.size = Some(memory.len() as u32);
        self.count = 0;
        Ok(())
    }

    /// Does words until the budget is done or a stop comes; the cycles done are added to the count.
    pub fn run<P: Port>(
        &mut self,
        budget: u32,
        memory: &mut [u16],
        port: &mut P,
    ) -> Result<Report, Refusal>
        ensures after { stands self.new memory.new (P.meaning port.new) ≡ (running budget (stands self.old memory.old (P.meaning port.old))).after }
        ensures answer { result ≡ (running budget (stands self.old memory.old (P.meaning port.old))).answer }
        ensures kept { OnErr result ((self.new ≡ self.old) × (memory.new ≡ memory.old) × (port.new ≡ port.old)) }
    {
        self.check_memory(memory)?;
        if budget > MAX_BUDGET {
            return Err(Refusal::Budget);
        }
        if self.count + budget > MAX_CYCLES {
            return Err(Refusal::Count);
        }
        let report = work(&mut self.cpu, budget, memory, port);
        self.count += report.cycles;
        Ok(report)
    }

    /// Registers, program counter and count.
    pub fn look(&self, memory: &[u16]) -> Result<Look, Refusal>
        ensures { (port : Meaning) → shown result ≡ looking (stands self.now memory.now port) }
    {
        self.check_memory(memory)?;
        Ok(Look {
            registers: self.cpu.registers,
            pc: self.cpu.pc,
            count: self.count,
        })
    }

    /// One word of the memory.
    pub fn peek(&self, at: usize, memory: &[u16]) -> Result<u16, Refusal>
        ensures { (port : Meaning) → result ≡ peeking at (stands self.now memory.now port) }
    {
        self.check_memory(memory)?;
        memory.get(at).copied().ok_or(Refusal::Address)
    }
}
