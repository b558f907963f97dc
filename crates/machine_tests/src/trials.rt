// A trial: an image, a port and two runs, and what is seen after them.
use machine::{Machine, Refusal};
use port::{Port, Tape};
use words::{Register, RegisterFile};

/// An image to load, words to read and places to send to, the budgets of a run that sets the scene
/// and of the run to be seen, and words to be found in the memory after it.
#[derive(Clone, Copy)]
pub struct Trial<'a> {
    pub image: &'a [u16],
    pub input: &'a [u16],
    pub room: usize,
    pub scene: u32,
    pub budget: u32,
    pub from: usize,
    pub words: &'a [u16],
}

/// What the last run answered, and what look, the port and peek then show.
#[derive(Clone, Copy, PartialEq)]
pub struct Seen {
    // By its printed number, so that `Stop::number` is tested too.
    pub stop: u8,
    pub cycles: u32,
    pub pc: u16,
    pub registers: [u16; 8],
    pub waiting: usize,
    pub free: usize,
    pub sent: [u16; 5],
    pub found: usize,
}

fn list(file: RegisterFile) -> [u16; 8] {
    [0, 1, 2, 3, 4, 5, 6, 7].map(|n| file.get(Register::from_bits(n)))
}

// How many of the words stand in the memory, one after the other.
fn find(machine: &Machine, memory: &[u16], from: usize, words: &[u16]) -> usize {
    (from..)
        .zip(words)
        .filter(|(at, word)| machine.peek(*at, memory) == Ok(**word))
        .count()
}

/// Loads, runs twice, and looks around.
pub(crate) fn attempt(trial: &Trial, memory: &mut [u16]) -> Result<Seen, Refusal> {
    let mut sent = [0; 5];
    let room = trial.room.min(5);
    let mut tape = Tape::new(trial.input, &mut sent[..room]);
    let mut machine = Machine::new();
    machine.load(trial.image, memory)?;
    let _ = machine.run(trial.scene, memory, &mut tape)?;
    let report = machine.run(trial.budget, memory, &mut tape)?;
    let look = machine.look(memory)?;
    let waiting = tape.count_waiting();
    let free = tape.count_free();
    Ok(Seen {
        stop: report.stop.number(),
        cycles: report.cycles,
        pc: look.pc,
        registers: list(look.registers),
        waiting,
        free,
        sent,
        found: find(&machine, memory, trial.from, trial.words),
    })
}
