// The machine's runs for a program that is not Rattle, which measures their speed.
#![tactic(auto)]

ghost use Rattle.std.specs.Prelude.{◌≡◌, ℕ};
ghost use Rattle.machine.specs.Calls.{stands, looking};
ghost use Rattle.bench_run.specs.Timed.{runs_from, timed, count_of};

use machine::Machine;
use port::{Port, Tape};

// The cycles that one run is given.
const BUDGET: u32 = 1_000_000;

fn run_on<P: Port>(machine: &mut Machine, runs: u32, memory: &mut [u16], port: &mut P)
    ensures { stands machine.new memory.new (P.meaning port.new) ≡ runs_from runs (stands machine.old memory.old (P.meaning port.old)) }
{
    for _ in 0..runs {
        let _ = machine.run(BUDGET, memory, port);
    }
}

/// Loads the image and runs it over a tape, so many times 1,000,000 cycles; answers the cycles done.
#[unsafe(no_mangle)]
pub extern "C" fn bench_run(
    image: &[u16],
    memory: &mut [u16],
    input: &[u16],
    output: &mut [u16],
    runs: u32,
) -> u32
    ensures answer { result ≡ count_of (looking (timed image.now memory.old input.now output.old runs)) }
    ensures memory { memory.new ≡ (timed image.now memory.old input.now output.old runs).state.memory }
{
    let mut machine = Machine::new();
    let mut tape = Tape::new(input, output);
    let _ = machine.load(image, memory);
    run_on(&mut machine, runs, memory, &mut tape);
    machine.look(memory).map_or(0, |look| look.count)
}
