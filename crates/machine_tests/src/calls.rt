// Calls one after the other on one machine, with their answers and refusals.
use machine::{Machine, Refusal};
use port::Tape;
use std::test::Fail;

// A call on so many words of memory.
enum Call {
    // An image.
    Load(usize, &'static [u16]),
    // An image of so many words 0xA0FF, a branch to itself.
    Fill(usize, usize),
    // A budget.
    Run(usize, u32),
    // So many runs of a budget, the last of which answers.
    Runs(usize, u32, u32),
    // What look gives.
    Place(usize),
    Count(usize),
    // An address.
    Peek(usize, usize),
}

// The call, and what it answers: its stop or 0, and its cycles or word; or its refusal.
// By their printed numbers, so that `number` is tested too.
struct Step(Call, Result<(u8, u32), u8>);

static STEPS: [Step; 127] = [
    Step(Call::Run(64, 1), Err(4)), // run before a load
    Step(Call::Run(64, 0), Err(4)), // run of nothing before a load
    Step(Call::Run(64, 1_000_001), Err(4)), // run too far before a load
    Step(Call::Run(0, 1), Err(4)), // run of no memory before a load
    Step(Call::Place(64), Err(4)), // look before a load
    Step(Call::Place(0), Err(4)), // look at no memory before a load
    Step(Call::Peek(64, 0), Err(4)), // peek before a load
    Step(Call::Peek(64, 64), Err(4)), // peek beyond before a load
    // Loads that are refused are no load.
    Step(Call::Load(0, &[]), Err(4)), // memory of 0
    Step(Call::Load(63, &[]), Err(4)), // memory of 63
    Step(Call::Load(65537, &[]), Err(4)), // memory of 65,537
    Step(Call::Fill(63, 64), Err(4)), // memory of 63, image of 64
    Step(Call::Fill(64, 65), Err(5)), // image of 65 in 64
    Step(Call::Fill(65536, 65537), Err(5)), // image of 65,537 in 65,536
    Step(Call::Place(64), Err(4)), // look after refused loads
    Step(Call::Place(65536), Err(4)), // look after refused loads, all
    Step(Call::Place(63), Err(4)), // look at 63 after a refused load
    // The smallest memory.
    Step(Call::Fill(64, 64), Ok((0, 0))), // image of 64 in 64
    Step(Call::Place(64), Ok((0, 0))), // place
    Step(Call::Count(64), Ok((0, 0))), // count
    Step(Call::Peek(64, 0), Ok((0, 0xA0FF))), // first word
    Step(Call::Peek(64, 63), Ok((0, 0xA0FF))), // last word
    Step(Call::Peek(64, 64), Err(20)), // peek at the length
    Step(Call::Peek(64, 65536), Err(20)), // peek far beyond
    Step(Call::Run(64, 0), Ok((0, 0))), // run of nothing
    Step(Call::Run(64, 10), Ok((0, 10))), // run of ten
    Step(Call::Count(64), Ok((0, 10))), // count of ten
    // Another length than was loaded.
    Step(Call::Run(65, 1), Err(4)), // run of 65 words
    Step(Call::Run(63, 1), Err(4)), // run of 63 words
    Step(Call::Run(0, 0), Err(4)), // run of no words
    Step(Call::Run(65537, 1), Err(4)), // run of all words
    Step(Call::Run(65, 1_000_001), Err(4)), // run of 65 words, too far
    Step(Call::Place(65), Err(4)), // look at 65 words
    Step(Call::Place(0), Err(4)), // look at no words
    Step(Call::Peek(65, 0), Err(4)), // peek in 65 words
    Step(Call::Peek(65, 65), Err(4)), // peek in 65 words, beyond
    Step(Call::Peek(0, 0), Err(4)), // peek in no words
    Step(Call::Count(64), Ok((0, 10))), // count is kept
    // A refused load leaves the earlier one in force.
    Step(Call::Fill(64, 65), Err(5)), // load of 65 in 64, refused
    Step(Call::Fill(65, 66), Err(5)), // load of 66 in 65, refused
    Step(Call::Load(63, &[0x3000]), Err(4)), // load in 63, refused
    Step(Call::Load(0, &[0x3000]), Err(4)), // load in 0, refused
    Step(Call::Count(64), Ok((0, 10))), // count after refused loads
    Step(Call::Peek(64, 0), Ok((0, 0xA0FF))), // word after refused loads
    Step(Call::Run(64, 5), Ok((0, 5))), // run after refused loads
    Step(Call::Count(64), Ok((0, 15))), // count of fifteen
    // Budgets.
    Step(Call::Run(64, 1_000_001), Err(8)), // budget of 1,000,001
    Step(Call::Run(64, 0xFFFF_FFFF), Err(8)), // greatest budget
    Step(Call::Count(64), Ok((0, 15))), // count after refused budgets
    Step(Call::Run(64, 1_000_000), Ok((0, 1_000_000))), // budget of 1,000,000
    Step(Call::Count(64), Ok((0, 1_000_015))), // count of both
    // The largest memory, first full, then but for one word empty.
    Step(Call::Fill(65536, 65536), Ok((0, 0))), // image of 65,536 in 65,536
    Step(Call::Count(65536), Ok((0, 0))), // count starts anew
    Step(Call::Peek(65536, 65535), Ok((0, 0xA0FF))), // last of all words
    Step(Call::Peek(65536, 65536), Err(20)), // peek at the largest length
    Step(Call::Place(64), Err(4)), // look at the earlier memory
    Step(Call::Run(64, 1), Err(4)), // run of the earlier memory
    Step(Call::Fill(65536, 1), Ok((0, 0))), // image of 1 in 65,536
    Step(Call::Peek(65536, 0), Ok((0, 0xA0FF))), // its word
    Step(Call::Peek(65536, 1), Ok((0, 0))), // zero behind it
    Step(Call::Peek(65536, 65535), Ok((0, 0))), // zero at the end
    // Up to 100,000,000 cycles.
    Step(Call::Runs(65536, 99, 1_000_000), Ok((0, 1_000_000))), // 99 runs
    Step(Call::Count(65536), Ok((0, 99_000_000))), // count of 99,000,000
    Step(Call::Run(65536, 999_999), Ok((0, 999_999))), // one cycle less
    Step(Call::Count(65536), Ok((0, 99_999_999))), // count of 99,999,999
    Step(Call::Run(65536, 2), Err(9)), // two cycles more
    Step(Call::Run(65536, 1_000_000), Err(9)), // a whole budget more
    Step(Call::Run(65536, 1_000_001), Err(8)), // more than a budget more
    Step(Call::Run(64, 2), Err(4)), // other memory and more
    Step(Call::Count(65536), Ok((0, 99_999_999))), // count is still the same
    Step(Call::Run(65536, 1), Ok((0, 1))), // the last cycle
    Step(Call::Count(65536), Ok((0, 100_000_000))), // count of 100,000,000
    Step(Call::Run(65536, 0), Ok((0, 0))), // no cycle more
    Step(Call::Run(65536, 1), Err(9)), // one cycle too many
    Step(Call::Fill(65536, 65537), Err(5)), // a refused load keeps the count
    Step(Call::Count(65536), Ok((0, 100_000_000))), // count is kept at the end
    // lli r1 7, halt
    Step(Call::Load(64, &[0x8207, 0x3000]), Ok((0, 0))), // load anew
    Step(Call::Count(64), Ok((0, 0))), // count from nothing
    Step(Call::Run(64, 2), Ok((30, 2))), // halt on the last cycle
    Step(Call::Run(64, 0), Ok((30, 0))), // halted, no budget
    Step(Call::Run(64, 1), Ok((30, 0))), // halted, budget of 1
    Step(Call::Run(64, 1_000_000), Ok((30, 0))), // halted, budget of 1,000,000
    Step(Call::Run(64, 1_000_001), Err(8)), // halted, budget of 1,000,001
    Step(Call::Run(65, 0), Err(4)), // halted, other memory
    Step(Call::Place(64), Ok((0, 1))), // halted, place
    Step(Call::Count(64), Ok((0, 2))), // halted, count
    Step(Call::Peek(64, 1), Ok((0, 0x3000))), // halted, word
    Step(Call::Fill(64, 65), Err(5)), // halted, refused load
    Step(Call::Run(64, 1), Ok((30, 0))), // halted still
    Step(Call::Load(64, &[0x8207, 0x3000]), Ok((0, 0))), // load ends it
    Step(Call::Place(64), Ok((0, 0))), // place from nothing
    Step(Call::Run(64, 1), Ok((0, 1))), // spent before the halt
    Step(Call::Place(64), Ok((0, 1))), // place of the halt
    Step(Call::Run(64, 1_000_000), Ok((30, 1))), // halt alone
    //         lwi r1 762
    // turn:   addi r2 r2 -1
    //         bne r2 &turn
    //         addi r1 r1 -1
    //         bne r1 &turn
    //         halt
    //
    // Two words, 762 times (65,536 times two, and two), and one: 99,878,391.
    Step(
        Call::Load(
            64,
            &[0x82FA, 0x9202, 0x44BF, 0xB4FE, 0x427F, 0xB2FC, 0x3000],
        ),
        Ok((0, 0)),
    ),
    Step(Call::Runs(64, 100, 1_000_000), Ok((30, 878_391))), // its end
    Step(Call::Count(64), Ok((0, 99_878_391))), // its count
    Step(Call::Place(64), Ok((0, 6))), // its place
    Step(Call::Run(64, 121_610), Err(9)), // halted, count refused
    Step(Call::Run(64, 121_609), Ok((30, 0))), // halted, count allowed
    Step(Call::Count(64), Ok((0, 99_878_391))), // halted, count unchanged
    Step(Call::Run(64, 1_000_001), Err(8)), // halted, count and budget refused
    // Words that stop, at no cost, and as often as they are met.
    Step(Call::Load(64, &[0x0005]), Ok((0, 0))),
    Step(Call::Run(64, 0), Ok((0, 0))), // no budget at an unassigned word
    Step(Call::Run(64, 1), Ok((34, 0))),
    Step(Call::Run(64, 1_000_000), Ok((34, 0))),
    Step(Call::Load(64, &[0x8205, 0x2200]), Ok((0, 0))), // lli r1 5, in r1
    Step(Call::Run(64, 1), Ok((0, 1))), // spent before a dry word
    Step(Call::Run(64, 0), Ok((0, 0))),
    Step(Call::Run(64, 1), Ok((31, 0))),
    Step(Call::Run(64, 1_000_000), Ok((31, 0))),
    Step(Call::Place(64), Ok((0, 1))),
    Step(Call::Count(64), Ok((0, 1))),
    Step(Call::Load(64, &[0x8205, 0x3200]), Ok((0, 0))), // lli r1 5, out r1
    Step(Call::Run(64, 1_000_000), Ok((32, 1))), // no place is free
    Step(Call::Run(64, 1), Ok((32, 0))),
    Step(Call::Place(64), Ok((0, 1))),
    Step(Call::Count(64), Ok((0, 1))),
    // 64 times add r0 r0 r0, and off the end.
    Step(Call::Load(64, &[]), Ok((0, 0))),
    Step(Call::Run(64, 64), Ok((0, 64))), // spent at the end
    Step(Call::Place(64), Ok((0, 64))),
    Step(Call::Run(64, 1), Ok((33, 0))),
    Step(Call::Place(64), Ok((0, 64))),
    Step(Call::Count(64), Ok((0, 64))),
    // The program counter wraps: 15 times 65,536 words, and 16,960 more.
    Step(Call::Load(65536, &[]), Ok((0, 0))),
    Step(Call::Run(65536, 1_000_000), Ok((0, 1_000_000))),
    Step(Call::Place(65536), Ok((0, 16960))),
];

// Machine, memory and loops are passed on as they are, here and below: a struct would be built for each call.
fn do_run(machine: &mut Machine, memory: &mut [u16], budget: u32) -> Result<(u8, u32), Refusal> {
    let mut tape = Tape::new(&[], &mut []);
    let report = machine.run(budget, memory, &mut tape)?;
    Ok((report.stop.number(), report.cycles))
}

fn do_runs(
    machine: &mut Machine,
    memory: &mut [u16],
    times: u32,
    budget: u32,
) -> Result<(u8, u32), Refusal> {
    (0..times).try_fold((0, 0), |_, _| do_run(machine, memory, budget))
}

// How many words of memory the call is given.
fn length_of(call: &Call) -> usize {
    match call {
        Call::Load(n, _)
        | Call::Fill(n, _)
        | Call::Run(n, _)
        | Call::Runs(n, _, _)
        | Call::Place(n)
        | Call::Count(n)
        | Call::Peek(n, _) => *n,
    }
}

fn do_call(
    call: &Call,
    machine: &mut Machine,
    memory: &mut [u16],
    loops: &[u16],
) -> Result<(u8, u32), Refusal> {
    match call {
        Call::Load(_, image) => {
            machine.load(image, memory)?;
            Ok((0, 0))
        }
        Call::Fill(_, length) => {
            let end = loops.len().min(*length);
            machine.load(&loops[..end], memory)?;
            Ok((0, 0))
        }
        Call::Run(_, budget) => do_run(machine, memory, *budget),
        Call::Runs(_, times, budget) => do_runs(machine, memory, *times, *budget),
        Call::Place(_) => {
            let look = machine.look(memory)?;
            Ok((0, u32::from(look.pc)))
        }
        Call::Count(_) => {
            let look = machine.look(memory)?;
            Ok((0, look.count))
        }
        Call::Peek(_, at) => {
            let word = machine.peek(*at, memory)?;
            Ok((0, u32::from(word)))
        }
    }
}

fn answer(
    call: &Call,
    machine: &mut Machine,
    memory: &mut [u16],
    loops: &[u16],
) -> Result<(u8, u32), u8> {
    let end = memory.len().min(length_of(call));
    do_call(call, machine, &mut memory[..end], loops).map_err(Refusal::number)
}

// The first step that answers otherwise.
fn wrong_step(steps: &[Step], memory: &mut [u16], loops: &[u16]) -> Option<usize> {
    let mut machine = Machine::new();
    steps.iter().position(|step| answer(&step.0, &mut machine, memory, loops) != step.1)
}

#[test]
fn calls_in_order(rt: HostRuntime) -> Result<(), Fail> {
    let mut memory = vec![in rt.alloc(); 0u16; 65_537]?;
    let loops = vec![in rt.alloc(); 0xA0FFu16; 65_537]?;
    assert_eq!(rt; wrong_step(&STEPS, &mut memory, &loops), None);
    Ok(())
}
