// Whole programs, each worked through by hand.
use super::trials::{Seen, Trial, attempt};
use std::test::Fail;

// The length of the memory, the program, and what is seen at its end.
struct Program(usize, Trial<'static>, Seen);

static PROGRAMS: [Program; 10] = [
    // Each word sent is the sum of the two before it: four words, five times seven, then three.
    Program(
        64,
        Trial {
            image: &[
                0x8401, // lwi r2 1
                0x9400, 0x8806, // lwi r4 6
                0x9800, 0x493F, // loop: addi r4 r4 -1
                0xA805, // beq r4 &end
                0x0650, // add r3 r1 r2
                0x0280, // add r1 r2 r0
                0x04C0, // add r2 r3 r0
                0x3600, // out r3
                0xA0F9, // beq r0 &loop
                0x3000, // end: halt
            ],
            input: &[],
            room: 5,
            scene: 0,
            budget: 1_000_000,
            from: 11,
            words: &[0x3000, 0],
        },
        Seen {
            stop: 30,
            cycles: 42,
            pc: 11,
            registers: [0, 5, 8, 8, 0, 0, 0, 0],
            waiting: 0,
            free: 0,
            sent: [1, 2, 3, 5, 8],
            found: 2,
        },
    ),
    // The same in two runs: four words and one time seven, then the rest.
    Program(
        64,
        Trial {
            image: &[
                0x8401, 0x9400, 0x8806, 0x9800, 0x493F, 0xA805, 0x0650, 0x0280, 0x04C0, 0x3600,
                0xA0F9, 0x3000,
            ],
            input: &[],
            room: 5,
            scene: 11,
            budget: 1_000_000,
            from: 0,
            words: &[],
        },
        Seen {
            stop: 30,
            cycles: 31,
            pc: 11,
            registers: [0, 5, 8, 8, 0, 0, 0, 0],
            waiting: 0,
            free: 0,
            sent: [1, 2, 3, 5, 8],
            found: 0,
        },
    ),
    // A text, put on a screen at 0xC000: four words, thirteen times six, then three.
    Program(
        65536,
        Trial {
            image: &[
                0x820B, // lwi r1 &msg
                0x9200, 0x8400, // lwi r2 0xc000
                0x94C0, 0x6640, // loop: lw r3 r1 0
                0xA604, // beq r3 &done
                0x7680, // sw r3 r2 0
                0x4241, // addi r1 r1 1
                0x4481, // addi r2 r2 1
                0xA0FA, // beq r0 &loop
                0x3000, // done: halt
                72, // msg: .cstr "Hello, world!"
                101, 108, 108, 111, 44, 32, 119, 111, 114, 108, 100, 33, 0,
            ],
            input: &[],
            room: 0,
            scene: 0,
            budget: 1_000_000,
            from: 0xC000,
            words: &[
                72, 101, 108, 108, 111, 44, 32, 119, 111, 114, 108, 100, 33, 0,
            ],
        },
        Seen {
            stop: 30,
            cycles: 85,
            pc: 10,
            registers: [0, 24, 0xC00D, 0, 0, 0, 0, 0],
            waiting: 0,
            free: 0,
            sent: [0; 5],
            found: 14,
        },
    ),
    // The same where the screen is the first word outside.
    Program(
        0xC000,
        Trial {
            image: &[
                0x820B, 0x9200, 0x8400, 0x94C0, 0x6640, 0xA604, 0x7680, 0x4241, 0x4481, 0xA0FA,
                0x3000, 72, 0,
            ],
            input: &[],
            room: 0,
            scene: 0,
            budget: 1_000_000,
            from: 0xBFFF,
            words: &[0],
        },
        Seen {
            stop: 33,
            cycles: 6,
            pc: 6,
            registers: [0, 11, 0xC000, 72, 0, 0, 0, 0],
            waiting: 0,
            free: 0,
            sent: [0; 5],
            found: 1,
        },
    ),
    // A call, its one parameter on a stack that starts at 0x8000.
    Program(
        32769,
        Trial {
            image: &[
                0x8E00, // lwi r7 0x8000
                0x9E80, 0x8615, // lli r3 21
                0x77C0, // push r7 r3
                0x4FFF, 0x8A09, // lli r5 &double
                0x1B40, // jalr r5 r5
                0x3800, // out r4
                0x3000, // halt
                0x63C1, // double: lw r1 r7 1
                0x0848, // add r4 r1 r1
                0x1A00, // jmp r5
            ],
            input: &[],
            room: 1,
            scene: 0,
            budget: 12,
            from: 0x8000,
            words: &[21],
        },
        Seen {
            stop: 30,
            cycles: 12,
            pc: 8,
            registers: [0, 21, 0, 21, 42, 7, 0, 0x7FFF],
            waiting: 0,
            free: 0,
            sent: [42, 0, 0, 0, 0],
            found: 1,
        },
    ),
    // One word of a heap.
    Program(
        64,
        Trial {
            image: &[
                0x8208, // lwi r1 &heapPtr
                0x9200, 0x6440, // lw r2 r1 0
                0x4681, // addi r3 r2 1
                0x7640, // sw r3 r1 0
                0x8655, // lli r3 0x55
                0x7680, // sw r3 r2 0
                0x3000, // halt
                9, // heapPtr: .fill &heap
                0, // heap: .fill 0
            ],
            input: &[],
            room: 0,
            scene: 0,
            budget: 100,
            from: 8,
            words: &[10, 0x55, 0],
        },
        Seen {
            stop: 30,
            cycles: 8,
            pc: 7,
            registers: [0, 8, 9, 0x55, 0, 0, 0, 0],
            waiting: 0,
            free: 0,
            sent: [0; 5],
            found: 3,
        },
    ),
    // An unassigned word becomes a halt before it is reached.
    Program(
        64,
        Trial {
            image: &[
                0x8200, // lwi r1 0x3000
                0x9230, 0x7204, // sw r1 r0 4
                0x0000, // add r0 r0 r0
                0x0005, // .fill 5
            ],
            input: &[],
            room: 0,
            scene: 0,
            budget: 100,
            from: 3,
            words: &[0, 0x3000, 0],
        },
        Seen {
            stop: 30,
            cycles: 5,
            pc: 4,
            registers: [0, 0x3000, 0, 0, 0, 0, 0, 0],
            waiting: 0,
            free: 0,
            sent: [0; 5],
            found: 3,
        },
    ),
    // Three words are taken, one of them dropped, and the fourth is not there.
    Program(
        64,
        Trial {
            image: &[
                0x2200, // in r1
                0x2400, // in r2
                0x2000, // in r0
                0x3200, // out r1
                0x2600, // in r3
            ],
            input: &[0x8001, 0, 7],
            room: 2,
            scene: 0,
            budget: 100,
            from: 4,
            words: &[0x2600],
        },
        Seen {
            stop: 31,
            cycles: 4,
            pc: 4,
            registers: [0, 0x8001, 0, 0, 0, 0, 0, 0],
            waiting: 0,
            free: 1,
            sent: [0x8001, 0, 0, 0, 0],
            found: 1,
        },
    ),
    // Two words to send, and one place: lli r1 5, out r1, out r1, halt.
    Program(
        64,
        Trial {
            image: &[0x8205, 0x3200, 0x3200, 0x3000],
            input: &[9],
            room: 1,
            scene: 0,
            budget: 100,
            from: 0,
            words: &[],
        },
        Seen {
            stop: 32,
            cycles: 2,
            pc: 2,
            registers: [0, 5, 0, 0, 0, 0, 0, 0],
            waiting: 1,
            free: 0,
            sent: [5, 0, 0, 0, 0],
            found: 0,
        },
    ),
    // The last of 65,536 words: at 0xFFFF stands 8, which is add r0 r0 r1, and then comes 0.
    Program(
        65536,
        Trial {
            image: &[
                0x8208, // lli r1 8
                0x723F, // sw r1 r0 -1
                0x643F, // lw r2 r0 -1
                0xA0FB, // beq r0 -5
            ],
            input: &[],
            room: 0,
            scene: 0,
            budget: 5,
            from: 65535,
            words: &[8],
        },
        Seen {
            stop: 0,
            cycles: 5,
            pc: 0,
            registers: [0, 8, 8, 0, 0, 0, 0, 0],
            waiting: 0,
            free: 0,
            sent: [0; 5],
            found: 1,
        },
    ),
];

// The first program that ends otherwise.
fn wrong_program(programs: &[Program], memory: &mut [u16]) -> Option<usize> {
    programs.iter().position(|program| {
        let end = memory.len().min(program.0);
        attempt(&program.1, &mut memory[..end]) != Ok(program.2)
    })
}

#[test]
fn programs_to_their_end(rt: HostRuntime) -> Result<(), Fail> {
    let mut memory = vec![in rt.alloc(); 0u16; 65_536]?;
    assert_eq!(rt; wrong_program(&PROGRAMS, &mut memory), None);
    Ok(())
}
