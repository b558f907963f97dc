// One word at a time, in a memory of 256 words, with 0x1234 waiting and five places free.
use self::Change::*;
use super::trials::{Seen, Trial, attempt};
use machine::Refusal;

// All that a word changes besides the program counter.
#[derive(Clone, Copy)]
enum Change {
    Nothing,
    // The register, and the word that it then holds.
    Sets(usize, u16),
    // As `Sets`, and the waiting word is gone.
    Takes(usize, u16),
    // The address, and the word that it then holds.
    Stores(usize, u16),
    // The word sent.
    Sends(u16),
    Halts,
    // The stop, at no cost; by its printed number, so that `Stop::number` is tested too.
    Stops(u8),
}

// A word's place, the word, r1 to r4 before it, what it changes, and the place after it.
struct Place(usize, u16, [u16; 4], Change, u16);

static PLACES: [Place; 18] = [
    // A loop that sends numbers, each the sum of the two before it, near its end.
    Place(4, 0x493F, [3, 5, 5, 2], Sets(4, 1), 5), // addi r4 r4 -1
    Place(5, 0xA805, [3, 5, 5, 1], Nothing, 6), // beq r4 &end
    Place(6, 0x0650, [3, 5, 5, 1], Sets(3, 8), 7), // add r3 r1 r2
    Place(7, 0x0280, [3, 5, 8, 1], Sets(1, 5), 8), // add r1 r2 r0
    Place(8, 0x04C0, [5, 5, 8, 1], Sets(2, 8), 9), // add r2 r3 r0
    Place(9, 0x3600, [5, 8, 8, 1], Sends(8), 10), // out r3
    Place(10, 0xA0F9, [5, 8, 8, 1], Nothing, 4), // beq r0 &loop
    Place(4, 0x493F, [5, 8, 8, 1], Sets(4, 0), 5), // addi r4 r4 -1
    Place(5, 0xA805, [5, 8, 8, 0], Nothing, 11), // beq r4 &end
    Place(11, 0x3000, [5, 8, 8, 0], Halts, 11), // halt
    // A constant, pushed and popped over r7, and stored to a variable at 0x00D5.
    Place(3, 0x8602, [0, 0, 9, 0], Sets(3, 2), 4), // lli r3 2
    Place(4, 0x77C0, [0, 0, 2, 0], Stores(30, 2), 5), // push r7 r3
    Place(5, 0x4FFF, [0, 0, 2, 0], Sets(7, 29), 6), // its second
    Place(6, 0x4FC1, [0, 0, 2, 0], Sets(7, 31), 7), // pop r7 r3
    Place(7, 0x67C0, [0, 0, 2, 0], Sets(3, 0xBEEF), 8), // its second
    Place(8, 0x82D5, [7, 0, 2, 0], Sets(1, 0xFFD5), 9), // lwi r1 0xd5
    Place(9, 0x9200, [0xFFD5, 0, 2, 0], Sets(1, 0xD5), 10), // its second
    Place(10, 0x7640, [0xD5, 0, 2, 0], Stores(0xD5, 2), 11), // sw r3 r1 0
];

// As `Place`, at place 4, with r1 to r3: shorter rows, for the many words at one place.
struct Row(u16, [u16; 3], Change, u16);

static ROWS: [Row; 102] = [
    // Sums and differences modulo 65,536, and bits.
    Row(0x0650, [0xFFFF, 1, 7], Sets(3, 0), 5), // add wraps
    Row(0x0650, [0x8000, 0x8000, 7], Sets(3, 0), 5), // add of halves
    Row(0x0249, [3, 0, 0], Sets(1, 0), 5), // sub from itself
    Row(0x0248, [0x8003, 0, 0], Sets(1, 6), 5), // add to itself
    Row(0x0651, [9, 4, 0], Sets(3, 5), 5), // sub r3 r1 r2
    Row(0x0651, [0, 1, 0], Sets(3, 0xFFFF), 5), // sub below zero
    Row(0x0651, [0x8000, 1, 0], Sets(3, 0x7FFF), 5), // sub from half
    Row(0x0652, [0x0FF0, 0x3C3C, 0], Sets(3, 0x0C30), 5), // and
    Row(0x0653, [0x0FF0, 0x3C3C, 0], Sets(3, 0x3FFC), 5), // or
    Row(0x0644, [0x0FF0, 0, 0], Sets(3, 0xF00F), 5), // not r3 r1
    Row(0x0604, [0, 0, 0], Sets(3, 0xFFFF), 5), // not of zero
    Row(0x067C, [0x0FF0, 0, 0], Sets(3, 0xF00F), 5), // not, unused
    Row(0x4241, [0xFFFF, 0, 0], Sets(1, 0), 5), // addi wraps
    Row(0x425F, [0xFFFF, 0, 0], Sets(1, 30), 5), // addi r1 r1 31
    Row(0x4260, [0, 0, 0], Sets(1, 0xFFE0), 5), // addi r1 r1 -32
    // Shifts: left by 0, 1, 15, 16 and 31, right by 1, 15, 16, 31 and 32.
    Row(0x5280, [0, 0x9234, 0], Sets(1, 0x9234), 5), // shf r1 r2 0
    Row(0x5281, [0, 0x8001, 0], Sets(1, 2), 5), // shf r1 r2 1
    Row(0x528F, [0, 3, 0], Sets(1, 0x8000), 5), // shf r1 r2 15
    Row(0x5290, [9, 0xFFFF, 0], Sets(1, 0), 5), // shf r1 r2 16
    Row(0x529F, [9, 0xFFFF, 0], Sets(1, 0), 5), // shf r1 r2 31
    Row(0x52BF, [0, 0x8001, 0], Sets(1, 0x4000), 5), // shf r1 r2 -1
    Row(0x52B1, [0, 0xFFFF, 0], Sets(1, 1), 5), // shf r1 r2 -15
    Row(0x52B0, [9, 0xFFFF, 0], Sets(1, 0), 5), // shf r1 r2 -16
    Row(0x52A1, [9, 0xFFFF, 0], Sets(1, 0), 5), // shf r1 r2 -31
    Row(0x52A0, [9, 0xFFFF, 0], Sets(1, 0), 5), // shf r1 r2 -32
    // Constants.
    Row(0x827F, [0x5555, 0, 0], Sets(1, 0x007F), 5), // lli r1 0x7f
    Row(0x8280, [0x5555, 0, 0], Sets(1, 0xFF80), 5), // lli r1 0x80
    Row(0x8305, [0x5555, 0, 0], Sets(1, 5), 5), // lli, bit 8
    Row(0x92AB, [0x1234, 0, 0], Sets(1, 0xAB34), 5), // lui r1 0xab
    Row(0x93AB, [0x12F4, 0, 0], Sets(1, 0xABF4), 5), // lui, bit 8
    // Branches on 0, 1, 0x7fff, 0x8000 and 0xffff: 3 words on if taken.
    Row(0xA203, [0, 1, 0], Nothing, 8), // beq on 0
    Row(0xA203, [1, 0, 0], Nothing, 5), // beq on 1
    Row(0xA203, [0x7FFF, 0, 0], Nothing, 5), // beq on 0x7fff
    Row(0xA203, [0x8000, 0, 0], Nothing, 5), // beq on 0x8000
    Row(0xA203, [0xFFFF, 0, 0], Nothing, 5), // beq on 0xffff
    Row(0xB203, [0, 1, 0], Nothing, 5), // bne on 0
    Row(0xB203, [1, 0, 0], Nothing, 8), // bne on 1
    Row(0xB203, [0x7FFF, 0, 0], Nothing, 8), // bne on 0x7fff
    Row(0xB203, [0x8000, 0, 0], Nothing, 8), // bne on 0x8000
    Row(0xB203, [0xFFFF, 0, 0], Nothing, 8), // bne on 0xffff
    Row(0xC203, [0, 1, 0], Nothing, 5), // bgt on 0
    Row(0xC203, [1, 0, 0], Nothing, 8), // bgt on 1
    Row(0xC203, [0x7FFF, 0, 0], Nothing, 8), // bgt on 0x7fff
    Row(0xC203, [0x8000, 0, 0], Nothing, 5), // bgt on 0x8000
    Row(0xC203, [0xFFFF, 0, 0], Nothing, 5), // bgt on 0xffff
    Row(0xD203, [0, 1, 0], Nothing, 8), // bge on 0
    Row(0xD203, [1, 0, 0], Nothing, 8), // bge on 1
    Row(0xD203, [0x7FFF, 0, 0], Nothing, 8), // bge on 0x7fff
    Row(0xD203, [0x8000, 0, 0], Nothing, 5), // bge on 0x8000
    Row(0xD203, [0xFFFF, 0, 0], Nothing, 5), // bge on 0xffff
    Row(0xE203, [0, 1, 0], Nothing, 5), // blt on 0
    Row(0xE203, [1, 0, 0], Nothing, 5), // blt on 1
    Row(0xE203, [0x7FFF, 0, 0], Nothing, 5), // blt on 0x7fff
    Row(0xE203, [0x8000, 0, 0], Nothing, 8), // blt on 0x8000
    Row(0xE203, [0xFFFF, 0, 0], Nothing, 8), // blt on 0xffff
    Row(0xF203, [0, 1, 0], Nothing, 8), // ble on 0
    Row(0xF203, [1, 0, 0], Nothing, 5), // ble on 1
    Row(0xF203, [0x7FFF, 0, 0], Nothing, 5), // ble on 0x7fff
    Row(0xF203, [0x8000, 0, 0], Nothing, 8), // ble on 0x8000
    Row(0xF203, [0xFFFF, 0, 0], Nothing, 8), // ble on 0xffff
    // The ends of a branch's reach; a target outside the memory is no fault of the branch.
    Row(0xA07F, [0, 0, 0], Nothing, 132), // beq r0 127
    Row(0xA080, [0, 0, 0], Nothing, 0xFF85), // beq r0 -128
    Row(0xA303, [0, 0, 0], Nothing, 8), // beq, bit 8
    // Jumps.
    Row(0x1280, [20, 9, 0], Sets(2, 5), 20), // jalr r1 r2
    Row(0x1240, [20, 9, 0], Sets(1, 5), 20), // jalr r1 r1
    Row(0x1040, [20, 9, 0], Sets(1, 5), 0), // jalr r0 r1
    Row(0x1200, [0xFFFF, 0, 0], Nothing, 0xFFFF), // jmp r1
    Row(0x12BF, [20, 9, 0], Sets(2, 5), 20), // jalr, unused bits
    // Loads and stores with the ends of their reach; word 30 is 0xbeef.
    Row(0x665F, [0xFFFF, 0, 0], Sets(3, 0xBEEF), 5), // lw r3 r1 31
    Row(0x667F, [31, 0, 0], Sets(3, 0xBEEF), 5), // lw r3 r1 -1
    Row(0x6660, [62, 0, 0], Sets(3, 0xBEEF), 5), // lw r3 r1 -32
    Row(0x665F, [0xFFE1, 0, 9], Sets(3, 0xA01F), 5), // lw wraps
    Row(0x6240, [30, 0, 0], Sets(1, 0xBEEF), 5), // lw r1 r1 0
    Row(0x6240, [4, 0, 0], Sets(1, 0x6240), 5), // lw of itself
    Row(0x7660, [62, 0, 77], Stores(30, 77), 5), // sw r3 r1 -32
    Row(0x7640, [255, 0, 77], Stores(255, 77), 5), // sw to the last
    Row(0x7640, [4, 0, 77], Stores(4, 77), 5), // sw over itself
    Row(0x7040, [30, 0, 0], Stores(30, 0), 5), // sw of r0
    Row(0x7640, [256, 0, 1], Stops(33), 4), // sw behind the last
    Row(0x767F, [0, 0, 1], Stops(33), 4), // sw below zero
    Row(0x6641, [255, 0, 1], Stops(33), 4), // lw behind the last
    Row(0x667F, [0, 0, 1], Stops(33), 4), // lw below zero
    Row(0x607F, [0, 0, 1], Stops(33), 4), // lw r0 below zero
    // The port.
    Row(0x2600, [0, 0, 9], Takes(3, 0x1234), 5), // in r3
    Row(0x27FF, [0, 0, 9], Takes(3, 0x1234), 5), // in, unused bits
    Row(0x33F8, [0xFFFF, 0, 0], Sends(0xFFFF), 5), // out, unused bits
    Row(0x31F8, [1, 0, 0], Halts, 4), // halt, unused bits
    // A write to r0 is dropped, as in jmp above.
    Row(0x0050, [3, 5, 0], Nothing, 5), // add r0 r1 r2
    Row(0x0044, [3, 5, 0], Nothing, 5), // not r0 r1
    Row(0x2000, [3, 5, 0], Takes(0, 0), 5), // in r0
    Row(0x4041, [3, 5, 0], Nothing, 5), // addi r0 r1 1
    Row(0x5041, [3, 5, 0], Nothing, 5), // shf r0 r1 1
    Row(0x6040, [30, 5, 0], Nothing, 5), // lw r0 r1 0
    Row(0x8005, [3, 5, 0], Nothing, 5), // lli r0 5
    Row(0x9005, [3, 5, 0], Nothing, 5), // lui r0 5
    // Unassigned words.
    Row(0x0005, [3, 5, 0], Stops(34), 4), // function 5
    Row(0x0006, [3, 5, 0], Stops(34), 4), // function 6
    Row(0x0007, [3, 5, 0], Stops(34), 4), // function 7
    Row(0x0655, [3, 5, 0], Stops(34), 4), // function 5, registers
    Row(0x3001, [3, 5, 0], Stops(34), 4), // out, function 1
    Row(0x3202, [3, 5, 0], Stops(34), 4), // out, function 2
    Row(0x3007, [3, 5, 0], Stops(34), 4), // out, function 7
];

// Sets r1 to r7 by 14 words from 32 on and goes to the word's place, which takes 16 cycles.
// Place, word and registers are passed on as they are, here and below: a struct would be built for each row.
fn scene(at: usize, word: u16, before: [u16; 8]) -> [u16; 64] {
    let mut image = [0; 64];
    image[0] = 0xA01F;
    // By number: each register sets two places of the image.
    for r in 1..8usize {
        let n = r as u16;
        image[2 * r + 30] = 0x8000 + 512 * n + before[r] % 256;
        image[2 * r + 31] = 0x9000 + 512 * n + before[r] / 256;
    }
    let place = at % 30;
    image[46] = 0xA0D1 + place as u16;
    image[30] = 0xBEEF;
    image[place] = word;
    image
}

// The registers with one of them changed.
fn changed(before: [u16; 8], register: usize, word: u16) -> [u16; 8] {
    let mut registers = before;
    if let Some(place) = registers.get_mut(register) {
        *place = word;
    }
    registers
}

fn expected(change: Change, before: [u16; 8], pc: u16) -> Seen {
    let mut seen = Seen {
        stop: 0,
        cycles: 1,
        pc,
        registers: before,
        waiting: 1,
        free: 5,
        sent: [0; 5],
        found: 1,
    };
    match change {
        Nothing | Stores(_, _) => {}
        Sets(register, word) => seen.registers = changed(before, register, word),
        Takes(register, word) => {
            seen.registers = changed(before, register, word);
            seen.waiting = 0;
        }
        Sends(word) => {
            seen.sent = [word, 0, 0, 0, 0];
            seen.free = 4;
        }
        Halts => seen.stop = 30,
        Stops(stop) => {
            seen.stop = stop;
            seen.cycles = 0;
        }
    }
    seen
}

fn done(at: usize, word: u16, before: [u16; 8], change: Change) -> Result<Seen, Refusal> {
    let (from, stored) = match change {
        Stores(address, stored) => (address, stored),
        _ => (30, 0xBEEF),
    };
    let trial = Trial {
        image: &scene(at, word, before),
        input: &[0x1234],
        room: 5,
        scene: 16,
        budget: 1,
        from,
        words: &[stored],
    };
    attempt(&trial, &mut [0; 256])
}

fn agrees(at: usize, word: u16, before: [u16; 8], change: Change, pc: u16) -> bool {
    done(at, word, before, change) == Ok(expected(change, before, pc))
}

// The first place that is otherwise.
fn wrong_place(places: &[Place]) -> Option<usize> {
    places.iter().position(|place| {
        let [r1, r2, r3, r4] = place.2;
        let before = [0, r1, r2, r3, r4, 0x5555, 0x6666, 30];
        !agrees(place.0, place.1, before, place.3, place.4)
    })
}

// Apart from `wrong_place`: the rows differ in their fields, and `agrees` has what they share.
fn wrong_row(rows: &[Row]) -> Option<usize> {
    rows.iter().position(|row| {
        let [r1, r2, r3] = row.1;
        let before = [0, r1, r2, r3, 0x4444, 0x5555, 0x6666, 30];
        !agrees(4, row.0, before, row.2, row.3)
    })
}

#[test]
fn words_one_by_one(rt: HostRuntime) {
    assert_eq!(rt; wrong_place(&PLACES), None);
    assert_eq!(rt; wrong_row(&ROWS), None);
}
