// Replays switch words, recorded as text, through the image of a door program, and counts down over a tape.
#![tactic(auto)]

use image_file::{read_image, write_image};
use machine::{Machine, Report};
use port::{Polarity, Port, Tape};
use report::{Refusal, write_refusal};
use std::io;
use std::io::{Read, Write};
use text_port::{TextPort, check_text};

// Sends the four window switches each time one of them changes.
//
//         lli r3 15        # the four window switches
// poll:   in r1            # the next recorded switch word
//         and r2 r1 r3
//         sub r4 r2 r5     # r5 holds what was sent last
//         beq r4 &poll     # nothing has changed
//         out r2
//         mov r5 r2
//         br &poll
static DOOR: [u16; 8] = [
    0x860F, 0x2200, 0x045A, 0x08A9, 0xA8FC, 0x3400, 0x0A80, 0xA0F9,
];

// Sends 3, 2, 1 and halts.
//
//         lwi r1 3
// next:   out r1
//         addi r1 r1 -1
//         bgt r1 &next
//         halt
static COUNT_DOWN: [u16; 6] = [0x8203, 0x9200, 0x3200, 0x427F, 0xC2FD, 0x3000];

const WORDS: usize = 1024;

const BUDGET: u32 = 1_000_000;

// Loads an image from its file and runs it.
fn run_file<P: Port>(file: &[u8], port: &mut P) -> Result<Report, Refusal> {
    let mut image = [0; 64];
    let mut memory = [0; WORDS];
    let mut machine = Machine::new();
    let count = read_image(file, &mut image)?;
    machine.load(&image[..count], &mut memory)?;
    Ok(machine.run(BUDGET, &mut memory, port)?)
}

// Writes an image in its file form, and runs it from there.
fn run_image<P: Port>(image: &[u16], port: &mut P) -> Result<Report, Refusal> {
    let mut file = [0; 64];
    let length = write_image(image, &mut file)?;
    run_file(&file[..length], port)
}

// A line of 64 bytes holds each refusal.
fn show_refusal(rt: &HostRuntime, refusal: Refusal) -> io::Result<()> {
    let mut line = [0; 64];
    match write_refusal(refusal, &mut line) {
        Ok(length) => rt.stdout().write_all(&line[..length]),
        Err(_) => Ok(()),
    }
}

fn show_outcome(rt: &HostRuntime, outcome: Result<Report, Refusal>) -> io::Result<()> {
    match outcome {
        Ok(report) => println!(rt; "stop {} cycles {}", report.stop.number(), report.cycles),
        Err(refusal) => show_refusal(rt, refusal),
    }
}

fn show(
    rt: &HostRuntime,
    title: &str,
    lines: &[u8],
    outcome: Result<Report, Refusal>,
) -> io::Result<()> {
    println!(rt; "{title}")?;
    rt.stdout().write_all(lines)?;
    show_outcome(rt, outcome)
}

// Word by word, since lines of all of them would need memory, which may be refused.
fn show_words(
    rt: &HostRuntime,
    title: &str,
    words: &[u16],
    outcome: Result<Report, Refusal>,
) -> io::Result<()> {
    println!(rt; "{title}")?;
    for word in words {
        println!(rt; "{word:04x}")?;
    }
    show_outcome(rt, outcome)
}

// The door program runs only where the recorded text is accepted.
fn replay_door(rt: &HostRuntime, text: &[u8], lines: &mut [u8]) -> io::Result<()> {
    let checked = check_text(text).map_err(Refusal::Text);
    // No word waits in a refused text, so neither port has to check it again.
    let text = if checked.is_ok() { text } else { &[] };
    let mut port = TextPort::new(text, lines);
    let outcome = checked.and_then(|()| run_image(&DOOR, &mut port));
    show(
        rt,
        "door switches from the recorded text",
        port.written(),
        outcome,
    )?;
    let mut port = Polarity::new(TextPort::new(text, lines), 0xFFFF);
    let outcome = checked.and_then(|()| run_image(&DOOR, &mut port));
    show(
        rt,
        "the same under polarity",
        port.below().written(),
        outcome,
    )
}

fn count_down(rt: &HostRuntime) -> io::Result<()> {
    let mut sent = [0; 8];
    let mut tape = Tape::new(&[], &mut sent);
    let outcome = run_image(&COUNT_DOWN, &mut tape);
    show_words(rt, "count-down over a tape", tape.sent(), outcome)?;
    let mut port = Polarity::new(Tape::new(&[], &mut sent), 0xFFFF);
    let outcome = run_image(&COUNT_DOWN, &mut port);
    show_words(
        rt,
        "count-down over polarity over a tape",
        port.below().sent(),
        outcome,
    )
}

fn main(rt: HostRuntime) -> io::Result<()> {
    let mut text = Vec::new(rt.alloc());
    rt.stdin().read_to_end(&mut text)?;
    let mut lines = vec![in rt.alloc(); 0; 50_000]?;
    replay_door(&rt, &text, &mut lines)?;
    count_down(&rt)?;
    println!(rt;
        "replayed the recording through the door image and the count-down image, each also under polarity"
    )
}
