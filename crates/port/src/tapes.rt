// A tape: a port over a lent list of words to read and a lent buffer for the words sent.
ghost use Rattle.std.specs.Prelude.{◌≡◌, ◌≤◌, length};

use crate::{Dry, Full, Port};

// Not a `Page`, whose places are bytes: the places of a tape are words.
/// A list of words to read, and a buffer for the words sent.
#[derive(Drop)]
pub struct Tape<'i, 'o> {
    // The words not read yet.
    input: &'i [u16],
    output: &'o mut [u16],
    // How many places of the output are written; a count and no shorter slice, since `sent` shows the front.
    count: usize,
    ghost within: { count ≤ length output.now },
}

impl<'i, 'o> Tape<'i, 'o> {
    ghost use Rattle.port.specs.Tape.{held, means, unused, fresh};

    /// Every word of `input` waits, and every place of `output` is free.
    pub fn new(input: &'i [u16], output: &'o mut [u16]) -> Tape<'i, 'o>
        ensures holds { held result ≡ unused input.now output.old }
        ensures starts { means (held result) ≡ fresh input.now output.old }
    {
        Tape {
            input,
            output,
            count: 0,
        }
    }

    /// The words sent.
    pub fn sent(&self) -> &[u16]
        ensures { result.now ≡ (means (held self.now)).sent }
    {
        &self.output[..self.count]
    }
}

impl<'i, 'o> Port for Tape<'i, 'o> {
    ghost use Rattle.port.specs.Meaning.{taking, sending};
    ghost use Rattle.port.specs.Tape.{held, means, reading, writing};

    ghost meaning = { λ s. means (held s) };

    fn count_waiting(&self) -> usize {
        self.input.len()
    }

    fn count_free(&self) -> usize {
        self.output.len() - self.count
    }

    fn take(&mut self) -> Result<u16, Dry>
        ensures answer { result ≡ (taking (means (held self.old))).answer }
        ensures after { means (held self.new) ≡ (taking (means (held self.old))).after }
        ensures tape { held self.new ≡ reading (held self.old) }
    {
        let [word, rest @ ..] = self.input else {
            return Err(Dry);
        };
        self.input = rest;
        Ok(*word)
    }

    fn send(&mut self, word: u16) -> Result<(), Full>
        ensures answer { result ≡ (sending (means (held self.old)) word).answer }
        ensures after { means (held self.new) ≡ (sending (means (held self.old)) word).after }
        ensures tape { held self.new ≡ writing (held self.old) word }
    {
        if self.count == self.output.len() {
            return Err(Full);
        }
        self.output[self.count] = word;
        self.count += 1;
        Ok(())
    }
}
