// A port, known to the machine only by its meaning: the words waiting, the words sent and the free places.
#![tactic(auto)]

ghost use Rattle.std.specs.Prelude.{◌≡◌, length};
ghost use Rattle.port.specs.Meaning.{Meaning, taking, sending};

mod polarities;
mod tapes;

pub use polarities::{Polarity, polarity_laws};
pub use tapes::Tape;

/// No word waits.
#[derive(Clone, Copy, Debug, PartialEq, Eq)]
pub struct Dry;

/// No place is free.
#[derive(Clone, Copy, Debug, PartialEq, Eq)]
pub struct Full;

/// Where words come from and go to.
pub trait Port {
    // What a port means: the words waiting, the words sent and the free places.
    ghost meaning: { Self → Meaning };

    /// How many words wait.
    fn count_waiting(&self) -> usize
        ensures { result ≡ length (meaning self.now).waiting };

    /// How many places are free.
    fn count_free(&self) -> usize
        ensures { result ≡ (meaning self.now).free };

    /// Removes and answers the first word waiting, or alters nothing.
    fn take(&mut self) -> Result<u16, Dry>
        ensures answer { result ≡ (taking (meaning self.old)).answer }
        ensures after { meaning self.new ≡ (taking (meaning self.old)).after };

    /// Adds `word` behind the words sent, or alters nothing.
    fn send(&mut self, word: u16) -> Result<(), Full>
        ensures answer { result ≡ (sending (meaning self.old) word).answer }
        ensures after { meaning self.new ≡ (sending (meaning self.old) word).after };
}
