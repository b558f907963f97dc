// A polarity: a port that turns bits of the words taken from the port below it.
ghost use Rattle.std.specs.Prelude.{◌≡◌};
ghost use Rattle.port.specs.Meaning.{taking, sending, masked};
ghost use Rattle.port.specs.Laws.{PolarityLaws};
ghost use Rattle.port.specs.Polarity.{through};

use crate::{Dry, Full, Port};

/// The port below, each of whose words waiting is exclusive-or the mask.
#[derive(Drop)]
pub struct Polarity<P> {
    below: P,
    mask: u16,
}

impl<P: Port> Polarity<P> {
    /// The port `below` through `mask`.
    pub fn new(below: P, mask: u16) -> Polarity<P>
        ensures below { result.below ≡ below }
        ensures mask { result.mask ≡ mask }
        ensures means { through P.meaning result ≡ masked mask (P.meaning below) }
    {
        Polarity { below, mask }
    }

    /// The port below.
    pub fn below(&self) -> &P
        ensures { result.now ≡ self.now.below }
    {
        &self.below
    }

    /// The port below, for good.
    pub fn into_below(self) -> P
        ensures { result ≡ self.below }
    {
        let Polarity { below, mask: _ } = self;
        below
    }
}

impl<P: Port> Port for Polarity<P> {
    ghost meaning = { through P.meaning };

    fn count_waiting(&self) -> usize {
        self.below.count_waiting()
    }

    fn count_free(&self) -> usize {
        self.below.count_free()
    }

    fn take(&mut self) -> Result<u16, Dry>
        ensures answer { result ≡ (taking (through P.meaning self.old)).answer }
        ensures after { through P.meaning self.new ≡ (taking (through P.meaning self.old)).after }
        ensures mask { self.new.mask ≡ self.old.mask }
    {
        let word = self.below.take()?;
        Ok(word ^ self.mask)
    }

    fn send(&mut self, word: u16) -> Result<(), Full>
        ensures answer { result ≡ (sending (through P.meaning self.old) word).answer }
        ensures after { through P.meaning self.new ≡ (sending (through P.meaning self.old) word).after }
        ensures mask { self.new.mask ≡ self.old.mask }
    {
        self.below.send(word)
    }
}

/// A theorem: the laws of polarity.
pub fn polarity_laws()
    ensures { PolarityLaws }
{}
