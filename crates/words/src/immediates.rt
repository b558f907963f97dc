// Immediates, as their bit patterns, and their signed values as words.
ghost use Rattle.std.specs.Prelude.{◌≡◌, ◌≤◌};

// By its greatest pattern and not by its width: each `u8` is one, so that no function has to ask for a width that fits.
/// An immediate of the bit patterns 0 to `MAX`, of which the upper half stands for negative numbers.
#[derive(Clone, Copy, PartialEq, Eq, Debug)]
pub struct Imm<const MAX: u8> {
    pub bits: u8,
    ghost fits: { bits ≤ MAX },
}

pub type Imm6 = Imm<63>;

pub type Imm8 = Imm<255>;

impl<const MAX: u8> Imm<MAX> {
    ghost use Rattle.words.specs.Immediates.{imm_of, extended};

    /// The immediate in the low bits of a word.
    #[tactic(auto, using(crate::proofs::Bits::same_imm))]
    pub fn from_bits(word: u16) -> Self
        ensures { result ≡ imm_of MAX word }
    {
        Imm {
            bits: (word % (u16::from(MAX) + 1)) as u8,
        }
    }

    /// The signed value, -32 to 31 for an `Imm6` and -128 to 127 for an `Imm8`, as a word.
    pub fn word(self) -> u16
        ensures { result ≡ extended self.entry }
    {
        let max = u16::from(MAX);
        let bits = u16::from(self.bits);
        if bits < (max + 1) / 2 {
            bits
        } else {
            65535 - max + bits
        }
    }
}
