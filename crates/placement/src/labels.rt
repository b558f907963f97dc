// The labels' values, and immediates by value.
ghost use Rattle.std.specs.Prelude.{◌≡◌, ℕ, List, Option};
ghost use Rattle.operands.specs.Operands.{seen};
ghost use Rattle.faults.specs.Chains.{then, under};
ghost use Rattle.placement.specs.Resolving.{resolved_immediate, word_of, resolved_word, within_reach, resolved_target};
ghost use Rattle.placement.specs.Expansion.{upper_of, distance_of};

use faults::LabelFault;
use operands::Immediate;
use words::Imm8;

/// Labels by their names.
pub trait Labels {
    ghost valued: { Self → List ℕ → Option ℕ };

    /// The value of the label with a name, if it was defined.
    fn look_up(&self, name: &[u8]) -> Option<u16>
        ensures { result ≡ valued self.now name.now };
}

/// The address of an operation, and the labels that it may name.
#[derive_where(Clone, Copy)]
pub(crate) struct Site<'l, L> {
    pub address: u16,
    pub labels: &'l L,
}

impl<L: Labels> Site<'_, L> {
    /// An immediate by value.
    pub fn resolve(self, imm: Immediate<&[u8]>) -> Result<Immediate<u16>, LabelFault>
        ensures { result ≡ resolved_immediate (L.valued self.entry.labels.now) (seen imm.entry) }
    {
        match imm {
            Immediate::Number(n) => Ok(Immediate::Number(n)),
            Immediate::Label(name) => {
                let value = self.labels.look_up(name).ok_or(LabelFault::UnknownLabel)?;
                Ok(Immediate::Label(value))
            }
        }
    }

    /// The word of an immediate.
    pub fn resolve_word(self, imm: Immediate<&[u8]>) -> Result<u16, LabelFault>
        ensures { result ≡ resolved_word (L.valued self.entry.labels.now) (seen imm.entry) }
    {
        Ok(word_of(self.resolve(imm)?))
    }

    /// A branch's distance.
    pub fn resolve_distance(self, imm: Immediate<&[u8]>) -> Result<Imm8, LabelFault>
        ensures { result ≡ under (distance_of self.entry.address) (resolved_target (L.valued self.entry.labels.now) self.entry.address (seen imm.entry)) }
    {
        reach(self.resolve(imm)?, self.address)
    }
}

pub(crate) fn word_of(imm: Immediate<u16>) -> u16
    ensures { result ≡ word_of imm }
{
    match imm {
        Immediate::Number(n) | Immediate::Label(n) => n,
    }
}

/// The byte of a `lui`.
pub(crate) fn upper_of(imm: Immediate<u16>) -> Imm8
    ensures { result ≡ upper_of imm }
{
    match imm {
        Immediate::Number(n) => Imm8::from_bits(n),
        Immediate::Label(value) => Imm8::from_bits(value / 256),
    }
}

// A branch's distance by value: to a label it lies in -128 to 127.
fn reach(imm: Immediate<u16>, address: u16) -> Result<Imm8, LabelFault>
    ensures { result ≡ under (distance_of address) (within_reach address imm) }
{
    match imm {
        Immediate::Number(n) => Ok(Imm8::from_bits(n)),
        Immediate::Label(value) => {
            let distance = i32::from(value) - i32::from(address) - 1;
            if !(-128..=127).contains(&distance) {
                return Err(LabelFault::TooFar);
            }
            Ok(Imm8::from_bits(distance.rem_euclid(256) as u16))
        }
    }
}
