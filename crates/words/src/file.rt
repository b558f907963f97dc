// The register file: eight words, of which the first is always zero.
ghost use Rattle.std.specs.Prelude.{◌≡◌, ℕ, slice_index};
ghost use Rattle.words.specs.Registers.{reading, written, zeros};

use super::registers::Register;

#[derive(Clone, Copy, PartialEq, Eq, Debug)]
pub struct RegisterFile {
    words: [u16; 8],
    ghost zero: { slice_index words 0 ≡ 0 },
}

impl RegisterFile {
    /// Eight zeros.
    pub fn new() -> RegisterFile
        ensures { result.words ≡ zeros }
    {
        RegisterFile { words: [0; 8] }
    }

    /// The word that a register holds.
    pub fn get(&self, register: Register) -> u16
        ensures { result ≡ reading self.now.words register }
    {
        self.words[register as usize]
    }

    /// Replaces a register's word; a write to r0 is dropped.
    pub fn set(&mut self, register: Register, word: u16)
        ensures { self.new.words ≡ written self.old.words register word }
    {
        if register != Register::R0 {
            let at = register as usize;
            self.words[at] = word;
        }
    }
}

// By hand: `Default` is not derived beside a ghost field.
impl Default for RegisterFile {
    ghost is_default = { λ f. f.words ≡ zeros };

    fn default() -> RegisterFile {
        RegisterFile::new()
    }
}
