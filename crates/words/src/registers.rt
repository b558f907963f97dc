// The names of the eight registers.
ghost use Rattle.std.specs.Prelude.{◌≡◌, ℕ, ◌%◌, ◌<◌};
ghost use Rattle.words.specs.Registers.{number_of, register_of};

#[derive(Clone, Copy, PartialEq, Eq, Debug)]
pub enum Register {
    R0,
    R1,
    R2,
    R3,
    R4,
    R5,
    R6,
    R7,
}

impl Register {
    /// The register's number, 0 to 7.
    pub fn number(self) -> u16
        ensures value { result ≡ number_of self }
        ensures bound { result < 8 }
    {
        self as u16
    }

    // Not a `From`: bits above the low three are dropped.
    /// The register that the low three bits name.
    pub fn from_bits(bits: u16) -> Register
        ensures value { result ≡ register_of bits }
        ensures number { number_of result ≡ bits % 8 }
    {
        match bits % 8 {
            0 => Register::R0,
            1 => Register::R1,
            2 => Register::R2,
            3 => Register::R3,
            4 => Register::R4,
            5 => Register::R5,
            6 => Register::R6,
            _ => Register::R7,
        }
    }
}
