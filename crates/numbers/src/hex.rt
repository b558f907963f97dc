// A word as four lower-case hexadecimal digits.
ghost use Rattle.std.specs.Prelude.{◌≡◌, ◌%◌, ◌∷◌, Some};
ghost use Rattle.std.specs.Char.{digit_char};
ghost use Rattle.numbers.specs.Hex.{hex4};
ghost use Rattle.numbers.specs.Reading.{reading};

fn last_digit(n: u16) -> u8
    ensures { result ≡ digit_char (n % 16) }
{
    char::from_digit(u32::from(n % 16), 16).unwrap() as u8
}

/// The four digits of a word, the highest first.
pub fn write_hex(word: u16) -> [u8; 4]
    ensures value { result ≡ hex4 word }
    ensures reads { reading 16 (48 ∷ 120 ∷ result) ≡ Some word }
{
    [word >> 12, word >> 8, word >> 4, word].map(last_digit)
}
