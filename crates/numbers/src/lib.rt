// Numbers as text: read at a width of 6, 8 or 16 bits, and a word written as four hexadecimal digits.
#![tactic(auto)]

ghost use Rattle.std.specs.Prelude.{◌≡◌, ◌≤◌, min};
ghost use Rattle.std.specs.Option.{option_map};
ghost use Rattle.numbers.specs.Texts.{ReadsTexts, HasTexts};
ghost use Rattle.numbers.specs.Reading.{bits_of, digits_from, pattern, positive, negative, after_sign, reading};

mod decimals;
mod hex;

pub use decimals::write_decimal;
pub use hex::write_hex;

/// The bits that a number is read into.
#[derive(Clone, Copy, PartialEq, Eq, Debug)]
pub enum Width {
    Six = 6,
    Eight = 8,
    Sixteen = 16,
}

impl Width {
    fn bits(self) -> u32
        ensures value { result ≡ bits_of self }
        ensures least { 1 ≤ result }
        ensures greatest { result ≤ 16 }
    {
        self as u32
    }
}

// The number that the digits write, 65,536 standing for all above it; none where a byte is no digit of the base.
// Not `from_str_radix` or `parse`: they take a `str`, so that each byte would be read twice, and those behind a wrong one too.
fn read_digits(digits: &[u8], base: u32) -> Option<u32>
    requires least { 2 ≤ base }
    requires greatest { base ≤ 36 }
    ensures { result ≡ option_map (λ n. min n 65536) (digits_from base 0 digits.now) }
{
    let mut n: u32 = 0;
    for b in digits {
        let digit = char::from(*b).to_digit(base)?;
        n = (n * base + digit).min(65_536);
    }
    Some(n)
}

// A bit pattern, in at most so many digits.
fn read_pattern(digits: &[u8], base: u32, most: u32, width: Width) -> Option<u16>
    requires least { 2 ≤ base }
    requires greatest { base ≤ 36 }
    ensures { result ≡ pattern (bits_of width) base most digits.now }
{
    if digits.is_empty() || digits.len() > most as usize {
        return None;
    }
    let bits = width.bits();
    match read_digits(digits, base) {
        Some(n) if n < 1 << bits => Some(n as u16),
        _ => None,
    }
}

// Not one with `read_negative`: another range, and another word.
fn read_positive(digits: &[u8], width: Width) -> Option<u16>
    ensures { result ≡ positive (bits_of width) digits.now }
{
    if digits.is_empty() {
        return None;
    }
    let bits = width.bits();
    match read_digits(digits, 10) {
        Some(n) if n < 1 << (bits - 1) => Some(n as u16),
        _ => None,
    }
}

// The digits behind a minus sign.
fn read_negative(digits: &[u8], width: Width) -> Option<u16>
    ensures { result ≡ negative (bits_of width) digits.now }
{
    if digits.is_empty() {
        return None;
    }
    let bits = width.bits();
    match read_digits(digits, 10) {
        Some(n) if n <= 1 << (bits - 1) => Some((((1 << bits) - n) % (1 << bits)) as u16),
        _ => None,
    }
}

// A decimal number behind an optional sign, as its two's complement.
fn read_decimal(text: &[u8], width: Width) -> Option<u16>
    ensures { result ≡ after_sign (bits_of width) text.now }
{
    match text {
        [b'-', digits @ ..] => read_negative(digits, width),
        [b'+', digits @ ..] => read_positive(digits, width),
        _ => read_positive(text, width),
    }
}

/// The word of a number's text: hexadecimal behind `0x`, binary behind `0b`, else decimal with an optional sign.
pub fn read_number(text: &[u8], width: Width) -> Option<u16>
    ensures value { result ≡ reading (bits_of width) text.now }
    ensures texts { ReadsTexts (bits_of width) text.now result }
{
    let bits = width.bits();
    match text {
        [b'0', b'x', digits @ ..] => read_pattern(digits, 16, bits.div_ceil(4), width),
        [b'0', b'b', digits @ ..] => read_pattern(digits, 2, bits, width),
        _ => read_decimal(text, width),
    }
}

/// A theorem: every number of a width's range and every word has the texts that one would write, and each is read.
pub fn number_texts()
    ensures { (width : Width) → HasTexts (bits_of width) }
{}
