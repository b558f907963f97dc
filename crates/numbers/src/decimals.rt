// A number as its usual decimal digits.
ghost use Rattle.std.specs.Prelude.{◌≡◌, ℕ, ◌≤◌, length, drop, decimal};

/// Writes the digits to the end of the places, and answers where they begin.
// Not the digits themselves: no clause can say what an array holds that the answer lends on.
pub fn write_decimal(n: u64, places: &mut [u8; 20]) -> usize
    ensures digits { drop result places.new ≡ decimal n }
    ensures within { result ≤ 19 }
    ensures size { length places.new ≡ 20 }
{
    let mut left = n;
    for at in (0..20).rev() {
        places[at] = b'0' + (left % 10) as u8;
        left /= 10;
        if left == 0 {
            return at;
        }
    }
    unreachable!()
}
