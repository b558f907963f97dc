// The file form of an image: a mark, a version and the words, each high byte first.
#![tactic(auto)]

ghost use Rattle.std.specs.Prelude.{◌≡◌, ◌*◌, ◌≤◌, length, map, take, IfOk};
ghost use Rattle.image_file.specs.Bytes.{bytes_of, word_of};
ghost use Rattle.image_file.specs.Calls.{writing, reading};
ghost use Rattle.image_file.specs.Laws.{ByteLaws, ReadsBack, WrittenBy};
ghost use Rattle.image_file.specs.Refusals.{refusal_number};

// The mark, and the version 1.
const HEAD: [u8; 5] = [b'A', b'P', b'C', 0, 1];

const MAX_WORDS: usize = 65_536;

/// Why a file was not written or not read. Each refusal leaves the buffer all zero.
#[derive(Clone, Copy, PartialEq, Eq, Debug)]
pub enum Refusal {
    /// The file has more words than the buffer holds, or more than 65,536.
    Words = 3,
    /// The image has more than 65,536 words.
    Image = 5,
    /// The output is shorter than the file.
    Output = 6,
    /// The mark or the version is wrong or missing, or the file's length is even.
    Mark = 7,
}

impl Refusal {
    /// The refusal's number, as printed.
    pub fn number(self) -> u8
        ensures { result ≡ refusal_number self }
    {
        self as u8
    }
}

// Writes the bytes of each word, by their places: of what `chunks_exact_mut` lends, no contract says how it ends.
fn write_words(words: &[u16], bytes: &mut [u8])
    requires { length bytes.old ≡ 2 * length words.now }
    ensures { bytes.new ≡ bytes_of words.now }
{
    for (i, word) in words.iter().enumerate() {
        let [high, low] = word.to_be_bytes();
        bytes[2 * i] = high;
        bytes[2 * i + 1] = low;
    }
}

// Reads the word of each two bytes, by its place: nothing is known of what an adapter of `iter_mut` has written.
fn read_words(pairs: &[[u8; 2]], words: &mut [u16])
    requires { length pairs.now ≡ length words.old }
    ensures { words.new ≡ map word_of pairs.now }
{
    for (i, pair) in pairs.iter().enumerate() {
        words[i] = u16::from_be_bytes(*pair);
    }
}

/// Writes the image's file to the front of `out`, zeros behind it, and answers the file's length.
// A length: the front itself would keep `out` lent, of which `after` speaks.
pub fn write_image(image: &[u16], out: &mut [u8]) -> Result<usize, Refusal>
    ensures answer { result ≡ (writing image.now (length out.old)).answer }
    ensures after { out.new ≡ (writing image.now (length out.old)).after }
    ensures within { IfOk result (λ n. n ≤ length out.old) }
    ensures reads_back { IfOk result (λ n. ReadsBack (take n out.new) image.now) }
{
    out.fill(0);
    if image.len() > MAX_WORDS {
        return Err(Refusal::Image);
    }
    let end = HEAD.len() + 2 * image.len();
    if end > out.len() {
        return Err(Refusal::Output);
    }
    out[..HEAD.len()].copy_from_slice(&HEAD);
    write_words(image, &mut out[HEAD.len()..end]);
    Ok(end)
}

/// Reads a file's words to the front of `image`, zeros behind them, and answers how many they are.
// A length: the front itself would keep `image` lent, of which `after` speaks.
pub fn read_image(bytes: &[u8], image: &mut [u16]) -> Result<usize, Refusal>
    ensures answer { result ≡ (reading bytes.now (length image.old)).answer }
    ensures after { image.new ≡ (reading bytes.now (length image.old)).after }
    ensures within { IfOk result (λ n. n ≤ length image.old) }
    ensures written_by { IfOk result (λ n. WrittenBy (take n image.new) bytes.now) }
{
    image.fill(0);
    let words = bytes.strip_prefix(&HEAD).ok_or(Refusal::Mark)?;
    let (pairs, odd) = words.as_chunks::<2>();
    if !odd.is_empty() {
        return Err(Refusal::Mark);
    }
    let count = pairs.len();
    if count > image.len() || count > MAX_WORDS {
        return Err(Refusal::Words);
    }
    read_words(pairs, &mut image[..count]);
    Ok(count)
}

/// A theorem: bytes to words and back.
pub fn byte_laws()
    ensures { ByteLaws }
{}
