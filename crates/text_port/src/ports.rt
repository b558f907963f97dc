// A text port: a port over a lent text to read and a lent buffer for the lines of the words sent.
ghost use Rattle.std.specs.Prelude.{◌≡◌, ◌*◌, ◌≤◌, [], map, length, Some, Ok, Err};
ghost use Rattle.text_port.specs.Lines.{line};

use crate::checks::{Refusal, accepted_tokens};
use crate::tokens::{Tokens, read_word};
use numbers::write_hex;
use port::{Dry, Full, Port};

// Four hexadecimal digits and a line end.
fn line_of(word: u16) -> [u8; 5]
    ensures { result ≡ line word }
{
    let [first, second, third, fourth] = write_hex(word);
    [first, second, third, fourth, b'\n']
}

/// A text to read, and a buffer for the lines of the words sent.
// Not a `Page`: free places are lines of five bytes, and a page tells bytes.
#[derive(Drop)]
pub struct TextPort<'i, 'o> {
    tokens: Tokens<'i>,
    output: &'o mut [u8],
    lines: usize,
    ghost fit: { 5 * lines ≤ length output.now },
}

impl<'i, 'o> TextPort<'i, 'o> {
    ghost use Rattle.numbers.specs.Reading.{reading};
    ghost use Rattle.text_port.specs.Tokens.{tokens};
    ghost use Rattle.text_port.specs.Checking.{checking};
    ghost use Rattle.text_port.specs.Holding.{held, means, front, unused, fresh};

    /// Every word of an accepted `text` waits, none of a refused one, and each five bytes of `output` are a free place.
    pub fn new(text: &'i [u8], output: &'o mut [u8]) -> TextPort<'i, 'o>
        ensures holds { held result ≡ unused text.now output.old }
        ensures starts { means (held result) ≡ fresh text.now output.old }
        ensures accepted { checking text.now ≡ Ok tt → map Some (means (held result)).waiting ≡ map (reading 16) (tokens text.now) }
        ensures refused { (refusal : Refusal) → checking text.now ≡ Err refusal → (means (held result)).waiting ≡ [] }
    {
        TextPort {
            tokens: accepted_tokens(text),
            output,
            lines: 0,
        }
    }

    /// The bytes of the lines written.
    pub fn written(&self) -> &[u8]
        ensures { result.now ≡ front (held self.now) }
    {
        &self.output[..5 * self.lines]
    }
}

impl<'i, 'o> Port for TextPort<'i, 'o> {
    ghost use Rattle.port.specs.Meaning.{taking, sending};
    ghost use Rattle.text_port.specs.Holding.{held, means, taking_one, writing};

    ghost meaning = { λ s. means (held s) };

    fn count_waiting(&self) -> usize {
        self.tokens.map_while(read_word).count()
    }

    fn count_free(&self) -> usize {
        self.output.len() / 5 - self.lines
    }

    fn take(&mut self) -> Result<u16, Dry>
        ensures answer { result ≡ (taking (means (held self.old))).answer }
        ensures after { means (held self.new) ≡ (taking (means (held self.old))).after }
        ensures holds { held self.new ≡ taking_one (held self.old) }
    {
        let mut tokens = self.tokens;
        let word = tokens.next().and_then(read_word).ok_or(Dry)?;
        self.tokens = tokens;
        Ok(word)
    }

    fn send(&mut self, word: u16) -> Result<(), Full>
        ensures answer { result ≡ (sending (means (held self.old)) word).answer }
        ensures after { means (held self.new) ≡ (sending (means (held self.old)) word).after }
        ensures holds { held self.new ≡ writing (held self.old) word }
    {
        if self.lines >= self.output.len() / 5 {
            return Err(Full);
        }
        let at = 5 * self.lines;
        self.output[at..at + 5].copy_from_slice(&line_of(word));
        self.lines += 1;
        Ok(())
    }
}
