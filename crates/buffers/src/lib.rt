// Lent buffers: texts written at a place of one, or one behind another at its front, as far as they fit.
#![tactic(auto)]

ghost use Rattle.std.specs.Prelude.{◌≡◌, ◌≤◌, length};
ghost use Rattle.buffers.specs.Refusals.{short_number};

mod places;

pub use places::append;

/// The buffer has no room for the text.
#[derive(Clone, Copy, PartialEq, Eq, Debug)]
pub struct Short;

impl Short {
    /// The refusal's number, as printed.
    pub fn number(self) -> u8
        ensures { result ≡ short_number self }
    {
        6
    }
}

/// A lent buffer, and how many bytes of text stand at its front.
// No `fmt::Write`: its contract says nothing of an `Err`, and here it is said exactly when a text does not fit.
#[derive(Drop)]
pub struct Page<'a> {
    buffer: &'a mut [u8],
    len: usize,
    ghost within: { len ≤ length buffer.now },
}

impl<'a> Page<'a> {
    ghost use Rattle.buffers.specs.Pages.{held, loan_of, text_of, unwritten, written, appending};

    /// A page with no text; the buffer stays as it is.
    pub fn new(buffer: &'a mut [u8]) -> Page<'a>
        ensures loan { loan_of result ≡ buffer.entry.ghost_name }
        ensures holds { held result ≡ unwritten buffer.old }
    {
        Page { buffer, len: 0 }
    }

    /// A page whose text is the first `len` bytes of the buffer, or all of it; the buffer stays as it is.
    pub fn with_text(buffer: &'a mut [u8], len: usize) -> Page<'a>
        ensures loan { loan_of result ≡ buffer.entry.ghost_name }
        ensures holds { held result ≡ written buffer.old len }
    {
        let len = len.min(buffer.len());
        Page { buffer, len }
    }

    /// The text.
    pub fn text(&self) -> &[u8]
        ensures { result.now ≡ text_of (held self.now) }
    {
        &self.buffer[..self.len]
    }

    /// Writes `text` behind the text; where it does not fit, writes nothing.
    pub fn append(&mut self, text: &[u8]) -> Result<(), Short>
        ensures loan { loan_of self.new ≡ loan_of self.old }
        ensures answer { result ≡ (appending text.now (held self.old)).answer }
        ensures after { held self.new ≡ (appending text.now (held self.old)).after }
    {
        self.len = append(text, self.len, self.buffer).ok_or(Short)?;
        Ok(())
    }
}
