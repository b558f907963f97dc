// The check of a text, and why it is refused.
ghost use Rattle.std.specs.Prelude.{◌≡◌, ◌≤◌, length};
ghost use Rattle.text_port.specs.Tokens.{tokens};
ghost use Rattle.text_port.specs.Checking.{number_of, judging, checking, Caused};
ghost use Rattle.text_port.specs.Holding.{accepted};

use crate::tokens::{Tokens, read_word};

const MAX_BYTES: usize = 65_536;

/// Why a text is refused.
#[derive(Clone, Copy, PartialEq, Eq, Debug)]
pub enum Refusal {
    /// It has more than 65,536 bytes.
    Length,
    /// The token with this number, counted from 1, is the first that is no 16-bit number.
    Token(usize),
}

impl Refusal {
    /// The refusal's number.
    // Not by discriminants: a variant holds a value.
    pub fn number(self) -> u8
        ensures { result ≡ number_of self }
    {
        match self {
            Refusal::Length => 1,
            Refusal::Token(_) => 15,
        }
    }
}

// Whether every token of a text is a 16-bit number.
fn check_tokens(text: &[u8]) -> Result<(), Refusal>
    ensures { result ≡ judging 1 (tokens text.now) }
{
    for (i, token) in Tokens::new(text).enumerate() {
        read_word(token).ok_or(Refusal::Token(i + 1))?;
    }
    Ok(())
}

/// Accepts a text of at most 65,536 bytes whose tokens are all 16-bit numbers.
pub fn check_text(text: &[u8]) -> Result<(), Refusal>
    ensures value { result ≡ checking text.now }
    ensures cause { Caused text.now result }
{
    if text.len() > MAX_BYTES {
        return Err(Refusal::Length);
    }
    check_tokens(text)
}

// The tokens of an accepted text, and none of a refused one.
// A `match`: by `map_or` the tokens of no text would stand first, which is no plainer.
pub(crate) fn accepted_tokens(text: &[u8]) -> Tokens<'_>
    ensures { tokens result.rest.now ≡ accepted text.now }
{
    match check_text(text) {
        Ok(()) => Tokens::new(text),
        Err(_) => Tokens::new(b""),
    }
}
