// The tokens of a text, one after another, and the word of each.
ghost use Rattle.std.specs.Prelude.{◌≡◌};
ghost use Rattle.numbers.specs.Reading.{reading};
ghost use Rattle.text_port.specs.Tokens.{gap, blanks};
ghost use Rattle.text_port.specs.Cuts.{blank_laws};

use numbers::{Width, read_number};
use pieces::{Gaps, Pieces, is_white};

/// White space and line ends stand between tokens, wherever they stand.
#[derive(Clone, Copy)]
pub(crate) struct Blanks;

impl Gaps for Blanks {
    ghost start = { blanks };

    ghost next = { λ s _. s };

    ghost is_gap = { λ _ c. gap c };

    ghost laws = { blank_laws };

    fn start() -> Self {
        Blanks
    }

    fn next(self, _: u8) -> Self {
        self
    }

    fn is_gap(self, b: u8) -> bool {
        is_white(b) || b == b'\n'
    }
}

pub(crate) type Tokens<'a> = Pieces<'a, Blanks>;

// The word of a token that is a 16-bit number.
pub(crate) fn read_word(token: &[u8]) -> Option<u16>
    ensures { result ≡ reading 16 token.now }
{
    read_number(token, Width::Sixteen)
}
