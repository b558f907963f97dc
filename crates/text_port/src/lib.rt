// A port over text: words read from numbers in a text, and words sent written as lines of hexadecimal digits.
#![tactic(auto)]

ghost use Rattle.text_port.specs.Laws.{TokenLaws, SendsLines};

mod checks;
mod ports;
mod tokens;

pub use checks::{Refusal, check_text};
pub use ports::TextPort;

/// A theorem: what the tokens of a text are.
pub fn token_laws()
    ensures { TokenLaws }
{}

/// A theorem: what a text port has sent stands as lines at the front of its buffer, and the rest is as it was.
pub fn sent_lines()
    ensures { SendsLines }
{}
