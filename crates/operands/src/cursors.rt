// The values of a `.fill`, and the characters of a string, one after another.
ghost use Rattle.std.specs.Prelude.{◌≡◌, ℕ};
ghost use Rattle.std.specs.Iterator.{item_count};
ghost use Rattle.faults.specs.Chains.{First, Next, Removed};
ghost use Rattle.operands.specs.Operands.{values, seen};
ghost use Rattle.operands.specs.Texts.{escaped, characters};

use super::fields::{Immediate, read_immediate};
use faults::{OperandFault, StatementFault};
use lines::Parts;
use numbers::Width;

/// The first of the fields of a line's rest, a number of 16 bits or a label, and the rest behind it.
// Apart from `next`, which has only the trait's clauses; an `Option` inside, since a fault leaves by `?` and none is no fault.
pub fn first_value(rest: &[u8]) -> Result<Option<(Immediate<&[u8]>, &[u8])>, OperandFault>
    ensures { First values seen rest.now result }
{
    let mut fields = Parts::new(rest);
    let Some(field) = fields.next() else {
        return Ok(None);
    };
    Ok(Some((read_immediate(field, Width::Sixteen)?, fields.rest)))
}

/// The values in the fields of a line's rest. Behind a fault nothing is left.
// Not one type with `Text`: each has its own items, faults and end.
#[derive(Clone, Copy)]
pub struct Values<'a> {
    pub rest: &'a [u8],
}

impl<'a> Values<'a> {
    /// Removes and answers the first value; where there is none, or a fault, the fields stay as they are.
    // Apart from `next`, behind whose fault nothing is left.
    pub fn next_value(&mut self) -> Result<Option<Immediate<&'a [u8]>>, OperandFault>
        ensures { Removed values seen result self.old.rest.now self.new.rest.now }
    {
        let Some((value, rest)) = first_value(self.rest)? else {
            return Ok(None);
        };
        self.rest = rest;
        Ok(Some(value))
    }
}

impl<'a> Iterator for Values<'a> {
    type Item = Result<Immediate<&'a [u8]>, OperandFault>;

    ghost next_gives = { λ s r t. Next values seen r s.rest.now t.rest.now };

    ghost remaining = { item_count (λ s. values s.rest.now) };

    fn next(&mut self) -> Option<Result<Immediate<&'a [u8]>, OperandFault>> {
        match self.next_value() {
            Ok(value) => Some(Ok(value?)),
            Err(fault) => {
                self.rest = &[];
                Some(Err(fault))
            }
        }
    }
}

fn read_escape(b: u8) -> Result<u8, StatementFault>
    ensures { result ≡ escaped b }
{
    match char::from(b) {
        'n' => Ok(b'\n'),
        't' => Ok(b'\t'),
        '"' => Ok(b'"'),
        '\\' => Ok(b'\\'),
        _ => Err(StatementFault::Malformed),
    }
}

/// The first character of a string and the bytes behind it; none at a closing quote that stands last.
// Apart from `next`, and an `Option` inside, as for `first_value`.
pub fn first_character(text: &[u8]) -> Result<Option<(u8, &[u8])>, StatementFault>
    ensures { First characters (λ n. n) text.now result }
{
    match text {
        [b'"'] => Ok(None),
        [] | [b'"', ..] | [b'\\'] => Err(StatementFault::Malformed),
        [b'\\', taken, rest @ ..] => Ok(Some((read_escape(*taken)?, rest))),
        [first, rest @ ..] => Ok(Some((*first, rest))),
    }
}

/// The bytes of a string behind its opening quote. Behind a fault nothing is left.
#[derive(Clone, Copy)]
pub struct Text<'a> {
    pub rest: &'a [u8],
}

impl<'a> Text<'a> {
    /// Removes and answers the first character; none at a closing quote that stands last, where, as at a fault, the bytes stay.
    // Apart from `next`, as for `next_value`.
    pub fn next_character(&mut self) -> Result<Option<u8>, StatementFault>
        ensures { Removed characters (λ n. n) result self.old.rest.now self.new.rest.now }
    {
        let Some((character, rest)) = first_character(self.rest)? else {
            return Ok(None);
        };
        self.rest = rest;
        Ok(Some(character))
    }
}

impl<'a> Iterator for Text<'a> {
    type Item = Result<u8, StatementFault>;

    ghost next_gives = { λ s r t. Next characters (λ n. n) r s.rest.now t.rest.now };

    ghost remaining = { item_count (λ s. characters s.rest.now) };

    fn next(&mut self) -> Option<Result<u8, StatementFault>> {
        match self.next_character() {
            Ok(character) => Some(Ok(character?)),
            Err(fault) => {
                // Nothing left: a closing quote alone has no characters.
                self.rest = b"\"";
                Some(Err(fault))
            }
        }
    }
}
