// The words of an operation, written to a lent buffer.
ghost use Rattle.std.specs.Prelude.{◌≡◌, ℕ, length, OnOk};
ghost use Rattle.std.specs.Iterator.{YieldsFirst, item_count};
ghost use Rattle.buffers.specs.Buffers.{blank};
ghost use Rattle.faults.specs.Chains.{gathered};
ghost use Rattle.operations.specs.Kinds.{seen_operation};
ghost use Rattle.placement.specs.Placing.{words_of, answers, placing};

use super::expansion::{Words, expand};
use super::labels::{Labels, Site};
use faults::{LabelFault, StatementFault};
use operations::LineOperation;

/// Words one after another, labels by their values.
#[derive_where(Clone, Copy)]
struct Resolved<'l, 'a, L> {
    words: Words<'a>,
    site: Site<'l, L>,
}

impl<'l, 'a, L: Labels> Iterator for Resolved<'l, 'a, L> {
    type Item = Result<u16, LabelFault>;

    ghost next_gives = { YieldsFirst (λ s. answers (L.valued s.site.labels.now) s.words) };

    ghost remaining = { item_count (λ s. answers (L.valued s.site.labels.now) s.words) };

    fn next(&mut self) -> Option<Result<u16, LabelFault>> {
        match self.words {
            Words::Nothing => None,
            Words::One(word) => {
                self.words = Words::Nothing;
                Some(Ok(word))
            }
            Words::Two(word, next) => {
                self.words = Words::One(next);
                Some(Ok(word))
            }
            Words::Each(mut values) => {
                let value = values.next()?.ok()?;
                self.words = Words::Each(values);
                Some(self.site.resolve_word(value))
            }
            Words::Characters(mut text) => {
                let Some(Ok(character)) = text.next() else {
                    self.words = Words::Nothing;
                    return Some(Ok(0));
                };
                self.words = Words::Characters(text);
                Some(Ok(u16::from(character)))
            }
        }
    }
}

// Writes words behind one another to a buffer of zeros, and answers how many they are.
fn lay_words<L: Labels>(
    words: Resolved<'_, '_, L>,
    out: &mut [u16],
) -> Result<usize, StatementFault>
    requires { out.old ≡ blank (length out.old) }
    ensures answer { result ≡ (placing (gathered (answers (L.valued words.entry.site.labels.now) words.entry.words)) (length out.old)).answer }
    ensures after { OnOk result (out.new ≡ (placing (gathered (answers (L.valued words.entry.site.labels.now) words.entry.words)) (length out.old)).after) }
{
    // `None` once a word did not fit; the loop goes on, since a label's fault comes before `TooManyWords`.
    let mut end = Some(0);
    for word in words {
        let word = word?;
        end = match end {
            Some(at) if at < out.len() => {
                out[at] = word;
                Some(at + 1)
            }
            _ => None,
        };
    }
    end.ok_or(StatementFault::TooManyWords)
}

fn write_expanded<L: Labels>(
    operation: LineOperation<'_>,
    site: Site<'_, L>,
    out: &mut [u16],
) -> Result<usize, StatementFault>
    requires { out.old ≡ blank (length out.old) }
    ensures answer { result ≡ (placing (words_of (L.valued site.entry.labels.now) site.entry.address (seen_operation operation.entry)) (length out.old)).answer }
    ensures after { OnOk result (out.new ≡ (placing (words_of (L.valued site.entry.labels.now) site.entry.address (seen_operation operation.entry)) (length out.old)).after) }
{
    let words = expand(operation, site)?;
    lay_words(Resolved { words, site }, out)
}

/// Writes the words of an operation at an address to the front of `out`, zeros behind them, and answers how many.
// A length and not the front of `out`: lent on, `out` would not be there for `after` to speak of.
pub fn write_words<L: Labels>(
    operation: LineOperation<'_>,
    address: u16,
    labels: &L,
    out: &mut [u16],
) -> Result<usize, StatementFault>
    ensures answer { result ≡ (placing (words_of (L.valued labels.now) address (seen_operation operation.entry)) (length out.old)).answer }
    ensures after { out.new ≡ (placing (words_of (L.valued labels.now) address (seen_operation operation.entry)) (length out.old)).after }
{
    out.fill(0);
    let written = write_expanded(operation, Site { address, labels }, out);
    if written.is_err() {
        out.fill(0);
    }
    written
}
