// White space, and the pieces of a text between gaps.
#![tactic(auto)]

ghost use Rattle.std.specs.Prelude.{◌≡◌, ℕ, ◌++◌, Bool, length};
ghost use Rattle.std.specs.Iterator.{YieldsFirstRef, at_most};
ghost use Rattle.pieces.specs.Pieces.{white, behind, pieces};
ghost use Rattle.pieces.specs.Laws.{Each, GapLaws, StopsAt};
ghost use Rattle.pieces.specs.Cursors.{Cut, Removed};

use std::marker::PhantomData;

/// A space, a tab or a carriage return.
pub fn is_white(b: u8) -> bool
    ensures { result ≡ white b }
{
    matches!(b, b' ' | b'\t' | b'\r')
}

/// A state that says which bytes of a text are gaps, and that each byte may change.
pub trait Gaps: Copy {
    ghost start: { Self };

    ghost next: { Self → ℕ → Self };

    ghost is_gap: { Self → ℕ → Bool };

    /// The state at the start of a text.
    fn start() -> Self
        ensures { result ≡ start };

    /// The state behind a byte.
    fn next(self, b: u8) -> Self
        ensures { result ≡ next self b };

    /// Whether a byte there belongs to no piece.
    fn is_gap(self, b: u8) -> bool
        ensures { result ≡ is_gap self b };

    // The pieces behind a piece are those of a text that starts there.
    ghost laws: { GapLaws next is_gap start };
}

// The gaps at the front of a text or the bytes that are none, and the text behind them.
fn split_run<P: Gaps>(text: &[u8], gaps: bool) -> (&[u8], &[u8])
    ensures whole { text.now ≡ result.0.now ++ result.1.now }
    ensures each { Each P.next P.is_gap gaps P.start result.0.now }
    ensures stops { StopsAt P.is_gap gaps (behind P.next P.start result.0.now) result.1.now }
{
    // Not `position`: its closure would have to change the state, which is no plainer.
    let mut state = P::start();
    for (i, b) in text.iter().enumerate() {
        if state.is_gap(*b) != gaps {
            return text.split_at(i);
        }
        state = state.next(*b);
    }
    text.split_at(text.len())
}

/// The first piece of a text, and the text behind it.
// Apart from `next`, where a clause beside the trait's breaks the proof of each loop.
pub fn first_piece<P: Gaps>(text: &[u8]) -> Option<(&[u8], &[u8])>
    ensures { Cut (pieces P.next P.is_gap P.start) text.now result }
{
    let (_, text) = split_run::<P>(text, true);
    if text.is_empty() {
        return None;
    }
    Some(split_run::<P>(text, false))
}

/// The pieces of what is left of a text, first to last.
#[derive(Clone, Copy)]
pub struct Pieces<'a, P> {
    pub rest: &'a [u8],
    marker: PhantomData<P>,
}

impl<'a, P: Gaps> Pieces<'a, P> {
    /// The pieces of a text.
    pub fn new(text: &'a [u8]) -> Pieces<'a, P>
        ensures { result.rest.now ≡ text.now }
    {
        Pieces {
            rest: text,
            marker: PhantomData,
        }
    }

    /// Removes and answers the first piece; where there is none, the text stays as it is.
    // Apart from `next`, whose clauses are the trait's and leave open what stays.
    pub fn next_piece(&mut self) -> Option<&'a [u8]>
        ensures { Removed (pieces P.next P.is_gap P.start) result self.old.rest.now self.new.rest.now }
    {
        let (piece, rest) = first_piece::<P>(self.rest)?;
        self.rest = rest;
        Some(piece)
    }
}

impl<'a, P: Gaps> Iterator for Pieces<'a, P> {
    type Item = &'a [u8];

    ghost next_gives = { YieldsFirstRef (λ s. pieces P.next P.is_gap P.start s.rest.now) };

    ghost remaining = { λ s. at_most (length s.rest.now) };

    fn next(&mut self) -> Option<&'a [u8]> {
        self.next_piece()
    }
}
