// The lines of a source, which bytes may stand in a line, and the parts of a line.
#![tactic(auto)]

ghost use Rattle.std.specs.Prelude.{◌≡◌, length, nat_eq};
ghost use Rattle.std.specs.Iterator.{YieldsFirstRef, at_most};
ghost use Rattle.std.specs.List.{position};
ghost use Rattle.pieces.specs.Cursors.{Cut, Removed};
ghost use Rattle.lines.specs.Lines.{lines};
ghost use Rattle.lines.specs.Places.{after, allows, allowed, gap};
ghost use Rattle.lines.specs.Laws.{LineLaws, PartLaws, SpaceLaw};
ghost use Rattle.lines.specs.declared.Place.TheVariants.{Outside};
ghost use Rattle.lines.specs.Cuts.{place_laws};

use pieces::{Gaps, Pieces, is_white};

/// Where a byte of a line stands.
#[derive(Clone, Copy, PartialEq, Eq, Debug)]
pub enum Place {
    Outside,
    /// In a string.
    Text,
    /// In a string, behind a backslash that takes the next byte.
    Escape,
    Comment,
}

impl Place {
    fn allows(self, b: u8) -> bool
        ensures { result ≡ allows self b }
    {
        match self {
            Place::Outside => is_white(b) || b.is_ascii_graphic(),
            Place::Text | Place::Escape => matches!(b, b' '..=b'~'),
            Place::Comment => true,
        }
    }
}

impl Gaps for Place {
    ghost start = { Outside };

    ghost next = { after };

    ghost is_gap = { gap };

    ghost laws = { place_laws };

    fn start() -> Self {
        Self::Outside
    }

    fn next(self, b: u8) -> Self {
        match (self, b) {
            (Place::Outside, b'"') => Place::Text,
            (Place::Outside, b'#') => Place::Comment,
            (Place::Outside, _) => Place::Outside,
            (Place::Text, b'"') => Place::Outside,
            (Place::Text, b'\\') => Place::Escape,
            (Place::Text, _) | (Place::Escape, _) => Place::Text,
            (Place::Comment, _) => Place::Comment,
        }
    }

    fn is_gap(self, b: u8) -> bool {
        match self {
            Place::Outside => is_white(b) || b == b'#',
            Place::Text | Place::Escape => false,
            Place::Comment => true,
        }
    }
}

/// Whether each byte of a line may stand where it stands.
pub fn is_allowed(line: &[u8]) -> bool
    ensures { result ≡ allowed line.now }
{
    // Not `all`: its closure would have to change the place, which is no plainer.
    let mut place = Place::Outside;
    for b in line {
        if !place.allows(*b) {
            return false;
        }
        place = place.next(*b);
    }
    true
}

// By itself, for its clause: behind a later call nothing is known of what `position` found.
fn find_line_end(source: &[u8]) -> Option<usize>
    ensures { result ≡ position (λ c. nat_eq c 10) source.now }
{
    source.iter().position(|b| *b == b'\n')
}

/// The first line of a source, without its end, and the source behind it.
// Apart from `next`, where a clause beside the trait's breaks the proof of each loop.
pub fn first_line(source: &[u8]) -> Option<(&[u8], &[u8])>
    ensures { Cut lines source.now result }
{
    if source.is_empty() {
        return None;
    }
    let end = find_line_end(source).unwrap_or(source.len());
    // The last line may lack its end.
    Some((&source[..end], &source[source.len().min(end + 1)..]))
}

/// The lines of what is left of a source, first to last.
// Not `Pieces`: a line may be empty, and a piece is not.
#[derive(Clone, Copy)]
pub struct Lines<'a> {
    pub rest: &'a [u8],
}

impl<'a> Lines<'a> {
    /// Removes and answers the first line, without its end; where there is none, the source stays as it is.
    // Apart from `next`, whose clauses are the trait's and leave open that the rest is shorter.
    pub fn next_line(&mut self) -> Option<&'a [u8]>
        ensures { Removed lines result self.old.rest.now self.new.rest.now }
    {
        let (line, rest) = first_line(self.rest)?;
        self.rest = rest;
        Some(line)
    }
}

impl<'a> Iterator for Lines<'a> {
    type Item = &'a [u8];

    ghost next_gives = { YieldsFirstRef (λ s. lines s.rest.now) };

    ghost remaining = { λ s. at_most (length s.rest.now) };

    fn next(&mut self) -> Option<&'a [u8]> {
        self.next_line()
    }
}

/// The parts of what is left of a line, first to last.
pub type Parts<'a> = Pieces<'a, Place>;

/// A theorem: what the lines of a source are.
pub fn line_laws()
    ensures { LineLaws }
{}

/// A theorem: what the parts of a line are.
pub fn part_laws()
    ensures { PartLaws }
{}

/// A theorem: which white space and comments change no part.
pub fn space_law()
    ensures { SpaceLaw }
{}
