// The words that a statement places.
#![tactic(auto)]

ghost use Rattle.placement.specs.Laws.{PlacementLaws};

mod expansion;
mod labels;
mod writing;

pub use labels::Labels;
pub use writing::write_words;

/// A theorem: an operation's width is the number of its words, and a branch goes to the label that it names.
pub fn placement_laws()
    ensures { PlacementLaws }
{}
