// The statements of a source.
#![tactic(auto)]

ghost use Rattle.source.specs.Laws.{LineReading, SourceReading};

mod reading;
mod statements;

pub use reading::{check_source, read_line};
pub use statements::{LineStatement, Statement};

/// A theorem: what changes the answer of a line, and the ranges in which its fields lie.
pub fn line_reading()
    ensures { LineReading }
{}

/// A theorem: what a source's answer is by its lines'.
pub fn source_reading()
    ensures { SourceReading }
{}
