// A statement is an operation together with its own fields, under a label or none.
use operands::{Text, Values};
use operations::Operation;

/// An operation with its line, counted from 1, its label, and the number of words that it places.
// Moved, never copied or compared.
#[derive(Drop)]
pub struct Statement<N, V, T> {
    pub line: usize,
    pub label: Option<N>,
    pub operation: Operation<N, V, T>,
    pub width: usize,
}

/// A statement as it is read: its labels, values and characters in parts of its line.
pub type LineStatement<'a> = Statement<&'a [u8], Values<'a>, Text<'a>>;
