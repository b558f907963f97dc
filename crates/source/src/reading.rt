// Lines read into statements, and whole sources checked.
ghost use Rattle.std.specs.Prelude.{◌≡◌, ◌≤◌, ◌∷◌, length};
ghost use Rattle.std.specs.Option.{option_map};
ghost use Rattle.lines.specs.Lines.{lines};
ghost use Rattle.lines.specs.Places.{parts};
ghost use Rattle.faults.specs.Chains.{under, gathered};
ghost use Rattle.source.specs.Statements.{label_of, operated, begun, statement, seen_statement};
ghost use Rattle.source.specs.Reading.{line_answer, answers, stated_in, statements};

use super::statements::{LineStatement, Statement};
use faults::{AssemblyFault, StatementFault, place_on_line};
use lines::{Lines, Parts, is_allowed};
use operands::is_name;
use operations::{Mnemonic, find_mnemonic, read_operation};

const MAX_BYTES: usize = 65_536;

// An operation by its name, with its fields, under a label or none.
fn read_operated<'a>(
    line: usize,
    label: Option<&'a [u8]>,
    name: &'a [u8],
    fields: Parts<'a>,
) -> Result<LineStatement<'a>, StatementFault>
    ensures { under seen_statement result ≡ operated line (option_map (λ x. x.now) label.entry) (name.now ∷ parts fields.entry.rest.now) }
{
    if name == Mnemonic::Def.name() && label.is_none() {
        return Err(StatementFault::Malformed);
    }
    let mnemonic = find_mnemonic(name).ok_or(StatementFault::UnknownOperation)?;
    let (operation, width) = read_operation(mnemonic, fields)?;
    Ok(Statement {
        line,
        label,
        operation,
        width,
    })
}

// The name before the colon that ends a part.
fn label_of<'a>(part: &'a [u8]) -> Option<&'a [u8]>
    ensures { option_map (λ x. x.now) result ≡ label_of part.now }
{
    match part {
        [name @ .., b':'] => Some(name),
        _ => None,
    }
}

// A line's statement, from its first part and those behind it.
fn read_begun<'a>(
    line: usize,
    first: &'a [u8],
    mut rest: Parts<'a>,
) -> Result<LineStatement<'a>, StatementFault>
    ensures { under seen_statement result ≡ begun line first.now (parts rest.entry.rest.now) (label_of first.now) }
{
    let Some(label) = label_of(first) else {
        return read_operated(line, None, first, rest);
    };
    match rest.next() {
        Some(name) if is_name(label) => read_operated(line, Some(label), name, rest),
        _ => Err(StatementFault::Malformed),
    }
}

// The statement of a line whose bytes may stand where they stand.
// An `Option` inside, here and in `read_line`: a blank line has no statement, which is no fault.
fn read_statement<'a>(
    line: usize,
    bytes: &'a [u8],
) -> Result<Option<LineStatement<'a>>, StatementFault>
    ensures { under (option_map seen_statement) result ≡ statement line (parts bytes.now) }
{
    let mut rest = Parts::new(bytes);
    let Some(first) = rest.next() else {
        return Ok(None);
    };
    Ok(Some(read_begun(line, first, rest)?))
}

/// The statement of a line with its number; none in a blank line.
pub fn read_line<'a>(
    line: usize,
    bytes: &'a [u8],
) -> Result<Option<LineStatement<'a>>, AssemblyFault>
    ensures { under (option_map seen_statement) result ≡ line_answer line bytes.now }
{
    if !is_allowed(bytes) {
        return Err(AssemblyFault::ForbiddenByte(line));
    }
    Ok(place_on_line(line, read_statement(line, bytes))?)
}

// How many statements the lines of a source have.
fn count_statements(source: &[u8]) -> Result<usize, AssemblyFault>
    requires { length source.now ≤ 65536 }
    ensures { result ≡ under (λ ss. length (stated_in ss)) (gathered (answers 1 (lines source.now))) }
{
    let mut count = 0;
    for (i, line) in (Lines { rest: source }).enumerate() {
        if read_line(i + 1, line)?.is_some() {
            count += 1;
        }
    }
    Ok(count)
}

/// How many statements a source has, or the fault of its first line that has one.
pub fn check_source(source: &[u8]) -> Result<usize, AssemblyFault>
    ensures { result ≡ under length (statements source.now) }
{
    if source.len() > MAX_BYTES {
        return Err(AssemblyFault::TooLong);
    }
    count_statements(source)
}
