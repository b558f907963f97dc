// The fields of a statement, counted before any is read.
ghost use Rattle.std.specs.Prelude.{◌≡◌, ◌≤◌, length, IfOk};
ghost use Rattle.std.specs.List.{list_all};
ghost use Rattle.lines.specs.Places.{parts};
ghost use Rattle.faults.specs.Chains.{under, gathered};
ghost use Rattle.operands.specs.Operands.{values};
ghost use Rattle.operands.specs.Texts.{characters};
ghost use Rattle.operations.specs.Reading.{all_values};
ghost use Rattle.operations.specs.Fields.{plain, plain_fields, exactly, some_fields, first_field, only_field, numbered, terminated, string};
ghost use Rattle.operations.specs.Kinds.{seen_values, seen_text};

use faults::{OperandFault, StatementFault};
use lines::Parts;
use operands::{Text, Values};

// Whether no text is among the fields. By itself: its clause says what the chain finds.
fn are_plain(mut fields: Parts<'_>) -> bool
    ensures { result ≡ list_all plain (parts fields.entry.rest.now) }
{
    fields.all(|field| !field.contains(&b'"'))
}

fn check_plain(fields: Parts<'_>) -> Result<(), StatementFault>
    ensures { result ≡ plain_fields (parts fields.entry.rest.now) }
{
    if are_plain(fields) {
        Ok(())
    } else {
        Err(StatementFault::Malformed)
    }
}

/// Whether there are so many fields and no more, and no text among them.
// One loop and not `count` before `check_plain`: it reads each field once, and none behind the first that is too many.
pub(crate) fn check_fields(fields: Parts<'_>, count: usize) -> Result<(), StatementFault>
    ensures { result ≡ exactly count (parts fields.entry.rest.now) }
{
    let mut left = count;
    for field in fields {
        if left == 0 || field.contains(&b'"') {
            return Err(StatementFault::Malformed);
        }
        left -= 1;
    }
    if left == 0 {
        Ok(())
    } else {
        Err(StatementFault::Malformed)
    }
}

// Whether there is a field or more, and no text among them.
fn check_some(mut fields: Parts<'_>) -> Result<(), StatementFault>
    ensures { result ≡ some_fields (parts fields.entry.rest.now) }
{
    if next_field(&mut fields)?.contains(&b'"') {
        return Err(StatementFault::Malformed);
    }
    check_plain(fields)
}

// Fields are read one by one: the check makes no proof over an array of references of a const length.
pub(crate) fn next_field<'a>(fields: &mut Parts<'a>) -> Result<&'a [u8], StatementFault>
    ensures { under (λ f. (f.now, parts fields.new.rest.now)) result ≡ first_field (parts fields.old.rest.now) }
{
    fields.next().ok_or(StatementFault::Malformed)
}

/// The only field, which is no text.
pub(crate) fn only_field<'a>(mut fields: Parts<'a>) -> Result<&'a [u8], StatementFault>
    ensures { under (λ f. f.now) result ≡ only_field (parts fields.entry.rest.now) }
{
    check_fields(fields, 1)?;
    next_field(&mut fields)
}

// Two counts: tried as one over any iterator, but no clause ranges over types, and a line's values are not of its items' type.
fn count_values(fields: Values<'_>) -> Result<usize, OperandFault>
    ensures { result ≡ under length (gathered (values fields.entry.rest.now)) }
{
    let mut count = 0;
    for value in fields {
        value?;
        count += 1;
    }
    Ok(count)
}

// The values of all fields, and how many they are.
pub(crate) fn take_values(fields: Parts<'_>) -> Result<(Values<'_>, usize), StatementFault>
    ensures { under (λ v. (seen_values v.0, v.1)) result ≡ under numbered (all_values (parts fields.entry.rest.now)) }
{
    check_some(fields)?;
    let values = Values { rest: fields.rest };
    let count = count_values(values)?;
    Ok((values, count))
}

fn count_characters(text: Text<'_>) -> Result<usize, StatementFault>
    ensures all { result ≡ under length (gathered (characters text.entry.rest.now)) }
    ensures bound { IfOk result (λ n. n ≤ length text.entry.rest.now) }
{
    let mut count = 0;
    for character in text {
        character?;
        count += 1;
    }
    Ok(count)
}

// The only field, which is a text, and how many words its characters and a zero are.
pub(crate) fn take_string(mut fields: Parts<'_>) -> Result<(Text<'_>, usize), StatementFault>
    ensures { under (λ t. (seen_text t.0, t.1)) result ≡ under terminated (string (parts fields.entry.rest.now)) }
{
    let Some([b'"', rest @ ..]) = fields.next() else {
        return Err(StatementFault::Malformed);
    };
    check_fields(fields, 0)?;
    let text = Text { rest };
    let count = count_characters(text)?;
    Ok((text, count + 1))
}
