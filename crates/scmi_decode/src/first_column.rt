//! The first column of rows without addresses: it may be one of addresses.
ghost use Rattle.std.specs.Prelude.{◌≡◌};
ghost use Rattle.scmi_decode.specs.FirstColumn.{column_after, counts, followed, has_base, is_hexadecimal_alone, lack_beside, later, met, met_by, no_column, stepped};

use crate::no_bytes::NoBytes;

/// After so many rows that go on with the addresses it does not matter what follows (own).
pub(crate) const SURE_STEPS: usize = 2;

/// The first items of rows, if they are addresses: the next one in each base that `od` prints, `None`
/// in a base in which they do not follow one another; and how many rows have gone on with another so,
/// at most `SURE_STEPS`.
#[derive(Clone, Copy)]
pub(crate) struct FirstColumn {
    pub(crate) hexadecimal: Option<u64>,
    pub(crate) decimal: Option<u64>,
    pub(crate) octal: Option<u64>,
    pub(crate) steps: usize,
}

/// No address in any base.
pub(crate) fn no_column() -> FirstColumn
    ensures { result ≡ no_column }
{
    FirstColumn {
        hexadecimal: None,
        decimal: None,
        octal: None,
        steps: 0,
    }
}

/// The addresses after so many bytes.
pub(crate) fn column_after(count: usize, column: FirstColumn) -> FirstColumn
    ensures { result ≡ column_after count column }
{
    FirstColumn {
        hexadecimal: later(count, column.hexadecimal),
        decimal: later(count, column.decimal),
        octal: later(count, column.octal),
        steps: column.steps,
    }
}

/// An address after so many bytes.
fn later(count: usize, address: Option<u64>) -> Option<u64>
    ensures { result ≡ later count address }
{
    match address {
        Some(address) => Some(address.wrapping_add(count as u64)),
        None => None,
    }
}

/// A column that goes on with an item, before so many bytes. In its last row, which has one item, `od`
/// may have filled up the number before it, so the address there may be some bytes less.
pub(crate) fn followed(
    slack: usize,
    count: usize,
    column: FirstColumn,
    item: FirstColumn,
) -> FirstColumn
    ensures { result ≡ followed slack count column item }
{
    column_after(count, stepped(met_by(slack, column, item)))
}

/// One more row, if it goes on with the addresses.
fn stepped(column: FirstColumn) -> FirstColumn
    ensures { result ≡ stepped column }
{
    if has_base(column) && column.steps < SURE_STEPS {
        FirstColumn {
            steps: column.steps + 1,
            ..column
        }
    } else {
        column
    }
}

/// The addresses of an item in those bases in which it is the expected one.
pub(crate) fn met_by(slack: usize, column: FirstColumn, item: FirstColumn) -> FirstColumn
    ensures { result ≡ met_by slack column item }
{
    FirstColumn {
        hexadecimal: met(slack, column.hexadecimal, item.hexadecimal),
        decimal: met(slack, column.decimal, item.decimal),
        octal: met(slack, column.octal, item.octal),
        steps: column.steps,
    }
}

/// An address, if it is the expected one or at most so many bytes before it.
fn met(slack: usize, expected: Option<u64>, found: Option<u64>) -> Option<u64>
    ensures { result ≡ met slack expected found }
{
    match (expected, found) {
        (Some(expected), Some(found)) if found <= expected && expected - found <= slack as u64 => {
            Some(found)
        }
        _ => None,
    }
}

/// Whether there is an address in one base at least.
pub(crate) fn has_base(column: FirstColumn) -> bool
    ensures { result ≡ has_base column }
{
    column.hexadecimal.is_some() || column.decimal.is_some() || column.octal.is_some()
}

/// Whether it may be one of addresses: it counts the bytes of all rows, or it did so of the first three.
pub(crate) fn counts(column: FirstColumn) -> bool
    ensures { result ≡ counts column }
{
    column.steps >= SURE_STEPS || column.steps > 0 && has_base(column)
}

/// Whether it counts in hexadecimal digits alone.
pub(crate) fn is_hexadecimal_alone(column: FirstColumn) -> bool
    ensures { result ≡ is_hexadecimal_alone column }
{
    column.hexadecimal.is_some() && column.decimal.is_none() && column.octal.is_none()
}

/// Why rows with this column have no bytes, if they have none.
pub(crate) fn lack_beside(column: FirstColumn) -> NoBytes
    ensures { result ≡ lack_beside column }
{
    if counts(column) {
        NoBytes::Address
    } else {
        NoBytes::Order
    }
}
