//! The parts of a row.
ghost use Rattle.std.specs.Prelude.{◌≡◌, ◌≤◌, length};
ghost use Rattle.std.specs.Option.{option_copied};
ghost use Rattle.scmi_decode.specs.Row.{behind_value, cut_parts, data_length, ends_in_colon, has_pipe, is_equals, is_group, is_offset, is_pair, is_symbol, marked_parts, offset_parts, parts_at, parts_of, piped_data, piped_digits, piped_parts, sixteen_length, value_parts};
ghost use Rattle.scmi_decode.specs.Scan.{ends_in_return, without_last, without_return};

use crate::cell::later_bytes;
use crate::dump::has_mark;
use crate::form::Form;
use crate::prefix::without_prefix;
use crate::scan::{
    after_cursor, after_gap, bar_length, behind_colon, column_length, item_and_rest, item_length,
    pipe_length,
};
use std::marker::Model;

/// What comes before the address of a number that `devmem2` prints.
pub(crate) const VALUE_AT: &[u8] = b"Value at address ";

/// The form of a row, the digits of its address, the place of its bytes, and what follows those.
#[derive(Drop)]
pub(crate) struct Parts<'a> {
    pub(crate) form: Form,
    pub(crate) digits: &'a [u8],
    pub(crate) bytes: &'a [u8],
    pub(crate) column: &'a [u8],
}

impl<'a> Model for Parts<'a> {
    ghost use Rattle.scmi_decode.specs.Row.{RowParts};

    ghost Value = { RowParts };

    ghost view = { λ p. record {
      form = p.form;
      digits = p.digits.now;
      bytes = p.bytes.now;
      column = p.column.now;
    } };
}

/// The parts of a line as a row, after what the kernel's log puts before its address.
pub(crate) fn parts_of(line: &[u8]) -> Parts<'_>
    ensures { result ≡ parts_of line.now }
{
    match behind_value(line) {
        Some(behind) => value_parts(behind),
        None => parts_at(without_prefix(line)),
    }
}

/// What follows the words of `devmem2`, if a line begins with them.
fn behind_value(line: &[u8]) -> Option<&[u8]>
    ensures { option_copied result ≡ behind_value line.now }
{
    line.strip_prefix(VALUE_AT)
}

/// A row of `devmem2`: an address, where that is mapped, and a number.
fn value_parts(behind: &[u8]) -> Parts<'_>
    ensures { result ≡ value_parts behind.now }
{
    let (digits, rest) = item_and_rest(behind);
    let (_mapped, bytes) = item_and_rest(rest);
    Parts {
        form: Form::Value,
        digits,
        bytes,
        column: &[],
    }
}

/// The parts of a line as a row; of a line that begins with no address all of it is data (own).
#[tactic(auto, unfolding(crate::specs::Row::parts_at))]
fn parts_at(line: &[u8]) -> Parts<'_>
    ensures { result ≡ parts_at line.now }
{
    let (first, behind) = item_and_rest(line);
    if ends_in_colon(first) {
        return marked_parts(Form::Marked, without_last(first), behind);
    }
    let (second, rest) = item_and_rest(behind);
    if is_symbol(second) {
        return marked_parts(Form::Marked, first, rest);
    }
    if is_equals(second) {
        return marked_parts(Form::Equals, first, rest);
    }
    if is_pair(first, second, rest) {
        return marked_parts(Form::Marked, first, behind);
    }
    if has_pipe(first) {
        return piped_parts(after_gap(line));
    }
    if is_offset(first, second) {
        return offset_parts(first, behind);
    }
    Parts {
        form: Form::Plain,
        digits: &[],
        bytes: line,
        column: &[],
    }
}

/// A row of a form, whose data are so long.
fn cut_parts<'a>(form: Form, digits: &'a [u8], size: usize, groups: &'a [u8]) -> Parts<'a>
    requires fits { size ≤ length groups.now }
    ensures { result ≡ cut_parts form digits.now size groups.now }
{
    let (bytes, column) = groups.split_at(size);
    Parts {
        form,
        digits,
        bytes,
        column,
    }
}

/// A row of these digits, whose bytes follow them, before a column of text after two spaces.
#[tactic(auto, unfolding(crate::specs::Row::marked_parts))]
fn marked_parts<'a>(form: Form, digits: &'a [u8], behind: &'a [u8]) -> Parts<'a>
    ensures { result ≡ marked_parts form digits.now behind.now }
{
    let groups = after_gap(behind);
    cut_parts(form, digits, column_length(groups), groups)
}

/// A row of an address alone, whose bytes follow it, before a column of text between `|` and `|` or `>`
/// and `<`.
#[tactic(auto, unfolding(crate::specs::Row::offset_parts))]
fn offset_parts<'a>(digits: &'a [u8], behind: &'a [u8]) -> Parts<'a>
    ensures { result ≡ offset_parts digits.now behind.now }
{
    let (bytes, column) = behind.split_at(bar_length(behind));
    Parts {
        form: Form::Offset,
        digits,
        bytes,
        column: without_last(without_return(later_bytes(column))),
    }
}

/// A row of a debugger, `CLASS:ADDRESS|DATA`, whose data are sixteen bytes (own).
#[tactic(auto, unfolding(crate::specs::Row::piped_parts))]
fn piped_parts(line: &[u8]) -> Parts<'_>
    ensures { result ≡ piped_parts line.now }
{
    let groups = piped_data(line);
    cut_parts(
        Form::Marked,
        piped_digits(line),
        data_length(groups),
        groups,
    )
}

/// The digits of the address before `|`, behind a class and a colon.
fn piped_digits(line: &[u8]) -> &[u8]
    ensures { result.now ≡ piped_digits line.now }
{
    behind_colon(&line[..pipe_length(line)])
}

/// The data behind `|`.
fn piped_data(line: &[u8]) -> &[u8]
    ensures { result.now ≡ piped_data line.now }
{
    let start = (pipe_length(line) + 1).min(line.len());
    after_gap(after_cursor(&line[start..]))
}

/// How long the data of sixteen bytes are, by their first group.
fn data_length(groups: &[u8]) -> usize
    ensures value { result ≡ data_length groups.now }
    ensures bound { result ≤ length groups.now }
{
    sixteen_length(item_length(groups)).min(groups.len())
}

/// How long sixteen bytes are in groups of so many digits, with a space between them.
fn sixteen_length(group: usize) -> usize
    ensures { result ≡ sixteen_length group }
{
    match group {
        2 => 47,
        4 => 39,
        8 => 35,
        16 => 33,
        _ => 0,
    }
}

/// Whether an item has a colon as its last byte.
pub(crate) fn ends_in_colon(item: &[u8]) -> bool
    ensures { result ≡ ends_in_colon item.now }
{
    !item.is_empty() && item[item.len() - 1] == b':'
}

/// An item without its last byte.
pub(crate) fn without_last(item: &[u8]) -> &[u8]
    ensures { result.now ≡ without_last item.now }
{
    &item[..item.len().saturating_sub(1)]
}

/// A text without the carriage return at its end.
pub(crate) fn without_return(text: &[u8]) -> &[u8]
    ensures { result.now ≡ without_return text.now }
{
    if ends_in_return(text) {
        without_last(text)
    } else {
        text
    }
}

/// Whether a text ends in a carriage return.
fn ends_in_return(text: &[u8]) -> bool
    ensures { result ≡ ends_in_return text.now }
{
    !text.is_empty() && text[text.len() - 1] == b'\r'
}

/// Whether an item names the place of an address, as gdb does: `<NAME+N>:`.
fn is_symbol(item: &[u8]) -> bool
    ensures { result ≡ is_symbol item.now }
{
    ends_in_colon(item) && item[0] == b'<'
}

/// Whether an item is `=`, which J-Link prints after an address.
fn is_equals(item: &[u8]) -> bool
    ensures { result ≡ is_equals item.now }
{
    item.len() == 1 && item[0] == b'='
}

/// Whether an item has a `|`, which Lauterbach's debugger prints after an address.
fn has_pipe(item: &[u8]) -> bool
    ensures { result ≡ has_pipe item.now }
{
    pipe_length(item) < item.len()
}

/// Whether two items, with nothing after them, are an address and its value: both begin with `0x`.
fn is_pair(first: &[u8], second: &[u8], behind: &[u8]) -> bool
    ensures { result ≡ is_pair first.now second.now behind.now }
{
    has_mark(first) && has_mark(second) && after_gap(behind).is_empty()
}

/// Whether an item is an address before groups of digits: six to sixteen digits, and not as many as
/// the group after it.
fn is_offset(first: &[u8], second: &[u8]) -> bool
    ensures { result ≡ is_offset first.now second.now }
{
    first.len() > 5 && first.len() < 17 && is_group(second) && first.len() != second.len()
}

/// Whether a group of digits is one byte, or a number of two, four or eight.
fn is_group(item: &[u8]) -> bool
    ensures { result ≡ is_group item.now }
{
    item.len() == 2 || item.len() == 4 || item.len() == 8 || item.len() == 16
}
