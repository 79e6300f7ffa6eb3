//! In which order the digits of the groups of a row are.
ghost use Rattle.std.specs.Prelude.{◌≡◌, ◌==◌, length, not};
ghost use Rattle.scmi_decode.specs.GroupOrder.{are_bits, beside_text, gap_before, group_of, half_order, has_bits_alone, is_bit, is_long, long_order, order_of};
ghost use Rattle.scmi_decode.specs.Scan.{after_gap};

use crate::dump::has_mark;
use crate::form::Form;
use crate::lines::is_gap;
use crate::order::Order;
use crate::parts::without_return;
use crate::scan::{after_gap, first_item, gap_length};

/// The order of the digits of data, by their first group, what follows it, and the column of text, if
/// that does not show it.
pub(crate) fn data_order(form: Form, group: usize, behind: &[u8], column: &[u8]) -> Order
    ensures { result ≡ beside_text form (not (length column.now == 0))
        (order_of form group (gap_before column.now) (length (after_gap behind.now) == 0)) }
{
    let is_alone = after_gap(behind).is_empty();
    let order = order_of(form, group, gap_before(column), is_alone);
    beside_text(form, !column.is_empty(), order)
}

/// An order, beside a column of text or not: od prints numbers in either byte order, so only the
/// column shows in which.
fn beside_text(form: Form, has_text: bool, order: Order) -> Order
    ensures { result ≡ beside_text form has_text order }
{
    match (form, has_text, order) {
        (Form::Offset, true, Order::Turned) => Order::Unclear,
        _ => order,
    }
}

/// How many digits an item has, 0 of one with its mark.
pub(crate) fn group_of(item: &[u8]) -> usize
    ensures { result ≡ group_of item.now }
{
    if has_mark(item) { 0 } else { item.len() }
}

/// How many spaces come before a column of text, 0 without one.
fn gap_before(column: &[u8]) -> usize
    ensures { result ≡ gap_before column.now }
{
    if after_gap(column).is_empty() {
        0
    } else {
        gap_length(column)
    }
}

/// The order of the digits of a row, by how many its first group has, the spaces before its column of
/// text, and whether its group is alone.
pub(crate) fn order_of(form: Form, group: usize, gap: usize, is_alone: bool) -> Order
    ensures { result ≡ order_of form group gap is_alone }
{
    if group == 4 {
        half_order(form, gap)
    } else if is_long(group) {
        long_order(form, gap, is_alone)
    } else {
        Order::Straight
    }
}

/// Whether a group has eight or sixteen digits.
pub(crate) fn is_long(group: usize) -> bool
    ensures { result ≡ is_long group }
{
    group == 8 || group == 16
}

/// The order of groups of four digits: od and J-Link print numbers, xxd bytes and two spaces, md.w
/// numbers and more.
fn half_order(form: Form, gap: usize) -> Order
    ensures { result ≡ half_order form gap }
{
    match form {
        Form::Offset | Form::Equals | Form::Value => Order::Turned,
        Form::Plain => Order::Unclear,
        Form::Marked => if gap == 2 {
            Order::Straight
        } else if gap > 2 {
            Order::Turned
        } else {
            Order::Unclear
        },
    }
}

/// The order of groups of eight or sixteen digits: numbers, but one alone on a line may be bytes, as
/// xxd -p prints them, and so may those before two spaces and a column, as xxd -g 4 prints them.
fn long_order(form: Form, gap: usize, is_alone: bool) -> Order
    ensures { result ≡ long_order form gap is_alone }
{
    match form {
        Form::Plain if is_alone => Order::Unclear,
        Form::Marked if gap == 2 => Order::Unclear,
        _ => Order::Turned,
    }
}

/// Whether data are bits, as `xxd -b` prints them after an address and a colon: groups of eight digits 0
/// and 1, and a column of text with at most one character for each.
pub(crate) fn are_bits(form: Form, groups: &[u8], column: &[u8]) -> bool
    ensures { result ≡ are_bits form groups.now column.now }
{
    let shown = without_return(after_gap(column)).len();
    matches!(form, Form::Marked)
        && first_item(groups).len() == 8
        && shown > 0
        && shown <= groups.len() / 9 + 1
        && has_bits_alone(groups)
}

/// Whether data are digits 0 and 1 alone, and gaps.
fn has_bits_alone(groups: &[u8]) -> bool
    ensures { result ≡ has_bits_alone groups.now }
{
    groups.iter().all(|byte| is_bit(*byte))
}

/// Whether a byte is the digit 0 or 1, or in a gap.
fn is_bit(byte: u8) -> bool
    ensures { result ≡ is_bit byte }
{
    byte == b'0' || byte == b'1' || is_gap(byte)
}
