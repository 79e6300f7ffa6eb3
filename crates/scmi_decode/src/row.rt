//! A row of a dump.
ghost use Rattle.std.specs.Prelude.{◌≡◌, if◌then◌else◌, IfOk};
ghost use Rattle.std.specs.Option.{option_map};
ghost use Rattle.scmi_decode.specs.FirstColumn.{no_column};
ghost use Rattle.scmi_decode.specs.GroupOrder.{is_long};
ghost use Rattle.scmi_decode.specs.Row.{address_of, base_of, column_text, data_cells, form_cells, item_column, offset_row, parts_row, row_of, row_with, shown_of, word_bytes_of, word_cells};

use crate::cell::{Cell, add_bytes, show};
use crate::dump::{has_mark, line_cells};
use crate::first_column::{FirstColumn, no_column};
use crate::form::Form;
use crate::group_order::{are_bits, data_order, group_of, is_long};
use crate::number::{number_from, without_mark};
use crate::order::Order;
use crate::parts::{parts_of, without_return};
use crate::scan::{first_item, item_and_rest};
use std::alloc::{AllocError, Global};
use std::marker::Model;

/// The most bytes of a row; a longer line is a dump of its own (own).
pub const ROW_BYTES: usize = 32;

/// The most bytes of the text of a row (own).
pub const ROW_LINE_BYTES: usize = 512;

/// A row of a dump: its form, its address (0 of a plain one), how many digits its first group has (0 of
/// a number with its mark), in which order digits are if no column shows it, what its first item is if
/// that is an address, and its bytes, at most `ROW_BYTES`.
#[derive(Drop)]
pub(crate) struct Row {
    pub(crate) form: Form,
    pub(crate) address: u64,
    pub(crate) group: usize,
    pub(crate) order: Order,
    pub(crate) column: FirstColumn,
    pub(crate) cells: Vec<Cell>,
}

impl Model for Row {
    ghost use Rattle.scmi_decode.specs.Row.{RowView};

    ghost Value = { RowView };

    ghost view = { λ r. record {
      form = r.form;
      address = r.address;
      group = r.group;
      order = r.order;
      column = r.column;
      cells = r.cells.items;
    } };
}

impl Row {
    /// A row of numbers after an address alone, which have these bytes.
    pub(crate) fn offset(
        alloc: Global,
        address: u64,
        group: usize,
        cells: &[Cell],
    ) -> Result<Row, AllocError>
        ensures { IfOk result (λ row. row ≡ offset_row address group cells.now) }
    {
        let mut own = Vec::new(alloc);
        own.extend_from_slice(cells)?;
        Ok(Row {
            form: Form::Offset,
            address,
            group,
            order: Order::Turned,
            column: no_column(),
            cells: own,
        })
    }
}

/// The row that a line is, if it is one: it has bytes, and not too many (own). The only error is out
/// of memory.
#[tactic(auto, unfolding(crate::specs::Row::row_of))]
pub(crate) fn row_of(alloc: Global, line: &[u8]) -> Result<Option<Row>, AllocError>
    ensures { IfOk result (λ found. found ≡ row_of line.now) }
{
    if line.len() > ROW_LINE_BYTES {
        return Ok(None);
    }
    let parts = parts_of(line);
    parts_row(alloc, parts.form, parts.digits, parts.bytes, parts.column)
}

/// The row of a form, the digits of an address, the data, and the column after them; bits are none.
#[tactic(auto, unfolding(crate::specs::Row::parts_row))]
fn parts_row(
    alloc: Global,
    form: Form,
    digits: &[u8],
    groups: &[u8],
    column: &[u8],
) -> Result<Option<Row>, AllocError>
    ensures { IfOk result (λ found. found ≡ parts_row form digits.now groups.now column.now) }
{
    if are_bits(form, groups, column) {
        return Ok(None);
    }
    let Some(address) = address_of(form, digits) else {
        return Ok(None);
    };
    let (item, behind) = item_and_rest(groups);
    let group = group_of(item);
    let order = data_order(form, group, behind, column);
    let addresses = match form {
        Form::Plain => long_column(group, item),
        _ => no_column(),
    };
    match form_cells(alloc, form, groups, column)? {
        Some(cells) => Ok(row_with(form, address, group, order, addresses, cells)),
        None => Ok(None),
    }
}

/// The cells of data of a form.
fn form_cells(
    alloc: Global,
    form: Form,
    groups: &[u8],
    column: &[u8],
) -> Result<Option<Vec<Cell>>, AllocError>
    ensures { IfOk result (λ found.
        option_map (λ cells. cells.items) found ≡ form_cells form groups.now column.now) }
{
    match form {
        Form::Value => word_cells(alloc, first_item(groups)),
        Form::Plain | Form::Marked | Form::Offset | Form::Equals => {
            data_cells(alloc, form, groups, column)
        }
    }
}

/// The cells of a number of four bytes that is printed without leading zeros.
#[tactic(auto, using(crate::proofs::Items::reversed_twice))]
fn word_cells(alloc: Global, item: &[u8]) -> Result<Option<Vec<Cell>>, AllocError>
    ensures { IfOk result (λ found.
        option_map (λ cells. cells.items) found ≡ word_cells item.now) }
{
    if !has_mark(item) {
        return Ok(None);
    }
    let Some(mut bytes) = word_bytes_of(number_from(16, 0, &item[2..])) else {
        return Ok(None);
    };
    bytes.reverse();
    let mut cells = Vec::new(alloc);
    add_bytes(&mut cells, true, &bytes)?;
    show(&mut cells, &[]);
    Ok(Some(cells))
}

/// The bytes of a number below 2^32, the lowest first.
fn word_bytes_of(number: Option<u64>) -> Option<[u8; 4]>
    ensures { result ≡ word_bytes_of number }
{
    match number {
        Some(number) if number < 0x1_0000_0000 => Some((number as u32).to_le_bytes()),
        _ => None,
    }
}

/// The cells of data in either order, and of the column after them; `None` if they are no digits.
fn data_cells(
    alloc: Global,
    form: Form,
    groups: &[u8],
    column: &[u8],
) -> Result<Option<Vec<Cell>>, AllocError>
    ensures { IfOk result (λ found.
        option_map (λ cells. cells.items) found ≡ data_cells form groups.now column.now) }
{
    let Some(mut cells) = line_cells(alloc, groups)? else {
        return Ok(None);
    };
    let shown = shown_of(form, cells.len(), column);
    show(&mut cells, shown);
    Ok(Some(cells))
}

/// A row of cells, if it has some and not too many.
fn row_with(
    form: Form,
    address: u64,
    group: usize,
    order: Order,
    column: FirstColumn,
    cells: Vec<Cell>,
) -> Option<Row>
    ensures { result ≡ row_with form address group order column cells.items }
{
    if cells.is_empty() || cells.len() > ROW_BYTES {
        return None;
    }
    Some(Row {
        form,
        address,
        group,
        order,
        column,
        cells,
    })
}

/// The first item of rows without addresses as an address, if it may be one: it has eight or sixteen
/// digits, as the numbers after it may have.
fn long_column(group: usize, item: &[u8]) -> FirstColumn
    ensures { result ≡ (if is_long group then item_column item.now else no_column) }
{
    if is_long(group) {
        item_column(item)
    } else {
        no_column()
    }
}

/// An item as an address in each base that od prints.
pub(crate) fn item_column(item: &[u8]) -> FirstColumn
    ensures { result ≡ item_column item.now }
{
    FirstColumn {
        hexadecimal: number_from(16, 0, item),
        decimal: number_from(10, 0, item),
        octal: number_from(8, 0, item),
        steps: 0,
    }
}

/// What a column shows of so many bytes: one between bars begins with the first byte, and has fewer
/// characters where od filled the last group; any other ends with the last byte.
fn shown_of(form: Form, count: usize, column: &[u8]) -> &[u8]
    ensures { result.now ≡ shown_of form count column.now }
{
    match form {
        Form::Offset => column,
        _ => column_text(count, without_return(column)),
    }
}

/// What a column shows of so many bytes: its last characters.
fn column_text(count: usize, column: &[u8]) -> &[u8]
    ensures { result.now ≡ column_text count column.now }
{
    if count < column.len() {
        &column[column.len() - count..]
    } else {
        &[]
    }
}

/// The address of a row, 0 of a plain one.
#[tactic(auto, unfolding(crate::specs::Row::address_of))]
pub(crate) fn address_of(form: Form, digits: &[u8]) -> Option<u64>
    ensures { result ≡ address_of form digits.now }
{
    number_from(base_of(form, digits), 0, without_mark(digits))
}

/// The base of an address: od prints seven octal digits, all others hexadecimal ones.
fn base_of(form: Form, digits: &[u8]) -> u64
    ensures { result ≡ base_of form digits.now }
{
    if matches!(form, Form::Offset) && digits.len() == 7 {
        8
    } else {
        16
    }
}
