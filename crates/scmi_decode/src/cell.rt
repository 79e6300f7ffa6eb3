//! The bytes of a dump in either order of digits, and what its column of text shows.
ghost use Rattle.std.specs.Prelude.{◌≡◌, ◌++◌, if◌then◌else◌, false, true, reverse, IfOk, OnOk};
ghost use Rattle.std.specs.Option.{option_map};
ghost use Rattle.scmi_decode.specs.Cell.{are_alike, byte_in, bytes_in, bytes_of_order, cells_of, character_of, first_byte, is_zero_in, later_bytes, order_shown, settled, shows};

use crate::order::Order;
use std::alloc::{AllocError, Global};

/// What a column of text shows of a byte that is no printable character.
const NO_CHARACTER: u8 = b'.';

/// A byte of a dump: as it is if the digits of its group are straight, as it is if they are turned,
/// and what the column of text shows there, 0 without a column.
#[derive(Clone, Copy)]
pub(crate) struct Cell {
    pub(crate) straight: u8,
    pub(crate) turned: u8,
    pub(crate) shown: u8,
}

/// Adds the cells of bytes, which are turned in both orders if they are a number.
pub(crate) fn add_bytes(
    cells: &mut Vec<Cell>,
    is_number: bool,
    bytes: &[u8],
) -> Result<(), AllocError>
    ensures straight { OnOk result (bytes_in false cells.new.items ≡ bytes_in false cells.old.items
        ++ (if is_number then reverse bytes.now else bytes.now)) }
    ensures turned { OnOk result
        (bytes_in true cells.new.items ≡ bytes_in true cells.old.items ++ reverse bytes.now) }
{
    let count = bytes.len();
    'bytes: for place in 0..count {
        let turned = bytes[count - 1 - place];
        let straight = if is_number { turned } else { bytes[place] };
        cells.push(Cell {
            straight,
            turned,
            shown: 0,
        })?;
    }
    Ok(())
}

/// Notes what a column of text shows of cells.
pub(crate) fn show(cells: &mut Vec<Cell>, shown: &[u8])
    ensures { cells.new.items ≡
        cells_of (bytes_in false cells.old.items) (bytes_in true cells.old.items) shown.now }
{
    let mut rest = shown;
    'cells: for place in 0..cells.len() {
        cells[place].shown = first_byte(rest);
        rest = later_bytes(rest);
    }
}

/// The first byte, 0 of none.
fn first_byte(bytes: &[u8]) -> u8
    ensures { result ≡ first_byte bytes.now }
{
    match bytes {
        [byte, ..] => *byte,
        [] => 0,
    }
}

/// The bytes after the first.
pub(crate) fn later_bytes(bytes: &[u8]) -> &[u8]
    ensures { result.now ≡ later_bytes bytes.now }
{
    match bytes {
        [_, behind @ ..] => behind,
        [] => bytes,
    }
}

/// The bytes of cells in the order that their column of text shows, or else in this order. `None` if
/// neither is known and they differ. The only possible error: out of memory.
pub(crate) fn settled(
    alloc: Global,
    order: Order,
    cells: &[Cell],
) -> Result<Option<Vec<u8>>, AllocError>
    ensures { IfOk result (λ found.
        option_map (λ bytes. bytes.items) found ≡ settled order cells.now) }
{
    bytes_of_order(alloc, order_shown(order, cells), cells)
}

/// The bytes of cells in an order; of an unclear one only if both are the same.
pub(crate) fn bytes_of_order(
    alloc: Global,
    order: Order,
    cells: &[Cell],
) -> Result<Option<Vec<u8>>, AllocError>
    ensures { IfOk result (λ found.
        option_map (λ bytes. bytes.items) found ≡ bytes_of_order order cells.now) }
{
    match order {
        Order::Unclear if !are_alike(cells) => Ok(None),
        Order::Turned => Ok(Some(bytes_in(alloc, true, cells)?)),
        Order::Straight | Order::Unclear => Ok(Some(bytes_in(alloc, false, cells)?)),
    }
}

/// The order that the column of text shows, or else this one.
pub(crate) fn order_shown(order: Order, cells: &[Cell]) -> Order
    ensures { result ≡ order_shown order cells.now }
{
    match (shows(false, cells), shows(true, cells)) {
        (true, false) => Order::Straight,
        (false, true) => Order::Turned,
        _ => order,
    }
}

/// Whether the column of text shows the bytes of one order.
fn shows(turned: bool, cells: &[Cell]) -> bool
    ensures { result ≡ shows turned cells.now }
{
    cells
        .iter()
        .all(|cell| cell.shown == character_of(byte_in(turned, cell)))
}

/// Whether both orders are the same bytes.
fn are_alike(cells: &[Cell]) -> bool
    ensures { result ≡ are_alike cells.now }
{
    cells.iter().all(|cell| cell.straight == cell.turned)
}

/// The bytes of cells in one order.
pub(crate) fn bytes_in(alloc: Global, turned: bool, cells: &[Cell]) -> Result<Vec<u8>, AllocError>
    ensures { IfOk result (λ bytes. bytes.items ≡ bytes_in turned cells.now) }
{
    cells
        .iter()
        .map(|cell| byte_in(turned, cell))
        .collect(alloc)
}

/// Whether a byte is 0 in an order, in either if that is unclear.
pub(crate) fn is_zero_in(order: Order, cell: &Cell) -> bool
    ensures { result ≡ is_zero_in order cell.now }
{
    match order {
        Order::Straight => cell.straight == 0,
        Order::Turned => cell.turned == 0,
        Order::Unclear => cell.straight == 0 && cell.turned == 0,
    }
}

/// The byte of a cell in one order.
fn byte_in(turned: bool, cell: &Cell) -> u8
    ensures { result ≡ byte_in turned cell.now }
{
    if turned { cell.turned } else { cell.straight }
}

/// What a column of text shows of a byte.
fn character_of(byte: u8) -> u8
    ensures { result ≡ character_of byte }
{
    if byte > 31 && byte < 127 {
        byte
    } else {
        NO_CHARACTER
    }
}
