//! The bytes of a line of a dump, in either order of its digits.
ghost use Rattle.std.specs.Prelude.{◌≡◌, ◌/◌, [], false, true, IfOk, map, length};
ghost use Rattle.std.specs.Option.{option_map};
ghost use Rattle.scmi_decode.specs.Cell.{bytes_in};
ghost use Rattle.scmi_decode.specs.Dump.{Adds, bytes_of, digits_of, has_mark, item_bytes, items_bytes, line_bytes};

use crate::cell::{Cell, add_bytes};
use crate::lines::items_of;
use crate::row::ROW_BYTES;
use hex::FromHexError;
use std::alloc::{AllocError, Global};

/// An item of at most this many digits takes no memory of its own (own).
const SHORT_DIGITS: usize = 64;

/// The cells of a line, of which no column of text shows anything yet; `None` if an item of it has no
/// bytes. The only error is out of memory.
pub(crate) fn line_cells(alloc: Global, line: &[u8]) -> Result<Option<Vec<Cell>>, AllocError>
    ensures straight { IfOk result (λ found.
        option_map (λ cells. bytes_in false cells.items) found ≡ line_bytes false line.now) }
    ensures turned { IfOk result (λ found.
        option_map (λ cells. bytes_in true cells.items) found ≡ line_bytes true line.now) }
{
    let items = items_of(alloc, line)?;
    items_cells(alloc, items.as_slice())
}

/// The same of items. An item is bytes of two hexadecimal digits each; or a number, its lowest byte
/// first: `0x` and digits, or any digits if they are turned.
pub(crate) fn items_cells(alloc: Global, items: &[&[u8]]) -> Result<Option<Vec<Cell>>, AllocError>
    ensures straight { IfOk result (λ found. option_map (λ cells. bytes_in false cells.items) found
        ≡ items_bytes false (map (λ item. item.now) items.now)) }
    ensures turned { IfOk result (λ found. option_map (λ cells. bytes_in true cells.items) found
        ≡ items_bytes true (map (λ item. item.now) items.now)) }
{
    let mut cells = Vec::with_capacity(alloc, ROW_BYTES)?;
    'items: for item in items {
        if !add_cells(alloc, &mut cells, *item)? {
            return Ok(None);
        }
    }
    Ok(Some(cells))
}

/// Adds the cells of an item, and gives whether it has bytes.
fn add_cells(alloc: Global, cells: &mut Vec<Cell>, item: &[u8]) -> Result<bool, AllocError>
    ensures straight { IfOk result (λ added. Adds (item_bytes false item.now) added
        (bytes_in false cells.old.items) (bytes_in false cells.new.items)) }
    ensures turned { IfOk result (λ added. Adds (item_bytes true item.now) added
        (bytes_in true cells.old.items) (bytes_in true cells.new.items)) }
{
    let is_number = has_mark(item);
    let digits = digits_of(item);
    if digits.len() > SHORT_DIGITS {
        let Some(bytes) = bytes_of(alloc, digits)? else {
            return Ok(false);
        };
        add_bytes(cells, is_number, &bytes)?;
        return Ok(true);
    }
    let mut buffer = [0; SHORT_DIGITS / 2];
    let bytes = &mut buffer[..digits.len() / 2];
    if !decode_digits(digits, bytes) {
        return Ok(false);
    }
    add_bytes(cells, is_number, bytes)?;
    Ok(true)
}

/// Decodes digits, two for each byte, into as many bytes, and gives whether they are digits.
fn decode_digits(digits: &[u8], bytes: &mut [u8]) -> bool
    requires room { length bytes.old ≡ length digits.now / 2 }
    ensures { Adds (bytes_of digits.now) result [] bytes.new }
{
    hex::decode_to_slice(digits, bytes).is_ok()
}

/// The digits of an item, after its mark.
fn digits_of(item: &[u8]) -> &[u8]
    ensures { result.now ≡ digits_of item.now }
{
    if has_mark(item) { &item[2..] } else { item }
}

/// Whether an item begins with `0x`, and something follows it.
pub(crate) fn has_mark(item: &[u8]) -> bool
    ensures { result ≡ has_mark item.now }
{
    item.len() > 2 && item[0] == b'0' && item[1] == b'x'
}

/// The bytes of digits, two for each.
pub(crate) fn bytes_of(alloc: Global, digits: &[u8]) -> Result<Option<Vec<u8>>, AllocError>
    ensures { IfOk result (λ found. option_map (λ bytes. bytes.items) found ≡ bytes_of digits.now) }
{
    match hex::decode(alloc, digits) {
        Ok(bytes) => Ok(Some(bytes)),
        Err(FromHexError::OutOfMemory) => Err(AllocError),
        Err(_) => Ok(None),
    }
}
