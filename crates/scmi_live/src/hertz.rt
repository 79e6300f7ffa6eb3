//! The texts of boards, whose rates may have units.
ghost use Rattle.std.specs.Prelude.{◌≡◌, ◌++◌, ◌∷◌, map, true, IfOk, OnOk};
ghost use Rattle.scmi_live.specs.Hertz.{clock_line, in_hertz, is_board, item_in_hertz, line_in_hertz, lines_in_hertz, of_items, rate_in_hertz};

use crate::items::items_of;
use crate::pieces::{add_byte, copy_of};
use crate::rate::rate_in_unit;
use scmi_board::{CLOCK, LineError, Lines, TextError, read_board_with_lines};
use std::alloc::{AllocError, Global};

/// The text of a board with its rates in Hz: in a line `clock` each rate with a unit, behind the name
/// and the state, is replaced by its number. All other lines are as they were, and so is a text that
/// begins with a board as it is. The only error is out of memory.
pub fn in_hertz(alloc: Global, text: &[u8]) -> Result<Vec<u8>, AllocError>
    ensures stays { IfOk result (λ made. is_board text.now ≡ true → made.items ≡ text.now) }
    ensures hertz { IfOk result (λ made. made.items ≡ in_hertz text.now) }
{
    let mut lines = Lines::new(text);
    match read_board_with_lines(alloc, &mut lines) {
        Ok(_) => copy_of(alloc, text),
        Err(TextError::Memory) => Err(AllocError),
        Err(_) => lines_in_hertz(alloc, text),
    }
}

/// The lines of a text, with their rates in Hz.
fn lines_in_hertz(alloc: Global, text: &[u8]) -> Result<Vec<u8>, AllocError>
    ensures { IfOk result (λ made. made.items ≡ lines_in_hertz text.now) }
{
    let mut made = Vec::new(alloc);
    let mut is_first = true;
    for line in text.split(|byte| *byte == b'\n') {
        add_byte(b'\n', is_first, &mut made)?;
        is_first = false;
        made.extend_from_slice(&line_in_hertz(alloc, line)?)?;
    }
    Ok(made)
}

/// A line with its rates in Hz, if it is of a clock.
fn line_in_hertz(alloc: Global, line: &[u8]) -> Result<Vec<u8>, AllocError>
    ensures { IfOk result (λ made. made.items ≡ line_in_hertz line.now) }
{
    match items_of(alloc, line) {
        Ok(items) => line_of(alloc, line, &items),
        Err(LineError::Memory) => Err(AllocError),
        Err(LineError::Form) => copy_of(alloc, line),
    }
}

/// A line of these items, with its rates in Hz if it is of a clock.
fn line_of(alloc: Global, line: &[u8], items: &[&[u8]]) -> Result<Vec<u8>, AllocError>
    ensures { IfOk result (λ made. made.items ≡
        of_items line.now (map (λ item. item.now) items.now)) }
{
    match items {
        [word, name, state, rates @ ..] if *word == CLOCK => {
            clock_line(alloc, *word, *name, *state, rates)
        }
        _ => copy_of(alloc, line),
    }
}

/// The line of a clock, with its rates in Hz.
fn clock_line(
    alloc: Global,
    word: &[u8],
    name: &[u8],
    state: &[u8],
    rates: &[&[u8]],
) -> Result<Vec<u8>, AllocError>
    ensures { IfOk result (λ made. made.items ≡ clock_line word.now name.now state.now
        (map (λ rate. rate.now) rates.now)) }
{
    let mut made = Vec::new(alloc);
    made.extend_from_slice(word)?;
    add_item(name, &mut made)?;
    add_item(state, &mut made)?;
    for rate in rates {
        add_item(&item_in_hertz(alloc, *rate)?, &mut made)?;
    }
    Ok(made)
}

/// Adds an item behind a space.
fn add_item(item: &[u8], made: &mut Vec<u8>) -> Result<(), AllocError>
    ensures { OnOk result (made.new.items ≡ made.old.items ++ 32 ∷ item.now) }
{
    made.push(b' ')?;
    made.extend_from_slice(item)
}

/// An item with the rates between its commas in Hz.
fn item_in_hertz(alloc: Global, item: &[u8]) -> Result<Vec<u8>, AllocError>
    ensures { IfOk result (λ made. made.items ≡ item_in_hertz item.now) }
{
    let mut made = Vec::new(alloc);
    let mut is_first = true;
    for rate in item.split(|byte| *byte == b',') {
        add_byte(b',', is_first, &mut made)?;
        is_first = false;
        made.extend_from_slice(&rate_in_hertz(alloc, rate)?)?;
    }
    Ok(made)
}

/// A rate with a unit as its number of Hz. Any other text stays.
fn rate_in_hertz(alloc: Global, rate: &[u8]) -> Result<Vec<u8>, AllocError>
    ensures { IfOk result (λ made. made.items ≡ rate_in_hertz rate.now) }
{
    match rate_in_unit(rate) {
        Some(hertz) => Ok(format!(in alloc; "{hertz}")?.into_bytes()),
        None => copy_of(alloc, rate),
    }
}
