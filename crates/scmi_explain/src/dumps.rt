//! Inputs in which no area is found.

use crate::explanation::{Cause, What};
use crate::fit::begins_as;
use crate::forms::HEADINGS;
use crate::mode::{Expected, empty_cause, is_mode};
use crate::sentence::{Sentence, Slip};
use crate::slip::slip_of_mark;
use crate::text::{are_hexadecimal, first_line, first_word, is_line_feed, item_at};

/// How many digits the address of a row of numbers of 16 bits has, as hexdump and od print it.
const ADDRESS_DIGITS: usize = 7;

/// How many digits a number of 16 bits has.
const HALFWORD_DIGITS: usize = 4;

/// What is wrong with an input of which no line is an area.
pub(crate) fn dumps_cause(input: &[u8]) -> Cause<'_> {
    if input.is_empty() {
        return empty_cause(Expected::Dumps);
    }
    let no_dump = Sentence::of(
        "no line of the input is an area; print it as xxd, od -t x4, U-Boot's md.l or gdb's x/71xw \
         do (docs/DECODE.md has all forms)",
    );
    (What::Said(no_dump), slip_of_dumps(input))
}

/// The slip in an input without an area.
fn slip_of_dumps(input: &[u8]) -> Option<Slip> {
    let line = first_line(input);
    if input.contains(&0) {
        let text = "it has a zero byte, so it is not text; decode it with -b";
        return Some(Sentence::of(text));
    }
    slip_of_mark(line).or(slip_of_rows(input, line))
}

/// The slip in a text without an area.
fn slip_of_rows(input: &[u8], line: &[u8]) -> Option<Slip> {
    let text = match line {
        _ if is_mode(line) => "it is the mode of a script, which scmi run takes",
        _ if begins_as(&HEADINGS, line) => {
            "it is a board, which scmi session, check and table take"
        }
        _ if has_decimal_addresses(input) => {
            "its addresses are decimal; print it with xxd or hexdump -C alone, or od -A x"
        }
        _ if has_halfwords(line) => {
            "it looks like hexdump without -C; print it with hexdump -C or od -t x1"
        }
        _ => return None,
    };
    Some(Sentence::of(text))
}

/// What the decimal addresses of second rows of 16 bytes end in, and those of further rows.
const DECIMAL_ENDS: [&[u8]; 3] = [b"016", b"032", b"048"];

/// Whether the addresses of rows of 16 bytes seem to be decimal: the first is 0, and the next is
/// 16, or more than that if rows repeat.
fn has_decimal_addresses(input: &[u8]) -> bool {
    let mut is_behind = false;
    for line in input.split(is_line_feed) {
        let address = address_of(line);
        if address.is_empty() {
            continue;
        }
        if is_behind {
            return DECIMAL_ENDS.iter().any(|end| is_zero_but(address, *end));
        }
        if !is_zero_but(address, b"") {
            return false;
        }
        is_behind = true;
    }
    false
}

/// The digits of the address that a row begins with; none if it does not begin with as many.
fn address_of(line: &[u8]) -> &[u8] {
    let word = first_word(line);
    let digits = match word {
        [digits @ .., b':'] => digits,
        _ => word,
    };
    if digits.len() >= ADDRESS_DIGITS {
        digits
    } else {
        b""
    }
}

/// Whether digits are zeros, and then these.
fn is_zero_but(digits: &[u8], end: &[u8]) -> bool {
    match digits.strip_suffix(end) {
        Some(zeros) => zeros.iter().all(|byte| *byte == b'0'),
        None => false,
    }
}

/// Whether a line looks like a row of numbers of 16 bits after an address.
fn has_halfwords(line: &[u8]) -> bool {
    is_digits(item_at(line, 0).unwrap_or(b""), ADDRESS_DIGITS)
        && is_digits(item_at(line, 1).unwrap_or(b""), HALFWORD_DIGITS)
}

/// Whether an item is this many hexadecimal digits.
fn is_digits(item: &[u8], count: usize) -> bool {
    item.len() == count && are_hexadecimal(item)
}
