//! What to do about a line that is no dump.

use crate::group_order::are_bits;
use crate::number::is_hexadecimal;
use crate::parts::parts_of;
use crate::scan::{after_gap, after_item, bar_length, first_item, has_one_item};

/// The most digits of a number of 64 bits.
const NUMBER_DIGITS: usize = 16;

/// What a line is whose items are not hexadecimal digits, and what to do about it, if it is known
/// which program printed it.
pub(crate) fn advice_for(text: &[u8]) -> &'static str {
    let line = after_gap(text);
    let first = first_item(line);
    let parts = parts_of(text);
    if is_record(b":", line) {
        "Intel HEX; make bytes of it (objcopy -I ihex -O binary) and decode these with -b"
    } else if line.len() > 9 && is_record(b"S", line) {
        "Motorola S-records; make bytes of them (objcopy -I srec -O binary) and decode these with -b"
    } else if line.starts_with(b"b'\\x")
        || line.starts_with(b"b\"\\x")
        || line.starts_with(b"\"\\x")
    {
        "a text of Python or C; print its digits (Python: bytes.hex())"
    } else if line.starts_with(b"$") {
        "gdb's print does not show how wide a number is; use x/71xw ADDRESS"
    } else if first.starts_with(b"*") {
        "it is unclear how often the row before it repeats; print each row (od -v, hexdump -vC)"
    } else if are_bits(parts.form, parts.bytes, parts.column) {
        "bits, as xxd -b prints them; print bytes (xxd -g 1)"
    } else if first.len() == 7 && is_hexadecimal(first) {
        "its base is unclear; print it as od -t x1 or hexdump -C do"
    } else if is_word_beside_text(line) {
        "its first column may be addresses; print single bytes (od -t x1)"
    } else if first.len() == 8 && is_hexadecimal(first) && text_is_bare(line) {
        "PowerShell's Format-Hex; decode the file itself with -b"
    } else if line.len() > 40 && has_one_item(line) && is_base64(first) {
        "Base64; make bytes of it (base64 -d) and decode these with -b"
    } else if has_short_numbers(line) {
        "numbers without leading zeros do not show how wide they are; print 8 digits each (%08x)"
    } else {
        "not hexadecimal digits"
    }
}

/// Whether all items are numbers, but for what comes before an `=`.
fn has_short_numbers(line: &[u8]) -> bool {
    let mut rest = after_equals(line);
    let mut has_number = false;
    for _ in 0..line.len() {
        let item = first_item(rest);
        if item.is_empty() {
            return has_number;
        }
        let digits = match item {
            [b'0', b'x', digits @ ..] => digits,
            _ => item,
        };
        if digits.is_empty() || digits.len() > NUMBER_DIGITS || !is_hexadecimal(digits) {
            return false;
        }
        has_number = true;
        rest = after_item(rest);
    }
    false
}

/// Whether a line begins with two words of as many digits, and has a column of text between bars: the
/// first may be an address.
fn is_word_beside_text(line: &[u8]) -> bool {
    let first = first_item(line);
    first.len() >= 8
        && is_hexadecimal(first)
        && first.len() == first_item(after_item(line)).len()
        && !text_is_bare(line)
}

/// What follows the first `=` of a line, or all of it.
fn after_equals(line: &[u8]) -> &[u8] {
    for place in 0..line.len() {
        if line[place] == b'=' {
            return &line[place + 1..];
        }
    }
    line
}

/// Whether no bar is before a column of text.
fn text_is_bare(line: &[u8]) -> bool {
    bar_length(line) == line.len()
}

/// Whether a line is a mark, and hexadecimal digits after it.
fn is_record(mark: &[u8], line: &[u8]) -> bool {
    let Some(digits) = line.strip_prefix(mark) else {
        return false;
    };
    for byte in digits {
        if !byte.is_ascii_hexdigit() && *byte != b'\r' {
            return false;
        }
    }
    true
}

fn is_base64(item: &[u8]) -> bool {
    for byte in item {
        if !byte.is_ascii_alphanumeric() && *byte != b'+' && *byte != b'/' && *byte != b'=' {
            return false;
        }
    }
    !is_hexadecimal(item)
}
