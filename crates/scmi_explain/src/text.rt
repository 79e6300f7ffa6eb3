//! The lines of an input, by their numbers from 1.
ghost use Rattle.std.specs.Prelude.{◌≡◌};
ghost use Rattle.scmi_io.specs.Lines.{after_line, first_line};

use scmi_board::{Items, word};

/// The first line, without its line feed.
pub(crate) fn first_line(input: &[u8]) -> &[u8] {
    split_first(input).0
}

/// What follows the first line.
pub(crate) fn behind_first(input: &[u8]) -> &[u8] {
    split_first(input).1
}

/// The line of a number, without its line feed; `None` if the input does not have that many lines.
pub(crate) fn line_at(input: &[u8], number: u32) -> Option<&[u8]> {
    let before = number.checked_sub(1)? as usize;
    input.split(is_line_feed).nth(before)
}

pub(crate) fn is_line_feed(byte: &u8) -> bool {
    *byte == b'\n'
}

pub(crate) fn is_space(byte: &u8) -> bool {
    *byte == b' '
}

pub(crate) fn is_comma(byte: &u8) -> bool {
    *byte == b','
}

pub(crate) fn are_hexadecimal(item: &[u8]) -> bool {
    item.iter().all(|byte| byte.is_ascii_hexdigit())
}

/// The first word of a line: what comes before its first space.
pub(crate) fn first_word(line: &[u8]) -> &[u8] {
    line.split(is_space).next().unwrap_or(line)
}

/// Whether a line begins with this word.
pub(crate) fn begins_with(line: &[u8], word: &str) -> bool {
    first_word(line) == word.as_bytes()
}

/// The item of a line behind this many others.
pub(crate) fn item_at(line: &[u8], place: u32) -> Option<&[u8]> {
    let mut items = Items::new(line);
    for _ in 0..place {
        let _ = items.next_item().ok()?;
    }
    items.next_item().ok()
}

/// The number that is the second item of a line.
pub(crate) fn second_number(line: &[u8]) -> Option<u32> {
    word(item_at(line, 1)?)
}

/// The first line, without its line feed, and what follows it: all and nothing if no line feed is
/// in the input.
pub fn split_first(input: &[u8]) -> (&[u8], &[u8])
    ensures line { result.0.now ≡ first_line input.now }
    ensures rest { result.1.now ≡ after_line input.now }
{
    match input.iter().position(|byte| *byte == b'\n') {
        Some(place) => (&input[..place], &input[place + 1..]),
        None => (input, &[]),
    }
}
