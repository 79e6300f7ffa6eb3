//! The rows of a board, and all lines, in their order.
ghost use Rattle.std.specs.Prelude.{length};
ghost use Rattle.std.specs.Iterator.{at_most};

use crate::text::begins_with;
use scmi_board::{END, Lines, TextLine};

/// The lines that are left of an input after its first one, but for comments and empty ones: all,
/// or those of the board, from its line `board` to before its line `end`.
#[derive(Drop)]
pub(crate) struct Rows<'a> {
    lines: Lines<'a>,
    stops_at_end: bool,
}

impl<'a> Rows<'a> {
    /// The rows of the board that follows the first line.
    pub(crate) fn of_board(behind_first: &'a [u8]) -> Rows<'a> {
        Rows {
            lines: Lines::new(behind_first),
            stops_at_end: true,
        }
    }

    /// All lines after the first one.
    pub(crate) fn all(behind_first: &'a [u8]) -> Rows<'a> {
        Rows {
            lines: Lines::new(behind_first),
            stops_at_end: false,
        }
    }
}

impl<'a> Iterator for Rows<'a> {
    type Item = TextLine<'a>;

    ghost remaining = { λ rows. at_most (length rows.lines.rest) };

    fn next(&mut self) -> Option<TextLine<'a>> {
        let row = self.lines.next_line()?;
        if self.stops_at_end && row.text == END {
            return None;
        }
        Some(row)
    }
}

/// How many rows of a kind a board has, which follows the first line.
pub(crate) fn count_of(board: &[u8], kind: &str) -> u32 {
    let mut count = 0u32;
    for row in Rows::of_board(board) {
        if begins_with(row.text, kind) {
            count = count.saturating_add(1);
        }
    }
    count
}

/// The line of the row of a kind that comes after this many of them.
pub(crate) fn line_behind(board: &[u8], kind: &str, most: u32) -> Option<u32> {
    let mut left = most;
    for row in Rows::of_board(board) {
        if begins_with(row.text, kind) {
            if left == 0 {
                return Some(row.number);
            }
            left -= 1;
        }
    }
    None
}
