//! Inputs that are too long.

use crate::explanation::{Cause, plain, said};
use crate::mode::Expected;
use crate::piece::Piece;
use crate::rows::Rows;
use crate::sentence::Sentence;
use crate::text::{behind_first, first_line};
use scmi_board::END;
use scmi_io::INPUT_BYTES;

/// The most steps of a script that is drawn.
const DRAWN_STEPS: usize = 2_000;

/// What is too long about an input, of which the first bytes are given.
pub(crate) fn size_cause(expected: Expected, input: &[u8]) -> Cause<'_> {
    let first = first_line(input);
    if expected == Expected::Drawing {
        if first.starts_with(b"threads ") && input.len() < INPUT_BYTES {
            return plain("a chart has at most 2,000 steps, and this run has more");
        }
        let steps = steps_of(behind_first(input));
        if steps > DRAWN_STEPS {
            let text = "a chart has at most 2,000 steps, and this script has %";
            let pieces = [Piece::Number(steps as u64)];
            return said(Sentence::filled(text, &pieces));
        }
    }
    plain(match expected {
        Expected::Dumps => "the input is longer than 1,048,576 bytes",
        _ if first.len() >= INPUT_BYTES => "the first line is longer than 1,048,576 bytes",
        _ => "the input after line 1 is longer than 1,048,576 bytes",
    })
}

/// How many lines of a script follow the board.
fn steps_of(behind_first: &[u8]) -> usize {
    let mut steps = 0usize;
    let mut has_ended = false;
    for row in Rows::all(behind_first) {
        steps = steps.saturating_add(usize::from(has_ended));
        has_ended |= row.text == END;
    }
    steps
}
