//! The fault that a program wrote as its last line.

use scmi_board::{byte, word};
use scmi_io::{AREA, BOARD, FAULT, LIMIT, MEMORY, MODE, PLAN, READ, SCRIPT, SIZE};

/// Why a program refused its input or stopped, by its last line.
#[derive(Clone, Copy, PartialEq, Eq)]
pub enum Fault {
    /// The first line names no mode.
    Mode,
    /// The input is too long.
    Size,
    /// A read failed.
    Read,
    /// What should be an area is not one.
    Area,
    /// The line of this number is no line of a board.
    Board(u32),
    /// The line of this number is no line of a script.
    Script(u32),
    /// The board breaks the rule of this number, 1 to 5.
    Plan(u8),
    /// A script met a limit.
    Limit,
    /// Out of memory.
    Memory,
}

/// The words of faults without a number.
const PLAIN: [(&str, Fault); 6] = [
    (MODE, Fault::Mode),
    (SIZE, Fault::Size),
    (READ, Fault::Read),
    (AREA, Fault::Area),
    (LIMIT, Fault::Limit),
    (MEMORY, Fault::Memory),
];

impl Fault {
    /// The fault that a line reports, without its line feed; `None` of any other line.
    pub fn of_line(line: &[u8]) -> Option<Fault> {
        let fault = line.strip_prefix(FAULT.as_bytes())?;
        if let Some(line) = fault.strip_prefix(BOARD.as_bytes()) {
            return word(line).map(Fault::Board);
        }
        if let Some(line) = fault.strip_prefix(SCRIPT.as_bytes()) {
            return word(line).map(Fault::Script);
        }
        if let Some(rule) = fault.strip_prefix(PLAN.as_bytes()) {
            return byte(rule).map(Fault::Plan);
        }
        plain_fault(fault)
    }
}

/// The fault without a number that has this word.
fn plain_fault(text: &[u8]) -> Option<Fault> {
    for (word, fault) in PLAIN {
        if word.as_bytes() == text {
            return Some(fault);
        }
    }
    None
}
