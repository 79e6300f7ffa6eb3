//! What is reported on standard error of a rejected board.

use crate::opened::as_script;
use crate::report::report_found;
use scmi_board::{BoardError, read_valid_board};
use scmi_explain::{Expected, Fault, explain};
use scmi_live::in_hertz;
use std::alloc::Global;
use std::io::{Eprint, Error};

/// Reports why the board of this name is rejected, of which these bytes were read; the error is that
/// of its reads. `behind` is said besides if a line follows the board.
pub fn report_board(
    rt: &impl Eprint,
    alloc: Global,
    name: &str,
    bytes: &[u8],
    fault: Fault,
    error: Option<Error>,
    behind: &str,
) {
    let hertz = in_hertz(alloc, bytes).ok();
    let text = hertz.as_deref().unwrap_or(bytes);
    let _ = match read_valid_board(alloc, text) {
        Err(BoardError::After(line)) => eprintln!(rt;
            "{name}:{line}: the file of a board ends after its line end{behind}"
        ),
        Err(BoardError::Line(0)) if matches!(fault, Fault::Board(_)) => eprintln!(rt;
            "{name}: a board starts with \"board VENDOR SUBVENDOR VERSION TRUSTED\""
        ),
        _ => return explain_board(rt, alloc, name, text, fault, error),
    };
}

/// Explains the fault of a board in Hz as that of a script, whose lines have a higher number by one.
fn explain_board(
    rt: &impl Eprint,
    alloc: Global,
    name: &str,
    board: &[u8],
    fault: Fault,
    error: Option<Error>,
) {
    let fault = match fault {
        Fault::Board(line) => Fault::Board(line.saturating_add(1)),
        fault => fault,
    };
    let script = as_script(alloc, board).ok();
    let mut found = explain(
        alloc,
        Expected::Session,
        script.as_deref().unwrap_or(&[]),
        fault,
    );
    found.line = match found.line {
        Some(line) => Some(line.saturating_sub(1).max(1)),
        None => None,
    };
    report_found(rt, name, fault, found, error);
}
