//! What is reported on standard error of a line with names that encodes no step.

use crate::given::is_hardware;
use crate::unknown_text::UnknownText;
use scmi_board::{Lines, read_board_with_lines};
use scmi_explain::{Fault, split_first};
use scmi_live::unknown_in;
use scmi_plan::RawPlan;
use std::alloc::Global;
use std::io::Eprint;

/// Reports why the line that a fault names encodes no step, if names are looked up in it: whether
/// there is something to report.
pub fn report_unknown(
    rt: &impl Eprint,
    alloc: Global,
    name: &str,
    input: &[u8],
    fault: Fault,
) -> bool {
    let Fault::Script(number) = fault else {
        return false;
    };
    let (mode, script) = split_first(input);
    if !is_hardware(mode) {
        return false;
    }
    let mut lines = Lines::new(script);
    let Ok(said) = read_board_with_lines(alloc, &mut lines) else {
        return false;
    };
    while let Some(line) = lines.next_line() {
        if line.number == number {
            return report_names(rt, alloc, name, &said.board, number, line.text);
        }
    }
    false
}

/// Reports why a line encodes no step on a board, if names are looked up in it: whether they are.
pub(crate) fn report_names(
    rt: &impl Eprint,
    alloc: Global,
    name: &str,
    board: &RawPlan,
    number: u32,
    text: &[u8],
) -> bool {
    let Ok(agents) = board.agent_count() else {
        return false;
    };
    match unknown_in(alloc, board, agents, text) {
        Some(unknown) => {
            let reason = UnknownText {
                unknown,
                board,
                alloc,
            };
            let _ = eprintln!(rt; "{name}:{number}: {reason}");
            true
        }
        None => false,
    }
}
