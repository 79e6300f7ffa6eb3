//! What is reported on standard error of a rejected record.

use crate::board_names::BoardNames;
use crate::record_cause::{RecordCause, is_post, line_of, record_cause};
use crate::report_unknown::report_names;
use scmi_live::in_hertz;
use std::alloc::Global;
use std::io::Eprint;

/// Reports why the line of this number of the record of this name is refused, if the board has this
/// text. Of the record these are the first bytes.
pub fn report_record(
    rt: &impl Eprint,
    alloc: Global,
    name: &str,
    board: &[u8],
    record: &[u8],
    line: u32,
) {
    let Some(names) = names_of(alloc, board) else {
        return report_cause(rt, name, line, RecordCause::Form);
    };
    let cause = match names.in_numbers(alloc, record, line) {
        Ok(given) => record_cause(alloc, names.agents, &given, line),
        Err(_) => RecordCause::Form,
    };
    let text = line_of(record, line);
    let may_have_names = matches!(cause, RecordCause::Form) && is_post(text);
    if may_have_names && report_names(rt, alloc, name, &names.board, line, text) {
        return;
    }
    report_cause(rt, name, line, cause);
}

/// The names of the board of a text, whose rates may have units.
fn names_of(alloc: Global, text: &[u8]) -> Option<BoardNames> {
    let hertz = in_hertz(alloc, text).ok()?;
    BoardNames::of_text(alloc, &hertz).ok()
}

/// Reports why a line of a record is refused.
fn report_cause(rt: &impl Eprint, name: &str, line: u32, cause: RecordCause) {
    let _ = match cause {
        RecordCause::Agent { agent, agents } => eprintln!(rt;
            "{name}:{line}: agent {agent} is not on the board, which has agents 1 to {agents}"
        ),
        RecordCause::Waits { agent, command } => eprintln!(rt;
            "{name}:{line}: the command of agent {agent} at line {command} still waits for its reply"
        ),
        RecordCause::NoCommand { agent } => eprintln!(rt;
            "{name}:{line}: a reply without a command: none of agent {agent} waits for one"
        ),
        RecordCause::Event => eprintln!(rt;
            "{name}:{line}: a field of scmi_msg_dump is missing or has another form"
        ),
        RecordCause::Board => eprintln!(rt;
            "{name}:{line}: this is a board; scmi check takes BOARD before RECORD"
        ),
        RecordCause::Script => eprintln!(rt;
            "{name}:{line}: this is the mode of a script, which scmi run takes; a record has none"
        ),
        RecordCause::Far => eprintln!(rt;
            "{name}:{line}: this line can't be here: it is no line of a record, or a reply without \
            its command, or a command before the reply to the one before it; docs/CHECK.md has the \
            forms"
        ),
        RecordCause::Form => eprintln!(rt;
            "{name}:{line}: not a line of a record; docs/CHECK.md has the forms"
        ),
    };
}
