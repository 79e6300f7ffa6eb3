//! Why a line of a record is refused, found by what the lines before it and the line alone encode.

use crate::refusal::BOARD_START;
use crate::unknown_text::text_or;
use scmi_board::{Lines, number};
use scmi_check::{Note, NoteKind, read_record};
use scmi_explain::{MODES, split_first};
use std::alloc::Global;
use std::str::from_utf8;

/// Why a line of a record is refused.
#[derive(Clone, Copy)]
pub enum RecordCause {
    /// The board has fewer agents than this one's number.
    Agent { agent: u64, agents: u32 },
    /// The command of the agent at another line still waits for its reply.
    Waits { agent: u64, command: u32 },
    /// No command of the agent waits for a reply.
    NoCommand { agent: u64 },
    /// A field of the event of a trace is missing or has another form.
    Event,
    /// It is the first line of a board.
    Board,
    /// It is the first line of a script.
    Script,
    /// It is not a line of a record.
    Form,
    /// Any of these: the line is behind what is kept of the record.
    Far,
}

/// The event of a trace that shows a message, and its field with the instance.
const EVENT: &[u8] = b"scmi_msg_dump:";

const INSTANCE: &[u8] = b"id=";

/// The words of lines that post, before the number of an agent.
const POSTS: [&[u8]; 3] = [b"do", b"raw", b"bad"];

/// Why the line of this number of a record is refused, if the board has so many agents, and the
/// first lines of the record are these.
pub fn record_cause(alloc: Global, agents: u32, record: &[u8], line: u32) -> RecordCause {
    if !has_line(record, line) {
        return RecordCause::Far;
    }
    cause_in(alloc, agents, record, line).unwrap_or(RecordCause::Form)
}

/// Whether a text has a line of this number.
fn has_line(text: &[u8], line: u32) -> bool {
    feeds_in(text) >= line.saturating_sub(1) as usize
}

/// How many line feeds a text has.
pub(crate) fn feeds_in(text: &[u8]) -> usize {
    let mut feeds = 0usize;
    for byte in text {
        if *byte == b'\n' {
            feeds = feeds.saturating_add(1);
        }
    }
    feeds
}

/// The same; `None` if the line has another form, or there is no memory to find more.
fn cause_in(alloc: Global, agents: u32, record: &[u8], line: u32) -> Option<RecordCause> {
    let (before, text) = parted(record, line);
    if text.starts_with(BOARD_START) {
        return Some(RecordCause::Board);
    }
    if MODES.contains(&text_or(text, "")) {
        return Some(RecordCause::Script);
    }
    match agent_of(text) {
        Some(agent) if agent == 0 || agent > agents as u64 => {
            Some(RecordCause::Agent { agent, agents })
        }
        _ if is_event(text) => Some(RecordCause::Event),
        Some(agent) => cause_at(alloc, agents, before, record, text, agent),
        None => None,
    }
}

/// The same of a line of an agent of the board, and what is before it.
fn cause_at(
    alloc: Global,
    agents: u32,
    before: &[u8],
    record: &[u8],
    text: &[u8],
    agent: u64,
) -> Option<RecordCause> {
    if is_read(alloc, agents, text) {
        let command = waiting_line(alloc, agents, before, record, agent)?;
        return Some(RecordCause::Waits { agent, command });
    }
    let exchange = format!(in alloc; "raw {agent} 0\n{}", from_utf8(text).ok()?).ok()?;
    if is_read(alloc, agents, exchange.as_bytes()) {
        return Some(RecordCause::NoCommand { agent });
    }
    None
}

/// The line of this number.
pub(crate) fn line_of(record: &[u8], line: u32) -> &[u8] {
    parted(record, line).1
}

/// Whether a line begins as one that posts.
pub(crate) fn is_post(text: &[u8]) -> bool {
    POSTS.contains(&split_item(text, b' ').0)
}

/// What is before the first separator of a text, and what is behind it.
pub(crate) fn split_item(text: &[u8], separator: u8) -> (&[u8], &[u8]) {
    match text.iter().position(|byte| *byte == separator) {
        Some(place) => (&text[..place], &text[place + 1..]),
        None => (text, &[]),
    }
}

/// What is before a line of a text, and the line.
fn parted(text: &[u8], line: u32) -> (&[u8], &[u8]) {
    let mut rest = text;
    for _ in 1..line {
        rest = split_first(rest).1;
    }
    let end = text.len().saturating_sub(rest.len());
    (&text[..end], split_first(rest).0)
}

/// The number of the agent that a line names, if it is one.
fn agent_of(text: &[u8]) -> Option<u64> {
    let (first, behind) = split_item(text, b' ');
    if is_event(text) {
        instance_of(text)
    } else if is_post(text) {
        number(split_item(behind, b' ').0)
    } else {
        number(first)
    }
}

/// The number of the agent whose instance an event has; 1 if it has none.
fn instance_of(text: &[u8]) -> Option<u64> {
    let mut rest = text;
    for _ in 0..text.len() {
        let (item, behind) = split_item(rest, b' ');
        if let Some(instance) = item.strip_prefix(INSTANCE) {
            return number(instance)?.checked_add(1);
        }
        rest = behind;
    }
    Some(1)
}

/// Whether a line has the event of a trace that shows a message.
fn is_event(text: &[u8]) -> bool {
    let mut rest = text;
    for _ in 0..text.len() {
        let (item, behind) = split_item(rest, b' ');
        if item == EVENT {
            return true;
        }
        rest = behind;
    }
    false
}

/// Whether a text is a record.
fn is_read(alloc: Global, agents: u32, text: &[u8]) -> bool {
    read_record(alloc, &mut Lines::of_text(text), agents, &[]).is_ok()
}

/// The line of the command of an agent, posted by a line of a script or an area, that waits for its
/// reply after the first lines of a record.
fn waiting_line(
    alloc: Global,
    agents: u32,
    before: &[u8],
    record: &[u8],
    agent: u64,
) -> Option<u32> {
    let mut all = Vec::new(alloc);
    for protocol in 0..=u8::MAX {
        all.push(protocol).ok()?;
    }
    let read = read_record(alloc, &mut Lines::of_text(before), agents, &all).ok()?;
    waiting_in(&read.left.notes, record, agent)
}

/// The line of the first of these notes that is of such a command.
fn waiting_in(notes: &[Note], record: &[u8], agent: u64) -> Option<u32> {
    for note in notes {
        let command = line_of(record, note.line);
        let is_waiting = matches!(note.kind, NoteKind::Unanswered) && !is_event(command);
        if is_waiting && agent_of(command) == Some(agent) {
            return Some(note.line);
        }
    }
    None
}
