//! The calls of a core, each made again if memory is refused.
ghost use Rattle.std.specs.Prelude.{◌<◌, ◌≤◌, length};
ghost use Rattle.scmi_codec.specs.declared.header.TheConstants.{TOKENS};
ghost use Rattle.scmi_codec.specs.declared.payload.TheConstants.{PAYLOAD_WORDS};

use crate::probe::board::new_plan;
use crate::probe::lines::Lines;
use scmi_codec::{Frame, Header, Message, PAYLOAD_WORDS, POWER_PROTOCOL, payload_of};
use scmi_core::Core;
use std::alloc::Global;
use std::io::Write;

// Messages of the power domain protocol (DEN0056B), and two states.
const STATE_SET: u8 = 0x4;

const STATE_GET: u8 = 0x5;

const STATE_NOTIFY: u8 = 0x6;

const ON: u32 = 0;

const OFF: u32 = 0x4000_0000;

// The words of an event of each kind, and the most of any: a history takes room for that many.
const NOTIFY_EVENT: u16 = 5;

const GET_EVENT: u16 = 4;

const SET_EVENT: u16 = 6;

const OTHER_EVENT: u16 = 3;

const LONGEST_EVENT: u16 = 3 + PAYLOAD_WORDS as u16;

// Enough reads that the first completion finds room for one longest event less than it needs, and
// the last posting too, once the room was doubled twice.
const READS: u16 = (LONGEST_EVENT - NOTIFY_EVENT) / GET_EVENT;

const BEFORE: u16 = NOTIFY_EVENT + READS * GET_EVENT + 2 * SET_EVENT + 2 * OTHER_EVENT;

const LATER_READS: u16 = (3 * LONGEST_EVENT - BEFORE) / GET_EVENT;

/// A call of a core.
#[derive(Clone, Copy)]
enum Call<'a> {
    /// A command of agent 1.
    Command(&'a Frame),
    /// The completion of a set.
    Advance,
    /// The posting of agent 1's next message.
    Sent,
}

/// Commands of agent 1, completions of its sets, and the postings of its messages. The room of
/// the history grows for commands, for the first completion, and for the last posting.
pub fn call_core<W: Write>(alloc: Global, lines: &mut Lines<'_, W>) {
    let Some(plan) = new_plan(alloc, lines) else {
        return;
    };
    let mut core = Core::new(alloc, plan);
    write_state(lines, &core);
    execute(lines, &mut core, 0, STATE_NOTIFY, &[0, 1]);
    read_states(lines, &mut core, READS);
    set_state(lines, &mut core, 1, ON);
    read_states(lines, &mut core, LATER_READS);
    set_state(lines, &mut core, 2, OFF);
}

/// A set of a power domain's state, its completion, and a posting.
fn set_state<W: Write>(lines: &mut Lines<'_, W>, core: &mut Core, token: u16, state: u32)
    requires token { token < TOKENS }
{
    execute(lines, core, token, STATE_SET, &[1, 0, state]);
    make(lines, core, Call::Advance);
    make(lines, core, Call::Sent);
}

/// This many reads of a power domain's state.
fn read_states<W: Write>(lines: &mut Lines<'_, W>, core: &mut Core, count: u16) {
    'reads: for _ in 0..count {
        execute(lines, core, 3, STATE_GET, &[0]);
    }
}

fn execute<W: Write>(lines: &mut Lines<'_, W>, core: &mut Core, token: u16, id: u8, words: &[u32])
    requires token { token < TOKENS }
    requires words { length words.now ≤ PAYLOAD_WORDS }
{
    let header = Header::command(POWER_PROTOCOL, token, id);
    let payload = payload_of(words);
    let frame = Frame::Good(Message { header, payload });
    make(lines, core, Call::Command(&frame));
}

/// Makes a call, and again if memory is refused.
fn make<W: Write>(lines: &mut Lines<'_, W>, core: &mut Core, call: Call<'_>) {
    if !is_made(lines, core, call) {
        is_made(lines, core, call);
    }
}

/// Makes a call, and returns whether it did what it does. What refuses it is memory alone.
fn is_made<W: Write>(lines: &mut Lines<'_, W>, core: &mut Core, call: Call<'_>) -> bool {
    let mut reply = Message::default();
    let (name, made, answer) = match call {
        Call::Command(frame) => {
            let made = core.command_into(1, frame, &mut reply).is_ok();
            ("command", made, None)
        }
        Call::Advance => ("advance", core.advance() == Ok(true), Some("yes")),
        Call::Sent => ("sent", core.sent(1).is_ok(), Some("ok")),
    };
    match answer {
        _ if !made => lines.answer(name, "memory"),
        Some(answer) => lines.answer(name, answer),
        None => lines.message(name, &reply),
    }
    write_state(lines, core);
    made
}

/// The length of the history, and what is next to be posted to agent 1.
fn write_state<W: Write>(lines: &mut Lines<'_, W>, core: &Core) {
    lines.number("trace", core.trace().len());
    match core.front(1) {
        Ok(Some(message)) => lines.message("front", &message),
        _ => lines.answer("front", "none"),
    }
}
