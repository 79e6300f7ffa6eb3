//! What a line of a record shows.
ghost use Rattle.scmi_board.specs.Items.{items_left};
ghost use Rattle.scmi_board.specs.LineError.{Gives, GivesUnless};
ghost use Rattle.scmi_check.specs.Shown.{happened_at, other_shown, session_shown, shown_at, told_left};

use crate::command_shown::command_shown;
use crate::event_shown::event_shown;
use crate::note::Lost;
use crate::seen::read_seen;
use crate::trace_line::{is_trace_line, items_of, lost_in};
use scmi_board::{Items, LineError};
use scmi_codec::{Answer, Frame, Message};
use scmi_decode::{Traced, read_traced};
use scmi_plan::Report;
use scmi_text::{Call, read_one_step, read_report};
use std::alloc::Global;

/// The first word of a line of what the hardware told.
pub(crate) const REPORT: &[u8] = b"report";

/// What a line of a record shows.
#[derive(Drop)]
pub(crate) enum Shown {
    /// An agent posts a command with its next token.
    Called { agent: u32, call: Call },
    /// An agent posts a frame.
    Posted { agent: u32, frame: Frame },
    /// An agent posts a command, and others of it may wait, as over several channels.
    PostedBeside { agent: u32, message: Message },
    /// An agent gets an answer.
    Got { agent: u32, answer: Answer },
    /// An agent gets a response to the command of its token.
    Responded { agent: u32, message: Message },
    /// An agent takes a message of the platform.
    Took { agent: u32, message: Message },
    /// The hardware told the platform this.
    Told { report: Report },
    /// Events of a trace are lost.
    Missed { lost: Lost },
    /// Nothing: another line of a trace.
    Skipped,
}

/// What a line shows: as one of Linux's ftrace the message of its event `scmi_msg_dump`, that
/// events are lost, or nothing; any other line as one of a session. `Form` if it is neither.
#[tactic(auto, unfolding(crate::specs::Shown::shown_at))]
pub(crate) fn read_shown(alloc: Global, text: &[u8], agents: u32) -> Result<Shown, LineError>
    ensures { GivesUnless (λ shown. shown) result (shown_at agents text.now) }
{
    match read_traced(alloc, text)? {
        Traced::Message {
            instance,
            kind,
            message,
        } => event_shown(agents, instance, kind, message),
        Traced::Unreadable => Err(LineError::Form),
        Traced::Other => Ok(Shown::Skipped),
        Traced::Nothing => read_other(alloc, text, agents),
    }
}

/// What a line without an event of SCMI shows: as one of a trace that events are lost, or nothing;
/// any other line as one of a session. `Form` if it is neither.
fn read_other(alloc: Global, text: &[u8], agents: u32) -> Result<Shown, LineError>
    ensures { GivesUnless (λ shown. shown) result (other_shown agents text.now) }
{
    let items = items_of(alloc, text)?;
    if let Some(lost) = lost_in(items.as_slice()) {
        return Ok(Shown::Missed { lost });
    }
    if is_trace_line(items.as_slice()) {
        return Ok(Shown::Skipped);
    }
    read_session(text, agents)
}

/// What a line of a session shows: a command, as a line of a script has it, or else what happened
/// beside the commands. `Form`, the only error, if it is neither.
#[tactic(auto, unfolding(crate::specs::Shown::session_shown))]
fn read_session(text: &[u8], agents: u32) -> Result<Shown, LineError>
    ensures { Gives (λ shown. shown) result (session_shown agents text.now) }
{
    match read_one_step(text, agents) {
        Ok(step) => command_shown(step),
        Err(_) => read_happened(text, agents),
    }
}

/// What happened beside the commands: what the hardware told, as a line of a script has it, or else
/// what an agent got, as a line of a run's output has it.
#[tactic(auto, unfolding(crate::specs::Shown::happened_at))]
fn read_happened(text: &[u8], agents: u32) -> Result<Shown, LineError>
    ensures { Gives (λ shown. shown) result (happened_at agents (items_left text.now)) }
{
    let mut items = Items::new(text);
    if items.next_item()? == REPORT {
        return read_told(&mut items);
    }
    read_seen(&mut Items::new(text), agents)
}

/// What the hardware told, behind the word.
#[tactic(auto, unfolding(crate::specs::Shown::told_left))]
fn read_told(items: &mut Items<'_>) -> Result<Shown, LineError>
    ensures { Gives (λ shown. shown) result (told_left (items_left items.old)) }
{
    let report = read_report(items)?;
    Ok(Shown::Told { report })
}
