//! What the agents' posts ask for, in words.

use crate::fields::add_fields;
use crate::label::{empty_label, name_of};
use crate::mark::Label;
use crate::posts::message_of;
use crate::words::{numbered_words, payload_words};
use scmi_codec::{BASE_PROTOCOL, Command, Message};
use scmi_decode::command_fields;
use scmi_plan::RawPlan;
use scmi_text::{AgentStep, Step};
use std::alloc::{AllocError, Global};

/// What the command of a step asks for. Nothing of a step that posts none.
pub(crate) fn asked_label(
    alloc: Global,
    board: &RawPlan,
    step: &Step,
) -> Result<Label, AllocError> {
    let mut label = empty_label(alloc);
    add_asked(alloc, board, &mut label, step)?;
    Ok(label)
}

fn add_asked(
    alloc: Global,
    board: &RawPlan,
    label: &mut Label,
    step: &Step,
) -> Result<(), AllocError> {
    match step {
        Step::Agent {
            step: AgentStep::Malformed { length, .. },
            ..
        } => {
            label.name = Vec::from_slice(alloc, b"malformed")?;
            label.object = numbered_words(alloc, "length %", *length)?;
            Ok(())
        }
        _ => match message_of(step) {
            Some(message) => add_message(alloc, board, label, &message),
            None => Ok(()),
        },
    }
}

/// Adds what a message asks for: the fields of the command that it carries, or its words.
fn add_message(
    alloc: Global,
    board: &RawPlan,
    label: &mut Label,
    message: &Message,
) -> Result<(), AllocError> {
    let header = message.header;
    label.name = name_of(alloc, header.protocol(), header.id())?;
    add_command(alloc, board, label, message)?;
    if asks_for_itself(message) {
        label.object = Vec::from_slice(alloc, b"itself")?;
    }
    add_kind(alloc, label, header.kind())
}

/// Adds the fields of the command that a message carries, or its words.
fn add_command(
    alloc: Global,
    board: &RawPlan,
    label: &mut Label,
    message: &Message,
) -> Result<(), AllocError> {
    match Command::read(message) {
        Ok(command) => {
            let fields = command_fields(&command);
            add_fields(alloc, board, label, fields.as_slice())
        }
        Err(_) => {
            label.object = payload_words(alloc, message.payload.as_slice())?;
            Ok(())
        }
    }
}

/// Whether a message is BASE_DISCOVER_AGENT of the number that means the caller there.
fn asks_for_itself(message: &Message) -> bool {
    if message.header.protocol() != BASE_PROTOCOL || message.header.id() != 0x7 {
        return false;
    }
    match message.payload.as_slice() {
        [agent] => *agent == u32::MAX,
        _ => false,
    }
}

/// Adds the type of a message that is no command.
fn add_kind(alloc: Global, label: &mut Label, kind: u8) -> Result<(), AllocError> {
    if kind != 0 {
        label.tag = numbered_words(alloc, "type %", u32::from(kind))?;
    }
    Ok(())
}
