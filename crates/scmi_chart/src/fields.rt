//! What the fields of a message add to its label.

use crate::board_names::{agent_name, clock_name, domain_name};
use crate::flags::{PERMIT, POWER, RATE, RESET, SWITCH, add_flags};
use crate::label::{add_behind, add_remark, protocol_words};
use crate::mark::Label;
use crate::value::{Value, filled_words};
use crate::words::{hex_words, name_words, numbered_words, rate_words, state_words, switch_word};
use scmi_decode::Field;
use scmi_plan::RawPlan;
use std::alloc::{AllocError, Global};

/// Adds the fields of a message to its label, in order.
pub(crate) fn add_fields(
    alloc: Global,
    board: &RawPlan,
    label: &mut Label,
    fields: &[Field],
) -> Result<(), AllocError> {
    'fields: for field in fields {
        add_field(alloc, board, label, field)?;
    }
    Ok(())
}

/// Adds a field of a message to its label.
fn add_field(
    alloc: Global,
    board: &RawPlan,
    label: &mut Label,
    field: &Field,
) -> Result<(), AllocError> {
    match field {
        Field::Domain(_)
        | Field::Clock(_)
        | Field::Agent(_)
        | Field::Subject(_)
        | Field::Name(_)
        | Field::Message(_)
        | Field::Version(_)
        | Field::Counts(_) => {
            label.object = object_words(alloc, board, field)?;
            Ok(())
        }
        Field::State(state) => set_value(label, state_words(alloc, *state)),
        Field::Rate(hertz) => set_value(label, rate_words(alloc, *hertz)),
        Field::Device(device) => {
            label.value = numbered_words(alloc, "device %", *device)?;
            Ok(())
        }
        Field::Protocol(protocol) => {
            add_behind(&mut label.value, &protocol_words(alloc, *protocol)?)
        }
        Field::By(agent) => add_cause(alloc, board, label, *agent),
        Field::Index(index) => add_remark(label, &numbered_words(alloc, "from %", *index)?),
        Field::Skip(count) => add_remark(label, &numbered_words(alloc, "skip %", *count)?),
        Field::Enable(bits) | Field::ClockAttributes(bits) => {
            label.value = Vec::from_slice(alloc, switch_word(*bits).as_bytes())?;
            add_flags(alloc, label, SWITCH, *bits)
        }
        Field::PowerFlags(bits) => add_flags(alloc, label, POWER, *bits),
        Field::PermitFlags(bits) => add_flags(alloc, label, PERMIT, *bits),
        Field::ResetFlags(bits) => add_flags(alloc, label, RESET, *bits),
        Field::RateFlags(bits) => add_flags(alloc, label, RATE, *bits),
        _ => Ok(()),
    }
}

/// What a message is about, by a field of it.
fn object_words(alloc: Global, board: &RawPlan, field: &Field) -> Result<Vec<u8>, AllocError> {
    match field {
        Field::Domain(domain) => domain_name(alloc, board, *domain),
        Field::Clock(clock) => clock_name(alloc, board, *clock),
        Field::Agent(agent) | Field::Subject(agent) => agent_name(alloc, board, *agent),
        Field::Name(words) => name_words(alloc, words),
        Field::Message(id) => hex_words(alloc, *id),
        Field::Version(word) => version_words(alloc, *word),
        Field::Counts(word) => counts_words(alloc, *word),
        _ => Ok(Vec::new(alloc)),
    }
}

/// Sets a state or a rate: what an object gets, or what it has if the message names none.
fn set_value(label: &mut Label, words: Result<Vec<u8>, AllocError>) -> Result<(), AllocError> {
    if label.object.is_empty() {
        label.object = words?;
    } else {
        label.value = words?;
    }
    Ok(())
}

/// The version of a protocol.
fn version_words(alloc: Global, word: u32) -> Result<Vec<u8>, AllocError> {
    let numbers = [Value::Number(word >> 16), Value::Number(word % 65536)];
    filled_words(alloc, "version %.%", &numbers)
}

/// How many agents and protocols there are.
fn counts_words(alloc: Global, word: u32) -> Result<Vec<u8>, AllocError> {
    let numbers = [Value::Number(word / 256 % 256), Value::Number(word % 256)];
    filled_words(alloc, "% agents, % protocols", &numbers)
}

/// Adds who caused a change, as a comment.
fn add_cause(
    alloc: Global,
    board: &RawPlan,
    label: &mut Label,
    agent: u32,
) -> Result<(), AllocError> {
    let name = agent_name(alloc, board, agent)?;
    add_remark(label, &filled_words(alloc, "by %", &[Value::Words(&name)])?)
}
