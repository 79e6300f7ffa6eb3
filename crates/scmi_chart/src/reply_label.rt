//! What answers report, in words.

use crate::fields::add_fields;
use crate::label::empty_label;
use crate::mark::{Label, Outcome};
use crate::value::{Value, filled_words};
use crate::words::{hex_words, payload_words};
use scmi_codec::{Answer, CLOCK_PROTOCOL, Header, Message, Status};
use scmi_decode::{reply_fields, status_name};
use scmi_plan::RawPlan;
use std::alloc::{AllocError, Global};

/// What an answer reports.
pub(crate) fn answer_label(
    alloc: Global,
    board: &RawPlan,
    answer: &Answer,
    outcome: Outcome,
) -> Result<Label, AllocError> {
    let mut label = empty_label(alloc);
    add_answer(alloc, board, &mut label, answer, outcome)?;
    Ok(label)
}

fn add_answer(
    alloc: Global,
    board: &RawPlan,
    label: &mut Label,
    answer: &Answer,
    outcome: Outcome,
) -> Result<(), AllocError> {
    let name: &[u8] = match answer {
        Answer::Reply(message) => return add_reply(alloc, board, label, message, outcome),
        Answer::Released => b"released, no reply",
        Answer::ChannelError => b"channel error",
    };
    label.name = Vec::from_slice(alloc, name)?;
    Ok(())
}

/// Adds what a reply reports: its status, what follows it, and that a set takes effect later, if it
/// does.
fn add_reply(
    alloc: Global,
    board: &RawPlan,
    label: &mut Label,
    message: &Message,
    outcome: Outcome,
) -> Result<(), AllocError> {
    let [word, words @ ..] = message.payload.as_slice() else {
        label.name = Vec::from_slice(alloc, b"no status")?;
        return Ok(());
    };
    label.name = status_words(alloc, *word)?;
    add_reply_fields(alloc, board, label, &message.header, words)?;
    if matches!(outcome, Outcome::Pending) {
        label.tag = Vec::from_slice(alloc, b"accepted, takes effect at an advance")?;
    }
    Ok(())
}

/// Adds what follows the status of a reply.
fn add_reply_fields(
    alloc: Global,
    board: &RawPlan,
    label: &mut Label,
    header: &Header,
    words: &[u32],
) -> Result<(), AllocError> {
    match reply_fields(header.protocol(), header.id(), words) {
        Ok(fields) => add_fields(alloc, board, label, fields.as_slice()),
        Err(Status::NotSupported) => add_list(alloc, label, header.protocol(), words),
        Err(_) => {
            label.object = payload_words(alloc, words)?;
            Ok(())
        }
    }
}

/// A status by its name, or else its word.
pub(crate) fn status_words(alloc: Global, word: u32) -> Result<Vec<u8>, AllocError> {
    match Status::of_word(word) {
        Some(status) => Vec::from_slice(alloc, status_name(status).as_bytes()),
        None => hex_words(alloc, word),
    }
}

/// Adds how many rates or protocols a list has.
fn add_list(
    alloc: Global,
    label: &mut Label,
    protocol: u8,
    words: &[u32],
) -> Result<(), AllocError> {
    if let [word, ..] = words {
        label.object = list_words(alloc, protocol, *word)?;
    }
    Ok(())
}

/// How many rates or protocols a list has, by its first word.
fn list_words(alloc: Global, protocol: u8, word: u32) -> Result<Vec<u8>, AllocError> {
    if protocol != CLOCK_PROTOCOL {
        return filled_words(alloc, "% protocols", &[Value::Number(word)]);
    }
    if word / 4096 % 2 == 1 {
        return Vec::from_slice(alloc, b"lowest, highest, step");
    }
    let counts = [Value::Number(word % 4096), Value::Number(word >> 16)];
    filled_words(alloc, "% rates, % left", &counts)
}
