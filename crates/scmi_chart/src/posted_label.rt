//! What the messages that the platform posts of its own accord report, in words.

use crate::fields::add_fields;
use crate::label::{empty_label, name_of};
use crate::mark::Label;
use crate::reply_label::status_words;
use crate::value::{Value, filled_words};
use scmi_codec::Message;
use scmi_decode::{delayed_fields, notification_fields, notification_name};
use scmi_plan::RawPlan;
use std::alloc::{AllocError, Global};

/// What a delayed response or a notification reports.
pub(crate) fn posted_label(
    alloc: Global,
    board: &RawPlan,
    message: &Message,
) -> Result<Label, AllocError> {
    let mut label = empty_label(alloc);
    add_posted(alloc, board, &mut label, message)?;
    Ok(label)
}

/// Adds the name of a notification, or that of a delayed response, and the fields.
fn add_posted(
    alloc: Global,
    board: &RawPlan,
    label: &mut Label,
    message: &Message,
) -> Result<(), AllocError> {
    match notification_name(message.header.protocol(), message.header.id()) {
        Some(name) if message.header.kind() == 3 => {
            label.name = Vec::from_slice(alloc, name.as_bytes())?;
        }
        _ => add_delayed(alloc, label, message)?,
    }
    add_posted_fields(alloc, board, label, message)
}

/// Adds the name of a delayed response, and its status if that is not success.
fn add_delayed(alloc: Global, label: &mut Label, message: &Message) -> Result<(), AllocError> {
    let name = name_of(alloc, message.header.protocol(), message.header.id())?;
    let names = [Value::Words(&name)];
    match message.payload.as_slice() {
        [status, ..] if *status != 0 => {
            label.name = filled_words(alloc, "% failed", &names)?;
            label.object = status_words(alloc, *status)?;
        }
        _ => label.name = filled_words(alloc, "% completed", &names)?,
    }
    Ok(())
}

/// Adds the fields of a notification, or of a delayed response after its status.
fn add_posted_fields(
    alloc: Global,
    board: &RawPlan,
    label: &mut Label,
    message: &Message,
) -> Result<(), AllocError> {
    match message.header.kind() {
        3 => {
            let fields = notification_fields(message);
            add_fields(alloc, board, label, fields.as_slice())
        }
        2 => {
            let fields = delayed_fields(message);
            add_fields(alloc, board, label, fields.as_slice())
        }
        _ => Ok(()),
    }
}
