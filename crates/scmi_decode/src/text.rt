//! What an area is, in words.

use crate::commands::command_fields;
use crate::describing::describe;
use crate::description::Description;
use crate::field_text::write_fields;
use crate::first_line::write_first_line;
use crate::lists::{write_protocols, write_rates};
use crate::reply::{delayed_fields, notification_fields, reply_fields};
use scmi_codec::{AREA_BYTES, BASE_PROTOCOL, CLOCK_PROTOCOL, Frame, Message};
use std::io;
use std::io::Write;

/// Writes what an area is, as `write_description` does of what `describe` gives.
pub fn write_area<W: Write>(writer: &mut W, area: &[u8; AREA_BYTES]) -> io::Result<()> {
    write_description(writer, &describe(area))
}

/// Writes what an area is: one line with the channel's state, the message by name, its token and its
/// status; then each field on a line of its own, with its unit; then the words of the message. The
/// error is the writer's; some parts may then be written.
pub fn write_description<W: Write>(writer: &mut W, description: &Description) -> io::Result<()> {
    write_first_line(writer, description)?;
    write_payload(writer, description)?;
    match message_of(description) {
        Some(message) => write_words(writer, message),
        None => Ok(()),
    }
}

/// Writes the fields of a message, or the list that it gives.
fn write_payload<W: Write>(writer: &mut W, description: &Description) -> io::Result<()> {
    match description {
        Description::Command {
            request: Ok(command),
            ..
        }
        | Description::Withdrawn {
            request: Ok(command),
            ..
        } => write_fields(writer, command_fields(command).as_slice()),
        Description::Reply { message } => write_reply(writer, message),
        Description::Delayed { message, .. } => {
            write_fields(writer, delayed_fields(message).as_slice())
        }
        Description::Notification { message, .. } => {
            write_fields(writer, notification_fields(message).as_slice())
        }
        _ => Ok(()),
    }
}

/// Writes what follows the status of a successful reply: a list, or the fields of its row.
fn write_reply<W: Write>(writer: &mut W, message: &Message) -> io::Result<()> {
    let [_, words @ ..] = message.payload.as_slice() else {
        return Ok(());
    };
    match (message.header.protocol(), message.header.id()) {
        (BASE_PROTOCOL, 0x6) => write_protocols(writer, words),
        (CLOCK_PROTOCOL, 0x4) => write_rates(writer, words),
        (protocol, id) => match reply_fields(protocol, id, words) {
            Ok(fields) => write_fields(writer, fields.as_slice()),
            Err(_) => Ok(()),
        },
    }
}

/// The message that a description has.
fn message_of(description: &Description) -> Option<&Message> {
    match description {
        Description::Command { message, .. }
        | Description::Withdrawn { message, .. }
        | Description::Reply { message }
        | Description::Refusal { message, .. }
        | Description::Delayed { message, .. }
        | Description::Notification { message, .. }
        | Description::Foreign { message, .. } => Some(message),
        Description::ChannelError { frame } => match frame {
            Frame::Good(message) => Some(message),
            Frame::Malformed { .. } => None,
        },
        Description::Unused | Description::Malformed { .. } => None,
    }
}

/// Writes the header word and the payload words of a message on a line.
fn write_words<W: Write>(writer: &mut W, message: &Message) -> io::Result<()> {
    write!(writer, "    words       {:08x}", message.header.pack())?;
    for word in message.payload.as_slice() {
        let word = *word;
        write!(writer, " {word:08x}")?;
    }
    writeln!(writer)
}
