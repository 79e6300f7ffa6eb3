//! Fields of messages in a line of a report.
use arrayvec::ArrayString;
use scmi_codec::{Command, DELAYED_RESPONSE, Frame, Message, NOTIFICATION};
use scmi_decode::{Field, command_fields, delayed_fields, notification_fields, reply_fields};
use scmi_judge::Entry;
use std::fmt::Write as _;
use std::io;
use std::io::Write;

/// The most bytes of a field that are written.
const BYTES: usize = 128;

/// Writes the fields of an entry's command, if it is one that is well formed.
pub(crate) fn write_command_fields<W: Write>(writer: &mut W, entry: &Entry) -> io::Result<()> {
    match entry {
        Entry::Answered {
            frame: Frame::Good(command),
            ..
        }
        | Entry::Asked {
            frame: Frame::Good(command),
            ..
        }
        | Entry::Replied {
            frame: Frame::Good(command),
            ..
        } => match Command::read(command) {
            Ok(command) => write_fields(writer, &command_fields(&command)),
            Err(_) => Ok(()),
        },
        _ => Ok(()),
    }
}

/// Writes the fields of a reply of success.
pub(crate) fn write_reply_fields<W: Write>(writer: &mut W, reply: &Message) -> io::Result<()> {
    let [_, words @ ..] = reply.payload.as_slice() else {
        return Ok(());
    };
    match reply_fields(reply.header.protocol(), reply.header.id(), words) {
        Ok(fields) => write_fields(writer, &fields),
        Err(_) => Ok(()),
    }
}

/// Writes the fields of a message of the platform.
pub(crate) fn write_message_fields<W: Write>(writer: &mut W, message: &Message) -> io::Result<()> {
    match message.header.kind() {
        DELAYED_RESPONSE => write_fields(writer, &delayed_fields(message)),
        NOTIFICATION => write_fields(writer, &notification_fields(message)),
        _ => Ok(()),
    }
}

/// Writes fields in parentheses, if there are any.
fn write_fields<W: Write>(writer: &mut W, fields: &[Field]) -> io::Result<()> {
    let mut before = " (";
    'fields: for field in fields {
        write!(writer, "{before}")?;
        write_field(writer, field)?;
        before = ", ";
    }
    if fields.is_empty() {
        return Ok(());
    }
    write!(writer, ")")
}

/// Writes a field as a description has it, with one blank behind its name.
fn write_field<W: Write>(writer: &mut W, field: &Field) -> io::Result<()> {
    let mut text = ArrayString::<BYTES>::new();
    // What is longer is cut.
    let _cut = write!(text, "{field}");
    match text.as_str().split_once(' ') {
        Some((name, value)) => write!(writer, "{name} {}", value.trim_start()),
        None => write!(writer, "{}", text.as_str()),
    }
}
