//! The first line of a description: the state of the channel, and the message by its name, its token
//! and its status.

use crate::description::Description;
use crate::heading::{MessageName, NotificationName, OwnToken, Token};
use crate::names::status_name;
use scmi_codec::{Command, Frame, Message, PAYLOAD_WORDS, Status, wanted_words};
use std::io::Write;
use std::{fmt, io};

pub(crate) fn write_first_line<W: Write>(
    writer: &mut W,
    description: &Description,
) -> io::Result<()> {
    match description {
        Description::Unused => writeln!(writer, "free: unused"),
        Description::Command { message, request } => write_command(writer, message, request),
        Description::Withdrawn { message, request } => write_withdrawn(writer, message, request),
        Description::Reply { message } => write_response(writer, message, Status::Success),
        Description::Refusal { message, status } => write_response(writer, message, *status),
        Description::Delayed { is_free, message } => write_delayed(writer, *is_free, message),
        Description::Notification { is_free, message } => {
            write_notification(writer, *is_free, message)
        }
        Description::ChannelError { frame } => write_channel_error(writer, frame),
        Description::Malformed {
            is_free,
            length,
            header,
        } => write_malformed(writer, *is_free, *length, *header),
        Description::Foreign { is_free, message } => write_foreign(writer, *is_free, message),
    }
}

/// Writes the line of a command that waits, with the number of payload words if the command has
/// another.
fn write_command<W: Write>(
    writer: &mut W,
    message: &Message,
    request: &Result<Command, Status>,
) -> io::Result<()> {
    let header = message.header;
    let name = MessageName(header);
    let token = Token(header);
    match request {
        Err(Status::ProtocolError) => {
            let count = message.payload.len();
            let expected = wanted_words(header.protocol(), header.id());
            writeln!(
                writer,
                "busy: command {name}, {token}: {count} payload words, expected {expected}"
            )
        }
        _ => writeln!(writer, "busy: command {name}, {token}"),
    }
}

/// Writes the line of a message that is no reply by its form: of another length than its command and
/// the reply to it, of no table, so that its words do not distinguish a reply from a command, or a
/// command that was withdrawn.
fn write_withdrawn<W: Write>(
    writer: &mut W,
    message: &Message,
    request: &Result<Command, Status>,
) -> io::Result<()> {
    let name = MessageName(message.header);
    let token = Token(message.header);
    match request {
        Err(Status::ProtocolError) => {
            let count = message.payload.len();
            writeln!(
                writer,
                "free: {count} payload words that no command {name} and no reply to it has, {token}"
            )
        }
        Err(Status::NotSupported) => {
            writeln!(writer, "free: reply or withdrawn command, {name}, {token}")
        }
        _ => writeln!(writer, "free: command {name} that was withdrawn, {token}"),
    }
}

fn write_response<W: Write>(writer: &mut W, message: &Message, status: Status) -> io::Result<()> {
    let name = MessageName(message.header);
    let token = Token(message.header);
    let status = status_name(status);
    writeln!(writer, "free: reply to {name}, {token}: {status}")
}

fn write_delayed<W: Write>(writer: &mut W, is_free: bool, message: &Message) -> io::Result<()> {
    let state = state_name(is_free);
    let name = MessageName(message.header);
    let token = Token(message.header);
    let status = first_status(message);
    let taken = taken_mark(is_free);
    writeln!(
        writer,
        "{state}: delayed response to {name}, {token}: {status}{taken}"
    )
}

fn write_notification<W: Write>(
    writer: &mut W,
    is_free: bool,
    message: &Message,
) -> io::Result<()> {
    let state = state_name(is_free);
    let name = NotificationName(message.header);
    let token = OwnToken(message.header);
    let taken = taken_mark(is_free);
    writeln!(writer, "{state}: notification {name}{token}{taken}")
}

fn write_channel_error<W: Write>(writer: &mut W, frame: &Frame) -> io::Result<()> {
    match frame {
        Frame::Good(_) => writeln!(writer, "free: channel error, and the frame is well formed"),
        Frame::Malformed { length, header } => {
            let length = WrongLength(*length, *header);
            writeln!(
                writer,
                "free: channel error: the frame was malformed: {length}"
            )
        }
    }
}

fn write_malformed<W: Write>(
    writer: &mut W,
    is_free: bool,
    length: u32,
    header: u32,
) -> io::Result<()> {
    let state = state_name(is_free);
    let length = WrongLength(length, header);
    writeln!(writer, "{state}: malformed: {length}")
}

fn write_foreign<W: Write>(writer: &mut W, is_free: bool, message: &Message) -> io::Result<()> {
    let state = state_name(is_free);
    let header = message.header.pack();
    writeln!(
        writer,
        "{state}: message of type 1, which SCMI does not have; header 0x{header:08x}"
    )
}

fn state_name(is_free: bool) -> &'static str {
    if is_free { "free" } else { "busy" }
}

/// That the agent has taken a message of the platform's, if the channel is free.
fn taken_mark(is_free: bool) -> &'static str {
    if is_free { ", taken" } else { "" }
}

/// The name of the status that a message begins with.
fn first_status(message: &Message) -> &'static str {
    let [word, ..] = message.payload.as_slice() else {
        return "no status";
    };
    match Status::of_word(*word) {
        Some(status) => status_name(status),
        None => "no status",
    }
}

/// A length in bytes that no frame has, and the header word.
#[derive(Clone, Copy)]
struct WrongLength(u32, u32);

impl fmt::Display for WrongLength {
    fn fmt<W: fmt::Write>(&self, f: &mut fmt::Formatter<W>) -> fmt::Result {
        let WrongLength(length, header) = *self;
        write!(f, "length {length} is ")?;
        write_why(f, length)?;
        write!(f, "; header 0x{header:08x}")
    }
}

/// Writes why a length in bytes is not that of a frame.
fn write_why<W: fmt::Write>(f: &mut fmt::Formatter<W>, length: u32) -> fmt::Result {
    let most = 4 + 4 * PAYLOAD_WORDS as u32;
    if length < 4 {
        f.write_str("too short for the header")
    } else if length > most {
        write!(f, "more than {most}")
    } else if length % 4 == 0 {
        f.write_str("more than its area has room for")
    } else {
        f.write_str("not a multiple of 4")
    }
}
