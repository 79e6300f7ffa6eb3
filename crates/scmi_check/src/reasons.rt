//! What was due and what was seen, as a line of a report has it.
use crate::fields_text::{write_message_fields, write_reply_fields};
use scmi_codec::{Answer, Message, Status};
use scmi_judge::{Entry, Verdict};
use scmi_plan::{Effect, Report};
use scmi_text::{PlainStep, Step, write_message_text};
use std::io;
use std::io::Write;

/// Writes what was due and what was seen, if they are not the same.
pub(crate) fn write_reasons<W: Write>(
    writer: &mut W,
    entry: &Entry,
    verdict: &Verdict,
) -> io::Result<()> {
    match verdict {
        Verdict::Same => return Ok(()),
        Verdict::NoAgent => write!(writer, " expected no agent")?,
        Verdict::NoMessage => write!(writer, " expected no message")?,
        Verdict::NoReport => write!(writer, " expected {}", wanted_of(entry))?,
        Verdict::Answer(due) => {
            write!(writer, " expected")?;
            write_answer(writer, due)?;
        }
        Verdict::Message(due) => {
            write!(writer, " expected")?;
            write_message(writer, due)?;
        }
    }
    write!(writer, ", got")?;
    match entry {
        Entry::Answered { answer, .. } | Entry::Replied { answer, .. } => {
            write_answer(writer, answer)
        }
        Entry::Delivered { message, .. } => write_message(writer, message),
        Entry::Asked { .. } | Entry::GivenUp { .. } => write!(writer, " a command"),
        Entry::Told { report } => {
            write!(writer, " ")?;
            write_report(writer, *report)
        }
    }
}

/// Writes what the hardware told, as the line of a record has it.
pub(crate) fn write_report<W: Write>(writer: &mut W, report: Report) -> io::Result<()> {
    write!(writer, "{}", PlainStep(&Step::Report { report }))
}

/// What an entry needs so that the platform can take what the hardware told.
pub(crate) fn wanted_of(entry: &Entry) -> &'static str {
    match entry {
        Entry::Told { report } => match report {
            Report::Changed(Effect::State { .. }) => "a power domain of the board, and ON or OFF",
            Report::Changed(_) => "a clock of the board",
            Report::First(_) => "the place of a pending set, counted from 0",
            Report::Settled { .. } => "a free clock with a pending set",
        },
        _ => "no report",
    }
}

/// Writes a message of the platform, its fields first.
fn write_message<W: Write>(writer: &mut W, message: &Message) -> io::Result<()> {
    write_message_fields(writer, message)?;
    write_message_text(writer, message)
}

/// Writes an answer; a reply with the name of the status that it begins with, if that is one, and
/// its fields, if that is SUCCESS.
fn write_answer<W: Write>(writer: &mut W, answer: &Answer) -> io::Result<()> {
    match answer {
        Answer::Reply(message) => {
            if let Some(status) = status_of_reply(message) {
                write!(writer, " {}", status.name())?;
                if status == Status::Success {
                    write_reply_fields(writer, message)?;
                }
            }
            write_message_text(writer, message)
        }
        Answer::Released => write!(writer, " released"),
        Answer::ChannelError => write!(writer, " error"),
    }
}

/// The status that a reply begins with, if it begins with one.
pub(crate) fn status_of_reply(reply: &Message) -> Option<Status> {
    match reply.payload.as_slice() {
        [word, ..] => Status::of_word(*word),
        [] => None,
    }
}
