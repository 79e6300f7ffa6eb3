//! A report as JSON, an object a line. No text in it comes from the record but numbers.
use crate::checked::Checked;
use crate::counts::Counts;
use crate::entry_name::entry_name;
use crate::finding::Finding;
use crate::judged::Judged;
use crate::note::{Lost, Note, NoteKind};
use crate::reasons::{status_of_reply, wanted_of, write_report};
use crate::report::Help;
use crate::trace_time::TraceTime;
use scmi_codec::{Answer, Message};
use scmi_judge::{Entry, Verdict};
use std::io;
use std::io::Write;

/// Writes the object of an entry.
pub(crate) fn write_json_entry<W: Write>(
    writer: &mut W,
    one: &Judged,
    finding: Finding,
    help: &Help,
    time: Option<TraceTime>,
) -> io::Result<()> {
    write_place(writer, one.line, time)?;
    write!(writer, ",\"found\":\"{}\"", finding_word(finding))?;
    if let Some(name) = entry_name(&one.entry) {
        write!(writer, ",\"message\":\"{name}\"")?;
    }
    if let Finding::Own(rule) = finding {
        write!(writer, ",\"rule\":\"{}\"", rule.name())?;
    }
    if !matches!(finding, Finding::Same) {
        write_reasons(writer, one)?;
    }
    if matches!(finding, Finding::Differs) {
        write_help(writer, help)?;
    }
    writeln!(writer, "}}")
}

/// Writes the begin of an object: the line, and its time, if that is known.
fn write_place<W: Write>(writer: &mut W, line: u32, time: Option<TraceTime>) -> io::Result<()> {
    write!(writer, "{{\"line\":{line}")?;
    match time {
        Some(time) => {
            write!(writer, ",\"time\":\"")?;
            time.write(writer)?;
            write!(writer, "\"")
        }
        None => Ok(()),
    }
}

fn finding_word(finding: Finding) -> &'static str {
    match finding {
        Finding::Same => "same",
        Finding::Own(_) => "own",
        Finding::Differs => "differs",
    }
}

/// Writes what was expected and what it got.
fn write_reasons<W: Write>(writer: &mut W, one: &Judged) -> io::Result<()> {
    write!(writer, ",\"expected\":")?;
    match &one.verdict {
        Verdict::Answer(expected) => write_answer(writer, expected)?,
        Verdict::Message(expected) => write_words(writer, expected)?,
        Verdict::NoReport => write!(writer, "\"{}\"", wanted_of(&one.entry))?,
        Verdict::Same | Verdict::NoAgent | Verdict::NoMessage => write!(writer, "null")?,
    }
    write!(writer, ",\"got\":")?;
    match &one.entry {
        Entry::Answered { answer, .. } | Entry::Replied { answer, .. } => {
            write_answer(writer, answer)
        }
        Entry::Delivered { message, .. } => write_words(writer, message),
        Entry::Asked { .. } | Entry::GivenUp { .. } => write!(writer, "null"),
        Entry::Told { report } => {
            write!(writer, "\"")?;
            write_report(writer, *report)?;
            write!(writer, "\"")
        }
    }
}

/// Writes the check that decides, the line that set the thing, and the one that would explain it.
fn write_help<W: Write>(writer: &mut W, help: &Help) -> io::Result<()> {
    if let Some(word) = help.by {
        write!(writer, ",\"by\":\"{word}\"")?;
    }
    if let Some(line) = help.set {
        write!(writer, ",\"set\":{line}")?;
    }
    if let Some(line) = help.unless {
        write!(writer, ",\"unless\":{line}")?;
    }
    Ok(())
}

fn write_answer<W: Write>(writer: &mut W, answer: &Answer) -> io::Result<()> {
    match answer {
        Answer::Reply(message) => {
            write!(writer, "{{")?;
            if let Some(status) = status_of_reply(message) {
                write!(writer, "\"status\":\"{}\",", status.name())?;
            }
            write!(writer, "\"words\":")?;
            write_words(writer, message)?;
            write!(writer, "}}")
        }
        Answer::Released => write!(writer, "\"released\""),
        Answer::ChannelError => write!(writer, "\"error\""),
    }
}

/// Writes the header word and the payload words.
fn write_words<W: Write>(writer: &mut W, message: &Message) -> io::Result<()> {
    write!(writer, "[{}", message.header.pack())?;
    'words: for word in message.payload.as_slice() {
        write!(writer, ",{word}")?;
    }
    write!(writer, "]")
}

/// Writes the object of a note.
pub(crate) fn write_json_note<W: Write>(
    writer: &mut W,
    note: &Note,
    time: Option<TraceTime>,
) -> io::Result<()> {
    write_place(writer, note.line, time)?;
    write!(writer, ",\"found\":")?;
    match note.kind {
        NoteKind::Unanswered => write!(writer, "\"unanswered\"")?,
        NoteKind::Unmatched => write!(writer, "\"unmatched\"")?,
        NoteKind::Lost(Lost::Events(events)) => write!(writer, "\"lost\",\"events\":{events}")?,
        NoteKind::Lost(Lost::Unknown) => write!(writer, "\"lost\"")?,
    }
    writeln!(writer, "}}")
}

/// Writes an object if the check ended before the record, and the object that counts.
pub(crate) fn write_json_end<W: Write>(
    writer: &mut W,
    counts: &Counts,
    checked: &Checked,
) -> io::Result<()> {
    if let Some(line) = checked.unsure {
        writeln!(writer, "{{\"line\":{line},\"found\":\"unsure\"}}")?;
    }
    write!(
        writer,
        "{{\"same\":{},\"own\":{},\"differ\":{}",
        counts.same, counts.own, counts.differ
    )?;
    write!(
        writer,
        ",\"unanswered\":{},\"unmatched\":{}",
        counts.unanswered, counts.unmatched
    )?;
    write!(writer, ",\"skipped\":{},\"protocols\":[", checked.skipped)?;
    let mut before = "";
    'protocols: for protocol in &checked.protocols {
        write!(writer, "{before}{protocol}")?;
        before = ",";
    }
    writeln!(writer, "]}}")
}
