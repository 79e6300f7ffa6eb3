//! What a record has that is not judged, as lines of a report have it.
use crate::checked::Checked;
use crate::counts::Counts;
use crate::note::{Lost, Note, NoteKind};
use crate::report::Style;
use crate::trace_time::{TraceTime, write_time};
use std::io;
use std::io::Write;

const UNANSWERED: &str = "unanswered";

const UNMATCHED: &str = "unmatched";

/// Writes the line of a note, which ends with its time, if that is known. For a test system it is a
/// comment.
pub(crate) fn write_note<W: Write>(
    writer: &mut W,
    style: Style,
    note: &Note,
    time: Option<TraceTime>,
) -> io::Result<()> {
    write!(writer, "{}{} ", mark(style), note.line)?;
    match note.kind {
        NoteKind::Unanswered => write!(writer, "{UNANSWERED}")?,
        NoteKind::Unmatched => write!(writer, "{UNMATCHED}")?,
        NoteKind::Lost(Lost::Events(events)) => write!(writer, "lost {events} events")?,
        NoteKind::Lost(Lost::Unknown) => write!(writer, "lost events")?,
    }
    write_time(writer, time)?;
    writeln!(writer)
}

/// Writes a line if the check ended before the record.
pub(crate) fn write_unsure<W: Write>(
    writer: &mut W,
    style: Style,
    checked: &Checked,
) -> io::Result<()> {
    match checked.unsure {
        Some(line) => writeln!(
            writer,
            "{}{line} unsure, and judged no further",
            mark(style)
        ),
        None => Ok(()),
    }
}

/// What is written before the number of the line.
fn mark(style: Style) -> &'static str {
    match style {
        Style::Tap => "# line ",
        Style::Plain | Style::Json => "",
    }
}

/// Writes how much is left out, each number only if it is not 0, and of which protocols.
pub(crate) fn write_left<W: Write>(
    writer: &mut W,
    counts: &Counts,
    checked: &Checked,
) -> io::Result<()> {
    write_count(writer, counts.unanswered, UNANSWERED)?;
    write_count(writer, counts.unmatched, UNMATCHED)?;
    let [first, others @ ..] = checked.protocols.as_slice() else {
        return Ok(());
    };
    let plural = if others.is_empty() { "" } else { "s" };
    let skipped = checked.skipped;
    write!(
        writer,
        ", {skipped} skipped of protocol{plural} 0x{first:x}"
    )?;
    'protocols: for protocol in others {
        write!(writer, ", 0x{protocol:x}")?;
    }
    Ok(())
}

fn write_count<W: Write>(writer: &mut W, count: u64, word: &str) -> io::Result<()> {
    if count == 0 {
        return Ok(());
    }
    write!(writer, ", {count} {word}")
}
