//! A report, as it is written. Its words are compared in files.
ghost use Rattle.std.specs.Prelude.{◌≡◌};

use crate::check_error::CheckError;
use crate::checked::Checked;
use crate::counts::Counts;
use crate::deciding::deciding_word;
use crate::entry_name::entry_name;
use crate::fields_text::write_command_fields;
use crate::finding::Finding;
use crate::json::{write_json_end, write_json_entry, write_json_note};
use crate::judged::Judged;
use crate::last_sets::LastSets;
use crate::listener::Listener;
use crate::note::{Note, NoteKind};
use crate::note_text::{write_left, write_note, write_unsure};
use crate::reasons::write_reasons;
use crate::trace_time::{TraceTime, time_in, write_time};
use scmi_judge::{Entry, Refusals};
use std::io;
use std::io::Write;

/// The form of a report.
#[derive(Clone, Copy)]
pub enum Style {
    /// A line for each entry.
    Plain,
    /// The Test Anything Protocol.
    Tap,
    /// A JSON object a line.
    Json,
}

/// What is said of a difference beside what was due and what was seen.
#[derive(Clone, Copy)]
pub(crate) struct Help {
    /// The word of the check that decides, if there is one.
    pub by: Option<&'static str>,
    /// The line that set what it is about, if there is one.
    pub set: Option<u32>,
    /// The line of the entry that would explain it, if it had been another.
    pub unless: Option<u32>,
}

/// Writes what is found of a record as it comes: a line for each entry, and one for each note of
/// what is not judged (own). The line of an entry that differs ends with the check that decides, if
/// an error was due, with the line that set what it is about, with that of an entry that would explain
/// it, if it had been another, and with its time, if it is an event of a trace.
#[derive(Drop)]
pub struct Report<'a, W: Write> {
    writer: &'a mut W,
    style: Style,
    // Which changes the hardware may have refused.
    refusals: Refusals,
    counts: Counts,
    sets: LastSets,
    // When that was of which the line tells, if it is one of a trace.
    time: Option<TraceTime>,
}

impl<'a, W: Write> Report<'a, W> {
    /// A report of which nothing is written, on a record whose hardware may have refused so much.
    pub fn new(writer: &'a mut W, style: Style, refusals: Refusals) -> Report<'a, W>
        ensures same_writer { result.writer.ghost_name ≡ writer.entry.ghost_name }
        ensures unwritten { result.writer.now ≡ writer.old }
    {
        let counts = Counts::new();
        let sets = LastSets::new();
        Report {
            writer,
            style,
            refusals,
            counts,
            sets,
            time: None,
        }
    }

    /// Writes what is known at the end: the line from which on nothing is judged, if there is one,
    /// and how many entries are the same, differ by a rule of the profile's own, and differ, with how
    /// much is left out, if anything is. The error is the writer's; some parts may then be written.
    pub fn finish(self, checked: &Checked) -> io::Result<()> {
        let Report {
            writer,
            style,
            refusals: _,
            counts,
            sets: _,
            time: _,
        } = self;
        if style == Style::Json {
            return write_json_end(writer, &counts, checked);
        }
        write_unsure(writer, style, checked)?;
        write_counts(writer, style, &counts)?;
        write_left(writer, &counts, checked)?;
        writeln!(writer)?;
        match style {
            Style::Tap => writeln!(writer, "1..{}", counts.entries()),
            Style::Plain | Style::Json => Ok(()),
        }
    }

    /// Writes an entry, and notes it for those that come.
    fn write_entry(&mut self, one: &Judged, unless: Option<u32>) -> io::Result<()> {
        let finding = one.finding();
        let help = Help {
            by: deciding_word(one, self.refusals),
            set: self.sets.line_of(one),
            unless,
        };
        self.sets.add(one);
        self.counts.add(finding);
        match self.style {
            Style::Json => write_json_entry(self.writer, one, finding, &help, self.time),
            style => write_line(self.writer, style, one, finding, &help, self.time),
        }
    }

    /// Writes a note, and counts it.
    fn write_note(&mut self, note: &Note) -> io::Result<()> {
        self.counts.note(note.kind);
        // Only such a note is of the line that was read last.
        let time = match note.kind {
            NoteKind::Unmatched => self.time,
            NoteKind::Unanswered | NoteKind::Lost(_) => None,
        };
        match self.style {
            Style::Json => write_json_note(self.writer, note, time),
            style => write_note(self.writer, style, note, time),
        }
    }
}

impl<W: Write> Listener for Report<'_, W> {
    ghost use Rattle.std.specs.Prelude.{None};

    // What is written is compared in files.
    ghost judged = { λ _. None };

    ghost noted = { λ _. None };

    fn at_line(&mut self, text: &[u8]) {
        self.time = time_in(text);
    }

    fn found(&mut self, one: &Judged, unless: Option<u32>) -> Result<(), CheckError> {
        // A command that is answered later has its line with its answer, and what the hardware told
        // has none.
        if matches!(one.finding(), Finding::Same) && !one.entry.is_from_platform() {
            self.sets.add(one);
            return Ok(());
        }
        match self.write_entry(one, unless) {
            Ok(()) => Ok(()),
            Err(_) => Err(CheckError::Write),
        }
    }

    fn left_out(&mut self, note: &Note) -> Result<(), CheckError> {
        match self.write_note(note) {
            Ok(()) => Ok(()),
            Err(_) => Err(CheckError::Write),
        }
    }
}

fn write_line<W: Write>(
    writer: &mut W,
    style: Style,
    one: &Judged,
    finding: Finding,
    help: &Help,
    time: Option<TraceTime>,
) -> io::Result<()> {
    write!(writer, "{}{}", mark(style, finding), one.line)?;
    match finding {
        Finding::Same => return writeln!(writer, " same"),
        Finding::Own(rule) => {
            write!(writer, " own {}", rule.name())?;
            write_name(writer, &one.entry)?;
            write_reasons(writer, &one.entry, &one.verdict)?;
        }
        Finding::Differs => write_difference(writer, one, help)?,
    }
    write_time(writer, time)?;
    writeln!(writer)
}

/// Writes what is behind the number of an entry that differs.
fn write_difference<W: Write>(writer: &mut W, one: &Judged, help: &Help) -> io::Result<()> {
    write!(writer, " differs")?;
    write_name(writer, &one.entry)?;
    write_reasons(writer, &one.entry, &one.verdict)?;
    if let Some(word) = help.by {
        write!(writer, " by {word}")?;
    }
    if let Some(line) = help.set {
        write!(writer, " set {line}")?;
    }
    if let Some(line) = help.unless {
        write!(writer, " unless {line}")?;
    }
    Ok(())
}

fn write_name<W: Write>(writer: &mut W, entry: &Entry) -> io::Result<()> {
    match entry_name(entry) {
        Some(name) => write!(writer, " {name}")?,
        None => {}
    }
    write_command_fields(writer, entry)
}

/// What is written before the number of the line.
fn mark(style: Style, finding: Finding) -> &'static str {
    match (style, finding) {
        (Style::Tap, Finding::Differs) => "not ok - line ",
        (Style::Tap, _) => "ok - line ",
        _ => "",
    }
}

/// Writes how many entries were found to be of each kind. For a test system it is a comment.
fn write_counts<W: Write>(writer: &mut W, style: Style, counts: &Counts) -> io::Result<()> {
    let remark = match style {
        Style::Tap => "# ",
        Style::Plain | Style::Json => "",
    };
    write!(
        writer,
        "{remark}{} same, {} own, {} differ",
        counts.same, counts.own, counts.differ
    )
}
