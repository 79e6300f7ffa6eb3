//! First lines that are no mode.

use crate::explanation::{Cause, What, said};
use crate::fit::begins_as;
use crate::forms::{HEADINGS, rows};
use crate::other_file::{is_of_record, slip_of_other_file};
use crate::piece::Piece;
use crate::rows::Rows;
use crate::sentence::{Sentence, Slip};
use crate::slip::{slip_near, slip_of_bytes, slip_of_other_bytes};
use crate::text::{are_hexadecimal, behind_first, first_line};
use scmi_board::is_significant;
use std::alloc::Global;
use std::fmt;
use std::str::from_utf8;

/// What a program was to be given.
#[derive(Clone, Copy, PartialEq, Eq)]
pub enum Expected {
    /// A mode, and what the mode reads.
    Session,
    /// A mode of one thread, a board and a script.
    Drawing,
    /// Dumps of areas, one a line.
    Dumps,
}

/// The texts of all modes that the program for people takes.
pub const MODES: [&str; 7] = [
    "once",
    "steps words",
    "steps rings",
    "threads words",
    "threads rings",
    "hardware words",
    "hardware rings",
];

/// The fewest digits of a line that may be meant as an area.
const AREA_LIKE_DIGITS: usize = 56;

/// Writes what was expected of an input.
pub(crate) fn write_wanted<W: fmt::Write>(
    f: &mut fmt::Formatter<W>,
    expected: Expected,
) -> fmt::Result {
    f.write_str(match expected {
        Expected::Drawing => {
            "line 1 must be the mode of steps, hardware or threads, such as steps words"
        }
        Expected::Dumps => "expected dumps of areas, as xxd prints them",
        Expected::Session => return write_modes(f),
    })
}

fn write_modes<W: fmt::Write>(f: &mut fmt::Formatter<W>) -> fmt::Result {
    f.write_str("line 1 must be one of")?;
    let mut before = " ";
    for mode in MODES {
        write!(f, "{before}{mode}")?;
        before = ", ";
    }
    Ok(())
}

/// What is wrong with an input that is empty.
pub(crate) fn empty_cause<'a>(expected: Expected) -> Cause<'a> {
    let wanted = [Piece::Wanted(expected)];
    said(Sentence::filled("the input is empty; %", &wanted))
}

/// What is wrong with a first line that is no mode.
pub(crate) fn mode_cause(alloc: Global, expected: Expected, input: &[u8]) -> Cause<'_> {
    if input.is_empty() {
        return empty_cause(expected);
    }
    let line = first_line(input);
    let pieces = [Piece::Wanted(expected), Piece::Quoted];
    (
        What::Said(Sentence::quoting("%; found %", line, &pieces)),
        slip_of_mode(alloc, input, line),
    )
}

/// The slip that probably caused a first line that is no mode.
fn slip_of_mode(alloc: Global, input: &[u8], line: &[u8]) -> Option<Slip> {
    if is_mode(line) {
        return Some(Sentence::of("that mode is run by scmi run, and not drawn"));
    }
    slip_of_bytes(line)
        .or(slip_of_record(input, line))
        .or(slip_of_other_input(line))
        .or(slip_of_text(alloc, line))
        .or(slip_of_other_bytes(line))
}

/// Whether a line is the text of a mode.
pub(crate) fn is_mode(line: &[u8]) -> bool {
    MODES.iter().any(|mode| mode.as_bytes() == line)
}

/// The slip of an input that begins with comments, and goes on with a line of a record.
fn slip_of_record(input: &[u8], first: &[u8]) -> Option<Slip> {
    if is_significant(first) {
        return None;
    }
    let row = Rows::all(behind_first(input)).next()?;
    is_of_record(row.text).then_some(Sentence::of(
        "a line of a record follows, which scmi check takes after its board, or of what a run \
         writes",
    ))
}

/// The slip of a line that belongs into another place, or to another program.
fn slip_of_other_input(line: &[u8]) -> Option<Slip> {
    let text = match line {
        [] | [b'#', ..] => "comments and empty lines may only follow line 1",
        [b'<', ..] => "it is a picture (SVG), or other markup",
        _ if begins_as(&HEADINGS, line) || begins_as(rows(), line) => {
            "the mode needs a line of its own before the board"
        }
        _ if is_like_area(line) => {
            "before an area comes the line \"once\"; scmi decode takes the area alone"
        }
        _ => return slip_of_other_file(line),
    };
    Some(Sentence::of(text))
}

fn is_like_area(line: &[u8]) -> bool {
    line.len() >= AREA_LIKE_DIGITS && are_hexadecimal(line)
}

/// The slip of a line that is nearly a mode.
fn slip_of_text(alloc: Global, line: &[u8]) -> Option<Slip> {
    match line {
        b"steps" | b"threads" | b"hardware" => {
            Some(Sentence::of("is \"words\" or \"rings\" missing after it?"))
        }
        _ => slip_near(alloc, &MODES, from_utf8(line).ok()?),
    }
}
