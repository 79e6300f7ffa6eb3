//! Lines that are not of a board.

use crate::explanation::{Cause, What, plain};
use crate::fit::{Fit, begins_as, fit_of, fits_well, word_of};
use crate::forms::{BOARD_LINES, Form, HEADINGS, ORDERS, SCRIPT_LINES, lines_behind, rows};
use crate::mode::is_mode;
use crate::other_file::slip_of_other_file;
use crate::piece::Piece;
use crate::rows::Rows;
use crate::sentence::{Sentence, Slip};
use crate::slip::{slip_of_bytes, slip_of_other_bytes, slip_of_word};
use crate::text::{begins_with, behind_first, first_line, line_at, second_number};
use scmi_board::is_significant;
use std::alloc::Global;

/// What is said of a line after what was kept of the input.
pub(crate) const NOT_KEPT: &str =
    "the line is after the first 1,048,576 bytes, which are all that is kept for explanations";

const NO_END: &str = "the last line of the board, end, is missing";

const ROW_BEHIND: &str =
    "lines channel, keep, deny, absent and free come after all other lines, right before end";

/// What is wrong with the line of a number, which is not one of a board, where one is required.
pub(crate) fn board_cause(alloc: Global, input: &[u8], number: u32) -> Cause<'_> {
    if number <= 1 {
        return plain(
            "the board is missing: after the mode comes \"board VENDOR SUBVENDOR VERSION TRUSTED\", \
             and its lines",
        );
    }
    let Some(line) = line_at(input, number) else {
        return plain(NOT_KEPT);
    };
    if !is_significant(line) {
        return plain(NO_END);
    }
    let board = behind_first(input);
    if is_heading(board, number) {
        return heading_cause(alloc, board, line);
    }
    if begins_as(lines_behind(), line) {
        return line_behind_cause(input, line, number);
    }
    if takes_lines_behind(input) && is_row_behind(board, line, number) {
        return plain(ROW_BEHIND);
    }
    row_cause(alloc, board, line, forms_of(input))
}

/// Whether the boards of an input may have lines behind their rows, by its mode.
fn takes_lines_behind(input: &[u8]) -> bool {
    begins_with(first_line(input), "hardware")
}

/// The lines of an input's board.
fn forms_of(input: &[u8]) -> &'static [Form] {
    if takes_lines_behind(input) {
        &BOARD_LINES
    } else {
        rows()
    }
}

/// What is said of a line that is not one of these.
fn no_row<'a>(line: &'a [u8], forms: &'static [Form]) -> What<'a> {
    What::Said(Sentence::quoting(
        "unknown board line %; expected %",
        line,
        &[Piece::Quoted, Piece::FirstWord(forms)],
    ))
}

/// What is wrong with the line of a number that begins as those behind the rows.
fn line_behind_cause<'a>(input: &'a [u8], line: &'a [u8], number: u32) -> Cause<'a> {
    if !takes_lines_behind(input) {
        let slip = Sentence::of("it is a line of the modes hardware");
        return (no_row(line, rows()), Some(slip));
    }
    let slip = slip_of_bytes(line);
    if slip.is_some() {
        return (no_row(line, &BOARD_LINES), slip);
    }
    let board = behind_first(input);
    if let Fit::Until(fault) = fit_of(lines_behind(), line, board) {
        return (What::Item(fault), slip_of_other_bytes(line));
    }
    if is_out_of_order(board, line, number) {
        return plain("lines for channels come in rising order of agents, once for an agent");
    }
    // What it names is on the board, in a row after it.
    plain(ROW_BEHIND)
}

/// Whether the line of a number is for the channels of an agent, and one before it is for those of
/// this agent or a later one.
fn is_out_of_order(board: &[u8], line: &[u8], number: u32) -> bool {
    let agent = second_number(line).unwrap_or(0);
    begins_with(line, "channel")
        && Rows::of_board(board).any(|row| {
            row.number < number
                && begins_with(row.text, "channel")
                && second_number(row.text).unwrap_or(0) >= agent
        })
}

/// Whether the line of a number is a row, and comes after one of those behind the rows.
fn is_row_behind(board: &[u8], line: &[u8], number: u32) -> bool {
    fits_well(rows(), line, board)
        && Rows::of_board(board).any(|row| row.number < number
            && begins_as(lines_behind(), row.text))
}

/// Whether the line of a number is the first one of the board.
fn is_heading(board: &[u8], number: u32) -> bool {
    Rows::of_board(board)
        .next()
        .is_some_and(|row| row.number == number)
}

fn heading_cause<'a>(alloc: Global, board: &[u8], line: &'a [u8]) -> Cause<'a> {
    let no_heading = What::Said(Sentence::quoting(
        "a board starts with \"board VENDOR SUBVENDOR VERSION TRUSTED\"; found %",
        line,
        &[Piece::Quoted],
    ));
    let slip = slip_of_bytes(line);
    if slip.is_some() {
        return (no_heading, slip);
    }
    match fit_of(&HEADINGS, line, board) {
        Fit::Until(fault) => return (What::Item(fault), None),
        Fit::Well => return plain(NO_END),
        Fit::Unknown => {}
    }
    let slip = if is_mode(line) {
        Some(Sentence::of("a mode belongs in line 1 of a script; a board has none"))
    } else {
        slip_of_other_file(line).or(slip_of_word(alloc, &HEADINGS, line))
    };
    (no_heading, slip)
}

fn row_cause<'a>(alloc: Global, board: &[u8], line: &'a [u8], forms: &'static [Form]) -> Cause<'a> {
    let slip = slip_of_bytes(line);
    if slip.is_some() {
        return (no_row(line, forms), slip);
    }
    match fit_of(rows(), line, board) {
        Fit::Until(fault) => return (What::Item(fault), slip_of_other_bytes(line)),
        Fit::Well => return plain(NO_END),
        Fit::Unknown => {}
    }
    let slip = slip_of_step(line).or(slip_of_word(alloc, forms, line));
    (no_row(line, forms), slip)
}

/// The slip of a line that is a step, or a second heading.
fn slip_of_step(line: &[u8]) -> Option<Slip> {
    if begins_as(&HEADINGS, line) {
        return Some(Sentence::of("a board has one line \"board\""));
    }
    let word = word_of(&SCRIPT_LINES, line).or(word_of(&ORDERS, line))?;
    Some(Sentence::filled(
        "\"%\" begins a line of a script; is the line \"end\" missing before it?",
        &[Piece::Word(word)],
    ))
}
