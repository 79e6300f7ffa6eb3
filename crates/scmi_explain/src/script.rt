//! Lines that are not of a script.

use crate::board::NOT_KEPT;
use crate::explanation::{Cause, What, plain};
use crate::fit::{EXTRA, Fit, MISSING, begins_as, fit_of, fits_well};
use crate::forms::{BOARD_LINES, Form, HEADINGS, ORDERS, SCRIPT_LINES, STEPS, steps};
use crate::numbers::NO_NUMBER;
use crate::piece::Piece;
use crate::rows::Rows;
use crate::sentence::{Sentence, Slip};
use crate::slip::{slip_of_bytes, slip_of_other_bytes, slip_of_word};
use crate::text::{begins_with, behind_first, first_line, first_word, line_at, second_number};
use std::alloc::Global;

/// The lines of the scripts of the mode that is the first line.
fn forms_of(mode: &[u8]) -> &'static [Form] {
    match first_word(mode) {
        b"threads" => &ORDERS,
        b"hardware" => &SCRIPT_LINES,
        _ => steps(),
    }
}

/// What is wrong with the line of a number, which is not one of a script.
pub(crate) fn script_cause(alloc: Global, input: &[u8], number: u32) -> Cause<'_> {
    let Some(line) = line_at(input, number) else {
        return plain(NOT_KEPT);
    };
    let forms = forms_of(first_line(input));
    let no_step = What::Said(Sentence::quoting(
        "unknown line % of a script; expected one that begins with %",
        line,
        &[Piece::Quoted, Piece::FirstWord(forms)],
    ));
    let slip = slip_of_bytes(line);
    if slip.is_some() {
        return (no_step, slip);
    }
    let board = behind_first(input);
    match fit_of(forms, line, board) {
        Fit::Until(fault) => {
            let slip = slip_of_item(forms, line, board, fault.wrong.text);
            (What::Item(fault), slip.or(slip_of_other_bytes(line)))
        }
        Fit::Unknown => (no_step, slip_of_unknown(alloc, forms, line)),
        Fit::Well => (order_fault(input, line, number).unwrap_or(no_step), None),
    }
}

/// The slip of a line with an item that is not a number, or too few or too many for these scripts:
/// it may be one of other modes.
fn slip_of_item(forms: &[Form], line: &[u8], board: &[u8], wrong: &str) -> Option<Slip> {
    if wrong == NO_NUMBER && forms.len() == STEPS {
        return Some(Sentence::of("names are for the modes hardware"));
    }
    if wrong != MISSING && wrong != EXTRA {
        return None;
    }
    slip_of_modes(
        fits_well(steps(), line, board),
        fits_well(&SCRIPT_LINES, line, board),
        fits_well(&ORDERS, line, board),
    )
}

/// The slip of a line whose first word is not one of these scripts.
fn slip_of_unknown(alloc: Global, forms: &'static [Form], line: &[u8]) -> Option<Slip> {
    if begins_as(&BOARD_LINES, line) || begins_as(&HEADINGS, line) {
        return Some(Sentence::of("it belongs on the board, which ended before"));
    }
    slip_of_modes(
        begins_as(steps(), line),
        begins_as(&SCRIPT_LINES, line),
        begins_as(&ORDERS, line),
    )
    .or(slip_of_word(alloc, forms, line))
}

/// The slip of a line of the scripts of other modes.
fn slip_of_modes(is_step: bool, is_of_hardware: bool, is_order: bool) -> Option<Slip> {
    Some(Sentence::of(match (is_step, is_of_hardware, is_order) {
        (true, _, _) => "it is a line of the modes steps and hardware",
        (_, true, _) => "it is a line of the modes hardware",
        (_, _, true) => "it is a line of the modes threads",
        _ => return None,
    }))
}

/// What is wrong with the line of a number that has a form of an agent's script.
fn order_fault<'a>(input: &'a [u8], line: &'a [u8], number: u32) -> Option<What<'a>> {
    if !begins_with(line, "script") {
        let text = "% comes before the first line \"script A\", which says whose lines follow";
        return Some(What::Said(Sentence::quoting(text, line, &[Piece::Quoted])));
    }
    let agent = second_number(line);
    let begun = Rows::all(behind_first(input)).find(|row| {
        row.number < number && begins_with(row.text, "script") && second_number(row.text) == agent
    })?;
    Some(What::Said(Sentence::filled(
        "the agent has a script already, at line %",
        &[Piece::Number(u64::from(begun.number))],
    )))
}
