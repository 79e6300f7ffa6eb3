//! The line of a board that breaks a rule.

use crate::explanation::{Cause, Explanation, What, at, said};
use crate::piece::Piece;
use crate::rates::rates_fault;
use crate::rows::{Rows, count_of, line_behind};
use crate::sentence::Sentence;
use crate::slip::slip_of_other_bytes;
use crate::text::{begins_with, behind_first, first_word, is_comma, item_at};
use scmi_board::{byte, word};
use scmi_codec::Name;
use scmi_plan::{AGENTS, CLOCKS, DEVICES, DOMAINS};
use std::str::from_utf8;

/// What is wrong with a board that breaks the rule of this number.
pub(crate) fn plan_explanation(input: &[u8], rule: u8) -> Explanation<'_> {
    let board = behind_first(input);
    let found = match rule {
        1 => count_explanation(board),
        _ => row_explanation(board, rule),
    };
    if let Some(found) = found {
        return found;
    }
    let rule = Piece::Number(u64::from(rule));
    let text = "the board breaks rule % of docs/SCRIPTS.md, \"Faults\"";
    at(None, said(Sentence::filled(text, &[rule])))
}

/// How many of each kind a board may have.
const LIMITS: [(&str, usize); 4] = [
    ("agent", AGENTS),
    ("domain", DOMAINS),
    ("clock", CLOCKS),
    ("device", DEVICES),
];

fn count_explanation(board: &[u8]) -> Option<Explanation<'_>> {
    for (kind, most) in LIMITS {
        let count = count_of(board, kind);
        if count > most as u32 || count == 0 && kind == "agent" {
            let line = line_behind(board, kind, most as u32);
            return Some(at(line, said(count_fault(kind, count, most))));
        }
    }
    None
}

fn count_fault(kind: &'static str, count: u32, most: usize) -> Sentence<'static> {
    let text = match kind {
        "agent" => "% %s; a board has 1 to %",
        _ => "% %s; a board has at most %",
    };
    Sentence::filled(
        text,
        &[
            Piece::Number(u64::from(count)),
            Piece::Word(kind),
            Piece::Number(most as u64),
        ],
    )
}

/// The first row that breaks a rule about rows.
fn row_explanation(board: &[u8], rule: u8) -> Option<Explanation<'_>> {
    let mut devices = 0u32;
    for row in Rows::of_board(board) {
        if let Some(cause) = row_cause(board, row.text, rule, devices) {
            return Some(at(Some(row.number), cause));
        }
        devices = devices.saturating_add(u32::from(begins_with(row.text, "device")));
    }
    None
}

/// What is wrong with a row of a board, behind this many devices, by a rule.
fn row_cause<'a>(board: &[u8], row: &'a [u8], rule: u8, devices: u32) -> Option<Cause<'a>> {
    let fault = match (rule, first_word(row)) {
        (2, _) => return name_cause(row),
        (3, b"clock") => rates_fault(row),
        (4, b"device") => held_beyond(board, row, devices, 1).or(held_beyond(
            board, row, devices, 2,
        )),
        (5, b"board") => trusted_fault(board, row),
        _ => None,
    };
    Some(said(fault?))
}

fn name_cause(row: &[u8]) -> Option<Cause<'_>> {
    let name = bad_name(row)?;
    let sentence = Sentence::quoting(
        "the name % has % bytes; a name has 1 to 15, each 0x21 to 0x7e",
        name,
        &[Piece::Quoted, Piece::Number(name.len() as u64)],
    );
    Some((What::Said(sentence), slip_of_other_bytes(name)))
}

/// The first name of a row that is not a name.
fn bad_name(row: &[u8]) -> Option<&[u8]> {
    let names = match first_word(row) {
        b"device" => 0,
        b"board" => 2,
        _ => 1,
    };
    for before in 0..names {
        let name = item_at(row, before + 1)?;
        if !is_name(name) {
            return Some(name);
        }
    }
    None
}

fn is_name(item: &[u8]) -> bool {
    from_utf8(item).is_ok_and(|text| Name::new(text).is_some())
}

/// The first number that a board lacks in the list at this place of a device's row, of domains or
/// of clocks.
fn held_beyond(board: &[u8], row: &[u8], device: u32, place: u32) -> Option<Sentence<'static>> {
    let kind = if place == 1 { "domain" } else { "clock" };
    let count = count_of(board, kind);
    for part in item_at(row, place)?.split(is_comma) {
        if let Some(number) = byte(part) {
            if u32::from(number) >= count {
                return Some(Sentence::filled(
                    "device % holds % %; the board has %",
                    &[
                        Piece::Number(u64::from(device)),
                        Piece::Word(kind),
                        Piece::Number(u64::from(number)),
                        Piece::Numbered(kind, count),
                    ],
                ));
            }
        }
    }
    None
}

fn trusted_fault(board: &[u8], heading: &[u8]) -> Option<Sentence<'static>> {
    let trusted = word(item_at(heading, 4)?)?;
    let agents = count_of(board, "agent");
    let text = match (trusted, agents) {
        (0, _) => "the trusted agent % does not exist; agents are numbered from 1",
        (_, 1) => "the trusted agent % does not exist (% agent)",
        _ => "the trusted agent % does not exist (% agents)",
    };
    Some(Sentence::filled(
        text,
        &[
            Piece::Number(u64::from(trusted)),
            Piece::Number(u64::from(agents)),
        ],
    ))
}
