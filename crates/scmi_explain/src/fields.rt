//! What is wrong with an item of a line.

use crate::numbers::{BYTE, RATE, WORD, Width};
use crate::piece::Piece;
use crate::rows::count_of;
use crate::sentence::Sentence;
use crate::text::is_comma;
use crate::words::is_between_words;
use scmi_board::{byte, word};
use scmi_codec::{BASE_PROTOCOL, CLOCK_PROTOCOL, Fault, POWER_PROTOCOL, is_channel_size};
use scmi_plan::{DEVICES, PENDING_SETS, PROTOCOLS};
use std::str::from_utf8;

type Wrong = Sentence<'static>;

/// What is wrong with an item where a form has this one, behind another item of the line, on this
/// board or in a script of it.
pub(crate) fn item_wrong(
    field: &'static str,
    before: &[u8],
    item: &[u8],
    board: &[u8],
) -> Option<Wrong> {
    match field {
        "NAME" | "VENDOR" | "SUBVENDOR" => unless(from_utf8(item).is_ok(), "is not UTF-8"),
        "KINDS" => unless(
            are_kinds(item),
            "is not \"-\" or some of s, a and n, each at most once",
        ),
        "RATE" => number_wrong(item, &RATE),
        "R,R,.." => rates_wrong(item),
        "D,D,..|-" | "C,C,..|-" => places_wrong(item),
        "P,P,.." => unless(
            are_protocols(item),
            "is not 1 to 16 ids of protocols from 0x11 to 0xff, each above the one before, with \
             commas between them",
        ),
        "STATUS" if Fault::of_name(item).is_none() => {
            Some(Sentence::filled("is not %", &[Piece::Status]))
        }
        "STATUS" => None,
        "P" | "M" => number_wrong(item, &BYTE),
        _ if field.starts_with(is_small) => words_wrong(field, item),
        _ => match word(item) {
            Some(value) => value_wrong(field, before, value, board),
            None => number_wrong(item, &WORD),
        },
    }
}

fn is_small(letter: char) -> bool {
    letter.is_ascii_lowercase()
}

fn unless(is_right: bool, text: &'static str) -> Option<Wrong> {
    (!is_right).then_some(Sentence::of(text))
}

fn number_wrong(item: &[u8], width: &Width) -> Option<Wrong> {
    let fault = width.fault_of(item)?;
    Some(Sentence::of(fault))
}

/// What is wrong with an item where a form has these words.
fn words_wrong(field: &'static str, item: &[u8]) -> Option<Wrong> {
    for word in field.split(is_between_words) {
        if word.as_bytes() == item {
            return None;
        }
        if field.contains('/') {
            break;
        }
    }
    Some(Sentence::filled("is not %", &[Piece::Either(field)]))
}

/// What is wrong with the value of a number.
fn value_wrong(field: &'static str, before: &[u8], value: u32, board: &[u8]) -> Option<Wrong> {
    match field {
        "A" | "AGENT" => agent_wrong(value, board),
        "DEVICE" => place_wrong(value, "device", board),
        "N" => match before {
            b"pending" => unless(is_share(value), "is not from 1 to 8"),
            b"domain" => place_wrong(value, "domain", board),
            _ => place_wrong(value, "clock", board),
        },
        "BYTES" => unless(
            is_channel_size(value as usize),
            "is not from 60 to 284, in steps of 4",
        ),
        "[PROTOCOL]" => unless(
            value == u32::from(POWER_PROTOCOL) || value == u32::from(CLOCK_PROTOCOL),
            "is not 0x11 (power domains) or 0x14 (clocks)",
        ),
        _ => None,
    }
}

/// Each kind is there once if as many kinds are there as bytes.
fn are_kinds(item: &[u8]) -> bool {
    let kinds = b"san".iter().filter(|kind| item.contains(*kind)).count();
    kinds == item.len() || item == b"-".as_slice()
}

fn rates_wrong(item: &[u8]) -> Option<Wrong> {
    for rate in item.split(is_comma) {
        if let Some(fault) = RATE.fault_of(rate) {
            return Some(Sentence::filled("has a rate that %", &[Piece::Word(fault)]));
        }
    }
    None
}

fn are_protocols(item: &[u8]) -> bool {
    let mut last = BASE_PROTOCOL;
    for part in item.split(is_comma) {
        match byte(part) {
            Some(id) if id > last => last = id,
            _ => return false,
        }
    }
    item.split(is_comma).count() <= PROTOCOLS
}

fn places_wrong(item: &[u8]) -> Option<Wrong> {
    if item == b"-".as_slice() {
        return None;
    }
    let mut seen = 0u32;
    for part in item.split(is_comma) {
        let bit = bit_of(part);
        if bit == 0 {
            return Some(Sentence::of(
                "is not \"-\" or numbers from 0 to 31 with commas between them",
            ));
        }
        if seen & bit != 0 {
            return Some(Sentence::of("has a number twice"));
        }
        seen |= bit;
    }
    None
}

/// The bit of a place from 0 to 31, and 0 of anything else.
fn bit_of(part: &[u8]) -> u32 {
    match byte(part) {
        Some(place) => 1u32.checked_shl(u32::from(place)).unwrap_or(0),
        None => 0,
    }
}

fn agent_wrong(agent: u32, board: &[u8]) -> Option<Wrong> {
    if agent == 0 {
        return Some(Sentence::of("is not an agent: they are numbered from 1"));
    }
    let agents = count_of(board, "agent");
    if agent <= agents {
        return None;
    }
    Some(match agents {
        1 => Sentence::of("is not an agent: the board has 1 agent"),
        _ => Sentence::filled(
            "is not an agent: the board has % agents",
            &[Piece::Number(u64::from(agents))],
        ),
    })
}

fn place_wrong(number: u32, kind: &'static str, board: &[u8]) -> Option<Wrong> {
    // A line that denies can't name more devices than a board may have.
    let count = count_of(board, kind).min(DEVICES as u32);
    (number >= count).then_some(Sentence::filled(
        "is not a %: the board has %",
        &[Piece::Word(kind), Piece::Numbered(kind, count)],
    ))
}

fn is_share(sets: u32) -> bool {
    sets != 0 && sets <= PENDING_SETS as u32
}
