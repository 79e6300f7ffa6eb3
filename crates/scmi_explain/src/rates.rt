//! What is wrong with the rates of a clock.

use crate::piece::Piece;
use crate::sentence::Sentence;
use crate::text::{is_comma, item_at};
use scmi_board::number;
use scmi_plan::RATES;

type Fault = Sentence<'static>;

/// What is wrong with the rates of a clock's line.
pub(crate) fn rates_fault(line: &[u8]) -> Option<Fault> {
    let rate = number_at(line, 3)?;
    if item_at(line, 4)? == b"list".as_slice() {
        return list_fault(rate, item_at(line, 5)?);
    }
    steps_fault(
        rate,
        number_at(line, 5)?,
        number_at(line, 6)?,
        number_at(line, 7)?,
    )
}

fn number_at(line: &[u8], place: u32) -> Option<u64> {
    number(item_at(line, place)?)
}

fn list_fault(rate: u64, list: &[u8]) -> Option<Fault> {
    let mut count = 0u64;
    let mut last = None;
    let mut is_listed = false;
    for part in list.split(is_comma) {
        let next = number(part)?;
        if let Some(last) = last {
            if next <= last {
                return Some(counted("rates must increase: % after %", [next, last, 0]));
            }
        }
        count = count.saturating_add(1);
        is_listed |= next == rate;
        last = Some(next);
    }
    if count > RATES as u64 {
        return Some(counted("% rates; a list has 1 to 64", [count, 0, 0]));
    }
    (!is_listed).then_some(counted("the initial rate % is not in the list", [rate, 0, 0]))
}

fn steps_fault(rate: u64, low: u64, high: u64, step: u64) -> Option<Fault> {
    if step == 0 {
        return Some(Sentence::of("STEP is 0"));
    }
    if low > high {
        return Some(counted("LOW (%) is above HIGH (%)", [low, high, 0]));
    }
    if (high - low) % step != 0 {
        let text = "HIGH (%) is not LOW (%) plus a multiple of STEP (%)";
        return Some(counted(text, [high, low, step]));
    }
    if rate < low || rate > high {
        let text = "the initial rate % is not from % to %";
        return Some(counted(text, [rate, low, high]));
    }
    let text = "the initial rate % is not LOW (%) plus a multiple of STEP (%)";
    ((rate - low) % step != 0).then_some(counted(text, [rate, low, step]))
}

/// A text with as many of these numbers as it has holes.
fn counted(text: &'static str, numbers: [u64; 3]) -> Fault {
    let [first, second, third] = numbers;
    Sentence::filled(
        text,
        &[
            Piece::Number(first),
            Piece::Number(second),
            Piece::Number(third),
        ],
    )
}
