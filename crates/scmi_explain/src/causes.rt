//! From a fault to what is wrong.
ghost use Rattle.std.specs.Prelude.{◌≡◌, Some, IfSome};
ghost use Rattle.scmi_explain.specs.Explain.{line_of};

use crate::board::board_cause;
use crate::dumps::dumps_cause;
use crate::explanation::{Cause, Explanation, What, at, plain};
use crate::fault::Fault;
use crate::mode::{Expected, mode_cause};
use crate::piece::Piece;
use crate::plan::plan_explanation;
use crate::rows::Rows;
use crate::script::script_cause;
use crate::sentence::Sentence;
use crate::size::size_cause;
use crate::slip::slip_of_bytes;
use crate::text::behind_first;
use std::alloc::Global;

/// What is wrong with an input that a program refused with this fault, of which the first bytes are
/// given, in whole lines. When out of memory, a likely word may be left out.
pub fn explain(alloc: Global, expected: Expected, input: &[u8], fault: Fault) -> Explanation<'_>
    ensures line { IfSome (line_of fault) (λ line. result.line ≡ Some line) }
{
    match fault {
        Fault::Mode => at(Some(1), mode_cause(alloc, expected, input)),
        Fault::Board(line) => at(Some(line), board_cause(alloc, input, line)),
        Fault::Script(line) => at(Some(line), script_cause(alloc, input, line)),
        Fault::Plan(rule) => plan_explanation(input, rule),
        Fault::Area if expected == Expected::Dumps => at(None, dumps_cause(input)),
        Fault::Area => area_explanation(input),
        _ => at(None, run_cause(expected, input, fault)),
    }
}

/// What is wrong if an input was not read to its end, or its run ended early.
fn run_cause(expected: Expected, input: &[u8], fault: Fault) -> Cause<'_> {
    let text = match fault {
        Fault::Size => return size_cause(expected, input),
        Fault::Read => "the input could not be read",
        Fault::Limit => {
            "a script reached a limit: its reply, message or state did not come in as many polls \
             as docs/SCRIPTS.md says"
        }
        _ => "out of memory",
    };
    plain(text)
}

/// What is wrong with an input of the mode `once` that is not one line of an area's digits.
fn area_explanation(input: &[u8]) -> Explanation<'_> {
    let mut rows = Rows::all(behind_first(input));
    let Some(area) = rows.next() else {
        return at(
            None,
            plain("the area is missing: after the mode comes a line of 568 hexadecimal digits"),
        );
    };
    if let Some(row) = rows.next() {
        return at(
            Some(row.number),
            plain("once takes one area, and this is a second line"),
        );
    }
    at(Some(area.number), digits_cause(area.text))
}

/// What is wrong with a line that has to be the digits of an area.
fn digits_cause(line: &[u8]) -> Cause<'_> {
    let slip = slip_of_bytes(line);
    let Some(place) = line.iter().position(|byte| !byte.is_ascii_hexdigit()) else {
        let digits = Piece::Number(line.len() as u64);
        let text = "an area has 568 hexadecimal digits, and this line has %";
        return (What::Said(Sentence::filled(text, &[digits])), slip);
    };
    let sentence = Sentence::quoting(
        "byte %, %, is not a hexadecimal digit",
        &line[place..place + 1],
        &[Piece::Number((place + 1) as u64), Piece::Quoted],
    );
    (What::Said(sentence), slip)
}
