//! Lines of other files than the one that is expected.

use crate::fit::begins_as;
use crate::forms::steps;
use crate::sentence::{Sentence, Slip};
use crate::text::{are_hexadecimal, first_word, is_space};

/// The item of a line of Linux's ftrace that shows a message.
const EVENT: &[u8] = b"scmi_msg_dump:";

/// The fewest digits of an address at the start of a row without a colon.
const ADDRESS_DIGITS: usize = 7;

/// The slip of a line of a record, of what a run writes, or of a dump.
pub(crate) fn slip_of_other_file(line: &[u8]) -> Option<Slip> {
    let text = match line {
        _ if is_of_record(line) => {
            "it is a line of a record, which scmi check takes after its board, or of what a run \
             writes"
        }
        _ if begins_with_address(line) => "it is a row of a dump, which scmi decode takes",
        _ => return None,
    };
    Some(Sentence::of(text))
}

/// Whether a line looks like one of a record, or one that a run writes: it begins with an agent, or
/// with a word of a step, or is one of a trace.
pub(crate) fn is_of_record(line: &[u8]) -> bool {
    matches!(line, [digit, b' ', ..] if digit.is_ascii_digit())
        || begins_as(steps(), line)
        || line.split(is_space).any(|item| item == EVENT)
}

/// Whether a line begins as a row of a dump.
fn begins_with_address(line: &[u8]) -> bool {
    let word = first_word(line);
    let (address, fewest) = match word {
        [address @ .., b':'] => (address, 1),
        _ => (word, ADDRESS_DIGITS),
    };
    let digits = address.strip_prefix(b"0x".as_slice()).unwrap_or(address);
    digits.len() >= fewest && are_hexadecimal(digits)
}
