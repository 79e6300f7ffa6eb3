//! The check that decides a difference.
use crate::check_row::{CHECKS, LENGTH, When};
use crate::judged::Judged;
use crate::own_test::{begins_with, has_reserved_flags};
use crate::subject::answered;
use scmi_codec::{Answer, Command, Fault, Header, Message, is_listed, wanted_words};
use scmi_core::failed_response;
use scmi_judge::{Entry, Refusals, Verdict};

/// The check that fails because the hardware refused a change, if a record is checked as one of
/// hardware that refuses none.
const HARDWARE: &str = "hardware";

/// The word of the check that decides an entry with the verdict on it. `None` if no error was due,
/// and the entry is no response to a change that the hardware refused, against these refusals.
pub(crate) fn deciding_word(one: &Judged, refusals: Refusals) -> Option<&'static str> {
    match (&one.entry, &one.verdict) {
        (Entry::Delivered { message, .. }, _) => hardware_word(message, refusals),
        (_, Verdict::Answer(Answer::ChannelError)) => Some(LENGTH),
        (entry, Verdict::Answer(Answer::Reply(due))) => {
            let (command, _) = answered(entry)?;
            check_word(command, due.payload.as_slice())
        }
        _ => None,
    }
}

/// The word of a message that differs, if it says that the hardware refused a change.
fn hardware_word(message: &Message, refusals: Refusals) -> Option<&'static str> {
    match refusals {
        Refusals::None if failed_response(message.header, Fault::HardwareError) == *message => Some(
            HARDWARE,
        ),
        _ => None,
    }
}

/// The word of the first check of a command by which this payload is due.
fn check_word(command: &Message, due: &[u32]) -> Option<&'static str> {
    'rows: for row in &CHECKS {
        if begins_with(due, row.status) && is_when(row.when, command) {
            return Some(row.word);
        }
    }
    None
}

/// Whether rows of this kind belong to a command.
fn is_when(when: When, command: &Message) -> bool {
    let header = &command.header;
    match when {
        When::OtherType => header.kind() != 0,
        When::UnknownProtocol => !is_listed(header.protocol(), 0),
        When::UnknownMessage => !is_listed(header.protocol(), u32::from(header.id())),
        When::OtherSize => command.payload.len() != wanted_words(header.protocol(), header.id()),
        When::Command(protocol, id) => is_command(protocol, id, header),
        When::ReservedFlags(protocol, id) => {
            is_command(protocol, id, header) && has_reserved_flags(&Command::read(command))
        }
    }
}

fn is_command(protocol: u8, id: u8, header: &Header) -> bool {
    header.protocol() == protocol && header.id() == id
}
