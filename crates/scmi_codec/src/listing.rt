//! What the table of messages contains about one.
ghost use Rattle.std.specs.Prelude.{◌≡◌, ◌≤◌, map, IfSome};
ghost use Rattle.std.specs.Option.{option_map, option_map_or, option_copied};
ghost use Rattle.scmi_codec.specs.Listing.{said, rows_of, row_in, listed_row, message_name, is_listed, misfit, wanted_words, words_of, size_of};

use crate::base_command::{BASE_PROTOCOL, BaseCommand};
use crate::clock_command::{CLOCK_PROTOCOL, ClockCommand};
use crate::messages::{HeldRow, Part};
use crate::power_command::{POWER_PROTOCOL, PowerCommand};
use crate::protocols::protocol_row;
use crate::status::Status;

/// The name of a message that a command of the profile has; `None` for any other.
pub fn message_name(protocol: u8, id: u8) -> Option<&'static str>
    ensures { option_copied result ≡ message_name protocol id }
{
    match listed_row(protocol, u32::from(id)) {
        Some(row) => Some(row.name),
        None => None,
    }
}

/// Whether a protocol of the profile has a message.
#[tactic(auto, unfolding(crate::specs::Listing::rows_of))]
pub fn is_listed(protocol: u8, id: u32) -> bool
    ensures { result ≡ is_listed protocol id }
{
    match protocol {
        BASE_PROTOCOL => BaseCommand::has(id),
        POWER_PROTOCOL => PowerCommand::has(id),
        CLOCK_PROTOCOL => ClockCommand::has(id),
        _ => false,
    }
}

/// The number of payload words of a command; 0 for an unknown message.
pub fn wanted_words(protocol: u8, id: u8) -> usize
    ensures { result ≡ wanted_words protocol id }
{
    match listed_row(protocol, u32::from(id)) {
        Some(row) => words_of(row.asks),
        None => 0,
    }
}

/// The status for a message that no command has: PROTOCOL_ERROR for a listed id, whose words are too
/// many or too few, else NOT_SUPPORTED.
pub(crate) fn misfit(protocol: u8, id: u8) -> Status
    ensures { result ≡ misfit protocol id }
{
    if is_listed(protocol, u32::from(id)) {
        Status::ProtocolError
    } else {
        Status::NotSupported
    }
}

/// The row of a message; `None` if no command of the profile has the id.
pub fn listed_row(protocol: u8, id: u32) -> Option<HeldRow>
    ensures row { option_map said result ≡ listed_row protocol id }
    ensures few { IfSome result (λ r. words_of r.asks.now ≤ 8) }
{
    row_in(rows_of(protocol), id)
}

/// The messages of a protocol; none of a protocol that is not of the profile.
#[tactic(auto, unfolding(crate::specs::Listing::rows_of))]
pub fn rows_of(protocol: u8) -> &'static [HeldRow]
    ensures { map said result.now ≡ rows_of protocol }
{
    let Some(row) = protocol_row(protocol) else {
        return &[];
    };
    row.messages
}

/// The first row of an id.
fn row_in(mut rows: &[HeldRow], id: u32) -> Option<HeldRow>
    ensures { option_map said result ≡ row_in id (map said rows.entry.now) }
{
    while let [row, rest @ ..] = rows {
        if u32::from(row.id) == id {
            return Some(*row);
        }
        rows = rest;
    }
    None
}

/// The number of words of parts of fixed size.
fn words_of(parts: &[Part]) -> usize
    requires { words_of parts.now ≤ 8 }
    ensures { result ≡ words_of parts.now }
{
    let mut words = 0;
    'parts: for part in parts {
        words += size_of(*part);
    }
    words
}

/// The number of words of a part of fixed size.
fn size_of(part: Part) -> usize
    ensures { result ≡ size_of part }
{
    match part {
        Part::Name => 4,
        Part::Statistics => 3,
        Part::Rate => 2,
        _ => 1,
    }
}
