//! The protocols of the profile, a row each: the one place where a protocol's id, short name,
//! version and messages stand together. Code looks them up, and definitions cite them.
ghost use Rattle.std.specs.Prelude.{◌≡◌, map};
ghost use Rattle.std.specs.Option.{option_map};
ghost use Rattle.scmi_codec.specs.Listing.{protocol_in, protocol_row, protocol_said};

use crate::base_command::{BASE_MESSAGES, BASE_PROTOCOL, BASE_VERSION};
use crate::clock_command::{CLOCK_MESSAGES, CLOCK_PROTOCOL, CLOCK_VERSION};
use crate::messages::HeldRow;
use crate::power_command::{POWER_MESSAGES, POWER_PROTOCOL, POWER_VERSION};

/// A protocol: its id, its short name, its version (the upper half major, the lower minor), and its
/// messages.
#[derive(Clone, Copy)]
pub struct ProtocolRow<N, M> {
    pub id: u8,
    pub name: N,
    pub version: u32,
    pub messages: M,
}

/// A row of the table.
pub type HeldProtocol = ProtocolRow<&'static str, &'static [HeldRow]>;

/// The protocols, whose ids rise.
pub const PROTOCOLS: [HeldProtocol; 3] = [
    ProtocolRow {
        id: BASE_PROTOCOL,
        name: "base",
        version: BASE_VERSION,
        messages: &BASE_MESSAGES,
    },
    ProtocolRow {
        id: POWER_PROTOCOL,
        name: "power",
        version: POWER_VERSION,
        messages: &POWER_MESSAGES,
    },
    ProtocolRow {
        id: CLOCK_PROTOCOL,
        name: "clock",
        version: CLOCK_VERSION,
        messages: &CLOCK_MESSAGES,
    },
];

/// The row of a protocol; `None` if it is not of the profile.
pub fn protocol_row(id: u8) -> Option<HeldProtocol>
    ensures { option_map protocol_said result ≡ protocol_row id }
{
    protocol_in(&PROTOCOLS, id)
}

/// The first row of an id.
fn protocol_in(mut rows: &[HeldProtocol], id: u8) -> Option<HeldProtocol>
    ensures { option_map protocol_said result ≡ protocol_in id (map protocol_said rows.entry.now) }
{
    while let [row, rest @ ..] = rows {
        if row.id == id {
            return Some(*row);
        }
        rows = rest;
    }
    None
}
