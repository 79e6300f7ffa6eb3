//! The names of messages, protocols and statuses (DEN0056B).
ghost use Rattle.std.specs.Prelude.{◌≡◌};
ghost use Rattle.std.specs.Option.{option_copied, option_map};
ghost use Rattle.scmi_codec.specs.Listing.{protocol_said};
ghost use Rattle.scmi_decode.specs.Names.{status_text, protocol_text, notification_text};

use scmi_codec::{HeldProtocol, POWER_PROTOCOL, Status, protocol_row};

const POWER_STATE_CHANGED: &str = "POWER_STATE_CHANGED";

/// The name of a status.
pub fn status_name(status: Status) -> &'static str
    ensures { result.now ≡ status_text status }
{
    status.name()
}

/// The short name of a protocol of the profile; `None` for any other.
pub fn protocol_name(protocol: u8) -> Option<&'static str>
    ensures { option_copied result ≡ protocol_text protocol }
{
    name_of(protocol_row(protocol))
}

/// The name in a row, if there is one.
fn name_of(row: Option<HeldProtocol>) -> Option<&'static str>
    ensures { option_copied result ≡
        option_map (λ row. row.name) (option_map protocol_said row.entry) }
{
    match row {
        Some(row) => Some(row.name),
        None => None,
    }
}

/// The name of a notification of the profile; `None` for any other.
pub fn notification_name(protocol: u8, id: u8) -> Option<&'static str>
    ensures { option_copied result ≡ notification_text protocol id }
{
    match (protocol, id) {
        (POWER_PROTOCOL, 0x0) => Some(POWER_STATE_CHANGED),
        _ => None,
    }
}
