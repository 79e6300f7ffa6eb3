//! The fields of commands.
ghost use Rattle.std.specs.Prelude.{◌≡◌};
ghost use Rattle.scmi_decode.specs.Commands.{command_fields};

use crate::field::{Fields, fields_of};
use crate::field_parts::{fields_by, row_of};
use scmi_codec::Command;

/// The fields of a command, in the order of its payload words.
pub fn command_fields(command: &Command) -> Fields
    ensures { result.items ≡ command_fields command.now }
{
    // The token is in none of the fields.
    let message = command.pack(0);
    let header = message.header;
    match row_of(header.protocol(), header.id()) {
        Some(row) => fields_by(row.asks, message.payload.as_slice()),
        None => fields_of(&[]),
    }
}
